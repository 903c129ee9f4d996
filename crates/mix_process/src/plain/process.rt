// A process by the bytes of its pages.
ghost use Rattle.std.specs.Prelude.{◌≡◌, ◌+◌, ◌≤◌, ◌<◌, [], drop, length, nat_lt, take, unwrap_or, slice_get, slice_set, Some, IfOk};
ghost use Rattle.vm_ids.specs.declared.numbers.TheConstants.{PAGE};
ghost use Rattle.vm_model.specs.Answering.{overwrite};
ghost use Rattle.mix_process.specs.Answering.{grown_by, process_from};
ghost use Rattle.mix_process.specs.Plain.{spot_seen};
ghost use Rattle.mix_process.specs.declared.area.TheConstants.{MOST_DATA};
ghost use Rattle.mix_process.specs.ProcessMachine.{Process, area_at, holds, pages_of, place_of, with_pages};

use super::page::{PlainPage, add_zeros, bytes_in, copies, write_in};
use crate::Area;
use crate::area::MOST_DATA;
use crate::process::start_of;
use std::alloc::Global;
use std::marker::Model;
use vm_ids::{NoMemory, PAGE, Piece, Refusal};

// A byte of a page of an area.
#[derive(Clone, Copy)]
pub(crate) struct Spot {
    pub(crate) area: Area,
    pub(crate) page: u64,
    pub(crate) byte: u64,
}

// A process by the bytes of its pages, and how many pages each piece of its data has.
#[derive(Drop)]
pub(crate) struct PlainProcess {
    text_pages: Vec<PlainPage>,
    data_pages: Vec<PlainPage>,
    stack_pages: Vec<PlainPage>,
    pieces: Vec<u32>,
}

impl Model for PlainProcess {
    ghost Value = { Process };

    ghost view = { λ p. record {
      text_pages = p.text_pages.items;
      data_pages = p.data_pages.items;
      stack_pages = p.stack_pages.items;
      pieces = p.pieces.items;
    } };

    ghost invariant = { λ _. Unit {0} };
}

impl PlainProcess {
    // A process of an image, which has pages enough.
    pub(crate) fn of_image(
        alloc: Global,
        image: &[PlainPage],
        text_pages: u32,
        data_pages: u32,
        stack_pages: u32,
    ) -> Result<PlainProcess, NoMemory>
        requires { text_pages + data_pages ≤ length image.now }
        ensures { IfOk result
            (λ p. p ≡ process_from PAGE image.now text_pages data_pages stack_pages) }
    {
        let behind = &image[text_pages as usize..];
        let text = copies(alloc, &image[..text_pages as usize])?;
        let own = copies(alloc, &behind[..data_pages as usize])?;
        let mut zeros = Vec::new(alloc);
        add_zeros(alloc, &mut zeros, stack_pages)?;
        let mut pieces = Vec::new(alloc);
        pieces.push(data_pages)?;
        Ok(PlainProcess {
            text_pages: text,
            data_pages: own,
            stack_pages: zeros,
            pieces,
        })
    }

    // A process that has the same.
    pub(crate) fn copied(&self, alloc: Global) -> Result<PlainProcess, NoMemory>
        ensures { IfOk result (λ p. p ≡ self.now) }
    {
        Ok(PlainProcess {
            text_pages: copies(alloc, &self.text_pages)?,
            data_pages: copies(alloc, &self.data_pages)?,
            stack_pages: copies(alloc, &self.stack_pages)?,
            pieces: Vec::from_slice(alloc, &self.pieces)?,
        })
    }

    // Whether its data would be longer than they may be, with so many pages more.
    pub(crate) fn is_too_long(&self, pages: u32) -> bool
        ensures { result ≡ nat_lt MOST_DATA (length self.now.data_pages + pages) }
    {
        self.data_pages.len() as u64 + pages as u64 > MOST_DATA as u64
    }

    // A process that has the same, and so many pages of zeros behind its data.
    pub(crate) fn grown(&self, alloc: Global, pages: u32) -> Result<PlainProcess, NoMemory>
        ensures { IfOk result (λ p. p ≡ grown_by PAGE pages self.now) }
    {
        let mut more = copies(alloc, &self.data_pages)?;
        add_zeros(alloc, &mut more, pages)?;
        let mut pieces = Vec::from_slice(alloc, &self.pieces)?;
        pieces.push(pages)?;
        Ok(PlainProcess {
            text_pages: copies(alloc, &self.text_pages)?,
            data_pages: more,
            stack_pages: copies(alloc, &self.stack_pages)?,
            pieces,
        })
    }

    // The pages of an area.
    fn pages(&self, area: Area) -> &[PlainPage]
        ensures { result.now ≡ pages_of self.now area }
    {
        match area {
            Area::Text => &self.text_pages,
            Area::Data => &self.data_pages,
            Area::Stack => &self.stack_pages,
        }
    }

    // Whether a page of the area holds the address.
    fn holds(&self, address: u64, area: Area) -> bool
        ensures { result ≡ holds PAGE self.now address area }
    {
        let start = start_of(area);
        start <= address && (address - start) / (PAGE as u64) < self.pages(area).len() as u64
    }

    // The area that holds an address.
    fn area_at(&self, address: u64) -> Option<Area>
        ensures { result ≡ area_at PAGE self.now address }
    {
        if self.holds(address, Area::Text) {
            return Some(Area::Text);
        }
        if self.holds(address, Area::Data) {
            return Some(Area::Data);
        }
        if self.holds(address, Area::Stack) {
            return Some(Area::Stack);
        }
        None
    }

    // The place of an access of so many bytes.
    pub(crate) fn spot(&self, address: u64, bytes: u8) -> Result<Spot, Refusal>
        ensures spot { place_of PAGE (Some self.now) address bytes ≡ spot_seen self.now result }
        ensures there { IfOk result (λ s. s.page < length (pages_of self.now s.area)) }
        ensures within { IfOk result (λ s. s.byte + bytes ≤ PAGE) }
    {
        let byte = address % (PAGE as u64);
        if byte + bytes as u64 > PAGE as u64 {
            return Err(Refusal::Crosses);
        }
        match self.area_at(address) {
            Some(area) => Ok(Spot {
                area,
                page: (address - start_of(area)) / (PAGE as u64),
                byte,
            }),
            None => Err(Refusal::BadAddress),
        }
    }

    // So many bytes, 1 to 64, from a place on.
    pub(crate) fn bytes_at(&self, at: Spot, bytes: u8) -> Piece
        requires some { 1 ≤ bytes }
        requires few { bytes ≤ 64 }
        requires there { at.page < length (pages_of self.now at.area) }
        requires within { at.byte + bytes ≤ PAGE }
        ensures { result ≡ take bytes (drop at.byte
            (unwrap_or (slice_get (pages_of self.now at.area) at.page) [])) }
    {
        bytes_in(
            self.pages(at.area),
            at.page as usize,
            at.byte as usize,
            bytes,
        )
    }

    // These bytes stand from a place on.
    pub(crate) fn write(&mut self, at: Spot, bytes: &[u8])
        requires there { at.page < length (pages_of self.old at.area) }
        requires within { at.byte + length bytes.now ≤ PAGE }
        ensures { self.new ≡ with_pages at.area
            (slice_set (pages_of self.old at.area) at.page (overwrite at.byte bytes.now
            (unwrap_or (slice_get (pages_of self.old at.area) at.page) []))) self.old }
    {
        let (page, byte) = (at.page as usize, at.byte as usize);
        match at.area {
            Area::Text => write_in(&mut self.text_pages, page, byte, bytes),
            Area::Data => write_in(&mut self.data_pages, page, byte, bytes),
            Area::Stack => write_in(&mut self.stack_pages, page, byte, bytes),
        }
    }
}
