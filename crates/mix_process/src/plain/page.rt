// Pages of bytes.
ghost use Rattle.std.specs.Prelude.{◌≡◌, ◌+◌, ◌≤◌, ◌<◌, ◌++◌, [], All, drop, length, map, replicate, slice_get, slice_set, take, unwrap_or, IfOk, OnOk};
ghost use Rattle.vm_ids.specs.declared.numbers.TheConstants.{PAGE};
ghost use Rattle.vm_model.specs.Answering.{overwrite};
ghost use Rattle.vm_model.specs.Machine.{Page, zero_page};

use std::alloc::Global;
use std::marker::Model;
use vm_ids::{NoMemory, PAGE, Piece};

// A page of 4,096 bytes.
#[derive(Drop)]
pub(crate) struct PlainPage {
    bytes: Vec<u8>,
}

impl Model for PlainPage {
    ghost Value = { Page };

    ghost view = { λ p. p.bytes.items };

    ghost invariant = { λ p. length p.bytes.items ≡ PAGE };
}

impl PlainPage {
    // A page of these bytes.
    pub(crate) fn of(alloc: Global, bytes: &[u8]) -> Result<PlainPage, NoMemory>
        requires { length bytes.now ≡ PAGE }
        ensures { IfOk result (λ p. p ≡ bytes.now) }
    {
        Ok(PlainPage {
            bytes: Vec::from_slice(alloc, bytes)?,
        })
    }

    // A page of zeros.
    pub(crate) fn of_zeros(alloc: Global) -> Result<PlainPage, NoMemory>
        ensures { IfOk result (λ p. p ≡ zero_page PAGE) }
    {
        let bytes = zeros(alloc, PAGE)?;
        PlainPage::of(alloc, &bytes)
    }

    // A page of the same bytes.
    pub(crate) fn copied(&self, alloc: Global) -> Result<PlainPage, NoMemory>
        ensures { IfOk result (λ p. p ≡ self.now) }
    {
        PlainPage::of(alloc, &self.bytes)
    }

    // So many of its bytes, 1 to 64, from this one on.
    pub(crate) fn bytes_at(&self, at: usize, bytes: u8) -> Piece
        requires some { 1 ≤ bytes }
        requires few { bytes ≤ 64 }
        requires within { at + bytes ≤ PAGE }
        ensures { result ≡ take bytes (drop at self.now) }
    {
        match Piece::new(&self.bytes[at..at + bytes as usize]) {
            Some(piece) => piece,
            None => unreachable!(),
        }
    }

    // These bytes stand in it from this one on.
    pub(crate) fn write(&mut self, at: usize, bytes: &[u8])
        requires { at + length bytes.now ≤ PAGE }
        ensures { self.new ≡ overwrite at bytes.now self.old }
    {
        self.bytes[at..at + bytes.len()].copy_from_slice(bytes);
    }
}

// So many zeros.
fn zeros(alloc: Global, bytes: usize) -> Result<Vec<u8>, NoMemory>
    ensures { IfOk result (λ v. v.items ≡ zero_page bytes) }
{
    let mut all = Vec::with_capacity(alloc, bytes)?;
    all.resize(bytes, 0)?;
    Ok(all)
}

// So many bytes, 1 to 64, of one of these pages, from this byte on.
pub(crate) fn bytes_in(pages: &[PlainPage], page: usize, at: usize, bytes: u8) -> Piece
    requires some { 1 ≤ bytes }
    requires few { bytes ≤ 64 }
    requires there { page < length pages.now }
    requires within { at + bytes ≤ PAGE }
    ensures { result ≡ take bytes (drop at (unwrap_or (slice_get pages.now page) [])) }
{
    pages[page].bytes_at(at, bytes)
}

// These bytes stand in one of these pages from this byte on.
pub(crate) fn write_in(pages: &mut [PlainPage], page: usize, at: usize, bytes: &[u8])
    requires there { page < length pages.old }
    requires within { at + length bytes.now ≤ PAGE }
    ensures { pages.new ≡ slice_set pages.old page
        (overwrite at bytes.now (unwrap_or (slice_get pages.old page) [])) }
{
    pages[page].write(at, bytes);
}

// Copies of pages.
pub(crate) fn copies(alloc: Global, pages: &[PlainPage]) -> Result<Vec<PlainPage>, NoMemory>
    ensures { IfOk result (λ v. v.items ≡ pages.now) }
{
    let mut all = Vec::with_capacity(alloc, pages.len())?;
    for page in pages {
        all.push(page.copied(alloc)?)?;
    }
    Ok(all)
}

// Pages of these bytes.
pub(crate) fn pages_from(alloc: Global, pages: &[Vec<u8>]) -> Result<Vec<PlainPage>, NoMemory>
    requires { All (λ p. length p.items ≡ PAGE) pages.now }
    ensures { IfOk result (λ v. v.items ≡ map (λ p. p.items) pages.now) }
{
    let mut all = Vec::with_capacity(alloc, pages.len())?;
    for page in pages {
        all.push(PlainPage::of(alloc, page)?)?;
    }
    Ok(all)
}

// So many pages of zeros behind these. After an error some are there.
pub(crate) fn add_zeros(
    alloc: Global,
    pages: &mut Vec<PlainPage>,
    count: u32,
) -> Result<(), NoMemory>
    ensures { OnOk result
        (pages.new.items ≡ pages.old.items ++ replicate count (zero_page PAGE)) }
{
    for _page in 0..count {
        pages.push(PlainPage::of_zeros(alloc)?)?;
    }
    Ok(())
}
