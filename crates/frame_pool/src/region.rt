// The bytes of all page frames, in one region.
ghost use Rattle.std.specs.Prelude.{◌≡◌, ◌≢◌, ◌*◌, ◌<◌, ◌≤◌, ◌^◌, length, replicate, vec_capacity, vec_len, IfOk};
ghost use Rattle.std.specs.Borrow.{sem};
ghost use Rattle.frame_pool.specs.RegionLending.{LendsInRegion};
ghost use Rattle.frame_pool.specs.Region.{page_of, pages_in, with_page};

use crate::part::{copy_part, part_mut};
use std::alloc::Global;
use std::marker::Model;
use vm_ids::NoMemory;

/// So many pages of bytes. Those behind the last one that was written are zeros, and have room
/// alone.
#[derive(Drop)]
pub(crate) struct Region {
    page: usize,
    count: usize,
    // How many pages are there.
    there: usize,
    // The bytes of these, one page behind the other, and room for those of all.
    bytes: Vec<u8>,
    // The bytes of a page that isn't there.
    zeros: Vec<u8>,
}

impl Model for Region {
    ghost use Rattle.frame_pool.specs.Region.{Pages, pages_seen, IsSound};

    ghost Value = { Pages };

    ghost view = { pages_seen };

    ghost invariant = { IsSound };
}

// Makes the pages up to this one be there, where so many are. How many are there then.
fn bring(bytes: &mut Vec<u8>, page: usize, count: usize, there: usize, at: usize) -> usize
    requires whole { vec_len bytes.old ≡ there * page }
    requires within { there ≤ count }
    requires below { at < count }
    requires room { count * page ≤ vec_capacity bytes.old }
    ensures more { there ≤ result }
    ensures at { at < result }
    ensures within { result ≤ count }
    ensures whole { vec_len bytes.new ≡ result * page }
    ensures room { vec_capacity bytes.old ≤ vec_capacity bytes.new }
    ensures same { pages_in page count result bytes.new.items
        ≡ pages_in page count there bytes.old.items }
{
    if at < there {
        return there;
    }
    let now = at + 1;
    match bytes.resize(now * page, 0) {
        Ok(()) => now,
        Err(_) => unreachable!(),
    }
}

impl Region {
    /// So many pages of zeros.
    pub(crate) fn new(alloc: Global, page: usize, count: usize) -> Result<Region, NoMemory>
        requires page { page ≤ 2 ^ 16 }
        requires count { count ≤ 2 ^ 16 }
        ensures { IfOk result (λ region.
            region ≡ record { page = page; bytes = replicate count (replicate page 0) }) }
    {
        Ok(Region {
            page,
            count,
            there: 0,
            bytes: Vec::with_capacity(alloc, count * page)?,
            zeros: vec![in alloc; 0u8; page]?,
        })
    }

    /// The bytes of a page.
    pub(crate) fn page(&self, at: usize) -> &[u8]
        requires { at < length self.now.bytes }
        ensures bytes { result.now ≡ page_of self.now at }
        ensures page { length result.now ≡ self.now.page }
    {
        if at < self.there {
            let start = at * self.page;
            &self.bytes[start..start + self.page]
        } else {
            self.zeros.as_slice()
        }
    }

    /// The bytes of a page, to be written.
    pub(crate) fn page_mut(&mut self, at: usize) -> &mut [u8]
        requires { at < length self.old.bytes }
        ensures* writes_back { sem 𝓛 (LendsInRegion self.entry at result) }
        ensures bytes { result.now ≡ page_of self.old at }
        ensures page { length result.now ≡ self.old.page }
    {
        self.there = bring(&mut self.bytes, self.page, self.count, self.there, at);
        let start = at * self.page;
        let end = start + self.page;
        part_mut(&mut self.bytes, start, end)
    }

    /// Makes the bytes of one page those of another.
    pub(crate) fn copy(&mut self, from: usize, to: usize)
        requires from { from < length self.old.bytes }
        requires to { to < length self.old.bytes }
        requires apart { from ≢ to }
        ensures { self.new ≡ with_page self.old to (page_of self.old from) }
    {
        let page = self.page;
        self.there = bring(&mut self.bytes, page, self.count, self.there, from);
        self.there = bring(&mut self.bytes, page, self.count, self.there, to);
        copy_part(&mut self.bytes, from * page, to * page, page);
    }
}
