// A region, and what is told of it.
ghost use Rattle.std.specs.Prelude.{◌≡◌, ◌+◌, ◌-◌, ◌*◌, ◌≤◌, ◌<◌, ◌^◌, nat_lt};
ghost use Rattle.vm_model.specs.Answering.{overlaps, region_of};
ghost use Rattle.vm_model.specs.Place.{holds};
ghost use Rattle.vm_model.specs.Regions.{back_of};
ghost use Rattle.regions.specs.Seen.{region_seen};
ghost use Rattle.regions.specs.AddressSpace.{access_of, end_of, view_of, IsWellFormed};

use stretches::Keyed;
use vm_ids::{CacheId, Extent, Mapping, PageNo, Prot, RegionId};

/// What there is to tell of a region.
#[derive(Clone, Copy, Debug, PartialEq, Eq)]
pub struct RegionView {
    /// The pages of the cache, the address of the first of them, and what is allowed.
    pub mapping: Mapping,
    /// Whether its pages are held against eviction.
    pub locked: bool,
}

/// A byte of a page of a cache, as an access at an address finds it.
#[derive(Clone, Copy, Debug, PartialEq, Eq)]
pub struct Place {
    pub cache: CacheId,
    pub page: PageNo,
    /// The first byte of the access, counted from the start of the page.
    pub at: u16,
    /// What the region allows.
    pub prot: Prot,
}

/// A region under its number. It has its fields side by side, so that it takes 32 bytes: those of a
/// leaf move where one comes or goes.
#[derive(Clone, Copy, Debug, PartialEq, Eq)]
pub struct Region {
    pub address: u64,
    pub number: RegionId,
    pub cache: CacheId,
    pub first: PageNo,
    pub pages: u32,
    pub prot: Prot,
    pub locked: bool,
}

impl Keyed for Region {
    ghost key = { λ r. r.address };

    fn key(&self) -> u64 {
        self.address
    }
}

impl Region {
    // A new one, unlocked.
    pub(crate) fn new(number: RegionId, mapping: Mapping) -> Region
        ensures { region_seen result ≡ region_of number.0 mapping }
    {
        Region {
            address: mapping.address,
            number,
            cache: mapping.extent.cache,
            first: mapping.extent.first,
            pages: mapping.extent.pages,
            prot: mapping.prot,
            locked: false,
        }
    }

    // What there is to tell of it.
    pub(crate) fn view(&self) -> RegionView
        ensures { result ≡ view_of (region_seen self.now) }
    {
        RegionView {
            mapping: Mapping {
                extent: Extent {
                    cache: self.cache,
                    first: self.first,
                    pages: self.pages,
                },
                address: self.address,
                prot: self.prot,
            },
            locked: self.locked,
        }
    }

    // The address of its first byte.
    pub(crate) fn start(&self) -> u64
        ensures { result ≡ (region_seen self.now).start }
    {
        self.address
    }

    // The address behind its last byte.
    pub(crate) fn end(&self, page_bytes: u64) -> u64
        requires { IsWellFormed page_bytes (region_seen self.now) }
        ensures { result ≡ end_of page_bytes (region_seen self.now) }
    {
        self.address + page_bytes * self.pages as u64
    }

    // Whether it shares an address with so many bytes at this one.
    pub(crate) fn overlaps(&self, page_bytes: u64, address: u64, pages: u32) -> bool
        requires page { page_bytes ≤ 2 ^ 16 }
        requires formed { IsWellFormed page_bytes (region_seen self.now) }
        ensures { result ≡ overlaps page_bytes address pages (region_seen self.now) }
    {
        let start = self.start();
        address < self.end(page_bytes)
            && (start < address || start - address < page_bytes * pages as u64)
    }

    // Its pages behind the first so many, as a region with another number.
    pub(crate) fn back(&self, page_bytes: u64, pages: u32, number: RegionId) -> Region
        requires page { page_bytes ≤ 2 ^ 16 }
        requires formed { IsWellFormed page_bytes (region_seen self.now) }
        requires fewer { pages < self.now.pages }
        ensures { region_seen result ≡ back_of page_bytes pages number.0 (region_seen self.now) }
    {
        Region {
            address: self.address + page_bytes * pages as u64,
            number,
            first: PageNo(self.first.0 + pages),
            pages: self.pages - pages,
            ..*self
        }
    }

    // The place of an access at an address that it holds.
    pub(crate) fn place(&self, page_bytes: u64, address: u64) -> Place
        requires some { 1 ≤ page_bytes }
        requires page { page_bytes ≤ 2 ^ 16 }
        requires formed { IsWellFormed page_bytes (region_seen self.now) }
        requires from { (region_seen self.now).start ≤ address }
        requires below { address < end_of page_bytes (region_seen self.now) }
        ensures { result ≡ access_of page_bytes address (region_seen self.now) }
    {
        let ahead = (address - self.address) / page_bytes;
        Place {
            cache: self.cache,
            page: PageNo((self.first.0 as u64 + ahead) as u32),
            at: (address % page_bytes) as u16,
            prot: self.prot,
        }
    }
}
