// What the eager machine keeps.
use std::alloc::Global;
use vm_ids::{CacheId, RegionId, SegId};

// Pages of a cache, mapped at an address.
#[derive(Clone, Copy, Debug, PartialEq, Eq)]
pub(crate) struct Region {
    pub number: RegionId,
    pub start: u64,
    pub pages: u32,
    pub may_write: bool,
    pub cache: CacheId,
    pub offset: u32,
    pub locked: bool,
}

// A cache: temporary, or named by a segment.
#[derive(Drop)]
pub(crate) struct Cache {
    pub segment: Option<SegId>,
    pub pages: Vec<Vec<u8>>,
}

// Regions in order of start address.
#[derive(Drop)]
pub(crate) struct Actor {
    pub regions: Vec<Region>,
}

// Caches and actors stand at their number less 1. `living` and `live` count living actors and live
// pages.
#[derive(Drop)]
pub(crate) struct Tables {
    pub alloc: Global,
    pub page_bytes: usize,
    pub frames: u32,
    pub caches: Vec<Option<Cache>>,
    pub actors: Vec<Option<Actor>>,
    pub regions_made: u32,
    pub living: u32,
    pub live: u32,
}
