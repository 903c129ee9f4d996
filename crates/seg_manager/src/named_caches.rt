// The caches that segments name.
ghost use Rattle.std.specs.Prelude.{◌≡◌, ◌≤◌, ◌<◌, ◌+◌, ◌++◌, ◌∷◌, ◌^◌, [], Some, filter, length, not, slice_get, slice_set, OnOk};
ghost use Rattle.seg_manager.specs.Inner.{StandsAt, first_of, first_with, named_with};
ghost use Rattle.seg_manager.specs.Names.{AreNamed};
ghost use Rattle.seg_manager.specs.declared.tables.Named.{Named};

use crate::tables::Named;
use std::alloc::{AllocError, Global};
use std::collections::HashMap;
use std::marker::Model;
use vm_ids::{CacheId, SegId};

// The caches that segments name, in the order of their numbers. No two are of one segment.
#[derive(Drop)]
pub(crate) struct NamedCaches {
    list: Vec<Named>,
    // The cache of each segment.
    by_segment: HashMap<u32, CacheId>,
}

impl Model for NamedCaches {
    ghost use Rattle.std.specs.Prelude.{◌-◌, min};
    ghost use Rattle.std.specs.Vec.{vec_capacity, vec_len};
    ghost use Rattle.std.specs.HashMap.{spare};
    ghost use Rattle.seg_manager.specs.Names.{AreIndexed, Names};

    ghost Value = { Names };

    ghost view = { λ n. record {
      items = n.list.items;
      spare = min (vec_capacity n.list - vec_len n.list) (spare n.by_segment);
    } };

    ghost invariant = { λ n. AreIndexed n.list.items n.by_segment.entries };
}

impl NamedCaches {
    // No cache, and no memory for one.
    pub(crate) fn new(alloc: Global) -> NamedCaches
        ensures { result.items ≡ [] }
    {
        NamedCaches {
            list: Vec::new(alloc),
            by_segment: HashMap::new(alloc),
        }
    }

    // How many there are.
    pub(crate) fn len(&self) -> usize
        ensures is { result ≡ length self.now.items }
        ensures few { result < 2 ^ 63 }
    {
        self.list.len()
    }

    // Makes room for one more.
    pub(crate) fn reserve_one(&mut self) -> Result<(), AllocError>
        ensures items { self.new.items ≡ self.old.items }
        ensures spare { OnOk result (1 ≤ self.new.spare) }
    {
        self.list.reserve(1)?;
        self.by_segment.reserve(1)
    }

    // Where the cache of a segment stands.
    pub(crate) fn place_of(&self, seg: SegId) -> Option<usize>
        ensures { StandsAt self.now.items (first_of seg.0) result }
    {
        match self.by_segment.get(&seg.0) {
            Some(cache) => place_with(&self.list, *cache),
            None => None,
        }
    }

    // The cache that stands at a place.
    pub(crate) fn at(&self, place: usize) -> Named
        requires { place < length self.now.items }
        ensures { slice_get self.now.items place ≡ Some result }
    {
        self.list[place]
    }

    // The cache with a number.
    pub(crate) fn named_with(&self, cache: CacheId) -> Option<Named>
        ensures { result ≡ named_with cache.0 self.now.items }
    {
        match place_with(&self.list, cache) {
            Some(place) => Some(self.list[place]),
            None => None,
        }
    }

    // So many openings of a segment weren't taken back, whose cache stands at a place.
    pub(crate) fn set_openings(&mut self, place: usize, openings: u64)
        requires { place < length self.old.items }
        ensures items { (named : Named) → slice_get self.old.items place ≡ Some named
            → self.new.items
            ≡ slice_set self.old.items place (record named { openings = openings }) }
        ensures spare { self.new.spare ≡ self.old.spare }
    {
        self.list[place].openings = openings;
    }

    // Another cache, behind all others, for which there is room.
    pub(crate) fn push(&mut self, named: Named)
        requires named { AreNamed (self.old.items ++ named ∷ []) }
        requires spare { 1 ≤ self.old.spare }
        ensures { self.new.items ≡ self.old.items ++ named ∷ [] }
    {
        self.list.push_reserved(named);
        match self.by_segment.insert(named.seg.0, named.cache) {
            Ok(_) => {}
            Err(_) => unreachable!(),
        }
    }

    // A cache is noted no longer.
    pub(crate) fn remove(&mut self, cache: CacheId)
        ensures items { self.new.items
            ≡ filter (λ c. not (first_with cache.0 c)) self.old.items }
        ensures spare { self.old.spare ≤ self.new.spare }
    {
        if let Some(place) = place_with(&self.list, cache) {
            let named = self.list.remove(place);
            let _ = self.by_segment.remove(&named.seg.0);
        }
    }
}

// Where a cache stands among caches in the order of their numbers.
fn place_with(caches: &[Named], cache: CacheId) -> Option<usize>
    requires { AreNamed caches.now }
    ensures { StandsAt caches.now (first_with cache.0) result }
{
    let mut first = 0;
    let mut end = caches.len();
    while first < end {
        let middle = first + (end - first) / 2;
        if caches[middle].cache.0 < cache.0 {
            first = middle + 1;
        } else {
            end = middle;
        }
    }
    if first == caches.len() {
        return None;
    }
    if caches[first].cache == cache {
        Some(first)
    } else {
        None
    }
}
