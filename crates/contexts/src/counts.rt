// How many regions map each cache.
ghost use Rattle.std.specs.Prelude.{◌≡◌, ℕ, ◌+◌, ◌<◌, ◌≤◌, ◌^◌, length, nat_lt, Some, OnErr, OnOk};
ghost use Rattle.contexts.specs.Counting.{count_of, one_for, times_in};

use regions::RegionMap;
use std::alloc::Global;
use std::marker::Model;
use vm_ids::{CacheId, NoMemory};

// Of each number of a cache how many regions map it, and none of those behind the last place.
#[derive(Drop)]
pub(crate) struct RegionCounts {
    counts: Vec<u32>,
}

impl Model for RegionCounts {
    ghost use Rattle.std.specs.Prelude.{ℕ, List};

    ghost Value = { List ℕ };

    ghost view = { λ c. c.counts.items };
}

impl RegionCounts {
    // No region maps a cache.
    pub(crate) fn new(alloc: Global) -> RegionCounts
        ensures { (n : ℕ) → count_of result n ≡ 0 }
    {
        RegionCounts {
            counts: Vec::new(alloc),
        }
    }

    // Makes a place for a cache. What is counted stays, also after an error.
    pub(crate) fn make_place(&mut self, cache: CacheId) -> Result<(), NoMemory>
        ensures place { OnOk result (cache.0 < length self.new) }
        ensures same { (n : ℕ) → count_of self.new n ≡ count_of self.old n }
    {
        let place = cache.0 as usize;
        if self.counts.len() <= place {
            self.counts.resize(place + 1, 0)?;
        }
        Ok(())
    }

    // One region more maps a cache that has a place.
    pub(crate) fn add(&mut self, cache: CacheId)
        requires place { cache.0 < length self.old }
        requires few { count_of self.old cache.0 + 1 < 2 ^ 32 }
        ensures { (n : ℕ) → count_of self.new n ≡ count_of self.old n + one_for cache.0 n }
    {
        self.counts[cache.0 as usize] += 1;
    }

    // One region less maps a cache.
    pub(crate) fn take(&mut self, cache: CacheId)
        requires { 1 ≤ count_of self.old cache.0 }
        ensures { (n : ℕ) → count_of self.old n ≡ count_of self.new n + one_for cache.0 n }
    {
        self.counts[cache.0 as usize] -= 1;
    }

    // Whether a region maps the cache.
    pub(crate) fn has(&self, cache: CacheId) -> bool
        ensures { result ≡ nat_lt 0 (count_of self.now cache.0) }
    {
        match self.counts.get(cache.0 as usize) {
            Some(count) => *count != 0,
            None => false,
        }
    }
}

// The regions of an actor are counted no more.
pub(crate) fn forget_all(counts: &mut RegionCounts, regions: &RegionMap)
    requires { (n : ℕ) → times_in n (Some regions.now.regions) ≤ count_of counts.old n }
    ensures { (n : ℕ) → count_of counts.old n
        ≡ count_of counts.new n + times_in n (Some regions.now.regions) }
{
    for place in 0..regions.count() {
        let view = regions.nth(place).unwrap();
        counts.take(view.mapping.extent.cache);
    }
}
