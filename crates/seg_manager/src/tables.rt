// What is noted of the caches that segments name, and of all regions.
ghost use Rattle.std.specs.Prelude.{◌≡◌, ◌≤◌, length};
ghost use Rattle.std.specs.List.{list_any};
ghost use Rattle.seg_manager.specs.Inner.{StandsAt, leaves, place_from};
ghost use Rattle.seg_manager.specs.Seen.{maps};

use vm_ids::{ActorId, CacheId, RegionId, SegId};

// A cache that a segment names, and how many openings of the segment weren't taken back.
#[derive(Clone, Copy)]
pub(crate) struct Named {
    pub(crate) seg: SegId,
    pub(crate) cache: CacheId,
    pub(crate) openings: u64,
}

// A cache to which nothing refers, and the segment that names it.
#[derive(Clone, Copy)]
pub(crate) struct Kept {
    pub(crate) seg: SegId,
    pub(crate) cache: CacheId,
}

// A region, and what it maps.
#[derive(Clone, Copy)]
pub(crate) struct Mapped {
    pub(crate) actor: ActorId,
    pub(crate) region: RegionId,
    pub(crate) address: u64,
    pub(crate) cache: CacheId,
}

// Which regions go: all of an actor, or one.
#[derive(Clone, Copy)]
pub(crate) enum Leaving {
    Actor(ActorId),
    Region(RegionId),
}

// Whether a region maps a cache.
pub(crate) fn is_mapped(regions: &[Mapped], cache: CacheId) -> bool
    ensures { result ≡ list_any (maps cache.0) regions.now }
{
    for mapped in regions {
        if mapped.cache == cache {
            return true;
        }
    }
    false
}

// Whether a region goes.
pub(crate) fn leaves(leaving: Leaving, mapped: &Mapped) -> bool
    ensures { result ≡ leaves leaving mapped.now }
{
    match leaving {
        Leaving::Actor(actor) => mapped.actor == actor,
        Leaving::Region(region) => mapped.region == region,
    }
}

// The place of the first region that goes.
pub(crate) fn first_leaving(regions: &[Mapped], leaving: Leaving) -> Option<usize>
    ensures { StandsAt regions.now (leaves leaving) result }
{
    for (place, mapped) in regions.iter().enumerate() {
        if leaves(leaving, mapped) {
            return Some(place);
        }
    }
    None
}

// The place of a region among the others: the regions of each actor in order of address, and the
// actors in order of their numbers.
pub(crate) fn place_for(regions: &[Mapped], mapped: &Mapped) -> usize
    ensures within { result ≤ length regions.now }
    ensures place { result ≡ place_from mapped.now 0 regions.now }
{
    for (place, other) in regions.iter().enumerate() {
        if mapped.actor.0 < other.actor.0
            || (mapped.actor == other.actor && mapped.address < other.address)
        {
            return place;
        }
    }
    regions.len()
}
