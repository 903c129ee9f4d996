// The address spaces of actors, of which a dead one has none.
ghost use Rattle.std.specs.Prelude.{◌≡◌, ℕ, ◌+◌, ◌*◌, ◌<◌, ◌≤◌, false, Some, IfOk, IsSome, IsSomeAnd, OnErr, OnOk};
ghost use Rattle.std.specs.List.{list_any};
ghost use Rattle.vm_model.specs.Answering.{insert_region, overlaps, region_of, without_region};
ghost use Rattle.vm_model.specs.Machine.{numbered};
ghost use Rattle.vm_model.specs.Regions.{region_among, replace_region, split_at, with_lock, with_prot};
ghost use Rattle.regions.specs.AddressSpace.{AddressSpace, IsWellFormed, StartsAt};
ghost use Rattle.contexts.specs.Counting.{count_of, times_in};
ghost use Rattle.contexts.specs.Layout.{IsChanged};

use crate::counts::{RegionCounts, forget_all};
use regions::RegionMap;
use vm_ids::{ActorId, Mapping, NoMemory, Prot, RegionId};
use vm_model::numbered;

// Adds a region to an actor.
pub(crate) fn add_region(
    spaces: &mut [Option<RegionMap>],
    actor: ActorId,
    region: RegionId,
    mapping: Mapping,
) -> Result<(), NoMemory>
    requires alive { IsSome (numbered spaces.old actor.0) }
    requires formed { (s : AddressSpace) → numbered spaces.old actor.0 ≡ Some s
        → IsWellFormed s.page_bytes (region_of region.0 mapping) }
    requires fits { (s : AddressSpace) → numbered spaces.old actor.0 ≡ Some s
        → list_any (overlaps s.page_bytes mapping.address mapping.extent.pages) s.regions ≡ false }
    ensures ok { OnOk result (IsChanged actor.0 (insert_region (region_of region.0 mapping))
        spaces.old spaces.new) }
    ensures err { OnErr result (IsChanged actor.0 (λ rs. rs) spaces.old spaces.new) }
{
    match &mut spaces[actor.0 as usize - 1] {
        Some(regions) => {
            regions.reserve()?;
            regions.create(region, mapping);
            Ok(())
        }
        None => unreachable!(),
    }
}

// Cuts a region of an actor in two. The second one starts at the address that is answered.
pub(crate) fn split_region(
    spaces: &mut [Option<RegionMap>],
    actor: ActorId,
    region: RegionId,
    start: u64,
    pages: u32,
    fresh: RegionId,
) -> Result<u64, NoMemory>
    requires alive { IsSome (numbered spaces.old actor.0) }
    requires start { (s : AddressSpace) → numbered spaces.old actor.0 ≡ Some s
        → StartsAt region.0 start s.regions }
    requires some { 1 ≤ pages }
    requires fewer { (s : AddressSpace) → numbered spaces.old actor.0 ≡ Some s
        → IsSomeAnd (region_among region.0 s.regions) (λ r. pages < r.pages) }
    ensures address { (s : AddressSpace) → numbered spaces.old actor.0 ≡ Some s
        → IfOk result (λ address. IsSomeAnd (region_among region.0 s.regions)
        (λ r. address ≡ r.start + s.page_bytes * pages)) }
    ensures ok { (s : AddressSpace) → numbered spaces.old actor.0 ≡ Some s → OnOk result
        (IsChanged actor.0 (replace_region region.0 (split_at s.page_bytes pages fresh.0))
        spaces.old spaces.new) }
    ensures err { OnErr result (IsChanged actor.0 (λ rs. rs) spaces.old spaces.new) }
{
    match &mut spaces[actor.0 as usize - 1] {
        Some(regions) => {
            regions.reserve()?;
            Ok(regions.split(region, start, pages, fresh))
        }
        None => unreachable!(),
    }
}

// Changes what a region of an actor allows.
pub(crate) fn protect_region(
    spaces: &mut [Option<RegionMap>],
    actor: ActorId,
    region: RegionId,
    start: u64,
    prot: Prot,
)
    requires alive { IsSome (numbered spaces.old actor.0) }
    requires start { (s : AddressSpace) → numbered spaces.old actor.0 ≡ Some s
        → StartsAt region.0 start s.regions }
    requires there { (s : AddressSpace) → numbered spaces.old actor.0 ≡ Some s
        → IsSome (region_among region.0 s.regions) }
    ensures { IsChanged actor.0 (replace_region region.0 (with_prot prot)) spaces.old spaces.new }
{
    match &mut spaces[actor.0 as usize - 1] {
        Some(regions) => regions.protect(region, start, prot),
        None => unreachable!(),
    }
}

// Locks or unlocks a region of an actor.
pub(crate) fn lock_region(
    spaces: &mut [Option<RegionMap>],
    actor: ActorId,
    region: RegionId,
    start: u64,
    locked: bool,
)
    requires alive { IsSome (numbered spaces.old actor.0) }
    requires start { (s : AddressSpace) → numbered spaces.old actor.0 ≡ Some s
        → StartsAt region.0 start s.regions }
    requires there { (s : AddressSpace) → numbered spaces.old actor.0 ≡ Some s
        → IsSome (region_among region.0 s.regions) }
    ensures { IsChanged actor.0 (replace_region region.0 (with_lock locked)) spaces.old spaces.new }
{
    match &mut spaces[actor.0 as usize - 1] {
        Some(regions) => regions.set_locked(region, start, locked),
        None => unreachable!(),
    }
}

// Takes a region away from an actor.
pub(crate) fn remove_region(
    spaces: &mut [Option<RegionMap>],
    actor: ActorId,
    region: RegionId,
    start: u64,
)
    requires alive { IsSome (numbered spaces.old actor.0) }
    requires start { (s : AddressSpace) → numbered spaces.old actor.0 ≡ Some s
        → StartsAt region.0 start s.regions }
    ensures { IsChanged actor.0 (without_region region.0) spaces.old spaces.new }
{
    match &mut spaces[actor.0 as usize - 1] {
        Some(regions) => regions.destroy(region, start),
        None => unreachable!(),
    }
}

// The regions of a living actor are counted no more.
pub(crate) fn forget_regions(
    counts: &mut RegionCounts,
    spaces: &[Option<RegionMap>],
    actor: ActorId,
)
    requires alive { IsSome (numbered spaces.now actor.0) }
    requires counted { (n : ℕ) (s : AddressSpace) → numbered spaces.now actor.0 ≡ Some s
        → times_in n (Some s.regions) ≤ count_of counts.old n }
    ensures { (n : ℕ) (s : AddressSpace) → numbered spaces.now actor.0 ≡ Some s
        → count_of counts.old n ≡ count_of counts.new n + times_in n (Some s.regions) }
{
    match numbered(spaces, actor.0) {
        Some(regions) => forget_all(counts, regions),
        None => unreachable!(),
    }
}
