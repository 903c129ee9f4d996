// Searches among regions in order of start address.
ghost use Rattle.std.specs.Prelude.{◌≡◌, ◌≢◌, ℕ, ◌+◌, ◌<◌, ◌≤◌, ◌^◌, false, map, length, slice_index_or, MatchOption, option_map, IfSome, IsSome};
ghost use Rattle.std.specs.List.{list_any};
ghost use Rattle.stretches.specs.Leaves.{entries};
ghost use Rattle.stretches.specs.Spots.{index, IsHeld, IsSpot};
ghost use Rattle.vm_model.specs.Answering.{overlaps};
ghost use Rattle.vm_model.specs.Regions.{region_among};
ghost use Rattle.vm_model.specs.Place.{region_at};
ghost use Rattle.regions.specs.AddressSpace.{AreInOrder, IsWellFormed, StartsAt, end_of};
ghost use Rattle.regions.specs.Seen.{region_seen, IsPlaceOf};

use crate::region::Region;
use stretches::{Directory, Spot};
use vm_ids::RegionId;

// The region that holds the address: the one that was found last, or else one that a search finds.
#[inline(always)]
pub(crate) fn region_holding(
    regions: &Directory<Region>,
    page_bytes: u64,
    address: u64,
) -> Option<&Region>
    requires { AreInOrder page_bytes 0 (map region_seen (entries regions.now)) }
    ensures found { option_map (λ r. region_seen r.now) result
        ≡ region_at page_bytes address (map region_seen (entries regions.now)) }
    ensures formed { IfSome result (λ r. IsWellFormed page_bytes (region_seen r.now)) }
    ensures from { IfSome result (λ r. (region_seen r.now).start ≤ address) }
    ensures below { IfSome result (λ r. address < end_of page_bytes (region_seen r.now)) }
{
    if let Some(spot) = regions.last() {
        let region = regions.at(spot);
        if region.address <= address && address < region.end(page_bytes) {
            return Some(region);
        }
    }
    let behind = regions.spot_behind(address);
    let spot = regions.held_before(behind)?;
    let region = regions.at(spot);
    if address < region.end(page_bytes) {
        regions.pass(spot);
        Some(region)
    } else {
        None
    }
}

// Whether a region shares an address with so many pages at this one. Of those that start at it or
// before, only the last can, and of those behind, the first does where any does.
pub(crate) fn overlaps_any(
    regions: &Directory<Region>,
    page_bytes: u64,
    address: u64,
    pages: u32,
) -> bool
    requires page { page_bytes ≤ 2 ^ 16 }
    requires order { AreInOrder page_bytes 0 (map region_seen (entries regions.now)) }
    ensures { result ≡ list_any (overlaps page_bytes address pages)
        (map region_seen (entries regions.now)) }
{
    let behind = regions.spot_behind(address);
    last_overlaps(regions, behind, page_bytes, address, pages)
        || next_overlaps(regions, behind, page_bytes, address, pages)
}

// Whether the region before a spot shares an address with so many pages at this one.
fn last_overlaps(
    regions: &Directory<Region>,
    behind: Spot,
    page_bytes: u64,
    address: u64,
    pages: u32,
) -> bool
    requires page { page_bytes ≤ 2 ^ 16 }
    requires order { AreInOrder page_bytes 0 (map region_seen (entries regions.now)) }
    requires spot { IsSpot regions.now behind }
    ensures none { index regions.now behind ≡ 0 → result ≡ false }
    ensures last { (k : ℕ) (d : Region) → k + 1 ≡ index regions.now behind → result
        ≡ overlaps page_bytes address pages
        (region_seen (slice_index_or (entries regions.now) k d)) }
{
    match regions.held_before(behind) {
        Some(last) => regions.at(last).overlaps(page_bytes, address, pages),
        None => false,
    }
}

// Whether the region at a spot or behind it shares an address with so many pages at this one.
fn next_overlaps(
    regions: &Directory<Region>,
    behind: Spot,
    page_bytes: u64,
    address: u64,
    pages: u32,
) -> bool
    requires page { page_bytes ≤ 2 ^ 16 }
    requires order { AreInOrder page_bytes 0 (map region_seen (entries regions.now)) }
    requires spot { IsSpot regions.now behind }
    ensures none { index regions.now behind ≡ length (entries regions.now) → result ≡ false }
    ensures next { (d : Region) → index regions.now behind < length (entries regions.now) → result
        ≡ overlaps page_bytes address pages
        (region_seen (slice_index_or (entries regions.now) (index regions.now behind) d)) }
{
    match regions.held_from(behind) {
        Some(next) => regions.at(next).overlaps(page_bytes, address, pages),
        None => false,
    }
}

// The spot of the region with the number, which starts at this address where it is there.
pub(crate) fn spot_of(
    regions: &Directory<Region>,
    page_bytes: u64,
    number: RegionId,
    start: u64,
) -> Option<Spot>
    requires some { 1 ≤ page_bytes }
    requires order { AreInOrder page_bytes 0 (map region_seen (entries regions.now)) }
    requires start { StartsAt number.0 start (map region_seen (entries regions.now)) }
    ensures place { MatchOption result
        ((k : ℕ) (d : Region) → k < length (entries regions.now)
        → (slice_index_or (entries regions.now) k d).number.0 ≢ number.0)
        (λ spot. IsPlaceOf number.0 (entries regions.now) (index regions.now spot)) }
    ensures held { IfSome result (IsHeld regions.now) }
{
    let behind = regions.spot_behind(start);
    let last = regions.held_before(behind)?;
    if regions.at(last).number.0 == number.0 {
        Some(last)
    } else {
        None
    }
}

// The spot of the region with a number that a region has.
pub(crate) fn known_spot(
    regions: &Directory<Region>,
    page_bytes: u64,
    number: RegionId,
    start: u64,
) -> Spot
    requires some { 1 ≤ page_bytes }
    requires order { AreInOrder page_bytes 0 (map region_seen (entries regions.now)) }
    requires start { StartsAt number.0 start (map region_seen (entries regions.now)) }
    requires there { IsSome (region_among number.0 (map region_seen (entries regions.now))) }
    ensures place { IsPlaceOf number.0 (entries regions.now) (index regions.now result) }
    ensures held { IsHeld regions.now result }
{
    spot_of(regions, page_bytes, number, start).unwrap()
}
