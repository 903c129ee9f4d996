// Regions are mapped and taken away.
ghost use Rattle.std.specs.Prelude.{None, ◌==◌, not, filter, ◌≡◌, ℕ, ◌+◌, ◌-◌, ◌*◌, ◌^◌, ◌≤◌, ◌<◌, map, length, insert, nat_lt, All, OnOk, OnErr, IsSome, List, Option, option_map, slice_set};
ghost use Rattle.std.specs.List.{list_any};
ghost use Rattle.vm_model.specs.Answering.{answer_by, insert_region, overlaps, region_of, without_region};
ghost use Rattle.vm_model.specs.Machine.{numbered};
ghost use Rattle.vm_model.specs.Outcome.{PlainOutcome};
ghost use Rattle.vm_model.specs.Seen.{ArePlaced, IsPlaced, AreTablesSound, actor_seen, actors_seen, machine_seen, region_seen};

use crate::MOST_MADE;
use crate::located::locate;
use crate::place::{actor_at, cache_at, passes_end};
use crate::tables::{Actor, Cache, Region, Tables};
use vm_ids::{ADDRESS_END, ActorId, Command, Mapping, NoMemory, Refusal, RegionId, Reply, Trouble};

// Whether so many pages at this address pass the end of the addresses.
fn passes_addresses(page_bytes: u64, address: u64, pages: u32) -> bool
    requires { page_bytes ≤ 2 ^ 16 }
    ensures { result ≡ nat_lt (2 ^ 48) (address + page_bytes * pages) }
{
    address > ADDRESS_END || page_bytes * pages as u64 > ADDRESS_END - address
}

// Whether a region shares an address with so many pages at this one.
fn overlaps_any(regions: &[Region], page_bytes: u64, address: u64, pages: u32) -> bool
    requires bytes { page_bytes ≤ 2 ^ 16 }
    requires below { address + page_bytes * pages ≤ 2 ^ 48 }
    requires ends { All (λ r. r.start + page_bytes * r.pages ≤ 2 ^ 48) regions.now }
    ensures { result ≡ list_any (overlaps page_bytes address pages) (map region_seen regions.now) }
{
    let end = address + page_bytes * pages as u64;
    for region in regions {
        if address < region.start + page_bytes * region.pages as u64 && region.start < end {
            return true;
        }
    }
    false
}

// The place of a region among the others, in order of start address.
#[tactic(auto, using(crate::proofs::Machines::Regions::goes_on, crate::proofs::Machines::Regions::goes_here, crate::proofs::Machines::Regions::goes_last))]
fn place_for(regions: &[Region], region: &Region) -> usize
    ensures within { result ≤ length regions.now }
    ensures place { insert_region (region_seen region.now) (map region_seen regions.now)
        ≡ map region_seen (insert regions.now result region.now) }
{
    for (place, other) in regions.iter().enumerate() {
        if region.start < other.start {
            return place;
        }
    }
    regions.len()
}

fn region_for(number: u32, mapping: &Mapping) -> Region
    ensures region { region_seen result ≡ region_of number mapping.now }
    ensures parts { (result.start ≡ mapping.now.address) × (result.pages ≡ mapping.now.extent.pages)
        × (result.cache ≡ mapping.now.extent.cache) × (result.offset ≡ mapping.now.extent.first.0) }
{
    Region {
        number: RegionId(number),
        start: mapping.address,
        pages: mapping.extent.pages,
        may_write: mapping.prot.write,
        cache: mapping.extent.cache,
        offset: mapping.extent.first.0,
        locked: false,
    }
}

// A region is added in its place.
fn add_region(regions: &mut Vec<Region>, region: Region) -> Result<(), NoMemory>
    ensures seen { OnOk result
        (map region_seen regions.new.items
        ≡ insert_region (region_seen region) (map region_seen regions.old.items)) }
    ensures all { OnOk result
        ((at : ℕ) × (regions.new.items ≡ insert regions.old.items at region)) }
    ensures err { OnErr result (regions.new.items ≡ regions.old.items) }
{
    let at = place_for(regions, &region);
    regions.insert(at, region)?;
    Ok(())
}

// The same in the actor with a number.
fn place_region(actors: &mut Vec<Option<Actor>>, actor: u32, region: Region) -> Result<(), NoMemory>
    requires { IsSome (numbered actors.old.items actor) }
    ensures seen { OnOk result
        (actors_seen actors.new.items ≡ slice_set (actors_seen actors.old.items) (actor - 1)
        (option_map (λ a. insert_region (region_seen region) (actor_seen a))
        (numbered actors.old.items actor))) }
    ensures err { OnErr result (actors_seen actors.new.items ≡ actors_seen actors.old.items) }
    ensures placed { (b : ℕ) (cs : List (Option Cache)) → IsPlaced b cs region
        → All (ArePlaced b cs) actors.old.items → All (ArePlaced b cs) actors.new.items }
{
    match &mut actors[actor as usize - 1] {
        Some(found) => add_region(&mut found.regions, region),
        None => unreachable!(),
    }
}

// The region is made.
fn put_region(tables: &mut Tables, actor: u32, region: Region) -> Result<(), NoMemory>
    requires sound { AreTablesSound tables.old }
    requires there { IsSome (numbered tables.old.actors.items actor) }
    requires placed { IsPlaced tables.old.page_bytes tables.old.caches.items region }
    requires few { tables.old.regions_made < MOST_MADE }
    ensures sound { AreTablesSound tables.new }
    ensures ok { OnOk result (machine_seen tables.new ≡ record (machine_seen tables.old) {
      regions_made = tables.old.regions_made + 1;
      actors = slice_set (machine_seen tables.old).actors (actor - 1)
          (option_map (λ a. insert_region (region_seen region) (actor_seen a))
          (numbered tables.old.actors.items actor));
    }) }
    ensures err { OnErr result (machine_seen tables.new ≡ machine_seen tables.old) }
{
    place_region(&mut tables.actors, actor, region)?;
    tables.regions_made += 1;
    Ok(())
}

#[tactic(auto, unfolding(crate::specs::Answering::map_of, crate::specs::Answering::with_some, crate::specs::Answering::unless))]
pub(crate) fn map(
    tables: &mut Tables,
    actor: ActorId,
    mapping: &Mapping,
) -> Result<RegionId, Trouble>
    requires { AreTablesSound tables.old }
    ensures sound { AreTablesSound tables.new }
    ensures outcome { PlainOutcome (machine_seen tables.old) (Command.Map actor mapping.now)
        (answer_by Reply.Region result) (machine_seen tables.new) }
{
    let Some(found) = actor_at(&tables.actors, actor.0) else {
        return Err(Trouble::Refused(Refusal::NoActor));
    };
    let Some(cache) = cache_at(&tables.caches, mapping.extent.cache.0) else {
        return Err(Trouble::Refused(Refusal::NoCache));
    };
    let page_bytes = tables.page_bytes as u64;
    let pages = mapping.extent.pages;
    if mapping.address % page_bytes != 0 {
        return Err(Trouble::Refused(Refusal::Unaligned));
    }
    if passes_addresses(page_bytes, mapping.address, pages) {
        return Err(Trouble::Refused(Refusal::BadAddress));
    }
    if passes_end(cache, mapping.extent.first.0, pages) {
        return Err(Trouble::Refused(Refusal::OutOfCache));
    }
    if overlaps_any(&found.regions, page_bytes, mapping.address, pages) {
        return Err(Trouble::Refused(Refusal::Overlap));
    }
    if tables.regions_made >= MOST_MADE {
        return Err(Trouble::Refused(Refusal::TooMany));
    }
    let number = tables.regions_made + 1;
    put_region(tables, actor.0, region_for(number, mapping))?;
    Ok(RegionId(number))
}

// The regions but for the one with the number.
fn drop_from(regions: &mut Vec<Region>, number: RegionId)
    ensures { regions.new.items
        ≡ filter (λ (r : Region). not (r.number.0 == number.0)) regions.old.items }
{
    regions.retain(|region| region.number.0 != number.0);
}

// The same of an actor, if it is alive.
fn drop_of(actor: &mut Option<Actor>, number: RegionId)
    ensures seen { option_map actor_seen actor.new
        ≡ option_map (without_region number.0) (option_map actor_seen actor.old) }
    ensures placed { (b : ℕ) (cs : List (Option Cache)) → ArePlaced b cs actor.old
        → ArePlaced b cs actor.new }
{
    match actor {
        Some(actor) => drop_from(&mut actor.regions, number),
        None => {}
    }
}

// The same of each living actor.
fn drop_region(actors: &mut [Option<Actor>], number: RegionId)
    ensures seen { actors_seen actors.new
        ≡ map (option_map (without_region number.0)) (actors_seen actors.old) }
    ensures placed { (b : ℕ) (cs : List (Option Cache)) → All (ArePlaced b cs) actors.old
        → All (ArePlaced b cs) actors.new }
{
    for actor in actors.iter_mut() {
        drop_of(actor, number);
    }
}

#[tactic(auto, unfolding(crate::specs::Answering::unmap_of, crate::specs::Answering::with_some, crate::specs::Answering::unless))]
pub(crate) fn unmap(tables: &mut Tables, region: RegionId) -> Result<(), Trouble>
    requires { AreTablesSound tables.old }
    ensures sound { AreTablesSound tables.new }
    ensures outcome { PlainOutcome (machine_seen tables.old) (Command.Unmap region)
        (answer_by (λ _. Reply.Done) result) (machine_seen tables.new) }
{
    let Some(located) = locate(tables, region) else {
        return Err(Trouble::Refused(Refusal::NoRegion));
    };
    if located.region.locked {
        return Err(Trouble::Refused(Refusal::Locked));
    }
    drop_region(&mut tables.actors, region);
    Ok(())
}
