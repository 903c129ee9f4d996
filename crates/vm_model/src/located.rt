// Regions found by their numbers, cut in two and protected.
ghost use Rattle.std.specs.Prelude.{None, ◌≡◌, ℕ, ◌+◌, ◌≤◌, ◌<◌, ◌∷◌, ◌++◌, [], map, length, take, drop, All, List, Option, OnOk, OnErr, MatchOption};
ghost use Rattle.vm_model.specs.Answering.{answer_by};
ghost use Rattle.vm_model.specs.Outcome.{PlainOutcome};
ghost use Rattle.vm_model.specs.Regions.{region_among, region_with, split_at};
ghost use Rattle.vm_model.specs.Seen.{ArePlaced, IsLocated, IsPlaceOf, IsPlaced, IsReplaced, AreTablesSound, actors_seen, machine_seen, region_seen};

use crate::MOST_MADE;
use crate::tables::{Actor, Cache, Region, Tables};
use vm_ids::{ActorId, Command, NoMemory, Prot, Refusal, RegionId, Reply, Trouble};

// A region of a living actor, and its place among the actor's regions.
#[derive(Clone, Copy, Debug, PartialEq, Eq)]
pub(crate) struct Located {
    pub actor: ActorId,
    pub place: usize,
    pub region: Region,
}

// The first of these regions with the number, and its place.
#[tactic(auto, using(crate::proofs::Locating::passed_region))]
fn locate_among(regions: &[Region], number: RegionId) -> Option<(usize, Region)>
    ensures { MatchOption result (region_among number.0 (map region_seen regions.now) ≡ None)
        (λ found. IsPlaceOf number.0 regions.now found.0 found.1) }
{
    for (place, region) in regions.iter().enumerate() {
        if region.number == number {
            return Some((place, *region));
        }
    }
    None
}

// The region with the number, of a living actor.
pub(crate) fn locate(tables: &Tables, number: RegionId) -> Option<Located>
    requires { AreTablesSound tables.now }
    ensures { MatchOption result (region_with number.0 (actors_seen tables.now.actors.items) ≡ None)
        (IsLocated number.0 tables.now.actors.items) }
{
    for (index, actor) in tables.actors.iter().enumerate() {
        if let Some(actor) = actor {
            if let Some((place, region)) = locate_among(&actor.regions, number) {
                return Some(Located {
                    actor: ActorId(index as u32 + 1),
                    place,
                    region,
                });
            }
        }
    }
    None
}

// Another region stands in the place of a located one.
pub(crate) fn replace(actors: &mut Vec<Option<Actor>>, located: &Located, region: Region)
    requires { IsLocated located.now.region.number.0 actors.old.items located.now }
    ensures { IsReplaced located.now (region ∷ []) actors.old.items actors.new.items }
{
    match &mut actors[located.actor.0 as usize - 1] {
        Some(actor) => actor.regions[located.place] = region,
        None => unreachable!(),
    }
}

// The region at this place becomes these two.
fn divide_at(
    regions: &mut Vec<Region>,
    place: usize,
    front: Region,
    back: Region,
) -> Result<(), NoMemory>
    requires { place < length regions.old.items }
    ensures ok { OnOk result (regions.new.items ≡ take place regions.old.items
        ++ front ∷ back ∷ drop (place + 1) regions.old.items) }
    ensures err { OnErr result (regions.new.items ≡ regions.old.items) }
{
    regions.insert(place + 1, back)?;
    regions[place] = front;
    Ok(())
}

// These two regions stand in the place of a located one.
fn divide(
    actors: &mut Vec<Option<Actor>>,
    located: &Located,
    front: Region,
    back: Region,
) -> Result<(), NoMemory>
    requires { IsLocated located.now.region.number.0 actors.old.items located.now }
    ensures ok { OnOk result
        (IsReplaced located.now (front ∷ back ∷ []) actors.old.items actors.new.items) }
    ensures err { OnErr result (actors_seen actors.new.items ≡ actors_seen actors.old.items) }
    ensures placed { OnErr result ((b : ℕ) (cs : List (Option Cache))
        → All (ArePlaced b cs) actors.old.items → All (ArePlaced b cs) actors.new.items) }
{
    match &mut actors[located.actor.0 as usize - 1] {
        Some(actor) => divide_at(&mut actor.regions, located.place, front, back),
        None => unreachable!(),
    }
}

// The first pages of a region, and the others under another number.
fn parts_of(tables: &Tables, region: Region, pages: u32, number: RegionId) -> (Region, Region)
    requires sound { AreTablesSound tables.now }
    requires placed { IsPlaced tables.now.page_bytes tables.now.caches.items region }
    requires fewer { pages < region.pages }
    ensures parts { region_seen result.0 ∷ region_seen result.1 ∷ []
        ≡ split_at tables.now.page_bytes pages number.0 (region_seen region) }
    ensures front { IsPlaced tables.now.page_bytes tables.now.caches.items result.0 }
    ensures back { IsPlaced tables.now.page_bytes tables.now.caches.items result.1 }
{
    let front = Region { pages, ..region };
    let back = Region {
        number,
        start: region.start + tables.page_bytes as u64 * pages as u64,
        pages: region.pages - pages,
        offset: region.offset + pages,
        ..region
    };
    (front, back)
}

#[tactic(auto, unfolding(crate::specs::Answering::split_of, crate::specs::Answering::with_some, crate::specs::Answering::unless))]
pub(crate) fn split(tables: &mut Tables, region: RegionId, pages: u32) -> Result<RegionId, Trouble>
    requires { AreTablesSound tables.old }
    ensures sound { AreTablesSound tables.new }
    ensures outcome { PlainOutcome (machine_seen tables.old) (Command.Split region pages)
        (answer_by Reply.Region result) (machine_seen tables.new) }
{
    let Some(located) = locate(tables, region) else {
        return Err(Trouble::Refused(Refusal::NoRegion));
    };
    if located.region.pages <= pages {
        return Err(Trouble::Refused(Refusal::BadAddress));
    }
    if tables.regions_made >= MOST_MADE {
        return Err(Trouble::Refused(Refusal::TooMany));
    }
    let number = tables.regions_made + 1;
    let (front, back) = parts_of(tables, located.region, pages, RegionId(number));
    divide(&mut tables.actors, &located, front, back)?;
    tables.regions_made = number;
    Ok(RegionId(number))
}

#[tactic(auto, unfolding(crate::specs::Answering::protect_of, crate::specs::Answering::with_some))]
pub(crate) fn protect(tables: &mut Tables, region: RegionId, prot: Prot) -> Result<(), Trouble>
    requires { AreTablesSound tables.old }
    ensures sound { AreTablesSound tables.new }
    ensures outcome { PlainOutcome (machine_seen tables.old) (Command.Protect region prot)
        (answer_by (λ _. Reply.Done) result) (machine_seen tables.new) }
{
    let Some(located) = locate(tables, region) else {
        return Err(Trouble::Refused(Refusal::NoRegion));
    };
    let protected = Region {
        may_write: prot.write,
        ..located.region
    };
    replace(&mut tables.actors, &located, protected);
    Ok(())
}
