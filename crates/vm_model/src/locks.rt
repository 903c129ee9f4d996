// Regions are locked and unlocked, and locked pages are found and counted.
ghost use Rattle.std.specs.Prelude.{◌≡◌, map};
ghost use Rattle.std.specs.List.{list_any};
ghost use Rattle.vm_model.specs.Answering.{answer_by, change_region, is_any_locked, passes_lock_limit};
ghost use Rattle.vm_model.specs.Machine.{is_locked_page, locked_in, locked_pages, locks, locks_any};
ghost use Rattle.vm_model.specs.Outcome.{PlainOutcome};
ghost use Rattle.vm_model.specs.Regions.{with_lock};
ghost use Rattle.vm_model.specs.Seen.{AreTablesSound, actors_seen, machine_seen, region_seen};

use crate::UNLOCKED_FRAMES;
use crate::located::{locate, replace};
use crate::place::page_count;
use crate::tables::{Actor, Region, Tables};
use vm_ids::{CacheId, Command, PageNo, Refusal, RegionId, Reply, Trouble};

// Whether the region is locked and covers this page of the cache.
fn locks(region: &Region, cache: CacheId, page: u64) -> bool
    ensures { result ≡ locks cache.0 page (region_seen region.now) }
{
    region.locked
        && region.cache == cache
        && region.offset as u64 <= page
        && page < region.offset as u64 + region.pages as u64
}

// The same of one of these regions.
fn any_locks(regions: &[Region], cache: CacheId, page: u64) -> bool
    ensures { result ≡ list_any (locks cache.0 page) (map region_seen regions.now) }
{
    for region in regions {
        if locks(region, cache, page) {
            return true;
        }
    }
    false
}

// Whether a locked region of a living actor covers this page.
fn is_locked_page(actors: &[Option<Actor>], cache: CacheId, page: u64) -> bool
    ensures { result ≡ list_any (locks_any cache.0 page) (actors_seen actors.now) }
{
    for actor in actors {
        if let Some(actor) = actor {
            if any_locks(&actor.regions, cache, page) {
                return true;
            }
        }
    }
    false
}

// Whether one of so many pages of the cache is locked.
pub(crate) fn is_any_locked(tables: &Tables, cache: CacheId, first: PageNo, pages: u32) -> bool
    ensures { result ≡ is_any_locked (machine_seen tables.now) cache first.0 pages }
{
    for i in 0..pages {
        if is_locked_page(&tables.actors, cache, first.0 as u64 + i as u64) {
            return true;
        }
    }
    false
}

// How many pages of the cache are locked.
fn locked_in(tables: &Tables, cache: CacheId) -> u32
    requires { AreTablesSound tables.now }
    ensures { result ≡ locked_in (machine_seen tables.now) cache.0 }
{
    let mut locked = 0;
    for page in 0..page_count(tables, cache) {
        if is_locked_page(&tables.actors, cache, page as u64) {
            locked += 1;
        }
    }
    locked
}

// How many pages are locked, each counted once.
fn locked_pages(tables: &Tables) -> u32
    requires { AreTablesSound tables.now }
    ensures { result ≡ locked_pages (machine_seen tables.now) }
{
    let mut locked = 0;
    for made in 0..tables.caches.len() as u32 {
        let more = locked_in(tables, CacheId(made + 1));
        prove!(locked as u64 + more as u64 <= tables.live as u64);
        locked += more;
    }
    locked
}

// Whether so many pages are locked that an access could lack a frame.
fn passes_lock_limit(tables: &Tables) -> bool
    requires { AreTablesSound tables.now }
    ensures { result ≡ passes_lock_limit (machine_seen tables.now) }
{
    locked_pages(tables) > tables.frames.saturating_sub(UNLOCKED_FRAMES)
}

// The region with this number, where there is one, becomes locked or unlocked.
fn set_lock(tables: &mut Tables, region: RegionId, locked: bool)
    requires { AreTablesSound tables.old }
    ensures sound { AreTablesSound tables.new }
    ensures machine { machine_seen tables.new
        ≡ change_region (machine_seen tables.old) region.0 (with_lock locked) }
{
    if let Some(located) = locate(tables, region) {
        let changed = Region {
            locked,
            ..located.region
        };
        replace(&mut tables.actors, &located, changed);
    }
}

#[tactic(auto, unfolding(crate::specs::Answering::lock_of, crate::specs::Answering::with_some, crate::specs::Answering::unless))]
pub(crate) fn lock(tables: &mut Tables, region: RegionId) -> Result<(), Trouble>
    requires { AreTablesSound tables.old }
    ensures sound { AreTablesSound tables.new }
    ensures outcome { PlainOutcome (machine_seen tables.old) (Command.Lock region)
        (answer_by (λ _. Reply.Done) result) (machine_seen tables.new) }
{
    let Some(located) = locate(tables, region) else {
        return Err(Trouble::Refused(Refusal::NoRegion));
    };
    if located.region.locked {
        return Err(Trouble::Refused(Refusal::Locked));
    }
    set_lock(tables, region, true);
    if passes_lock_limit(tables) {
        set_lock(tables, region, false);
        return Err(Trouble::Refused(Refusal::LockLimit));
    }
    Ok(())
}

#[tactic(auto, unfolding(crate::specs::Answering::unlock_of, crate::specs::Answering::with_some, crate::specs::Answering::unless))]
pub(crate) fn unlock(tables: &mut Tables, region: RegionId) -> Result<(), Trouble>
    requires { AreTablesSound tables.old }
    ensures sound { AreTablesSound tables.new }
    ensures outcome { PlainOutcome (machine_seen tables.old) (Command.Unlock region)
        (answer_by (λ _. Reply.Done) result) (machine_seen tables.new) }
{
    let Some(located) = locate(tables, region) else {
        return Err(Trouble::Refused(Refusal::NoRegion));
    };
    if !located.region.locked {
        return Err(Trouble::Refused(Refusal::NotLocked));
    }
    set_lock(tables, region, false);
    Ok(())
}
