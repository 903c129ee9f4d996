// Caches are made and taken away.
ghost use Rattle.std.specs.Prelude.{None, Some, ◌≡◌, ℕ, ◌+◌, ◌≤◌, ◌<◌, ◌∷◌, ◌++◌, [], ◌==◌, map, option_map, is_some, length, replicate, IfErr, IfOk, OnOk, OnErr, All, IsSome, false};
ghost use Rattle.std.specs.FinMap.{get};
ghost use Rattle.std.specs.List.{list_any};
ghost use Rattle.vm_model.specs.Answering.{answer_by, maps_in};
ghost use Rattle.vm_ids.specs.Counting.{no_counts};
ghost use Rattle.vm_ids.specs.Held.{Segments};
ghost use Rattle.vm_model.specs.Allowed.{AwaitsAccess, CanOpen, MayFailToOpen};
ghost use Rattle.vm_model.specs.Machine.{cache_named, live_pages, numbered, zero_page};
ghost use Rattle.vm_model.specs.Outcome.{Outcome, PlainOutcome};
ghost use Rattle.vm_model.specs.Seen.{AreTablesSound, actors_seen, cache_seen, machine_seen, region_seen};

use crate::place::{cache_at, page_count};
use crate::tables::{Actor, Cache, Region, Tables};
use crate::{LIVE_PAGES, MOST_MADE};
use std::alloc::{AllocError, Global};
use vm_ids::{CacheId, Command, Refusal, Reply, SegId, Trouble};

pub(crate) fn zero_pages(
    alloc: Global,
    pages: u32,
    bytes: usize,
) -> Result<Vec<Vec<u8>>, AllocError>
    ensures { IfOk result (λ v. map (λ p. p.items) v.items ≡ replicate pages (zero_page bytes)) }
{
    let mut all = Vec::with_capacity(alloc, pages as usize)?;
    for _page in 0..pages {
        let mut page = Vec::with_capacity(alloc, bytes)?;
        page.resize(bytes, 0)?;
        all.push(page)?;
    }
    Ok(all)
}

// One cache more, with the next number.
fn add_cache(tables: &mut Tables, cache: Cache) -> Result<CacheId, AllocError>
    requires sound { AreTablesSound tables.old }
    requires room { live_pages (machine_seen tables.old) + length cache.pages.items ≤ LIVE_PAGES }
    requires few { length tables.old.caches.items < MOST_MADE }
    requires whole { All (λ p. length p.items ≡ tables.old.page_bytes) cache.pages.items }
    ensures sound { AreTablesSound tables.new }
    ensures number { IfOk result (λ number. number.0 ≡ length tables.old.caches.items + 1) }
    ensures added { OnOk result (machine_seen tables.new ≡ record (machine_seen tables.old) {
      caches = (machine_seen tables.old).caches ++ Some (cache_seen cache) ∷ [];
    }) }
    ensures same { OnErr result (machine_seen tables.new ≡ machine_seen tables.old) }
{
    let pages = cache.pages.len() as u32;
    tables.caches.push(Some(cache))?;
    tables.live += pages;
    Ok(CacheId(tables.caches.len() as u32))
}

#[tactic(auto, unfolding(crate::specs::Answering::make_temp_of, crate::specs::Answering::unless))]
pub(crate) fn make_temp(tables: &mut Tables, pages: u32) -> Result<CacheId, Trouble>
    requires { AreTablesSound tables.old }
    ensures sound { AreTablesSound tables.new }
    ensures outcome { PlainOutcome (machine_seen tables.old) (Command.MakeTemp pages)
        (answer_by Reply.Cache result) (machine_seen tables.new) }
{
    if tables.caches.len() >= MOST_MADE as usize
        || tables.live as u64 + pages as u64 > LIVE_PAGES as u64
    {
        return Err(Trouble::Refused(Refusal::TooMany));
    }
    let pages_made = zero_pages(tables.alloc, pages, tables.page_bytes)?;
    let cache = Cache {
        segment: None,
        pages: pages_made,
    };
    Ok(add_cache(tables, cache)?)
}

// Whether the segment names a live cache.
fn is_named(caches: &[Option<Cache>], seg: SegId) -> bool
    ensures { result ≡ is_some (cache_named (map (option_map cache_seen) caches.now) seg.0) }
{
    for cache in caches {
        if let Some(cache) = cache {
            if cache.segment == Some(seg) {
                return true;
            }
        }
    }
    false
}

// Whether the segment may be opened, as far as the machine alone can tell.
#[tactic(auto, unfolding(crate::specs::Answering::open_of, crate::specs::Answering::unless))]
pub(crate) fn check_open(tables: &Tables, seg: SegId) -> Result<(), Trouble>
    requires { AreTablesSound tables.now }
    ensures refused { OnErr result (PlainOutcome (machine_seen tables.now) (Command.OpenSegment seg)
        (answer_by (λ _. Reply.Done) result) (machine_seen tables.now)) }
    ensures open { OnOk result (CanOpen (machine_seen tables.now) seg) }
    ensures fault { OnOk result (MayFailToOpen (machine_seen tables.now) seg) }
{
    if is_named(&tables.caches, seg) {
        return Err(Trouble::Refused(Refusal::SegmentInUse));
    }
    if tables.caches.len() >= MOST_MADE as usize {
        return Err(Trouble::Refused(Refusal::TooMany));
    }
    Ok(())
}

// Zero pages for a segment of this size, to be filled with its pages.
#[tactic(auto, unfolding(crate::specs::Answering::open_of, crate::specs::Answering::unless, crate::specs::Answering::with_some))]
pub(crate) fn room_for(
    tables: &Tables,
    seg: SegId,
    size: Option<u32>,
) -> Result<Vec<Vec<u8>>, Trouble>
    requires sound { AreTablesSound tables.now }
    requires open { CanOpen (machine_seen tables.now) seg }
    ensures refused { OnErr result ((h : Segments)
        → option_map length (get h.pages seg.0) ≡ size
        → Outcome (machine_seen tables.now) None (Command.OpenSegment seg) h
        (answer_by (λ _. Reply.Done) result) (machine_seen tables.now) no_counts) }
    ensures size { IfOk result (λ pages. Some (length pages.items) ≡ size) }
    ensures room { IfOk result
        (λ pages. live_pages (machine_seen tables.now) + length pages.items ≤ LIVE_PAGES) }
    ensures whole { IfOk result
        (λ pages. All (λ p. length p.items ≡ tables.now.page_bytes) pages.items) }
{
    let Some(size) = size else {
        return Err(Trouble::Refused(Refusal::NoSegment));
    };
    if tables.live as u64 + size as u64 > LIVE_PAGES as u64 {
        return Err(Trouble::Refused(Refusal::TooMany));
    }
    Ok(zero_pages(tables.alloc, size, tables.page_bytes)?)
}

#[tactic(auto, unfolding(crate::specs::Answering::open_of, crate::specs::Answering::unless, crate::specs::Answering::with_some))]
pub(crate) fn open_segment(
    tables: &mut Tables,
    seg: SegId,
    pages: Vec<Vec<u8>>,
) -> Result<CacheId, Trouble>
    requires sound { AreTablesSound tables.old }
    requires open { CanOpen (machine_seen tables.old) seg }
    requires room { live_pages (machine_seen tables.old) + length pages.items ≤ LIVE_PAGES }
    requires whole { All (λ p. length p.items ≡ tables.old.page_bytes) pages.items }
    ensures sound { AreTablesSound tables.new }
    ensures outcome { (h : Segments)
        → get h.pages seg.0 ≡ Some (map (λ p. p.items) pages.items)
        → Outcome (machine_seen tables.old) None (Command.OpenSegment seg) h
        (answer_by Reply.Cache result) (machine_seen tables.new) no_counts }
    ensures memory { IfErr result (λ trouble. trouble ≡ Trouble.Memory) }
{
    let cache = Cache {
        segment: Some(seg),
        pages,
    };
    Ok(add_cache(tables, cache)?)
}

// Whether one of these regions maps the cache.
fn maps_cache(regions: &[Region], cache: CacheId) -> bool
    ensures { result ≡ list_any (λ r. r.cache == cache.0) (map region_seen regions.now) }
{
    for region in regions {
        if region.cache == cache {
            return true;
        }
    }
    false
}

// Whether a region of a living actor maps the cache.
fn is_mapped(actors: &[Option<Actor>], cache: CacheId) -> bool
    ensures { result ≡ list_any (maps_in cache.0) (actors_seen actors.now) }
{
    for actor in actors {
        if let Some(actor) = actor {
            if maps_cache(&actor.regions, cache) {
                return true;
            }
        }
    }
    false
}

// Whether the cache may go, as far as the machine alone can tell.
#[tactic(auto, unfolding(crate::specs::Answering::destroy_of, crate::specs::Answering::with_some, crate::specs::Answering::unless))]
pub(crate) fn check_destroy(tables: &Tables, cache: CacheId) -> Result<(), Trouble>
    requires { AreTablesSound tables.now }
    ensures refused { OnErr result (PlainOutcome (machine_seen tables.now) (Command.Destroy cache)
        (answer_by (λ _. Reply.Done) result) (machine_seen tables.now)) }
    ensures awaits { OnOk result (AwaitsAccess (machine_seen tables.now)
        (Command.Destroy cache)) }
    ensures there { OnOk result (IsSome (numbered tables.now.caches.items cache.0)) }
    ensures unmapped { OnOk result
        (list_any (maps_in cache.0) (actors_seen tables.now.actors.items) ≡ false) }
{
    if cache_at(&tables.caches, cache.0).is_none() {
        return Err(Trouble::Refused(Refusal::NoCache));
    }
    if is_mapped(&tables.actors, cache) {
        return Err(Trouble::Refused(Refusal::InUse));
    }
    Ok(())
}

pub(crate) fn destroy(tables: &mut Tables, cache: CacheId) -> Result<(), Trouble>
    requires { AreTablesSound tables.old }
    ensures sound { AreTablesSound tables.new }
    ensures outcome { PlainOutcome (machine_seen tables.old) (Command.Destroy cache)
        (answer_by (λ _. Reply.Done) result) (machine_seen tables.new) }
{
    check_destroy(tables, cache)?;
    let pages = page_count(tables, cache);
    tables.live -= pages;
    tables.caches[cache.0 as usize - 1] = None;
    Ok(())
}
