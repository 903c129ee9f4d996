// Pages are copied and moved.
ghost use Rattle.std.specs.Prelude.{None, ◌≡◌, ℕ, ◌+◌, ◌≤◌, ◌<◌, ◌^◌, ◌||◌, ◌&&◌, ◌==◌, List, map, length, take, drop, All, IfOk, IsSomeAnd, option_map, slice_set, ◌-◌, [], false, OnOk, OnErr};
ghost use Rattle.std.specs.Option.{option_map_or};
ghost use Rattle.vm_model.specs.Allowed.{AllowedOutcome, AwaitsAccess};
ghost use Rattle.vm_model.specs.Answering.{answer_by, is_any_locked, overlaps_itself, overwrite, put_pages, shares};
ghost use Rattle.vm_model.specs.Machine.{cache_of, numbered, pages_in, segment_of};
ghost use Rattle.vm_model.specs.Outcome.{PlainOutcome};
ghost use Rattle.vm_model.specs.Seen.{machine_seen, cache_seen, pages_seen, AreTablesSound, IsSpanned};

use crate::caches::zero_pages;
use crate::locks::is_any_locked;
use crate::place::{cache_at, passes_end, segment_of};
use crate::tables::{Cache, Tables};
use std::alloc::{AllocError, Global};
use vm_ids::{Command, Refusal, Reply, SegId, Span, Trouble};

// Copies of these pages.
fn copies(alloc: Global, pages: &[Vec<u8>]) -> Result<Vec<Vec<u8>>, AllocError>
    ensures { IfOk result (λ v. map (λ p. p.items) v.items ≡ map (λ p. p.items) pages.now) }
{
    let mut all = Vec::with_capacity(alloc, pages.len())?;
    for page in pages {
        all.push(Vec::from_slice(alloc, page)?)?;
    }
    Ok(all)
}

// These pages stand in the cache from this page on.
fn put_pages(cache: &mut Cache, first: usize, mut pages: Vec<Vec<u8>>)
    requires { first + length pages.items ≤ length cache.old.pages.items }
    ensures segment { cache.new.segment ≡ cache.old.segment }
    ensures pages { pages_seen cache.new
        ≡ overwrite first (map (λ p. p.items) pages.items) (pages_seen cache.old) }
{
    while let Some(page) = pages.pop() {
        cache.pages[first + pages.len()] = page;
    }
}

// Whether source and destination share a page.
fn overlaps(span: &Span) -> bool
    ensures { result
        ≡ (span.now.from.0 == span.now.to.0
        && shares span.now.from_page.0 span.now.pages span.now.to_page.0 span.now.pages) }
{
    let from = span.from_page.0 as u64;
    let to = span.to_page.0 as u64;
    let pages = span.pages as u64;
    span.from == span.to && from < to + pages && to < from + pages
}

// These pages stand in the cache with this number, from this page on.
pub(crate) fn put_in_cache(tables: &mut Tables, number: u32, first: usize, pages: Vec<Vec<u8>>)
    requires sound { AreTablesSound tables.old }
    requires there { IsSomeAnd (numbered tables.old.caches.items number)
        (λ c. first + length pages.items ≤ length c.pages.items) }
    requires whole { All (λ p. length p.items ≡ tables.old.page_bytes) pages.items }
    ensures sound { AreTablesSound tables.new }
    ensures machine { machine_seen tables.new ≡ record (machine_seen tables.old) {
      caches = slice_set (machine_seen tables.old).caches (number - 1)
          (option_map (λ c. put_pages first (map (λ p. p.items) pages.items) (cache_seen c))
          (numbered tables.old.caches.items number));
    } }
{
    match &mut tables.caches[number as usize - 1] {
        Some(cache) => put_pages(cache, first, pages),
        None => unreachable!(),
    }
}

// Whether the pages of a copy or a move are there. Refused as `NoCache` or `OutOfCache`.
#[tactic(auto, unfolding(crate::specs::Answering::copy_of, crate::specs::Answering::move_of, crate::specs::Answering::with_some, crate::specs::Answering::unless))]
fn check_span(tables: &Tables, span: &Span) -> Result<(), Trouble>
    requires { AreTablesSound tables.now }
    ensures refused_copy { OnErr result (PlainOutcome (machine_seen tables.now)
        (Command.Copy span.now) (answer_by (λ _. Reply.Done) result) (machine_seen tables.now)) }
    ensures refused_move { OnErr result (PlainOutcome (machine_seen tables.now)
        (Command.Move span.now) (answer_by (λ _. Reply.Done) result) (machine_seen tables.now)) }
    ensures spanned { OnOk result (IsSpanned tables.now span.now) }
    ensures few { OnOk result (span.now.to_page.0 + span.now.pages < 2 ^ 32) }
{
    let Some(source) = cache_at(&tables.caches, span.from.0) else {
        return Err(Trouble::Refused(Refusal::NoCache));
    };
    let Some(destination) = cache_at(&tables.caches, span.to.0) else {
        return Err(Trouble::Refused(Refusal::NoCache));
    };
    if passes_end(source, span.from_page.0, span.pages)
        || passes_end(destination, span.to_page.0, span.pages)
    {
        return Err(Trouble::Refused(Refusal::OutOfCache));
    }
    prove!(span.to_page.0 as u64 + span.pages as u64 <= tables.live as u64);
    Ok(())
}

// The segment whose pages a copy would change, or none where no segment names the destination.
pub(crate) fn check_copy(tables: &Tables, span: &Span) -> Result<Option<SegId>, Trouble>
    requires { AreTablesSound tables.now }
    ensures refused { OnErr result (PlainOutcome (machine_seen tables.now) (Command.Copy span.now)
        (answer_by (λ _. Reply.Done) result) (machine_seen tables.now)) }
    ensures awaits { OnOk result (AwaitsAccess (machine_seen tables.now)
        (Command.Copy span.now)) }
    ensures segment { IfOk result (λ seg. option_map (λ s. s.0) seg
        ≡ segment_of (machine_seen tables.now) span.now.to.0) }
    ensures within { OnOk result (span.now.to_page.0 + span.now.pages
        ≤ pages_in (cache_of (machine_seen tables.now) span.now.to.0)) }
    ensures few { OnOk result (span.now.to_page.0 + span.now.pages < 2 ^ 32) }
    ensures spanned { OnOk result (IsSpanned tables.now span.now) }
    ensures apart { OnOk result (overlaps_itself span.now ≡ false) }
    ensures unlocked { OnOk result (is_any_locked (machine_seen tables.now) span.now.to
        span.now.to_page.0 span.now.pages ≡ false) }
{
    check_span(tables, span)?;
    if overlaps(span) {
        return Err(Trouble::Refused(Refusal::Overlap));
    }
    if is_any_locked(tables, span.to, span.to_page, span.pages) {
        return Err(Trouble::Refused(Refusal::Locked));
    }
    Ok(segment_of(tables, span.to))
}

// The same of a move, whose source is temporary.
pub(crate) fn check_move(tables: &Tables, span: &Span) -> Result<Option<SegId>, Trouble>
    requires { AreTablesSound tables.now }
    ensures refused { OnErr result (PlainOutcome (machine_seen tables.now) (Command.Move span.now)
        (answer_by (λ _. Reply.Done) result) (machine_seen tables.now)) }
    ensures awaits { OnOk result (AwaitsAccess (machine_seen tables.now)
        (Command.Move span.now)) }
    ensures segment { IfOk result (λ seg. option_map (λ s. s.0) seg
        ≡ segment_of (machine_seen tables.now) span.now.to.0) }
    ensures within { OnOk result (span.now.to_page.0 + span.now.pages
        ≤ pages_in (cache_of (machine_seen tables.now) span.now.to.0)) }
    ensures few { OnOk result (span.now.to_page.0 + span.now.pages < 2 ^ 32) }
    ensures spanned { OnOk result (IsSpanned tables.now span.now) }
    ensures temporary { OnOk result
        (segment_of (machine_seen tables.now) span.now.from.0 ≡ None) }
    ensures apart { OnOk result (overlaps_itself span.now ≡ false) }
    ensures left { OnOk result (is_any_locked (machine_seen tables.now) span.now.from
        span.now.from_page.0 span.now.pages ≡ false) }
    ensures unlocked { OnOk result (is_any_locked (machine_seen tables.now) span.now.to
        span.now.to_page.0 span.now.pages ≡ false) }
{
    check_span(tables, span)?;
    if segment_of(tables, span.from).is_some() {
        return Err(Trouble::Refused(Refusal::NotTemp));
    }
    if overlaps(span) {
        return Err(Trouble::Refused(Refusal::Overlap));
    }
    if is_any_locked(tables, span.from, span.from_page, span.pages)
        || is_any_locked(tables, span.to, span.to_page, span.pages)
    {
        return Err(Trouble::Refused(Refusal::Locked));
    }
    Ok(segment_of(tables, span.to))
}

// Copies of the pages of the source.
fn source_pages(tables: &Tables, span: &Span) -> Result<Vec<Vec<u8>>, AllocError>
    requires sound { AreTablesSound tables.now }
    requires spanned { IsSpanned tables.now span.now }
    ensures pages { IfOk result (λ v. map (λ p. p.items) v.items
        ≡ take span.now.pages (drop span.now.from_page.0
        (option_map_or pages_seen (numbered tables.now.caches.items span.now.from.0) []))) }
    ensures whole { IfOk result
        (λ v. All (λ p. length p.items ≡ tables.now.page_bytes) v.items) }
{
    let first = span.from_page.0 as usize;
    let end = first + span.pages as usize;
    match cache_at(&tables.caches, span.from.0) {
        Some(source) => copies(tables.alloc, &source.pages[first..end]),
        None => unreachable!(),
    }
}

pub(crate) fn copy_pages(tables: &mut Tables, span: &Span) -> Result<(), Trouble>
    requires { AreTablesSound tables.old }
    ensures sound { AreTablesSound tables.new }
    ensures outcome { AllowedOutcome (machine_seen tables.old) (Command.Copy span.now)
        (answer_by (λ _. Reply.Done) result) (machine_seen tables.new) }
{
    check_copy(tables, span)?;
    let pages = source_pages(tables, span)?;
    put_in_cache(tables, span.to.0, span.to_page.0 as usize, pages);
    Ok(())
}

pub(crate) fn move_pages(tables: &mut Tables, span: &Span) -> Result<(), Trouble>
    requires { AreTablesSound tables.old }
    ensures sound { AreTablesSound tables.new }
    ensures outcome { AllowedOutcome (machine_seen tables.old) (Command.Move span.now)
        (answer_by (λ _. Reply.Done) result) (machine_seen tables.new) }
{
    check_move(tables, span)?;
    let pages = source_pages(tables, span)?;
    let zeros = zero_pages(tables.alloc, span.pages, tables.page_bytes)?;
    put_in_cache(tables, span.to.0, span.to_page.0 as usize, pages);
    put_in_cache(tables, span.from.0, span.from_page.0 as usize, zeros);
    Ok(())
}
