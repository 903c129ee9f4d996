// Bytes are loaded and stored.
ghost use Rattle.std.specs.Prelude.{None, ◌≡◌, ℕ, ◌+◌, ◌-◌, ◌≤◌, ◌<◌, List, [], map, length, Some, option_map, option_and_then, slice_get, slice_set, unwrap_or, IfOk, IsOkAnd, OnOk, OnErr, All, Ok, true};
ghost use Rattle.vm_model.specs.Answering.{answer_by, bytes_at, overwrite, page_at, write_at};
ghost use Rattle.vm_model.specs.Allowed.{AllowedOutcome, AwaitsAccess, numbers_of, segment_place};
ghost use Rattle.vm_model.specs.Machine.{cache_of, numbered, pages_in};
ghost use Rattle.vm_model.specs.Place.{place};
ghost use Rattle.vm_model.specs.Outcome.{PlainOutcome};
ghost use Rattle.vm_model.specs.Seen.{IsPlaced, AreTablesSound, machine_seen, pages_seen, place_seen};

use crate::place::{Found, cache_at, place_of, segment_of};
use crate::tables::{Cache, Tables};
use vm_ids::{ActorId, Command, PageNo, Piece, Refusal, Reply, SegId, Trouble};

// A page of a cache, where it is there.
pub(crate) fn page_in(caches: &[Option<Cache>], cache: u32, page: u64) -> Option<&[u8]>
    ensures { option_map (λ p. p.now) result
        ≡ option_and_then (λ c. slice_get (map (λ p. p.items) c.pages.items) page)
        (numbered caches.now cache) }
{
    let page = cache_at(caches, cache)?.pages.get(page as usize)?;
    Some(page)
}

// The page of a place.
fn page_of(tables: &Tables, found: Found) -> &[u8]
    requires sound { AreTablesSound tables.now }
    requires placed { IsPlaced tables.now.page_bytes tables.now.caches.items found.region }
    requires within { found.page < found.region.offset + found.region.pages }
    ensures page { result.now ≡ page_at (machine_seen tables.now) (place_seen found) }
    ensures length { length result.now ≡ tables.now.page_bytes }
{
    match page_in(&tables.caches, found.region.cache.0, found.page) {
        Some(page) => page,
        None => unreachable!(),
    }
}

// The bytes at a place.
fn bytes_at(tables: &Tables, found: Found, bytes: u8) -> Piece
    requires sound { AreTablesSound tables.now }
    requires placed { IsPlaced tables.now.page_bytes tables.now.caches.items found.region }
    requires within { found.page < found.region.offset + found.region.pages }
    requires byte { found.byte + bytes ≤ tables.now.page_bytes }
    requires some { 1 ≤ bytes }
    requires few { bytes ≤ 64 }
    ensures bytes { result ≡ bytes_at (machine_seen tables.now) (place_seen found) bytes }
    ensures length { length result ≡ bytes }
{
    let page = page_of(tables, found);
    let at = found.byte as usize;
    match Piece::new(&page[at..at + bytes as usize]) {
        Some(piece) => piece,
        None => unreachable!(),
    }
}

#[tactic(auto, unfolding(crate::specs::Answering::load_of, crate::specs::Answering::with_ok))]
pub(crate) fn load(
    tables: &Tables,
    actor: ActorId,
    address: u64,
    bytes: u8,
) -> Result<Piece, Trouble>
    requires sound { AreTablesSound tables.now }
    requires some { 1 ≤ bytes }
    requires few { bytes ≤ 64 }
    ensures outcome { PlainOutcome (machine_seen tables.now) (Command.Load actor address bytes)
        (answer_by Reply.Bytes result) (machine_seen tables.now) }
    ensures length { IfOk result (λ piece. length piece ≡ bytes) }
{
    let found = place_of(tables, actor, address, bytes)?;
    Ok(bytes_at(tables, found, bytes))
}

// These bytes stand in the page from this byte on.
fn write_page(page: &mut Vec<u8>, at: usize, bytes: &[u8])
    requires { at + length bytes.now ≤ length page.old.items }
    ensures { page.new.items ≡ overwrite at bytes.now page.old.items }
{
    page[at..at + bytes.len()].copy_from_slice(bytes);
}

// The same in a page of a cache.
fn write_cache(cache: &mut Cache, page: usize, at: usize, bytes: &[u8])
    requires there { page < length cache.old.pages.items }
    requires within { All (λ p. at + length bytes.now ≤ length p.items) cache.old.pages.items }
    ensures segment { cache.new.segment ≡ cache.old.segment }
    ensures pages { pages_seen cache.new
        ≡ slice_set (pages_seen cache.old) page
        (overwrite at bytes.now (unwrap_or (slice_get (pages_seen cache.old) page) [])) }
{
    write_page(&mut cache.pages[page], at, bytes);
}

// The same in the page of a place.
fn write_place(tables: &mut Tables, found: Found, bytes: &[u8])
    requires sound { AreTablesSound tables.old }
    requires placed { IsPlaced tables.old.page_bytes tables.old.caches.items found.region }
    requires within { found.page < found.region.offset + found.region.pages }
    requires byte { found.byte + length bytes.now ≤ tables.old.page_bytes }
    ensures sound { AreTablesSound tables.new }
    ensures machine { machine_seen tables.new
        ≡ write_at (machine_seen tables.old) (place_seen found) bytes.now }
{
    match &mut tables.caches[found.region.cache.0 as usize - 1] {
        Some(cache) => write_cache(cache, found.page as usize, found.byte as usize, bytes),
        None => unreachable!(),
    }
}

// The place of a store, where the machine alone doesn't refuse it.
#[tactic(auto, unfolding(crate::specs::Answering::store_of, crate::specs::Answering::with_ok, crate::specs::Answering::unless))]
fn place_to_store(
    tables: &Tables,
    actor: ActorId,
    address: u64,
    piece: &Piece,
) -> Result<Found, Trouble>
    requires { AreTablesSound tables.now }
    ensures refused { OnErr result (PlainOutcome (machine_seen tables.now)
        (Command.Store actor address piece.now) (answer_by (λ _. Reply.Done) result)
        (machine_seen tables.now)) }
    ensures place { IfOk result (λ f. place (machine_seen tables.now)
        actor.0 address (length piece.now) ≡ Ok (place_seen f)) }
    ensures placed { IfOk result
        (λ f. IsPlaced tables.now.page_bytes tables.now.caches.items f.region) }
    ensures within { IfOk result (λ f. f.page < f.region.offset + f.region.pages) }
    ensures byte { IfOk result (λ f. f.byte + length piece.now ≤ tables.now.page_bytes) }
    ensures writes { IfOk result (λ f. f.region.may_write ≡ true) }
{
    let found = place_of(tables, actor, address, piece.as_slice().len() as u8)?;
    if !found.region.may_write {
        return Err(Trouble::Refused(Refusal::Protection));
    }
    Ok(found)
}

// The page of a segment that a store would change, or none where no segment names the cache.
pub(crate) fn check_store(
    tables: &Tables,
    actor: ActorId,
    address: u64,
    piece: &Piece,
) -> Result<Option<(SegId, PageNo)>, Trouble>
    requires { AreTablesSound tables.now }
    ensures refused { OnErr result (PlainOutcome (machine_seen tables.now)
        (Command.Store actor address piece.now) (answer_by (λ _. Reply.Done) result)
        (machine_seen tables.now)) }
    ensures awaits { OnOk result (AwaitsAccess (machine_seen tables.now)
        (Command.Store actor address piece.now)) }
    ensures page { IfOk result (λ page.
        IsOkAnd (place (machine_seen tables.now) actor.0 address (length piece.now)) (λ at.
        option_map numbers_of page ≡ segment_place (machine_seen tables.now) at)) }
    ensures there { OnOk result
        (IsOkAnd (place (machine_seen tables.now) actor.0 address (length piece.now)) (λ at.
        at.page < pages_in (cache_of (machine_seen tables.now) at.region.cache))) }
{
    let found = place_to_store(tables, actor, address, piece)?;
    match segment_of(tables, found.region.cache) {
        Some(seg) => {
            prove!(found.page < tables.live as u64);
            Ok(Some((seg, PageNo(found.page as u32))))
        }
        None => Ok(None),
    }
}

pub(crate) fn store(
    tables: &mut Tables,
    actor: ActorId,
    address: u64,
    piece: &Piece,
) -> Result<(), Trouble>
    requires { AreTablesSound tables.old }
    ensures sound { AreTablesSound tables.new }
    ensures outcome { AllowedOutcome (machine_seen tables.old)
        (Command.Store actor address piece.now) (answer_by (λ _. Reply.Done) result)
        (machine_seen tables.new) }
{
    let found = place_to_store(tables, actor, address, piece)?;
    write_place(tables, found, piece.as_slice());
    Ok(())
}
