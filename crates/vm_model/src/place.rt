// The place of an access.
ghost use Rattle.std.specs.Prelude.{◌≡◌, ℕ, ◌+◌, ◌*◌, ◌≤◌, ◌<◌, ◌^◌, map, length, option_map, option_and_then, IfSome, IfOk, slice_get};
ghost use Rattle.std.specs.List.{All, Contains};
ghost use Rattle.vm_model.specs.Answering.{passes_end};
ghost use Rattle.vm_model.specs.Machine.{cache_of, numbered, pages_in, segment_of};
ghost use Rattle.vm_model.specs.Place.{place, place_among, region_at};
ghost use Rattle.vm_model.specs.Seen.{cache_seen, region_seen, found_seen, machine_seen, IsPlaced, AreTablesSound};

use crate::numbering::numbered;
use crate::tables::{Actor, Cache, Region, Tables};
use vm_ids::{ActorId, CacheId, Refusal, SegId};

// A byte of a page of the region's cache.
#[derive(Clone, Copy, Debug, PartialEq, Eq)]
pub(crate) struct Found {
    pub region: Region,
    pub page: u64,
    pub byte: u64,
}

// The cache with this number, where it is alive.
pub(crate) fn cache_at(caches: &[Option<Cache>], n: u32) -> Option<&Cache>
    ensures { option_map (λ c. c.now) result ≡ numbered caches.now n }
{
    numbered(caches, n)
}

// The actor with this number, where it is alive.
pub(crate) fn actor_at(actors: &[Option<Actor>], n: u32) -> Option<&Actor>
    ensures { option_map (λ a. a.now) result ≡ numbered actors.now n }
{
    numbered(actors, n)
}

// The segment that names a cache, if one does.
pub(crate) fn segment_of(tables: &Tables, cache: CacheId) -> Option<SegId>
    ensures { option_map (λ s. s.0) result ≡ segment_of (machine_seen tables.now) cache.0 }
{
    cache_at(&tables.caches, cache.0)?.segment
}

// How many pages a cache has; none where it isn't alive.
pub(crate) fn page_count(tables: &Tables, cache: CacheId) -> u32
    requires { AreTablesSound tables.now }
    ensures { result ≡ pages_in (cache_of (machine_seen tables.now) cache.0) }
{
    match cache_at(&tables.caches, cache.0) {
        Some(cache) => {
            let pages = cache.pages.len();
            prove!(pages <= tables.live as usize);
            pages as u32
        }
        None => 0,
    }
}

// Whether these pages pass the end of the cache.
pub(crate) fn passes_end(cache: &Cache, first: u32, pages: u32) -> bool
    ensures { result ≡ passes_end (cache_seen cache.now) first pages }
{
    first as u64 + pages as u64 > cache.pages.len() as u64
}

// The region that holds the address.
pub(crate) fn region_holding(regions: &[Region], page_bytes: u64, address: u64) -> Option<Region>
    requires bytes { page_bytes ≤ 2 ^ 16 }
    requires ends { All (λ r. r.start + page_bytes * r.pages ≤ 2 ^ 48) regions.now }
    ensures found { option_map region_seen result
        ≡ region_at page_bytes address (map region_seen regions.now) }
    ensures one { IfSome result (λ r. Contains regions.now r) }
    ensures from { IfSome result (λ r. r.start ≤ address) }
    ensures below { IfSome result (λ r. address < r.start + page_bytes * r.pages) }
    ensures ends { IfSome result (λ r. r.start + page_bytes * r.pages ≤ 2 ^ 48) }
{
    for region in regions {
        if region.start <= address && address < region.start + page_bytes * region.pages as u64 {
            return Some(*region);
        }
    }
    None
}

// The place of an access among these regions.
fn locate(regions: &[Region], page_bytes: u64, address: u64, bytes: u64) -> Result<Found, Refusal>
    requires some { 1 ≤ page_bytes }
    requires most { page_bytes ≤ 2 ^ 16 }
    requires few { bytes ≤ 64 }
    requires ends { All (λ r. r.start + page_bytes * r.pages ≤ 2 ^ 48) regions.now }
    ensures place { found_seen result
        ≡ place_among page_bytes (map region_seen regions.now) address bytes }
    ensures page { IfOk result (λ f. f.page < f.region.offset + f.region.pages) }
    ensures one { IfOk result (λ f. Contains regions.now f.region) }
    ensures byte { IfOk result (λ f. f.byte + bytes ≤ page_bytes) }
{
    let byte = address % page_bytes;
    if page_bytes < byte + bytes {
        return Err(Refusal::Crosses);
    }
    match region_holding(regions, page_bytes, address) {
        None => Err(Refusal::BadAddress),
        Some(region) => Ok(Found {
            region,
            page: region.offset as u64 + (address - region.start) / page_bytes,
            byte,
        }),
    }
}

// The place of an access of an actor.
pub(crate) fn place_of(
    tables: &Tables,
    actor: ActorId,
    address: u64,
    bytes: u8,
) -> Result<Found, Refusal>
    requires sound { AreTablesSound tables.now }
    requires few { bytes ≤ 64 }
    ensures place { found_seen result ≡ place (machine_seen tables.now) actor.0 address bytes }
    ensures page { IfOk result
        (λ f. IsPlaced tables.now.page_bytes tables.now.caches.items f.region) }
    ensures within { IfOk result (λ f. f.page < f.region.offset + f.region.pages) }
    ensures byte { IfOk result (λ f. f.byte + bytes ≤ tables.now.page_bytes) }
{
    match actor_at(&tables.actors, actor.0) {
        Some(actor) => locate(
            &actor.regions,
            tables.page_bytes as u64,
            address,
            bytes as u64,
        ),
        None => Err(Refusal::NoActor),
    }
}
