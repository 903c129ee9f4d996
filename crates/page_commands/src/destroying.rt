// The pages of a cache go, and the store follows.
ghost use Rattle.std.specs.Prelude.{◌≡◌, ◌+◌, ◌-◌, ◌*◌, ◌<◌, ◌≤◌, ◌^◌, false, [], Some, IsSome, length};
ghost use Rattle.vm_ids.specs.Forest.Commands.{destroy as rule_destroy, page_name, page_names, retire_all};
ghost use Rattle.vm_ids.specs.Forest.NameLists.{◌∈◌};
ghost use Rattle.vm_ids.specs.Forest.NameMap.{len};
ghost use Rattle.vm_ids.specs.Forest.Shape.{IsConsistent};
ghost use Rattle.local_cache.specs.Arena.{node_at};
ghost use Rattle.local_cache.specs.Own.{own_states};
ghost use Rattle.local_cache.specs.Reading.{forest_of};
ghost use Rattle.local_cache.specs.Sound.{IsSound};
ghost use Rattle.local_cache.specs.Whole.{size_of};
ghost use Rattle.page_commands.specs.Commands.{CanReplace, CanRetire, Empties};
ghost use Rattle.page_commands.specs.Homes.{AllMayGo, MayGo};
ghost use Rattle.page_commands.specs.Readings.{GoesBy};
ghost use Rattle.page_commands.specs.Steps.{IsStoreTied, IsUnpinned, Kept, Releases};
ghost use Rattle.page_commands.specs.Translating.{Replaces};

use crate::following::follow;
use crate::forgetting::forget_touched;
use crate::settling::settle;
use crate::untouched::untouched_nodes;
use local_cache::Caches;
use residency::Store;
use tree_merge::retire_step;
use vm_ids::{CacheId, Extent, PageNo};

// Retires the pages of a live cache that come next: as many as are alike at once, or else one. How
// many.
fn retire_next(store: &mut Store, caches: &mut Caches, cache: CacheId, pages: u32, done: u32) -> u32
    requires tied { IsStoreTied store.old caches.old }
    requires sound { IsSound caches.old }
    requires done { done < pages }
    requires node { IsSome (node_at caches.old cache.0 done) }
    requires made { caches.old.made + (pages - done) < 3 * 2 ^ 61 }
    requires unpinned { IsUnpinned store.old caches.old (page_name cache done) }
    requires may { MayGo caches.old (page_name cache done) }
    ensures some { 0 < result }
    ensures few { done + result ≤ pages }
    ensures rule { GoesBy (λ P put f. retire_all (page_names cache done result) f)
        store.old caches.old store.new caches.new }
    ensures kept { Releases [] store.old caches.old store.new caches.new }
    ensures room { caches.old.room.nodes ≤ caches.new.room.nodes }
    ensures fewer { length (own_states caches.new) ≤ length (own_states caches.old) }
{
    let node = caches.node_of(cache, PageNo(done));
    let untouched = untouched_nodes(caches, node, pages - done);
    if untouched > 0 {
        caches.free_many(node, untouched);
        return untouched;
    }
    let extent = Extent {
        cache,
        first: PageNo(0),
        pages,
    };
    let step = retire_step(caches, extent, done);
    follow(store, caches, step.released);
    step.pages
}

// Retires the pages of a live cache in rising order.
fn retire_pages(store: &mut Store, caches: &mut Caches, cache: CacheId, pages: u32)
    requires pages { size_of caches.old cache.0 ≡ Some pages }
    requires retire { CanRetire pages (page_names cache 0 pages) store.old caches.old }
    requires may { AllMayGo caches.old (page_names cache 0 pages) }
    ensures rule { GoesBy (λ P put f. retire_all (page_names cache 0 pages) f)
        store.old caches.old store.new caches.new }
    ensures kept { Releases [] store.old caches.old store.new caches.new }
    ensures consistent { IsConsistent (forest_of caches.new) }
    ensures made { caches.new.made ≤ caches.old.made + pages }
    ensures few { len (forest_of caches.new).nodes ≤ len (forest_of caches.old).nodes }
    ensures room { caches.old.room.nodes ≤ caches.new.room.nodes }
    ensures fewer { length (own_states caches.new) ≤ length (own_states caches.old) }
{
    let mut done = 0;
    while done < pages {
        done += retire_next(store, caches, cache, pages, done);
    }
}

/// Retires all pages of a live cache, none of which is pinned, and settles. The cache can be
/// removed then. Where it is named by a segment the heirs of its pages have their saves: what it
/// has is forgotten first. The translations of the frames that fall free are dropped; a frame that
/// stays has a page that others see there still.
pub fn destroy_pages(store: &mut Store, caches: &mut Caches, cache: CacheId, pages: u32)
    requires pages { size_of caches.old cache.0 ≡ Some pages }
    requires ready { CanReplace pages cache (page_names cache 0 pages) store.old caches.old }
    ensures rule { GoesBy (λ P put f. rule_destroy false (page_names cache 0 pages) f)
        store.old caches.old store.new caches.new }
    ensures kept { Kept [] store.old caches.old store.new caches.new }
    ensures empties { Empties cache pages store.old caches.old store.new caches.new }
    ensures translations { Replaces (λ x. x ∈ page_names cache 0 pages) (λ x. ⊥)
        caches.old store.old caches.new store.new }
{
    let extent = Extent {
        cache,
        first: PageNo(0),
        pages,
    };
    forget_touched(store, caches, extent);
    retire_pages(store, caches, cache, pages);
    settle(store, caches);
}
