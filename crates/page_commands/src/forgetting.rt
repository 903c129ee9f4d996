// Own pages of a named cache give way to pages of zeros, and the store follows.
ghost use Rattle.std.specs.Prelude.{◌≡◌, ◌+◌, ◌<◌, ◌≤◌, ◌^◌, true, [], ◌∷◌, IsSome, length};
ghost use Rattle.vm_ids.specs.declared.node_name.NodeName.{NodeName};
ghost use Rattle.vm_ids.specs.Forest.Commands.{extent_names, page_names};
ghost use Rattle.vm_ids.specs.Forest.Forgetting.{forget, forgotten};
ghost use Rattle.vm_ids.specs.Forest.Laws.Ranges.{AreNodes};
ghost use Rattle.local_cache.specs.Arena.{node_at};
ghost use Rattle.local_cache.specs.Own.{own_states};
ghost use Rattle.local_cache.specs.Reading.{forest_of};
ghost use Rattle.local_cache.specs.Sound.{IsSound};
ghost use Rattle.local_cache.specs.Whole.{IsWhole};
ghost use Rattle.residency.specs.World.{SameNodes};
ghost use Rattle.page_commands.specs.Homes.{AllMayGo, AreUnclean, IsUnclean, is_named};
ghost use Rattle.page_commands.specs.Readings.{GoesBy};
ghost use Rattle.page_commands.specs.Steps.{AreUnpinned, IsStoreTied, IsUnpinned, Releases, forgotten_where};
ghost use Rattle.page_commands.specs.Untouched.{ForgetsSome};

use crate::following::drop_page;
use crate::untouched::untouched_nodes;
use local_cache::{Caches, OwnState};
use residency::Store;
use vm_ids::{CacheId, Extent, NodeName, PageNo};

// Where the node of a page has an own page, that is a page of zeros then, and its frame or its slot
// falls free. Its frame must not be pinned.
fn forget_page(store: &mut Store, caches: &mut Caches, cache: CacheId, page: PageNo)
    requires tied { IsStoreTied store.old caches.old }
    requires sound { IsSound caches.old }
    requires node { IsSome (node_at caches.old cache.0 page.0) }
    requires unpinned { IsUnpinned store.old caches.old (NodeName.Live cache page) }
    ensures rule { GoesBy (λ P put f. forget f (NodeName.Live cache page) put.zeros)
        store.old caches.old store.new caches.new }
    ensures kept { Releases (NodeName.Live cache page ∷ [])
        store.old caches.old store.new caches.new }
    ensures same { SameNodes caches.old caches.new }
    ensures unclean { IsUnclean caches.new (NodeName.Live cache page) }
    ensures count { length (own_states caches.new) ≡ length (own_states caches.old) }
{
    let node = caches.node_of(cache, page);
    let state = caches.own_state(node);
    if !state.is_absent() {
        drop_page(store, node, state);
        caches.set_state(node, OwnState::Zero);
    }
}

// Forgets the own pages of a range of pages, none of which is pinned: each node that has one has a
// page of zeros then, and its frame or its swap slot falls free. Nodes that have none are left
// alone.
fn forget_pages(store: &mut Store, caches: &mut Caches, extent: Extent)
    requires tied { IsStoreTied store.old caches.old }
    requires sound { IsSound caches.old }
    requires within { extent.first.0 + extent.pages < 2 ^ 32 }
    requires nodes { AreNodes (forest_of caches.old) extent.cache extent.first.0 extent.pages }
    requires unpinned { AreUnpinned store.old caches.old (extent_names extent) }
    ensures rule { GoesBy (λ P put f. forgotten (extent_names extent) put.zeros f)
        store.old caches.old store.new caches.new }
    ensures kept { Releases (extent_names extent)
        store.old caches.old store.new caches.new }
    ensures same { SameNodes caches.old caches.new }
    ensures unclean { AreUnclean caches.new (extent_names extent) }
    ensures count { length (own_states caches.new) ≡ length (own_states caches.old) }
{
    for page in 0..extent.pages {
        forget_page(store, caches, extent.cache, PageNo(extent.first.0 + page));
    }
}

// Forgets the first page of a range. As many pages from there on as are alike and untouched are
// passed over at once. It answers how many pages were done.
fn forget_next(
    store: &mut Store,
    caches: &mut Caches,
    cache: CacheId,
    page: PageNo,
    most: u32,
) -> u32
    requires tied { IsStoreTied store.old caches.old }
    requires sound { IsSound caches.old }
    requires node { IsSome (node_at caches.old cache.0 page.0) }
    requires named { is_named caches.old cache ≡ true }
    requires some { 0 < most }
    requires unpinned { IsUnpinned store.old caches.old (NodeName.Live cache page) }
    ensures some { 0 < result }
    ensures few { result ≤ most }
    ensures rule { ForgetsSome cache (page_names cache page.0 result)
        store.old caches.old store.new caches.new }
    ensures kept { Releases (page_names cache page.0 result)
        store.old caches.old store.new caches.new }
    ensures same { SameNodes caches.old caches.new }
    ensures may { AllMayGo caches.new (page_names cache page.0 result) }
    ensures count { length (own_states caches.new) ≡ length (own_states caches.old) }
{
    let node = caches.node_of(cache, page);
    let untouched = untouched_nodes(caches, node, most);
    if untouched > 0 {
        return untouched;
    }
    forget_page(store, caches, cache, page);
    1
}

// Forgets the own pages of a range of pages of a named cache, none of which is pinned, but for
// those that are untouched.
fn forget_range(store: &mut Store, caches: &mut Caches, extent: Extent)
    requires tied { IsStoreTied store.old caches.old }
    requires sound { IsSound caches.old }
    requires within { extent.first.0 + extent.pages < 2 ^ 32 }
    requires nodes { AreNodes (forest_of caches.old) extent.cache extent.first.0 extent.pages }
    requires named { is_named caches.old extent.cache ≡ true }
    requires unpinned { AreUnpinned store.old caches.old (extent_names extent) }
    ensures rule { ForgetsSome extent.cache (extent_names extent)
        store.old caches.old store.new caches.new }
    ensures kept { Releases (extent_names extent)
        store.old caches.old store.new caches.new }
    ensures same { SameNodes caches.old caches.new }
    ensures may { AllMayGo caches.new (extent_names extent) }
    ensures count { length (own_states caches.new) ≡ length (own_states caches.old) }
{
    let mut done = 0;
    while done < extent.pages {
        done += forget_next(
            store,
            caches,
            extent.cache,
            PageNo(extent.first.0 + done),
            extent.pages - done,
        );
    }
}

// Forgets the own pages of a range of pages, so that their nodes may go: those that are in memory,
// or to whose nodes others are linked, where the cache is named.
pub(crate) fn forget_touched(store: &mut Store, caches: &mut Caches, extent: Extent)
    requires tied { IsStoreTied store.old caches.old }
    requires whole { IsWhole caches.old }
    requires within { extent.first.0 + extent.pages < 2 ^ 32 }
    requires nodes { AreNodes (forest_of caches.old) extent.cache extent.first.0 extent.pages }
    requires unpinned { AreUnpinned store.old caches.old (extent_names extent) }
    ensures rule { ForgetsSome extent.cache (extent_names extent)
        store.old caches.old store.new caches.new }
    ensures kept { Releases (extent_names extent)
        store.old caches.old store.new caches.new }
    ensures same { SameNodes caches.old caches.new }
    ensures whole { IsWhole caches.new }
    ensures may { AllMayGo caches.new (extent_names extent) }
    ensures count { length (own_states caches.new) ≡ length (own_states caches.old) }
{
    if caches.segment(extent.cache).is_some() {
        forget_range(store, caches, extent);
    }
}

// Forgets all own pages of a range, none of which is pinned, where the cache is named. Those of a
// temporary one stay.
pub(crate) fn forget_named(store: &mut Store, caches: &mut Caches, extent: Extent)
    requires tied { IsStoreTied store.old caches.old }
    requires whole { IsWhole caches.old }
    requires within { extent.first.0 + extent.pages < 2 ^ 32 }
    requires nodes { AreNodes (forest_of caches.old) extent.cache extent.first.0 extent.pages }
    requires unpinned { AreUnpinned store.old caches.old (extent_names extent) }
    ensures rule { GoesBy (λ P put f. forgotten_where (is_named caches.old extent.cache)
        (extent_names extent) put.zeros f) store.old caches.old store.new caches.new }
    ensures kept { Releases (extent_names extent)
        store.old caches.old store.new caches.new }
    ensures same { SameNodes caches.old caches.new }
    ensures whole { IsWhole caches.new }
    ensures unclean { AreUnclean caches.new (extent_names extent) }
    ensures count { length (own_states caches.new) ≡ length (own_states caches.old) }
{
    if caches.segment(extent.cache).is_some() {
        forget_pages(store, caches, extent);
    }
}
