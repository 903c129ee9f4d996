// The translations that must not outlive a change of the pages that they lead to.
ghost use Rattle.std.specs.Prelude.{◌≡◌, ◌+◌, ◌<◌, ◌≤◌, ◌^◌, [], ◌∷◌, IsSome, IsTrue, ◌↔◌, false};
ghost use Rattle.vm_ids.specs.declared.node_name.NodeName.{NodeName};
ghost use Rattle.vm_ids.specs.Forest.Commands.{extent_names, page_names};
ghost use Rattle.vm_ids.specs.Forest.Laws.Ranges.{AreNodes};
ghost use Rattle.vm_ids.specs.Forest.NameLists.{◌∈◌};
ghost use Rattle.vm_ids.specs.Forest.Shape.{IsConsistent};
ghost use Rattle.local_cache.specs.Arena.{HasNode, node_at};
ghost use Rattle.local_cache.specs.Many.{AreAlike};
ghost use Rattle.local_cache.specs.Own.{is_resident, own_of};
ghost use Rattle.local_cache.specs.Reading.{forest_of, name_of};
ghost use Rattle.local_cache.specs.Sound.{IsSound};
ghost use Rattle.local_cache.specs.Whole.{IsWhole};
ghost use Rattle.residency.specs.Translating.{without};
ghost use Rattle.page_commands.specs.Steps.{IsStoreTied};
ghost use Rattle.page_commands.specs.Translating.{is_owned, is_seen, where_mapped, with_narrowed};

use history_tree::owner_of;
use local_cache::{Caches, OwnState};
use residency::Store;
use vm_ids::{CacheId, Extent, NodeId, NodeName, PageNo};

// Whether an own page is in no frame.
fn is_frameless(state: OwnState) -> bool
    ensures { IsTrue result → is_resident state ≡ false }
{
    !matches!(state, OwnState::Resident { .. })
}

// How many nodes, from one on, are alike and in no frame, as far as so many.
fn frameless(caches: &Caches, node: NodeId, most: u32) -> u32
    requires { HasNode caches.now node }
    ensures most { result ≤ most }
    ensures alike { AreAlike caches.now node result }
    ensures frameless { 0 < result → is_resident (own_of caches.now node) ≡ false }
{
    if is_frameless(caches.own_state(node)) {
        caches.stretch(node).min(most)
    } else {
        0
    }
}

// The translations are dropped that lead to the frame in which the page of a node is seen.
fn drop_seen_page(store: &mut Store, caches: &Caches, node: NodeId)
    requires tied { IsStoreTied store.old caches.now }
    requires sound { IsSound caches.now }
    requires consistent { IsConsistent (forest_of caches.now) }
    requires node { HasNode caches.now node }
    ensures { store.new ≡ record store.old {
      tables = without (is_seen caches.now store.old.map (name_of caches.now node ∷ []))
          store.old.tables;
    } }
{
    let owner = owner_of(caches, node);
    if let Some(frame) = store.map().get(owner) {
        store.tables_mut().drop_frame(frame);
    }
}

// The translations that lead to the own page of a node are for reading alone from then on.
fn narrow_own_page(store: &mut Store, caches: &Caches, node: NodeId)
    requires tied { IsStoreTied store.old caches.now }
    requires sound { IsSound caches.now }
    requires node { HasNode caches.now node }
    ensures { store.new ≡ record store.old {
      tables = with_narrowed (is_owned caches.now store.old.map (name_of caches.now node ∷ []))
          store.old.tables;
    } }
{
    if let Some(frame) = store.map().get(node) {
        store.tables_mut().narrow_frame(frame);
    }
}

// Drops the translations that lead to the frames in which the first of so many pages are seen: as
// many as are alike, with own pages in no frame, to which none leads, or one. It answers how many.
fn drop_seen_next(
    store: &mut Store,
    caches: &Caches,
    cache: CacheId,
    page: PageNo,
    most: u32,
) -> u32
    requires tied { IsStoreTied store.old caches.now }
    requires sound { IsSound caches.now }
    requires consistent { IsConsistent (forest_of caches.now) }
    requires node { IsSome (node_at caches.now cache.0 page.0) }
    requires some { 0 < most }
    ensures some { 0 < result }
    ensures most { result ≤ most }
    ensures dropped { store.new ≡ record store.old {
      tables = without (is_seen caches.now store.old.map (page_names cache page.0 result))
          store.old.tables;
    } }
{
    let node = caches.node_of(cache, page);
    let alike = frameless(caches, node, most);
    if alike > 0 && !caches.own_state(node).is_absent() {
        return alike;
    }
    drop_seen_page(store, caches, node);
    1
}

// The translations are dropped that lead to the frames in which the pages of a range are seen.
pub(crate) fn drop_seen(store: &mut Store, caches: &Caches, extent: Extent)
    requires tied { IsStoreTied store.old caches.now }
    requires whole { IsWhole caches.now }
    requires within { extent.first.0 + extent.pages < 2 ^ 32 }
    requires nodes { AreNodes (forest_of caches.now) extent.cache extent.first.0 extent.pages }
    ensures { store.new ≡ record store.old {
      tables = without (is_seen caches.now store.old.map (extent_names extent))
          store.old.tables;
    } }
{
    let mut done = 0;
    while done < extent.pages {
        done += drop_seen_next(
            store,
            caches,
            extent.cache,
            PageNo(extent.first.0 + done),
            extent.pages - done,
        );
    }
}

// The translations to the pages of a range are dropped where a region maps the cache. Where none
// does, no translation is of a page of it, and none is sought.
pub(crate) fn drop_seen_where_mapped(
    store: &mut Store,
    caches: &Caches,
    mapped: bool,
    extent: Extent,
)
    requires tied { IsStoreTied store.old caches.now }
    requires whole { IsWhole caches.now }
    requires within { extent.first.0 + extent.pages < 2 ^ 32 }
    requires nodes { AreNodes (forest_of caches.now) extent.cache extent.first.0 extent.pages }
    ensures { store.new ≡ record store.old {
      tables = without (is_seen caches.now store.old.map
          (where_mapped mapped (extent_names extent))) store.old.tables;
    } }
{
    if mapped {
        drop_seen(store, caches, extent);
    }
}

// Leaves the translations that lead to the own pages of the first of so many nodes for reading
// alone: as many as are alike and in no frame, to which none leads, or one. It answers how many.
fn narrow_own_next(
    store: &mut Store,
    caches: &Caches,
    cache: CacheId,
    page: PageNo,
    most: u32,
) -> u32
    requires tied { IsStoreTied store.old caches.now }
    requires sound { IsSound caches.now }
    requires node { IsSome (node_at caches.now cache.0 page.0) }
    requires some { 0 < most }
    ensures some { 0 < result }
    ensures most { result ≤ most }
    ensures narrowed { store.new ≡ record store.old {
      tables = with_narrowed (is_owned caches.now store.old.map (page_names cache page.0 result))
          store.old.tables;
    } }
{
    let node = caches.node_of(cache, page);
    let alike = frameless(caches, node, most);
    if alike > 0 {
        return alike;
    }
    narrow_own_page(store, caches, node);
    1
}

// Whether a page of a cache is one of a range.
fn is_in(extent: Extent, cache: CacheId, page: PageNo) -> bool
    ensures { IsTrue result ↔ (NodeName.Live cache page ∈ extent_names extent) }
{
    if cache.0 != extent.cache.0 {
        return false;
    }
    if page.0 < extent.first.0 {
        return false;
    }
    page.0 - extent.first.0 < extent.pages
}

// Whether a node is that of a page of a range.
fn is_of(caches: &Caches, node: NodeId, extent: Extent) -> bool
    requires { HasNode caches.now node }
    ensures { IsTrue result ↔ (name_of caches.now node ∈ extent_names extent) }
{
    match caches.name(node) {
        NodeName::Live(cache, page) => is_in(extent, cache, page),
        NodeName::Working(_) => false,
    }
}

// What `narrow_own` does, by the frames to which a translation for writing leads.
fn narrow_written(store: &mut Store, caches: &Caches, extent: Extent)
    requires tied { IsStoreTied store.old caches.now }
    requires whole { IsWhole caches.now }
    requires nodes { AreNodes (forest_of caches.now) extent.cache extent.first.0 extent.pages }
    ensures { store.new ≡ record store.old {
      tables = with_narrowed (is_owned caches.now store.old.map (extent_names extent))
          store.old.tables;
    } }
{
    store.narrow_picked(|node| is_of(caches, node, extent));
}

// The translations that lead to the own pages of the nodes of a range are for reading alone from
// then on.
pub(crate) fn narrow_own(store: &mut Store, caches: &Caches, extent: Extent)
    requires tied { IsStoreTied store.old caches.now }
    requires whole { IsWhole caches.now }
    requires within { extent.first.0 + extent.pages < 2 ^ 32 }
    requires nodes { AreNodes (forest_of caches.now) extent.cache extent.first.0 extent.pages }
    ensures { store.new ≡ record store.old {
      tables = with_narrowed (is_owned caches.now store.old.map (extent_names extent))
          store.old.tables;
    } }
{
    let mut looks = store.tables().written();
    let mut done = 0;
    while done < extent.pages {
        let first = PageNo(extent.first.0 + done);
        let pages = extent.pages - done;
        if looks == 0 {
            let left = Extent {
                first,
                pages,
                ..extent
            };
            narrow_written(store, caches, left);
            return;
        }
        looks -= 1;
        done += narrow_own_next(store, caches, extent.cache, first, pages);
    }
}
