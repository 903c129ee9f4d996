// The heirs of a range get its pages, before these are replaced.
ghost use Rattle.std.specs.Prelude.{◌≡◌, ◌≢◌, ℕ, ◌+◌, ◌<◌, ◌≤◌, ◌^◌, true, false, Some, is_some, IfErr, IfSome, IsOk, OnErr, OnOk};
ghost use Rattle.vm_ids.specs.Forest.Commands.{extent_names, page_name};
ghost use Rattle.vm_ids.specs.Forest.NameMap.{len};
ghost use Rattle.vm_ids.specs.Forest.Nodes.{is_live};
ghost use Rattle.vm_ids.specs.Forest.Rules as forest;
ghost use Rattle.vm_ids.specs.Forest.Saving.{is_unsaved};
ghost use Rattle.local_cache.specs.Arena.{HasNode, node_at};
ghost use Rattle.local_cache.specs.Reading.{forest_of, name_of};
ghost use Rattle.local_cache.specs.Sound.{IsSound};
ghost use Rattle.local_cache.specs.Whole.{IsWhole};
ghost use Rattle.residency.specs.Between.{Across, Between, RightStore};
ghost use Rattle.residency.specs.Translating.{Drops};
ghost use Rattle.fault_path.specs.Faults.{HasLoose};
ghost use Rattle.segment_ops.specs.Keeping.{StaysWhole};
ghost use Rattle.segment_ops.specs.Ranges.{HasRange};
ghost use Rattle.segment_ops.specs.Saving.{AreSaved, AreSavedNow, HasFailed, OnlySavedCome, SavesEnd};
ghost use Rattle.segment_ops.specs.Translating.{IsSavedOrAbsent};

use crate::alike::heirless_nodes;
use fault_path::save;
use history_tree::heir;
use local_cache::Caches;
use residency::Store;
use vm_ids::{Extent, NodeId, NodeName, PageNo};
use vm_port::{Chooser, Mapper};

// The heir of a page that has an own page.
fn reader(caches: &Caches, node: NodeId) -> Option<NodeId>
    requires sound { IsSound caches.now }
    requires node { HasNode caches.now node }
    requires live { is_live (name_of caches.now node) ≡ true }
    ensures unsaved { is_some result ≡ is_unsaved (forest_of caches.now) (name_of caches.now node) }
    ensures heir { IfSome result (λ h. forest.heir (forest_of caches.now) (name_of caches.now node)
        ≡ Some (name_of caches.now h)) }
    ensures held { IfSome result (λ h. HasNode caches.now h) }
{
    if caches.own_state(node).is_absent() {
        None
    } else {
        heir(caches, node)
    }
}

// How many pages, from the first one of a range on, need no save, where that one needs none: as
// many as have nodes that are alike and without heirs, or else one.
fn saved_pages(caches: &Caches, range: Extent, node: NodeId) -> u32
    requires sound { IsSound caches.now }
    requires node { node_at caches.now range.cache.0 range.first.0 ≡ Some node }
    requires some { 0 < range.pages }
    requires saved { is_unsaved (forest_of caches.now) (page_name range.cache range.first.0)
        ≡ false }
    ensures some { 0 < result }
    ensures few { result ≤ range.pages }
    ensures saved { (p : ℕ) → range.first.0 ≤ p → p < range.first.0 + result
        → is_unsaved (forest_of caches.now) (page_name range.cache p) ≡ false }
{
    heirless_nodes(caches, node, range.pages).max(1)
}

// Where the next page to save may be, after that of `page` was saved for its heir: at the heir,
// where that is a page of the range before it, and else behind it.
fn next_page(caches: &Caches, range: Extent, page: u32, heir: NodeId) -> u32
    requires node { HasNode caches.now heir }
    requires first { range.first.0 ≤ page }
    requires past { page < range.first.0 + range.pages }
    requires end { range.first.0 + range.pages < 2 ^ 32 }
    ensures first { range.first.0 ≤ result }
    ensures past { result ≤ page + 1 }
    ensures apart { (p : ℕ) → range.first.0 ≤ p → p < result → p ≢ page
        → name_of caches.now heir ≢ page_name range.cache p }
{
    match caches.name(heir) {
        NodeName::Live(cache, PageNo(next))
            if cache == range.cache && range.first.0 <= next && next < page => next,
        _ => page + 1,
    }
}

/// Saves the pages of a range: the least page that has an own page and an heir is given to the
/// heir, again and again until there is none. It is done before the pages of a named cache are
/// replaced. A failed pull or push ends it; the error tells how many saves were done.
pub fn save_range<M: Mapper, C: Chooser>(
    store: &mut Store,
    caches: &mut Caches,
    range: Extent,
    mapper: &mut M,
    chooser: &mut C,
) -> Result<(), u32>
    requires right { RightStore M.Mapper mapper.old caches.old store.old }
    requires whole { IsWhole caches.old }
    requires range { HasRange caches.old range }
    requires loose { HasLoose 2 store.old.frames }
    requires copies { caches.old.copies + len (forest_of caches.old).nodes < 2 ^ 63 }
    ensures stays { Across StaysWhole M.Mapper
        mapper.old caches.old store.old mapper.new caches.new store.new }
    ensures saved { OnOk result (Between (AreSaved (extent_names range)) M.Mapper
        mapper.old caches.old store.old mapper.new caches.new store.new) }
    ensures failed { IfErr result (λ done. Between (SavesEnd (extent_names range) done)
        M.Mapper mapper.old caches.old store.old mapper.new caches.new store.new) }
    ensures cause { OnErr result (HasFailed (M.counts mapper.old) (M.counts mapper.new)) }
    ensures copies { caches.new.copies
        ≤ caches.old.copies + len (forest_of caches.old).nodes }
    ensures copied { IfErr result (λ done. caches.new.copies ≡ caches.old.copies + done) }
    ensures idle { AreSavedNow caches.old (extent_names range)
        → IsOk result × (store.new ≡ store.old) × (caches.new ≡ caches.old)
        × (mapper.new ≡ mapper.old) × (chooser.new ≡ chooser.old) }
    ensures drops { Drops (IsSavedOrAbsent caches.old range)
        caches.old store.old caches.new store.new }
    ensures frames { Between (OnlySavedCome result (extent_names range)) M.Mapper
        mapper.old caches.old store.old mapper.new caches.new store.new }
{
    let mut done = 0;
    let mut page = range.first.0;
    let end = range.first.0 + range.pages;
    while page < end {
        let node = caches.node_of(range.cache, PageNo(page));
        match reader(caches, node) {
            Some(heir) => {
                let Ok(()) = save(store, caches, node, mapper, chooser) else {
                    return Err(done);
                };
                done += 1;
                page = next_page(caches, range, page, heir);
            }
            None => {
                let rest = Extent {
                    cache: range.cache,
                    first: PageNo(page),
                    pages: end - page,
                };
                page += saved_pages(caches, rest, node);
            }
        }
    }
    Ok(())
}
