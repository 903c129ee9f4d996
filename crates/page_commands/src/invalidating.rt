// Pages of a named cache become what their segment holds, and the store follows.
ghost use Rattle.std.specs.Prelude.{◌≡◌, ◌+◌, ◌*◌, ◌<◌, ◌≤◌, ◌^◌, true, IsSome};
ghost use Rattle.vm_ids.specs.declared.node_name.NodeName.{NodeName};
ghost use Rattle.vm_ids.specs.Forest.Commands.{extent_names, page_names, replace_pages};
ghost use Rattle.vm_ids.specs.Forest.Laws.Ranges.{AreNodes};
ghost use Rattle.vm_ids.specs.Forest.NameLists.{◌∈◌};
ghost use Rattle.vm_ids.specs.Forest.Settling.{settle as rule_settle};
ghost use Rattle.vm_ids.specs.Forest.Shape.{IsConsistent};
ghost use Rattle.local_cache.specs.Arena.{node_at};
ghost use Rattle.local_cache.specs.Reading.{forest_of};
ghost use Rattle.local_cache.specs.Sound.{IsSound};
ghost use Rattle.page_commands.specs.Commands.{CanReplace, CanRetire, Grows, HasRoom, KeepsPages};
ghost use Rattle.page_commands.specs.Homes.{AllMayGo, IsClean, MayGo, is_named};
ghost use Rattle.page_commands.specs.Readings.{GoesBy, held_pages};
ghost use Rattle.page_commands.specs.Steps.{IsStoreTied, IsUnpinned, Kept, Releases};
ghost use Rattle.page_commands.specs.Translating.{Leaves, Replaces};

use crate::forgetting::forget_touched;
use crate::settling::settle;
use crate::steps::detach_page;
use crate::translations::drop_seen;
use crate::untouched::untouched_nodes;
use local_cache::{Caches, OwnState};
use residency::Store;
use vm_ids::{CacheId, Extent, NodeName, PageNo};

// The first page of a range is detached, and is what its segment holds. As many pages from there on
// as are alike and untouched are so already, and are passed over at once. It answers how many pages
// were done.
fn replace_next(
    store: &mut Store,
    caches: &mut Caches,
    cache: CacheId,
    page: PageNo,
    most: u32,
) -> u32
    requires named { is_named caches.old cache ≡ true }
    requires tied { IsStoreTied store.old caches.old }
    requires sound { IsSound caches.old }
    requires consistent { IsConsistent (forest_of caches.old) }
    requires node { IsSome (node_at caches.old cache.0 page.0) }
    requires some { 0 < most }
    requires room { 1 ≤ caches.old.room.nodes }
    requires made { caches.old.made < 3 * 2 ^ 61 }
    requires unpinned { IsUnpinned store.old caches.old (NodeName.Live cache page) }
    requires may { MayGo caches.old (NodeName.Live cache page) }
    ensures some { 0 < result }
    ensures few { result ≤ most }
    ensures rule { GoesBy (λ P put f. replace_pages
        (held_pages put (page_names cache page.0 result)) f)
        store.old caches.old store.new caches.new }
    ensures kept { Releases (page_names cache page.0 result)
        store.old caches.old store.new caches.new }
    ensures clean { (x : NodeName) → x ∈ page_names cache page.0 result → IsClean caches.new x }
    ensures grows { Grows result caches.old caches.new }
{
    let node = caches.node_of(cache, page);
    let untouched = untouched_nodes(caches, node, most);
    if untouched > 0 {
        return untouched;
    }
    detach_page(store, caches, cache, page, OwnState::OnSegment);
    1
}

// Each page of a range is what its segment holds, in rising order.
fn replace_each(store: &mut Store, caches: &mut Caches, extent: Extent)
    requires named { is_named caches.old extent.cache ≡ true }
    requires within { extent.first.0 + extent.pages < 2 ^ 32 }
    requires nodes { AreNodes (forest_of caches.old) extent.cache extent.first.0 extent.pages }
    requires retire { CanRetire extent.pages (extent_names extent) store.old caches.old }
    requires may { AllMayGo caches.old (extent_names extent) }
    requires room { extent.pages ≤ caches.old.room.nodes }
    ensures rule { GoesBy (λ P put f. replace_pages
        (held_pages put (extent_names extent)) f)
        store.old caches.old store.new caches.new }
    ensures kept { Releases (extent_names extent)
        store.old caches.old store.new caches.new }
    ensures clean { (x : NodeName) → x ∈ extent_names extent → IsClean caches.new x }
    ensures grows { Grows extent.pages caches.old caches.new }
{
    let mut done = 0;
    while done < extent.pages {
        done += replace_next(
            store,
            caches,
            extent.cache,
            PageNo(extent.first.0 + done),
            extent.pages - done,
        );
    }
}

// The pages are what their segment holds, once no translation leads to one of them.
fn invalidate_and_settle(store: &mut Store, caches: &mut Caches, extent: Extent)
    requires named { is_named caches.old extent.cache ≡ true }
    requires within { extent.first.0 + extent.pages < 2 ^ 32 }
    requires nodes { AreNodes (forest_of caches.old) extent.cache extent.first.0 extent.pages }
    requires ready { CanReplace extent.pages extent.cache (extent_names extent)
        store.old caches.old }
    requires room { HasRoom extent.pages caches.old }
    ensures rule { GoesBy (λ P put f. rule_settle (replace_pages
        (held_pages put (extent_names extent)) f))
        store.old caches.old store.new caches.new }
    ensures kept { Releases (extent_names extent)
        store.old caches.old store.new caches.new }
    ensures pages { KeepsPages extent.pages store.old caches.old store.new caches.new }
    ensures translations { Replaces (λ x. x ∈ extent_names extent) (λ x. ⊥)
        caches.old store.old caches.new store.new }
{
    forget_touched(store, caches, extent);
    replace_each(store, caches, extent);
    settle(store, caches);
}

/// Each page of a range of a named cache, none of which is pinned, becomes what its segment holds.
/// No page is brought in: what the pages have is forgotten, and their heirs have their saves. No
/// translation leads to where one of them was seen.
pub fn invalidate_pages(store: &mut Store, caches: &mut Caches, extent: Extent)
    requires named { is_named caches.old extent.cache ≡ true }
    requires within { extent.first.0 + extent.pages < 2 ^ 32 }
    requires nodes { AreNodes (forest_of caches.old) extent.cache extent.first.0 extent.pages }
    requires ready { CanReplace extent.pages extent.cache (extent_names extent)
        store.old caches.old }
    requires room { HasRoom extent.pages caches.old }
    ensures rule { GoesBy (λ P put f. rule_settle (replace_pages
        (held_pages put (extent_names extent)) f))
        store.old caches.old store.new caches.new }
    ensures kept { Kept (extent_names extent)
        store.old caches.old store.new caches.new }
    ensures pages { KeepsPages extent.pages store.old caches.old store.new caches.new }
    ensures translations { Leaves (λ x. x ∈ extent_names extent)
        (λ x. x ∈ extent_names extent) (λ x. ⊥)
        caches.old store.old caches.new store.new }
{
    drop_seen(store, caches, extent);
    invalidate_and_settle(store, caches, extent);
}
