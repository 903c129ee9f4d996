// Pages of segments are pushed home, and given up.
ghost use Rattle.std.specs.Prelude.{◌≡◌, ℕ, ◌*◌, ◌+◌, ◌<◌, ◌≤◌, true, false, Some, IfErr, IfOk, IsSome, OnErr, OnOk};
ghost use Rattle.vm_ids.specs.declared.numbers.NodeId.{NodeId};
ghost use Rattle.frame_pool.specs.Pool.{is_pinned};
ghost use Rattle.global_map.specs.Pairs.{node_of};
ghost use Rattle.local_cache.specs.Arena.{node_at};
ghost use Rattle.local_cache.specs.Home.{home_of};
ghost use Rattle.local_cache.specs.Own.{is_resident, own_of};
ghost use Rattle.local_cache.specs.Sound.{IsSound};
ghost use Rattle.local_cache.specs.Whole.{IsWhole};
ghost use Rattle.residency.specs.Between.{Across, Between, RightStore, world_at};
ghost use Rattle.residency.specs.Causes.{Later, Traffic};
ghost use Rattle.residency.specs.Translating.{Drops};
ghost use Rattle.residency.specs.World.{HasUnpinned, OthersStay, Still, is_clean as is_page_clean, world};
ghost use Rattle.fault_path.specs.Answers.{RightForest};
ghost use Rattle.fault_path.specs.Costs.{TrafficAtMost};
ghost use Rattle.fault_path.specs.Faults.{IsOwner, SameForest};
ghost use Rattle.fault_path.specs.Translating.{Nobody};
ghost use Rattle.segment_ops.specs.Keeping.{StaysWhole};
ghost use Rattle.segment_ops.specs.Pushing.{TellsValues};
ghost use Rattle.segment_ops.specs.Ranges.{HasRange, IsNamed, IsPageOf};
ghost use Rattle.segment_ops.specs.Saving.{HasFailed};
ghost use Rattle.segment_ops.specs.Synced.{AreLoose, AreOut, AreSynced, CleanStays, IsSynced, is_settled, unclean, unclean_at, unclean_count};
ghost use Rattle.segment_ops.specs.Translating.{IsReadBy};

use crate::alike::{clean_nodes, frameless_nodes, is_clean};
use history_tree::owner_of;
use local_cache::{Caches, Home, OwnState};
use residency::Store;
use vm_ids::{Extent, NodeId, PageNo};
use vm_port::{Chooser, Failed, Mapper};

// Pushes what a node reads to its home, which doesn't hold it: its own page, which is clean in its
// frame then, or that of its owner.
fn push_page<M: Mapper, C: Chooser>(
    store: &mut Store,
    caches: &mut Caches,
    node: NodeId,
    home: Home,
    mapper: &mut M,
    chooser: &mut C,
) -> Result<(), Failed>
    requires right { RightForest M.Mapper mapper.old caches.old store.old }
    requires home { home_of caches.old node ≡ Some home }
    requires unclean { is_page_clean (own_of caches.old node) ≡ false }
    requires unpinned { HasUnpinned store.old.frames }
    ensures still { Between Still M.Mapper
        mapper.old caches.old store.old mapper.new caches.new store.new }
    ensures told { Across TellsValues M.Mapper
        mapper.old caches.old store.old mapper.new caches.new store.new }
    ensures pinned { store.new.frames.pinned ≡ store.old.frames.pinned }
    ensures later { Later (M.counts mapper.old) (M.counts mapper.new) }
    ensures clean { CleanStays caches.old caches.new }
    ensures synced { OnOk result (IsSynced
        (world_at M.Mapper mapper.new caches.new store.new) node) }
    ensures most { TrafficAtMost 1 2 (M.counts mapper.old) (M.counts mapper.new) }
    ensures cause { OnErr result (HasFailed (M.counts mapper.old) (M.counts mapper.new)) }
    ensures drops { Drops (IsOwner caches.old node) caches.old store.old caches.new store.new }
{
    let owner = owner_of(caches, node);
    let Ok(frame) = store.bring_in(caches, owner, mapper, chooser) else {
        return Err(Failed);
    };
    mapper.push_out(home.segment, home.page, store.frames().bytes(frame))?;
    if !caches.own_state(node).is_absent() {
        caches.set_state(node, OwnState::Resident { dirty: false });
    }
    Ok(())
}

// Pushes what a node reads to its home, if the home doesn't hold it already.
fn sync_page<M: Mapper, C: Chooser>(
    store: &mut Store,
    caches: &mut Caches,
    node: NodeId,
    mapper: &mut M,
    chooser: &mut C,
) -> Result<(), Failed>
    requires right { RightForest M.Mapper mapper.old caches.old store.old }
    requires home { IsSome (home_of caches.old node) }
    requires unpinned { HasUnpinned store.old.frames }
    ensures still { Between Still M.Mapper
        mapper.old caches.old store.old mapper.new caches.new store.new }
    ensures told { Across TellsValues M.Mapper
        mapper.old caches.old store.old mapper.new caches.new store.new }
    ensures pinned { store.new.frames.pinned ≡ store.old.frames.pinned }
    ensures later { Later (M.counts mapper.old) (M.counts mapper.new) }
    ensures clean { CleanStays caches.old caches.new }
    ensures synced { OnOk result (IsSynced
        (world_at M.Mapper mapper.new caches.new store.new) node) }
    ensures most { TrafficAtMost (unclean (own_of caches.old node))
        (2 * unclean (own_of caches.old node)) (M.counts mapper.old) (M.counts mapper.new) }
    ensures cause { OnErr result (HasFailed (M.counts mapper.old) (M.counts mapper.new)) }
    ensures drops { Drops (IsOwner caches.old node) caches.old store.old caches.new store.new }
{
    if is_clean(caches, node) {
        return Ok(());
    }
    let home = caches.home(node).unwrap();
    push_page(store, caches, node, home, mapper, chooser)
}

// Pushes the first page of a range home, where its segment doesn't hold it. As many pages from
// there on as are alike and held by their segment are passed over at once. It answers how many
// pages were done.
fn push_next<M: Mapper, C: Chooser>(
    store: &mut Store,
    caches: &mut Caches,
    range: Extent,
    mapper: &mut M,
    chooser: &mut C,
) -> Result<u32, Failed>
    requires right { RightForest M.Mapper mapper.old caches.old store.old }
    requires node { IsSome (node_at caches.old range.cache.0 range.first.0) }
    requires named { IsNamed caches.old range }
    requires some { 0 < range.pages }
    requires unpinned { HasUnpinned store.old.frames }
    ensures still { Between Still M.Mapper
        mapper.old caches.old store.old mapper.new caches.new store.new }
    ensures told { Across TellsValues M.Mapper
        mapper.old caches.old store.old mapper.new caches.new store.new }
    ensures pinned { store.new.frames.pinned ≡ store.old.frames.pinned }
    ensures later { Later (M.counts mapper.old) (M.counts mapper.new) }
    ensures clean { CleanStays caches.old caches.new }
    ensures some { IfOk result (λ pages. 0 < pages) }
    ensures few { IfOk result (λ pages. pages ≤ range.pages) }
    ensures synced { IfOk result (λ pages. AreSynced range (range.first.0 + pages)
        (world_at M.Mapper mapper.new caches.new store.new)) }
    ensures most { TrafficAtMost (unclean_at caches.old range.cache.0 range.first.0)
        (2 * unclean_at caches.old range.cache.0 range.first.0)
        (M.counts mapper.old) (M.counts mapper.new) }
    ensures cause { OnErr result (HasFailed (M.counts mapper.old) (M.counts mapper.new)) }
    ensures drops { Drops (IsReadBy caches.old range) caches.old store.old caches.new store.new }
{
    let node = caches.node_of(range.cache, range.first);
    let clean = clean_nodes(caches, node, range.pages);
    if clean > 0 {
        return Ok(clean);
    }
    sync_page(store, caches, node, mapper, chooser)?;
    Ok(1)
}

// Pushes the pages of a range that their segment doesn't hold, in rising order. The error is the
// page whose push, or whose frame, failed.
fn push_pages<M: Mapper, C: Chooser>(
    store: &mut Store,
    caches: &mut Caches,
    range: Extent,
    mapper: &mut M,
    chooser: &mut C,
) -> Result<(), PageNo>
    requires right { RightStore M.Mapper mapper.old caches.old store.old }
    requires whole { IsWhole caches.old }
    requires range { HasRange caches.old range }
    requires named { IsNamed caches.old range }
    requires unpinned { HasUnpinned store.old.frames }
    ensures still { Between Still M.Mapper
        mapper.old caches.old store.old mapper.new caches.new store.new }
    ensures told { Across TellsValues M.Mapper
        mapper.old caches.old store.old mapper.new caches.new store.new }
    ensures pinned { store.new.frames.pinned ≡ store.old.frames.pinned }
    ensures later { Later (M.counts mapper.old) (M.counts mapper.new) }
    ensures synced { OnOk result (AreSynced range (range.first.0 + range.pages)
        (world_at M.Mapper mapper.new caches.new store.new)) }
    ensures failed { IfErr result (λ page. IsPageOf range page.0 × AreSynced range page.0
        (world_at M.Mapper mapper.new caches.new store.new)) }
    ensures most { TrafficAtMost
        (unclean_count caches.old range.cache.0 range.first.0 range.pages)
        (2 * unclean_count caches.old range.cache.0 range.first.0 range.pages)
        (M.counts mapper.old) (M.counts mapper.new) }
    ensures cause { OnErr result (HasFailed (M.counts mapper.old) (M.counts mapper.new)) }
    ensures drops { Drops (IsReadBy caches.old range) caches.old store.old caches.new store.new }
{
    let mut page = range.first.0;
    let end = range.first.0 + range.pages;
    while page < end {
        let rest = Extent {
            cache: range.cache,
            first: PageNo(page),
            pages: end - page,
        };
        let Ok(pages) = push_next(store, caches, rest, mapper, chooser) else {
            return Err(PageNo(page));
        };
        page += pages;
    }
    Ok(())
}

// Gives up the frame of a page that its segment holds, where it is in one.
fn let_go<M: Mapper>(store: &mut Store, caches: &mut Caches, node: NodeId, mapper: &mut M)
    requires right { RightStore M.Mapper mapper.old caches.old store.old }
    requires home { IsSome (home_of caches.old node) }
    requires settled { is_settled (own_of caches.old node) ≡ true }
    requires loose { (f : ℕ) → node_of store.old.map f ≡ Some node
        → is_pinned store.old.frames f ≡ false }
    ensures still { Between Still M.Mapper
        mapper.old caches.old store.old mapper.new caches.new store.new }
    ensures others { Between OthersStay M.Mapper
        mapper.old caches.old store.old mapper.new caches.new store.new }
    ensures held { M.held mapper.new ≡ M.held mapper.old }
    ensures pinned { store.new.frames.pinned ≡ store.old.frames.pinned }
    ensures later { Later (M.counts mapper.old) (M.counts mapper.new) }
    ensures traffic { Traffic 0 0 (M.counts mapper.old) (M.counts mapper.new) }
    ensures out { is_resident (own_of caches.new node) ≡ false }
    ensures drops { Drops Nobody caches.old store.old caches.new store.new }
{
    if let Some(frame) = store.map().get(node) {
        store.evict(caches, frame, mapper).unwrap();
    }
}

// Gives up the frame of the first page of a range, which its segment holds. As many pages from
// there on as are alike and in no frame are passed over at once. It answers how many pages were
// done.
fn give_up_next<M: Mapper>(
    store: &mut Store,
    caches: &mut Caches,
    range: Extent,
    mapper: &mut M,
) -> u32
    requires right { RightStore M.Mapper mapper.old caches.old store.old }
    requires sound { IsSound caches.old }
    requires node { IsSome (node_at caches.old range.cache.0 range.first.0) }
    requires named { IsNamed caches.old range }
    requires some { 0 < range.pages }
    requires synced { AreSynced range (range.first.0 + range.pages)
        (world_at M.Mapper mapper.old caches.old store.old) }
    requires loose { AreLoose range
        (world_at M.Mapper mapper.old caches.old store.old) }
    ensures still { Between Still M.Mapper
        mapper.old caches.old store.old mapper.new caches.new store.new }
    ensures others { Between OthersStay M.Mapper
        mapper.old caches.old store.old mapper.new caches.new store.new }
    ensures held { M.held mapper.new ≡ M.held mapper.old }
    ensures pinned { store.new.frames.pinned ≡ store.old.frames.pinned }
    ensures later { Later (M.counts mapper.old) (M.counts mapper.new) }
    ensures traffic { Traffic 0 0 (M.counts mapper.old) (M.counts mapper.new) }
    ensures some { 0 < result }
    ensures few { result ≤ range.pages }
    ensures out { AreOut (record range { pages = result }) caches.new }
    ensures drops { Drops Nobody caches.old store.old caches.new store.new }
{
    let node = caches.node_of(range.cache, range.first);
    let out = frameless_nodes(caches, node, range.pages);
    if out > 0 {
        return out;
    }
    let_go(store, caches, node, mapper);
    1
}

// Gives up the frames of all pages of a range, which their segment holds.
fn give_up_pages<M: Mapper>(store: &mut Store, caches: &mut Caches, range: Extent, mapper: &mut M)
    requires right { RightStore M.Mapper mapper.old caches.old store.old }
    requires whole { IsWhole caches.old }
    requires range { HasRange caches.old range }
    requires named { IsNamed caches.old range }
    requires synced { AreSynced range (range.first.0 + range.pages)
        (world_at M.Mapper mapper.old caches.old store.old) }
    requires loose { AreLoose range
        (world_at M.Mapper mapper.old caches.old store.old) }
    ensures still { Between Still M.Mapper
        mapper.old caches.old store.old mapper.new caches.new store.new }
    ensures held { M.held mapper.new ≡ M.held mapper.old }
    ensures pinned { store.new.frames.pinned ≡ store.old.frames.pinned }
    ensures later { Later (M.counts mapper.old) (M.counts mapper.new) }
    ensures traffic { Traffic 0 0 (M.counts mapper.old) (M.counts mapper.new) }
    ensures synced { AreSynced range (range.first.0 + range.pages)
        (world_at M.Mapper mapper.new caches.new store.new) }
    ensures out { AreOut range caches.new }
    ensures drops { Drops Nobody caches.old store.old caches.new store.new }
{
    let mut page = range.first.0;
    let end = range.first.0 + range.pages;
    while page < end {
        let rest = Extent {
            cache: range.cache,
            first: PageNo(page),
            pages: end - page,
        };
        page += give_up_next(store, caches, rest, mapper);
    }
}

/// Pushes the pages of a range of a named cache home, in rising order, where the segment doesn't
/// hold what they read: dirty pages, pages of zeros, pages in slots, and inherited ones. An
/// inherited page stays inherited; a page of its own is clean in its frame then. With `give_up` the
/// frames of the range's own pages fall free. A page that the segment holds takes no push. A failed
/// pull or push ends it at the page that is told; the segment holds those before. No node reads
/// anything else.
pub fn push_range<M: Mapper, C: Chooser>(
    store: &mut Store,
    caches: &mut Caches,
    range: Extent,
    give_up: bool,
    mapper: &mut M,
    chooser: &mut C,
) -> Result<(), PageNo>
    requires right { RightStore M.Mapper mapper.old caches.old store.old }
    requires whole { IsWhole caches.old }
    requires range { HasRange caches.old range }
    requires named { IsNamed caches.old range }
    requires unpinned { HasUnpinned store.old.frames }
    requires loose { give_up ≡ true → AreLoose range
        (world_at M.Mapper mapper.old caches.old store.old) }
    ensures stays { Across StaysWhole M.Mapper
        mapper.old caches.old store.old mapper.new caches.new store.new }
    ensures still { Between Still M.Mapper
        mapper.old caches.old store.old mapper.new caches.new store.new }
    ensures forest { Between SameForest M.Mapper
        mapper.old caches.old store.old mapper.new caches.new store.new }
    ensures synced { OnOk result (AreSynced range (range.first.0 + range.pages)
        (world_at M.Mapper mapper.new caches.new store.new)) }
    ensures out { give_up ≡ true → OnOk result (AreOut range caches.new) }
    ensures failed { IfErr result (λ page. IsPageOf range page.0 × AreSynced range page.0
        (world_at M.Mapper mapper.new caches.new store.new)) }
    ensures most { TrafficAtMost
        (unclean_count caches.old range.cache.0 range.first.0 range.pages)
        (2 * unclean_count caches.old range.cache.0 range.first.0 range.pages)
        (M.counts mapper.old) (M.counts mapper.new) }
    ensures cause { OnErr result (HasFailed (M.counts mapper.old) (M.counts mapper.new)) }
    ensures drops { Drops (IsReadBy caches.old range) caches.old store.old caches.new store.new }
{
    push_pages(store, caches, range, mapper, chooser)?;
    if give_up {
        give_up_pages(store, caches, range, mapper);
    }
    Ok(())
}
