// A page is detached, or working nodes give way, and the store follows.
ghost use Rattle.std.specs.Prelude.{◌≡◌, ◌+◌, ◌*◌, ◌<◌, ◌≤◌, ◌^◌, true, false, [], Some, IsSome, length};
ghost use Rattle.vm_ids.specs.declared.node_name.NodeName.{NodeName};
ghost use Rattle.vm_ids.specs.declared.numbers.NodeId.{NodeId};
ghost use Rattle.vm_ids.specs.Forest.Laws.Settling.{IsSettled};
ghost use Rattle.vm_ids.specs.Forest.Rules.{detach as rule_detach};
ghost use Rattle.vm_ids.specs.Forest.Shape.{IsConsistent};
ghost use Rattle.local_cache.specs.Arena.{node_at};
ghost use Rattle.local_cache.specs.Own.{own_states};
ghost use Rattle.local_cache.specs.Reading.{forest_of, page_of};
ghost use Rattle.local_cache.specs.Sound.{IsSound};
ghost use Rattle.residency.specs.Seeing.{frame_forest};
ghost use Rattle.residency.specs.StoreForest.{store_forest};
ghost use Rattle.residency.specs.World.{is_clean};
ghost use Rattle.tree_merge.specs.declared.released.Released.{Released as Freed};
ghost use Rattle.tree_merge.specs.Releasing.{IsDetached};
ghost use Rattle.page_commands.specs.Homes.{IsUnclean, MayGo, cleaned};
ghost use Rattle.page_commands.specs.Steps.{AreSettleSteps, ForAnyMapper, IsStoreTied, IsUnpinned, IsWorkingUnpinned, Releases, fresh_frame, fresh_page, is_fresh};

use crate::following::follow;
use local_cache::{Caches, OwnState};
use residency::Store;
use tree_merge::detach;
use vm_ids::{CacheId, NodeName, PageNo};

// Retires the node of a page and makes a fresh one for it, without parent and children, which has
// no own page, or one of zeros, or the one of its segment. It takes no memory: there has to be room
// for a node.
pub(crate) fn detach_page(
    store: &mut Store,
    caches: &mut Caches,
    cache: CacheId,
    page: PageNo,
    state: OwnState,
)
    requires tied { IsStoreTied store.old caches.old }
    requires sound { IsSound caches.old }
    requires node { IsSome (node_at caches.old cache.0 page.0) }
    requires room { 1 ≤ caches.old.room.nodes }
    requires made { caches.old.made < 3 * 2 ^ 61 }
    requires unpinned { IsUnpinned store.old caches.old (NodeName.Live cache page) }
    requires may { MayGo caches.old (NodeName.Live cache page) }
    requires unclean { is_clean state ≡ false
        → IsUnclean caches.old (NodeName.Live cache page) }
    requires fresh { is_fresh caches.old (NodeName.Live cache page) state ≡ true }
    ensures nodes { forest_of caches.new ≡ rule_detach (forest_of caches.old)
        (NodeName.Live cache page) (page_of state) }
    ensures forest { ForAnyMapper store.old caches.old store.new caches.new
        (λ old new. store_forest new ≡ rule_detach (store_forest old) (NodeName.Live cache page)
        (fresh_page old (NodeName.Live cache page) state)) }
    ensures frames { frame_forest caches.new store.new.map
        ≡ rule_detach (frame_forest caches.old store.old.map) (NodeName.Live cache page)
        (fresh_frame state) }
    ensures kept { Releases (cleaned state (NodeName.Live cache page))
        store.old caches.old store.new caches.new }
    ensures detached { (n : NodeId) → node_at caches.old cache.0 page.0 ≡ Some n
        → (released : Freed) × IsDetached caches.old caches.new n
        (NodeName.Live cache page) state released }
    ensures room { caches.old.room.nodes ≤ caches.new.room.nodes + 1 }
    ensures more { length (own_states caches.new) ≤ length (own_states caches.old) + 1 }
{
    let released = detach(caches, cache, page, state);
    follow(store, caches, released);
}

// Some steps of settle: the working node with the least number of those that have fewer than two
// children gives way, and as many behind it at once as are alike. Its own page is that of its only
// child then, or falls free. It answers `false`, and changes nothing, exactly where each working
// node has at least two children.
pub(crate) fn settle_some(store: &mut Store, caches: &mut Caches) -> bool
    requires tied { IsStoreTied store.old caches.old }
    requires sound { IsSound caches.old }
    requires consistent { IsConsistent (forest_of caches.old) }
    requires unpinned { IsWorkingUnpinned store.old caches.old }
    ensures steps { result ≡ true → AreSettleSteps store.old caches.old store.new caches.new }
    ensures idle { result ≡ false → IsSettled (forest_of caches.old) × (caches.new ≡ caches.old)
        × (store.new ≡ store.old) }
    ensures kept { Releases [] store.old caches.old store.new caches.new }
    ensures fewer { length (own_states caches.new) ≤ length (own_states caches.old) }
{
    match tree_merge::settle_some(caches) {
        Some(step) => {
            follow(store, caches, step.released);
            true
        }
        None => false,
    }
}
