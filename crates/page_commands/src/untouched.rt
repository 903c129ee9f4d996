// Nodes of pages of which nothing is in memory, and to which nothing is linked.
ghost use Rattle.std.specs.Prelude.{◌≡◌, ◌≤◌, None, [], IsTrue};
ghost use Rattle.local_cache.specs.Arena.{HasNode, cell};
ghost use Rattle.local_cache.specs.Own.{own_of};
ghost use Rattle.page_commands.specs.Untouched.{AreUntouched};

use local_cache::{Caches, OwnState};
use vm_ids::NodeId;

// Whether an own page is on its segment alone.
fn is_on_segment(state: OwnState) -> bool
    ensures { IsTrue result → state ≡ OwnState.OnSegment }
{
    matches!(state, OwnState::OnSegment)
}

// Whether a node has neither parent nor tree children, and its own page is on its segment alone.
fn is_untouched(caches: &Caches, node: NodeId) -> bool
    requires { HasNode caches.now node }
    ensures own { IsTrue result → own_of caches.now node ≡ OwnState.OnSegment }
    ensures root { IsTrue result → (cell caches.now node).links.parent ≡ None }
    ensures tree { IsTrue result → (cell caches.now node).tree ≡ [] }
{
    is_on_segment(caches.own_state(node))
        && caches.links(node).parent.is_none()
        && caches.tree_child(node, 0).is_none()
}

// How many nodes, from one on, are alike, have neither parents nor children, and own pages that are
// on their segment alone. As far as so many.
pub(crate) fn untouched_nodes(caches: &Caches, node: NodeId, most: u32) -> u32
    requires { HasNode caches.now node }
    ensures most { result ≤ most }
    ensures untouched { AreUntouched caches.now node result }
{
    if is_untouched(caches, node) {
        caches.stretch(node).min(most)
    } else {
        0
    }
}
