// Nodes that are alike, of which nothing is to be pushed, given up or saved.
ghost use Rattle.std.specs.Prelude.{◌≡◌, ◌<◌, ◌≤◌, [], IsTrue, true, false, ◌⊎◌};
ghost use Rattle.local_cache.specs.Arena.{HasNode, cell};
ghost use Rattle.local_cache.specs.Many.{AreAlike};
ghost use Rattle.local_cache.specs.Own.{is_absent, is_resident, own_of};
ghost use Rattle.residency.specs.World.{is_clean as is_page_clean};

use local_cache::{Caches, OwnState};
use vm_ids::NodeId;

// Whether a segment holds the own page of a node.
pub(crate) fn is_clean(caches: &Caches, node: NodeId) -> bool
    requires { HasNode caches.now node }
    ensures { result ≡ is_page_clean (own_of caches.now node) }
{
    matches!(
        caches.own_state(node),
        OwnState::OnSegment | OwnState::Resident { dirty: false }
    )
}

// Whether a node's own page is in no frame.
fn is_frameless(caches: &Caches, node: NodeId) -> bool
    requires { HasNode caches.now node }
    ensures { IsTrue result → is_resident (own_of caches.now node) ≡ false }
{
    !matches!(caches.own_state(node), OwnState::Resident { .. })
}

// Whether a node has no own page, or no tree children.
fn is_childless(caches: &Caches, node: NodeId) -> bool
    requires { HasNode caches.now node }
    ensures { IsTrue result
        → (is_absent (own_of caches.now node) ≡ true) ⊎ ((cell caches.now node).tree ≡ []) }
{
    caches.own_state(node).is_absent() || caches.tree_child(node, 0).is_none()
}

// How many nodes, from one on, are alike and have own pages that their segment holds, as far as so
// many.
pub(crate) fn clean_nodes(caches: &Caches, node: NodeId, most: u32) -> u32
    requires { HasNode caches.now node }
    ensures most { result ≤ most }
    ensures alike { AreAlike caches.now node result }
    ensures clean { 0 < result → is_page_clean (own_of caches.now node) ≡ true }
{
    if is_clean(caches, node) {
        caches.stretch(node).min(most)
    } else {
        0
    }
}

// How many nodes, from one on, are alike and have own pages in no frame, as far as so many.
pub(crate) fn frameless_nodes(caches: &Caches, node: NodeId, most: u32) -> u32
    requires { HasNode caches.now node }
    ensures most { result ≤ most }
    ensures alike { AreAlike caches.now node result }
    ensures out { 0 < result → is_resident (own_of caches.now node) ≡ false }
{
    if is_frameless(caches, node) {
        caches.stretch(node).min(most)
    } else {
        0
    }
}

// How many nodes, from one on, are alike and have no heirs: no own pages, or no children. As far as
// so many.
pub(crate) fn heirless_nodes(caches: &Caches, node: NodeId, most: u32) -> u32
    requires { HasNode caches.now node }
    ensures most { result ≤ most }
    ensures alike { AreAlike caches.now node result }
    ensures none { 0 < result
        → (is_absent (own_of caches.now node) ≡ true) ⊎ ((cell caches.now node).tree ≡ []) }
{
    if is_childless(caches, node) {
        caches.stretch(node).min(most)
    } else {
        0
    }
}
