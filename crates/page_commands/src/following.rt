// The frame or the swap slot of a node that went.
ghost use Rattle.std.specs.Prelude.{◌≡◌, ℕ, Option, None, Some, true, false, map, slice_set};
ghost use Rattle.vm_ids.specs.Held.{Held};
ghost use Rattle.frame_pool.specs.Pool.{is_held, is_pinned};
ghost use Rattle.page_tables.specs.Entries.{is_in_frame};
ghost use Rattle.page_tables.specs.Translations.{IsFrame, unless};
ghost use Rattle.global_map.specs.Pairs.{bound_times, frame_of};
ghost use Rattle.local_cache.specs.Arena.{Arena};
ghost use Rattle.residency.specs.World.{world};
ghost use Rattle.page_commands.specs.Following.{CanFollow, CanLeave, CanMove, followed, with_page_moved, without_page};
ghost use Rattle.page_commands.specs.Translating.{DropsFreed};

use local_cache::{Caches, OwnState};
use residency::Store;
use tree_merge::Released;
use vm_ids::NodeId;

// The page that a node had in this state is gone: its frame or its swap slot is given back.
#[inline(always)]
pub(crate) fn drop_page(store: &mut Store, node: NodeId, state: OwnState)
    requires { CanLeave store.old node state }
    ensures store { (told : Option Held) (size : Option ℕ) (before : Arena)
        → world told size before store.new ≡ without_page
        (world told size before store.old) node state }
    ensures tables { DropsFreed store.old store.new }
{
    match state {
        OwnState::Resident { dirty: _ } => drop_frame(store, node),
        OwnState::Slot(slot) => store.give_back_slot(slot),
        _ => {}
    }
}

// The page that a node had in a frame is gone: its frame is given back.
fn drop_frame(store: &mut Store, node: NodeId)
    requires bound { bound_times store.old.map node.0 ≡ 1 }
    requires held { is_held store.old.frames (frame_of store.old.map node.0) ≡ true }
    requires loose { is_pinned store.old.frames (frame_of store.old.map node.0) ≡ false }
    requires tables { IsFrame store.old.tables (frame_of store.old.map node.0) }
    ensures { store.new ≡ record store.old {
      map = slice_set store.old.map
          (frame_of store.old.map node.0) None;
      tables = map (unless (is_in_frame (frame_of store.old.map node.0))) store.old.tables;
      frames = record store.old.frames
          { held = slice_set store.old.frames.held (frame_of store.old.map node.0) false };
    } }
{
    let frame = store.map().get(node).unwrap();
    store.unbind(node);
    store.give_back_frame(frame);
}

// The page that one node had in this state is another's: its frame is bound to that one.
pub(crate) fn move_page(store: &mut Store, from: NodeId, to: NodeId, state: OwnState)
    requires { CanMove store.old from to state }
    ensures store { (told : Option Held) (size : Option ℕ) (before : Arena)
        → world told size before store.new ≡ with_page_moved
        (world told size before store.old) from to state }
    ensures tables { DropsFreed store.old store.new }
{
    match state {
        OwnState::Resident { dirty: _ } => store.rekey(from, to),
        _ => {}
    }
}

// What a call on the caches released is followed in the store.
pub(crate) fn follow(store: &mut Store, caches: &Caches, released: Released)
    requires { CanFollow store.old caches.now released }
    ensures store { (told : Option Held) (size : Option ℕ) → world told size caches.now store.new
        ≡ followed (world told size caches.now store.old) released }
    ensures tables { DropsFreed store.old store.new }
    ensures nothing { released ≡ Released.Nothing → store.new ≡ store.old }
{
    match released {
        Released::Nothing => {}
        Released::Dropped(node, state) => drop_page(store, node, state),
        Released::Moved(from, to) => {
            let state = caches.own_state(to);
            move_page(store, from, to, state);
        }
    }
}
