// A page is made ready for a write.
ghost use Rattle.std.specs.Prelude.{◌≡◌, ◌+◌, ◌<◌, ◌≤◌, ◌^◌, true, None, IfErr, IfOk, OnOk};
ghost use Rattle.vm_ids.specs.declared.numbers.NodeId.{NodeId};
ghost use Rattle.vm_ids.specs.Forest.Nodes.{is_live};
ghost use Rattle.vm_ids.specs.Forest.Rules as forest;
ghost use Rattle.local_cache.specs.Arena.{HasNode};
ghost use Rattle.local_cache.specs.Own.{own_of};
ghost use Rattle.local_cache.specs.Reading.{forest_of, name_of};
ghost use Rattle.residency.specs.Causes.{frames_to_bring};
ghost use Rattle.residency.specs.Between.{Across, Between};
ghost use Rattle.residency.specs.World.{HasOwnPage};
ghost use Rattle.residency.specs.Seeing.{IsAlone};
ghost use Rattle.residency.specs.Translating.{Drops};
ghost use Rattle.fault_path.specs.Translating.{DropsHomes, LeavesHomes, MayCome};
ghost use Rattle.fault_path.specs.Answers.{IsAnswered, IsDoneOrMissed, IsFramed, IsMissed, OnlyVictim, RightForest};
ghost use Rattle.fault_path.specs.Coming.{IsOfWrite, OnlyCome};
ghost use Rattle.fault_path.specs.Costs.{NoPull, Takes, TakesAtMost, frames_to_copy, frames_to_write, pulls_to_copy, pulls_to_write};
ghost use Rattle.fault_path.specs.Faults.{HasLoose, IsHeirOf, IsOwner, MayWrite, is_at_hand, readied};

use crate::gathering::{copy_out, double, release};
use crate::giving::{drop_translations, hand_page, own_page, settle_in};
use crate::writing::{hand_over, own_framed};
use history_tree::{heir, owner_of};
use local_cache::{Caches, OwnState};
use residency::{Miss, Store};
use vm_ids::{FrameId, NodeId};
use vm_port::{Chooser, Mapper};

/// The page of a node is made ready for a write: the node owns its page, in a frame, which is the
/// answer, and its heir, where there is one, has the page as it is. The bytes of the frame may be
/// written then, and the page is dirty; where it is one of a segment, that was granted before.
/// Translations that led to the page, or to that of its owner, are dropped. All frames are gathered
/// before anything changes, so that after a fault every page is where it was, or left its frame.
pub fn write_fault<M: Mapper, C: Chooser>(
    store: &mut Store,
    caches: &mut Caches,
    node: NodeId,
    mapper: &mut M,
    chooser: &mut C,
) -> Result<FrameId, Miss>
    requires right { RightForest M.Mapper mapper.old caches.old store.old }
    requires node { HasNode caches.old node }
    requires live { is_live (name_of caches.old node) ≡ true }
    requires granted { MayWrite caches.old node }
    requires loose { HasLoose 3 store.old.frames }
    requires copies { caches.old.copies + 1 < 2 ^ 63 }
    ensures answered { Across IsAnswered M.Mapper
        mapper.old caches.old store.old mapper.new caches.new store.new }
    ensures ready { IfOk result (λ f. Between (IsFramed readied node f.0) M.Mapper
        mapper.old caches.old store.old mapper.new caches.new store.new) }
    ensures missed { IfErr result (λ miss. Across (IsMissed miss) M.Mapper
        mapper.old caches.old store.old mapper.new caches.new store.new) }
    ensures drops { (o : NodeId) → IsOwner caches.old node o
        → Drops (MayCome caches.old o) caches.old store.old caches.new store.new }
    ensures homes { (o : NodeId) → IsOwner caches.old node o
        → OnOk result (DropsHomes o node store.old store.new) }
    ensures alone { OnOk result (IsAlone caches.new (name_of caches.new node)) }
    ensures frames { (o : NodeId) → IsOwner caches.old node o
        → Between (OnlyCome (IsOfWrite caches.old node o)) M.Mapper
        mapper.old caches.old store.old mapper.new caches.new store.new }
    ensures copies { OnOk result (caches.new.copies ≤ caches.old.copies + 2) }
    ensures traffic { (o : NodeId) → IsOwner caches.old node o → OnOk result (Takes
        (pulls_to_write caches.old node o) (frames_to_write caches.old node o)
        store.old.frames (M.counts mapper.old) (M.counts mapper.new)) }
    ensures most { TakesAtMost 1 3 store.old.frames (M.counts mapper.old) (M.counts mapper.new) }
    ensures no_pull { (o : NodeId) → IsOwner caches.old node o →
        is_at_hand (own_of caches.old o) ≡ true →
        NoPull (M.counts mapper.old) (M.counts mapper.new) }
    ensures victim { (o : NodeId) → IsOwner caches.old node o →
        is_at_hand (own_of caches.old o) ≡ true → OnlyVictim result }
{
    let owner = owner_of(caches, node);
    write_from_owner(store, caches, node, owner, mapper, chooser)
}

/// The page of a node whose owner is told is made ready for a write, as by `write_fault`.
pub fn write_from_owner<M: Mapper, C: Chooser>(
    store: &mut Store,
    caches: &mut Caches,
    node: NodeId,
    owner: NodeId,
    mapper: &mut M,
    chooser: &mut C,
) -> Result<FrameId, Miss>
    requires right { RightForest M.Mapper mapper.old caches.old store.old }
    requires node { HasNode caches.old node }
    requires owner { IsOwner caches.old node owner }
    requires own { HasOwnPage caches.old owner }
    requires live { is_live (name_of caches.old node) ≡ true }
    requires granted { MayWrite caches.old node }
    requires loose { HasLoose 3 store.old.frames }
    requires copies { caches.old.copies + 1 < 2 ^ 63 }
    ensures answered { Across IsAnswered M.Mapper
        mapper.old caches.old store.old mapper.new caches.new store.new }
    ensures ready { IfOk result (λ f. Between (IsFramed readied node f.0) M.Mapper
        mapper.old caches.old store.old mapper.new caches.new store.new) }
    ensures missed { IfErr result (λ miss. Across (IsMissed miss) M.Mapper
        mapper.old caches.old store.old mapper.new caches.new store.new) }
    ensures drops { (o : NodeId) → IsOwner caches.old node o
        → Drops (MayCome caches.old o) caches.old store.old caches.new store.new }
    ensures homes { (o : NodeId) → IsOwner caches.old node o
        → OnOk result (DropsHomes o node store.old store.new) }
    ensures alone { OnOk result (IsAlone caches.new (name_of caches.new node)) }
    ensures frames { (o : NodeId) → IsOwner caches.old node o
        → Between (OnlyCome (IsOfWrite caches.old node o)) M.Mapper
        mapper.old caches.old store.old mapper.new caches.new store.new }
    ensures copies { OnOk result (caches.new.copies ≤ caches.old.copies + 2) }
    ensures traffic { (o : NodeId) → IsOwner caches.old node o → OnOk result (Takes
        (pulls_to_write caches.old node o) (frames_to_write caches.old node o)
        store.old.frames (M.counts mapper.old) (M.counts mapper.new)) }
    ensures most { TakesAtMost 1 3 store.old.frames (M.counts mapper.old) (M.counts mapper.new) }
    ensures no_pull { (o : NodeId) → IsOwner caches.old node o →
        is_at_hand (own_of caches.old o) ≡ true →
        NoPull (M.counts mapper.old) (M.counts mapper.new) }
    ensures victim { (o : NodeId) → IsOwner caches.old node o →
        is_at_hand (own_of caches.old o) ≡ true → OnlyVictim result }
{
    let frame = make_ready(store, caches, node, owner, mapper, chooser)?;
    drop_translations(store, owner, node);
    Ok(frame)
}

// The page of a node is made ready for a write. The translations that lead to the pages of the node
// and of its owner are left to the caller.
fn make_ready<M: Mapper, C: Chooser>(
    store: &mut Store,
    caches: &mut Caches,
    node: NodeId,
    owner: NodeId,
    mapper: &mut M,
    chooser: &mut C,
) -> Result<FrameId, Miss>
    requires right { RightForest M.Mapper mapper.old caches.old store.old }
    requires node { HasNode caches.old node }
    requires owner { IsOwner caches.old node owner }
    requires own { HasOwnPage caches.old owner }
    requires live { is_live (name_of caches.old node) ≡ true }
    requires granted { MayWrite caches.old node }
    requires loose { HasLoose 3 store.old.frames }
    requires copies { caches.old.copies + 1 < 2 ^ 63 }
    ensures ready { Across (IsDoneOrMissed result (λ f. IsFramed readied node f.0))
        M.Mapper
        mapper.old caches.old store.old mapper.new caches.new store.new }
    ensures drops { (o : NodeId) → IsOwner caches.old node o →
        LeavesHomes result o node caches.old store.old caches.new store.new }
    ensures frames { (o : NodeId) → IsOwner caches.old node o
        → Between (OnlyCome (IsOfWrite caches.old node o)) M.Mapper
        mapper.old caches.old store.old mapper.new caches.new store.new }
    ensures copies { OnOk result (caches.new.copies ≤ caches.old.copies + 2) }
    ensures traffic { (o : NodeId) → IsOwner caches.old node o → OnOk result (Takes
        (pulls_to_write caches.old node o) (frames_to_write caches.old node o)
        store.old.frames (M.counts mapper.old) (M.counts mapper.new)) }
    ensures most { (o : NodeId) → IsOwner caches.old node o → TakesAtMost
        (pulls_to_copy (own_of caches.old o)) 3
        store.old.frames (M.counts mapper.old) (M.counts mapper.new) }
    ensures victim { (o : NodeId) → IsOwner caches.old node o →
        is_at_hand (own_of caches.old o) ≡ true → OnlyVictim result }
{
    let heir = heir(caches, node);
    if caches.own_state(node).is_absent() {
        match heir {
            Some(next) => own_and_hand(store, caches, node, owner, next, mapper, chooser),
            None => own_framed(store, caches, node, owner, mapper, chooser),
        }
    } else {
        match heir {
            Some(next) => hand_own(store, caches, node, next, mapper, chooser),
            None => bring_dirty(store, caches, node, mapper, chooser),
        }
    }
}

// The page of a node without an own page, whose heir is told, is made ready for a write.
fn own_and_hand<M: Mapper, C: Chooser>(
    store: &mut Store,
    caches: &mut Caches,
    node: NodeId,
    owner: NodeId,
    next: NodeId,
    mapper: &mut M,
    chooser: &mut C,
) -> Result<FrameId, Miss>
    requires right { RightForest M.Mapper mapper.old caches.old store.old }
    requires node { HasNode caches.old node }
    requires owner { IsOwner caches.old node owner }
    requires own { HasOwnPage caches.old owner }
    requires bare { own_of caches.old node ≡ OwnState.Absent }
    requires next { IsHeirOf caches.old node next }
    requires loose { HasLoose 3 store.old.frames }
    requires copies { caches.old.copies + 1 < 2 ^ 63 }
    ensures ready { Across (IsDoneOrMissed result (λ f. IsFramed readied node f.0))
        M.Mapper
        mapper.old caches.old store.old mapper.new caches.new store.new }
    ensures drops { (o : NodeId) → IsOwner caches.old node o →
        LeavesHomes result o node caches.old store.old caches.new store.new }
    ensures frames { (o : NodeId) → IsOwner caches.old node o
        → Between (OnlyCome (IsOfWrite caches.old node o)) M.Mapper
        mapper.old caches.old store.old mapper.new caches.new store.new }
    ensures copies { OnOk result (caches.new.copies ≡ caches.old.copies + 2) }
    ensures traffic { (o : NodeId) → IsOwner caches.old node o → OnOk result (Takes
        (pulls_to_copy (own_of caches.old o)) (frames_to_copy (own_of caches.old o) + 1)
        store.old.frames (M.counts mapper.old) (M.counts mapper.new)) }
    ensures most { (o : NodeId) → IsOwner caches.old node o → TakesAtMost
        (pulls_to_copy (own_of caches.old o)) 3
        store.old.frames (M.counts mapper.old) (M.counts mapper.new) }
    ensures victim { (o : NodeId) → IsOwner caches.old node o →
        is_at_hand (own_of caches.old o) ≡ true → OnlyVictim result }
{
    let frame = copy_out(store, caches, owner, mapper, chooser)?;
    let Ok(second) = double(store, caches, frame, mapper, chooser) else {
        release(store, frame);
        return Err(Miss::Victim)
    };
    own_page(caches, node);
    settle_in(store, node, frame);
    hand_page(caches, node, next);
    settle_in(store, next, second);
    Ok(frame)
}

// The own page of a node whose heir is told is made ready for a write.
fn hand_own<M: Mapper, C: Chooser>(
    store: &mut Store,
    caches: &mut Caches,
    node: NodeId,
    next: NodeId,
    mapper: &mut M,
    chooser: &mut C,
) -> Result<FrameId, Miss>
    requires right { RightForest M.Mapper mapper.old caches.old store.old }
    requires own { HasOwnPage caches.old node }
    requires next { IsHeirOf caches.old node next }
    requires granted { MayWrite caches.old node }
    requires loose { HasLoose 2 store.old.frames }
    requires copies { caches.old.copies < 2 ^ 63 }
    ensures ready { Across (IsDoneOrMissed result (λ f. IsFramed readied node f.0))
        M.Mapper
        mapper.old caches.old store.old mapper.new caches.new store.new }
    ensures drops { LeavesHomes result node node caches.old store.old caches.new store.new }
    ensures frames { Between (OnlyCome (IsOfWrite caches.old node node)) M.Mapper
        mapper.old caches.old store.old mapper.new caches.new store.new }
    ensures copies { OnOk result (caches.new.copies ≡ caches.old.copies + 1) }
    ensures traffic { OnOk result (Takes
        (pulls_to_copy (own_of caches.old node)) (frames_to_bring (own_of caches.old node) + 1)
        store.old.frames (M.counts mapper.old) (M.counts mapper.new)) }
    ensures most { TakesAtMost (pulls_to_copy (own_of caches.old node)) 2
        store.old.frames (M.counts mapper.old) (M.counts mapper.new) }
    ensures victim { is_at_hand (own_of caches.old node) ≡ true → OnlyVictim result }
{
    let frame = store.bring_in(caches, node, mapper, chooser)?;
    hand_over(store, caches, node, next, mapper, chooser)?;
    caches.set_state(node, OwnState::Resident { dirty: true });
    Ok(frame)
}

// The own page of a node without an heir is made ready for a write.
fn bring_dirty<M: Mapper, C: Chooser>(
    store: &mut Store,
    caches: &mut Caches,
    node: NodeId,
    mapper: &mut M,
    chooser: &mut C,
) -> Result<FrameId, Miss>
    requires right { RightForest M.Mapper mapper.old caches.old store.old }
    requires own { HasOwnPage caches.old node }
    requires none { forest.heir (forest_of caches.old) (name_of caches.old node) ≡ None }
    requires granted { MayWrite caches.old node }
    requires loose { HasLoose 2 store.old.frames }
    ensures ready { Across (IsDoneOrMissed result (λ f. IsFramed readied node f.0))
        M.Mapper
        mapper.old caches.old store.old mapper.new caches.new store.new }
    ensures drops { LeavesHomes result node node caches.old store.old caches.new store.new }
    ensures frames { Between (OnlyCome (IsOfWrite caches.old node node)) M.Mapper
        mapper.old caches.old store.old mapper.new caches.new store.new }
    ensures copies { OnOk result (caches.new.copies ≡ caches.old.copies) }
    ensures traffic { OnOk result (Takes
        (pulls_to_copy (own_of caches.old node)) (frames_to_bring (own_of caches.old node))
        store.old.frames (M.counts mapper.old) (M.counts mapper.new)) }
    ensures most { TakesAtMost (pulls_to_copy (own_of caches.old node)) 1
        store.old.frames (M.counts mapper.old) (M.counts mapper.new) }
    ensures victim { is_at_hand (own_of caches.old node) ≡ true → OnlyVictim result }
{
    let frame = store.bring_in(caches, node, mapper, chooser)?;
    caches.set_state(node, OwnState::Resident { dirty: true });
    Ok(frame)
}
