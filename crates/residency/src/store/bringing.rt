// Pages come to frames: from a slot, from their segment, or as zeros.
ghost use Rattle.std.specs.Prelude.{◌≡◌, ◌+◌, ◌-◌, ◌<◌, ◌≤◌, length, map, slice_set, true, false, Some, None, IfOk, IfErr, OnOk, OnErr, IsOk};
ghost use Rattle.frame_pool.specs.Pool.{held_count, is_held};
ghost use Rattle.global_map.specs.Pairs.{bound_times, node_of};
ghost use Rattle.local_cache.specs.Arena.{HasNode, with_own};
ghost use Rattle.local_cache.specs.Own.{is_resident, own_of};
ghost use Rattle.residency.specs.Between.{Across, Between, RightStore, world_at};
ghost use Rattle.residency.specs.Causes.{HasMissCause, Later, Traffic, dirtied, dirty_count, failed_victims, frames_to_bring, pulls_for, pushes_to_bring};
ghost use Rattle.residency.specs.Filling.{Fills};
ghost use Rattle.residency.specs.Frames.{with_held, with_pinned};
ghost use Rattle.residency.specs.Pushing.{TellsOn};
ghost use Rattle.residency.specs.Translating.{TablesAfter};
ghost use Rattle.residency.specs.World.{HasOwnPage, HoldsPage, HasUnpinned, IsAway, IsFrameOf, IsTaken, OthersStay, OthersStayBut, Still, brought_in, is_pulled, world};

use crate::Miss;
use crate::store::Store;
use local_cache::{Caches, OwnState};
use vm_ids::{FrameId, NodeId, SlotId};
use vm_port::{Chooser, Mapper};

impl Store {
    /// Brings the own page of a node into a frame, which it answers. A resident page stays where it
    /// is. Else a frame is made free for it, and the page is pulled from its slot or from its
    /// segment, or is zeros. One from its segment is clean, any other is dirty. After a fault the
    /// node's page is where it was.
    pub fn bring_in<M: Mapper, C: Chooser>(
        &mut self,
        caches: &mut Caches,
        node: NodeId,
        mapper: &mut M,
        chooser: &mut C,
    ) -> Result<FrameId, Miss>
        requires right { RightStore M.Mapper mapper.old caches.old self.old }
        requires own { HasOwnPage caches.old node }
        requires unpinned { is_resident (own_of caches.old node) ≡ false →
            HasUnpinned self.old.frames }
        ensures still { Between Still M.Mapper
            mapper.old caches.old self.old mapper.new caches.new self.new }
        ensures told { Across TellsOn M.Mapper
            mapper.old caches.old self.old mapper.new caches.new self.new }
        ensures home { IfOk result (λ f. IsFrameOf self.new.map f.0 node) }
        ensures state { OnOk result (
            own_of caches.new node ≡ brought_in (own_of caches.old node)) }
        ensures page { IfOk result (λ f.
            HoldsPage (own_of caches.old node) (M.given mapper.new) self.new.frames f.0) }
        ensures idle { is_resident (own_of caches.old node) ≡ true →
            IsOk result × (self.new ≡ self.old) × (caches.new ≡ caches.old)
            × (mapper.new ≡ mapper.old) }
        ensures others { Between (OthersStayBut node) M.Mapper
            mapper.old caches.old self.old mapper.new caches.new self.new }
        ensures failed { OnErr result (Between OthersStay M.Mapper
            mapper.old caches.old self.old mapper.new caches.new self.new) }
        ensures tables { TablesAfter self.old self.new }
        ensures pinned { self.new.frames.pinned ≡ self.old.frames.pinned }
        ensures later { Later (M.counts mapper.old) (M.counts mapper.new) }
        ensures held { OnOk result (held_count self.new.frames
            + pushes_to_bring (own_of caches.old node) self.old.frames.held
            ≡ held_count self.old.frames + frames_to_bring (own_of caches.old node)) }
        ensures traffic { Traffic (pulls_for result (own_of caches.old node))
            (dirty_count caches.old + dirtied result (own_of caches.old node)
            - dirty_count caches.new + failed_victims result)
            (M.counts mapper.old) (M.counts mapper.new) }
        ensures dirty { dirty_count caches.new
            ≤ dirty_count caches.old + dirtied result (own_of caches.old node) }
        ensures few { dirty_count caches.old + dirtied result (own_of caches.old node)
            - dirty_count caches.new + failed_victims result
            ≤ pushes_to_bring (own_of caches.old node) self.old.frames.held }
        ensures victim { is_pulled (own_of caches.old node) ≡ false →
            IfErr result (λ miss. miss ≡ Miss.Victim) }
        ensures cause { IfErr result (HasMissCause (M.counts mapper.old) (M.counts mapper.new)) }
    {
        match self.map.get(node) {
            Some(frame) => Ok(frame),
            None => match self.make_free(caches, mapper, chooser) {
                Ok(frame) => self.fill(caches, node, frame, mapper),
                Err(_) => Err(Miss::Victim),
            },
        }
    }

    // Puts a node's page into a frame that was made free for it, or gives that back.
    fn fill<M: Mapper>(
        &mut self,
        caches: &mut Caches,
        node: NodeId,
        frame: FrameId,
        mapper: &mut M,
    ) -> Result<FrameId, Miss>
        requires right { RightStore M.Mapper mapper.old caches.old self.old }
        requires node { IsAway caches.old node }
        requires taken { IsTaken
            (world_at M.Mapper mapper.old caches.old self.old)
            frame.0 }
        ensures fills { Across (Fills result node frame.0 (M.given mapper.new))
            M.Mapper
            mapper.old caches.old self.old mapper.new caches.new self.new }
        ensures filled { is_pulled (own_of caches.old node) ≡ false → IsOk result }
        ensures tables { self.new.tables ≡ self.old.tables }
    {
        match caches.own_state(node) {
            OwnState::Slot(slot) => self.pull_slot(caches, node, slot, frame, mapper),
            OwnState::OnSegment => self.pull_home(caches, node, frame, mapper),
            _ => {
                self.frames.zero(frame);
                self.settle_in(caches, node, frame, true);
                Ok(frame)
            }
        }
    }

    // Puts a node's page that is in a slot into a frame, or gives that back.
    fn pull_slot<M: Mapper>(
        &mut self,
        caches: &mut Caches,
        node: NodeId,
        slot: SlotId,
        frame: FrameId,
        mapper: &mut M,
    ) -> Result<FrameId, Miss>
        requires right { RightStore M.Mapper mapper.old caches.old self.old }
        requires node { HasNode caches.old node }
        requires slot { own_of caches.old node ≡ OwnState.Slot slot }
        requires taken { IsTaken
            (world_at M.Mapper mapper.old caches.old self.old)
            frame.0 }
        ensures fills { Across (Fills result node frame.0 (M.given mapper.new))
            M.Mapper
            mapper.old caches.old self.old mapper.new caches.new self.new }
        ensures tables { self.new.tables ≡ self.old.tables }
    {
        match mapper.swap_in(slot, self.frames.bytes_mut(frame)) {
            Ok(()) => {
                self.slots.give_back(slot);
                self.settle_in(caches, node, frame, true);
                Ok(frame)
            }
            Err(_) => {
                self.give_up(frame);
                Err(Miss::Pull)
            }
        }
    }

    // Puts a node's page that is on its segment into a frame, or gives that back.
    fn pull_home<M: Mapper>(
        &mut self,
        caches: &mut Caches,
        node: NodeId,
        frame: FrameId,
        mapper: &mut M,
    ) -> Result<FrameId, Miss>
        requires right { RightStore M.Mapper mapper.old caches.old self.old }
        requires node { HasNode caches.old node }
        requires on_segment { own_of caches.old node ≡ OwnState.OnSegment }
        requires taken { IsTaken
            (world_at M.Mapper mapper.old caches.old self.old)
            frame.0 }
        ensures fills { Across (Fills result node frame.0 (M.given mapper.new))
            M.Mapper
            mapper.old caches.old self.old mapper.new caches.new self.new }
        ensures tables { self.new.tables ≡ self.old.tables }
    {
        let home = caches.home(node).unwrap();
        match mapper.pull_in(home.segment, home.page, self.frames.bytes_mut(frame)) {
            Ok(()) => {
                self.settle_in(caches, node, frame, false);
                Ok(frame)
            }
            Err(_) => {
                self.give_up(frame);
                Err(Miss::Pull)
            }
        }
    }

    // The frame that its taker filled becomes the node's.
    fn settle_in(&mut self, caches: &mut Caches, node: NodeId, frame: FrameId, dirty: bool)
        requires node { HasNode caches.old node }
        requires frame { frame.0 < length self.old.frames.held }
        requires place { frame.0 < length self.old.map }
        requires free { node_of self.old.map frame.0 ≡ None }
        requires away { bound_times self.old.map node.0 ≡ 0 }
        ensures caches { caches.new ≡ with_own caches.old node (OwnState.Resident dirty) }
        ensures store { self.new ≡ record self.old {
          frames = with_pinned self.old.frames frame.0 false;
          map = slice_set self.old.map frame.0 (Some node);
        } }
    {
        caches.set_state(node, OwnState::Resident { dirty });
        self.map.bind(node, frame);
        self.frames.unpin(frame);
    }

    // The frame that its taker couldn't fill is free again.
    fn give_up(&mut self, frame: FrameId)
        requires held { is_held self.old.frames frame.0 ≡ true }
        ensures { self.new ≡ record self.old {
          frames = with_held (with_pinned self.old.frames frame.0 false) frame.0 false;
        } }
    {
        self.frames.unpin(frame);
        self.frames.give_back(frame);
    }
}
