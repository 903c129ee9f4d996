// Pages leave their frames: to their segment, to a slot, or for nothing where they are clean.
ghost use Rattle.std.specs.Prelude.{◌≡◌, ◌+◌, ◌-◌, ◌<◌, ◌≤◌, map, slice_set, min, true, false, Some, None, All, OnOk, OnErr};
ghost use Rattle.vm_ids.specs.Counting.{Counted};
ghost use Rattle.frame_pool.specs.Pool.{held_count, is_held, is_pinned};
ghost use Rattle.global_map.specs.Pairs.{bound_times, frame_of, node_of};
ghost use Rattle.page_tables.specs.Entries.{is_in_frame};
ghost use Rattle.page_tables.specs.Translations.{IsFrame, unless};
ghost use Rattle.local_cache.specs.Arena.{HasNode, with_own};
ghost use Rattle.local_cache.specs.Home.{home_of};
ghost use Rattle.local_cache.specs.Own.{own_of};
ghost use Rattle.residency.specs.Between.{Across, Between, RightStore};
ghost use Rattle.residency.specs.Causes.{Later, Traffic, PushFailed, dirty_count, dirty_in, failed_pushes, pushes_for};
ghost use Rattle.residency.specs.Evicting.{HasLeft, IsEvicted, IsInSlot};
ghost use Rattle.residency.specs.Frames.{evictable_count, with_held};
ghost use Rattle.residency.specs.Freeing.{MakesFree};
ghost use Rattle.residency.specs.Pushing.{TellsOn};
ghost use Rattle.residency.specs.Translating.{IsEmptied, TablesAfter};
ghost use Rattle.residency.specs.World.{HasUnpinned, OthersStay, Still, is_clean};

use crate::store::Store;
use local_cache::{Caches, Home, OwnState};
use vm_ids::{FrameId, NodeId};
use vm_port::{Chooser, Failed, Mapper};

impl Store {
    /// Evicts the page in a held frame that isn't pinned, so that the frame is free. A page with a
    /// home on a segment goes there, by a push where it is dirty and else without one; any other is
    /// pushed to a swap slot. After a fault the store and the caches are as they were.
    pub fn evict<M: Mapper>(
        &mut self,
        caches: &mut Caches,
        frame: FrameId,
        mapper: &mut M,
    ) -> Result<(), Failed>
        requires right { RightStore M.Mapper mapper.old caches.old self.old }
        requires held { is_held self.old.frames frame.0 ≡ true }
        requires unpinned { is_pinned self.old.frames frame.0 ≡ false }
        ensures still { Between Still M.Mapper
            mapper.old caches.old self.old mapper.new caches.new self.new }
        ensures told { Across TellsOn M.Mapper
            mapper.old caches.old self.old mapper.new caches.new self.new }
        ensures evicted { OnOk result (Between (IsEvicted frame.0) M.Mapper
            mapper.old caches.old self.old mapper.new caches.new self.new) }
        ensures free { OnOk result (self.new.frames.held
            ≡ slice_set self.old.frames.held frame.0 false) }
        ensures tables { TablesAfter self.old self.new }
        ensures failed { OnErr result (self.new ≡ self.old) }
        ensures failed_caches { OnErr result (caches.new ≡ caches.old) }
        ensures failed_dirty { OnErr result (dirty_in caches.old self.old.map frame.0 ≡ 1) }
        ensures pinned { self.new.frames.pinned ≡ self.old.frames.pinned }
        ensures others { Between OthersStay M.Mapper
            mapper.old caches.old self.old mapper.new caches.new self.new }
        ensures dirty { OnOk result (
            dirty_count caches.new + dirty_in caches.old self.old.map frame.0
            ≡ dirty_count caches.old) }
        ensures counts { Counted 0 (dirty_in caches.old self.old.map frame.0)
            (M.counts mapper.old) (M.counts mapper.new) result }
    {
        let node = self.map.node_at(frame).unwrap();
        match caches.home(node) {
            Some(home) => self.send_home(caches, node, frame, home, mapper),
            None => self.send_to_slot(caches, node, frame, mapper),
        }
    }

    // Evicts the page of a node with a home.
    fn send_home<M: Mapper>(
        &mut self,
        caches: &mut Caches,
        node: NodeId,
        frame: FrameId,
        home: Home,
        mapper: &mut M,
    ) -> Result<(), Failed>
        requires right { RightStore M.Mapper mapper.old caches.old self.old }
        requires held { is_held self.old.frames frame.0 ≡ true }
        requires unpinned { is_pinned self.old.frames frame.0 ≡ false }
        requires bound { node_of self.old.map frame.0 ≡ Some node }
        requires home { home_of caches.old node ≡ Some home }
        ensures left { OnOk result (Between
            (HasLeft (Some home) (is_clean (own_of caches.old node)) frame.0 node)
            M.Mapper
            mapper.old caches.old self.old mapper.new caches.new self.new) }
        ensures emptied { OnOk result (IsEmptied frame.0 self.old self.new) }
        ensures failed { OnErr result (self.new ≡ self.old) }
        ensures failed_caches { OnErr result (caches.new ≡ caches.old) }
        ensures failed_held { OnErr result (M.held mapper.new ≡ M.held mapper.old) }
        ensures failed_dirty { OnErr result (dirty_in caches.old self.old.map frame.0 ≡ 1) }
        ensures page_bytes { M.page_bytes mapper.new ≡ M.page_bytes mapper.old }
        ensures counts { Counted 0 (dirty_in caches.old self.old.map frame.0)
            (M.counts mapper.old) (M.counts mapper.new) result }
    {
        if let OwnState::Resident { dirty: true } = caches.own_state(node) {
            mapper.push_out(home.segment, home.page, self.frames.bytes(frame))?;
        }
        self.leave(caches, node, frame, OwnState::OnSegment);
        Ok(())
    }

    // Evicts the page of a node without a home.
    fn send_to_slot<M: Mapper>(
        &mut self,
        caches: &mut Caches,
        node: NodeId,
        frame: FrameId,
        mapper: &mut M,
    ) -> Result<(), Failed>
        requires right { RightStore M.Mapper mapper.old caches.old self.old }
        requires held { is_held self.old.frames frame.0 ≡ true }
        requires unpinned { is_pinned self.old.frames frame.0 ≡ false }
        requires bound { node_of self.old.map frame.0 ≡ Some node }
        requires home { home_of caches.old node ≡ None }
        ensures left { OnOk result (Between (IsInSlot frame.0 node) M.Mapper
            mapper.old caches.old self.old mapper.new caches.new self.new) }
        ensures emptied { OnOk result (IsEmptied frame.0 self.old self.new) }
        ensures failed { OnErr result (self.new ≡ self.old) }
        ensures failed_caches { OnErr result (caches.new ≡ caches.old) }
        ensures failed_held { OnErr result (M.held mapper.new ≡ M.held mapper.old) }
        ensures dirty { dirty_in caches.old self.old.map frame.0 ≡ 1 }
        ensures page_bytes { M.page_bytes mapper.new ≡ M.page_bytes mapper.old }
        ensures counts { Counted 0 1 (M.counts mapper.old) (M.counts mapper.new) result }
    {
        let slot = self.slots.take();
        match mapper.swap_out(slot, self.frames.bytes(frame)) {
            Ok(()) => {
                self.leave(caches, node, frame, OwnState::Slot(slot));
                Ok(())
            }
            Err(failed) => {
                self.slots.give_back(slot);
                Err(failed)
            }
        }
    }

    // The frame of a node falls free, whose page is in this state then. Its translations are
    // dropped.
    fn leave(&mut self, caches: &mut Caches, node: NodeId, frame: FrameId, own: OwnState)
        requires node { HasNode caches.old node }
        requires held { is_held self.old.frames frame.0 ≡ true }
        requires unpinned { is_pinned self.old.frames frame.0 ≡ false }
        requires bound { bound_times self.old.map node.0 ≡ 1 }
        requires place { frame_of self.old.map node.0 ≡ frame.0 }
        requires tables { IsFrame self.old.tables frame.0 }
        ensures caches { caches.new ≡ with_own caches.old node own }
        ensures store { self.new ≡ record self.old {
          frames = with_held self.old.frames frame.0 false;
          map = slice_set self.old.map frame.0 None;
          tables = map (unless (is_in_frame frame.0)) self.old.tables;
        } }
    {
        caches.set_state(node, own);
        self.map.unbind(node);
        self.tables.drop_frame(frame);
        self.frames.give_back(frame);
    }

    /// A frame for the caller, which is held, pinned and bound to no node. It evicts a page only
    /// where no frame is free, and fails only where that push fails.
    #[inline(always)]
    pub fn make_free<M: Mapper, C: Chooser>(
        &mut self,
        caches: &mut Caches,
        mapper: &mut M,
        chooser: &mut C,
    ) -> Result<FrameId, Failed>
        requires right { RightStore M.Mapper mapper.old caches.old self.old }
        requires unpinned { HasUnpinned self.old.frames }
        ensures free { Across (MakesFree result (pushes_for self.old.frames.held))
            M.Mapper
            mapper.old caches.old self.old mapper.new caches.new self.new }
        ensures tables { TablesAfter self.old self.new }
        ensures held { OnOk result (held_count self.new.frames + pushes_for self.old.frames.held
            ≡ held_count self.old.frames + 1) }
        ensures failed_held { OnErr result (
            held_count self.new.frames ≡ held_count self.old.frames) }
        ensures idle { pushes_for self.old.frames.held ≡ 0 → mapper.new ≡ mapper.old }
        ensures idle_caches { pushes_for self.old.frames.held ≡ 0 → caches.new ≡ caches.old }
    {
        match self.frames.take() {
            Some(frame) => {
                self.frames.pin(frame);
                Ok(frame)
            }
            None => self.make_room(caches, mapper, chooser),
        }
    }

    // A frame for the caller where none is free: that of a page that is evicted.
    fn make_room<M: Mapper, C: Chooser>(
        &mut self,
        caches: &mut Caches,
        mapper: &mut M,
        chooser: &mut C,
    ) -> Result<FrameId, Failed>
        requires right { RightStore M.Mapper mapper.old caches.old self.old }
        requires unpinned { HasUnpinned self.old.frames }
        requires full { All (λ h. h ≡ true) self.old.frames.held }
        ensures free { Across (MakesFree result 1) M.Mapper
            mapper.old caches.old self.old mapper.new caches.new self.new }
        ensures tables { TablesAfter self.old self.new }
        ensures held { held_count self.new.frames ≡ held_count self.old.frames }
    {
        let victim = self.marks.pick(&self.frames, chooser);
        self.evict(caches, victim, mapper)?;
        let frame = self.frames.take().unwrap();
        self.frames.pin(frame);
        Ok(frame)
    }

    /// Evicts so many pages, or all whose frames aren't pinned where they are fewer. It ends at the
    /// first push that fails. It takes one push for each dirty page that leaves its frame, and
    /// after a fault one more.
    pub fn page_out<M: Mapper, C: Chooser>(
        &mut self,
        caches: &mut Caches,
        count: u32,
        mapper: &mut M,
        chooser: &mut C,
    ) -> Result<(), Failed>
        requires right { RightStore M.Mapper mapper.old caches.old self.old }
        ensures still { Between Still M.Mapper
            mapper.old caches.old self.old mapper.new caches.new self.new }
        ensures told { Across TellsOn M.Mapper
            mapper.old caches.old self.old mapper.new caches.new self.new }
        ensures fewer { OnOk result (
            held_count self.new.frames + min count (evictable_count self.old.frames)
            ≡ held_count self.old.frames) }
        ensures failed { OnErr result (
            held_count self.old.frames
            < held_count self.new.frames + min count (evictable_count self.old.frames)) }
        ensures tables { TablesAfter self.old self.new }
        ensures pinned { self.new.frames.pinned ≡ self.old.frames.pinned }
        ensures others { Between OthersStay M.Mapper
            mapper.old caches.old self.old mapper.new caches.new self.new }
        ensures later { Later (M.counts mapper.old) (M.counts mapper.new) }
        ensures traffic { Traffic 0
            (dirty_count caches.old - dirty_count caches.new + failed_pushes result)
            (M.counts mapper.old) (M.counts mapper.new) }
        ensures dirty { dirty_count caches.new ≤ dirty_count caches.old }
        ensures few { dirty_count caches.old - dirty_count caches.new
            ≤ held_count self.old.frames - held_count self.new.frames }
        ensures cause { OnErr result (PushFailed (M.counts mapper.old) (M.counts mapper.new)) }
    {
        for done in 0..count {
            if self.frames.evictable_count() == 0 {
                return Ok(());
            }
            let frame = self.marks.pick(&self.frames, chooser);
            self.evict(caches, frame, mapper)?;
        }
        Ok(())
    }
}
