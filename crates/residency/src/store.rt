// Frames, slots, page tables and the map, and the calls that move pages between them.
ghost use Rattle.std.specs.Prelude.{◌≡◌, ◌≢◌, ℕ, ◌+◌, ◌-◌, ◌*◌, ◌<◌, ◌≤◌, ◌^◌, ◌++◌, [], length, map, replicate, slice_set, true, false, Option, Some, None, IfSome, MatchOption, IfOk, OnOk, OnErr, IsOk};
ghost use Rattle.std.specs.Borrow.{sem};
ghost use Rattle.vm_ids.specs.declared.numbers.NodeId.{NodeId};
ghost use Rattle.vm_ids.specs.Held.{Held};
ghost use Rattle.frame_pool.specs.Pool.{bytes_of, is_held, is_pinned, with_bytes};
ghost use Rattle.slot_pool.specs.Slots as swap;
ghost use Rattle.global_map.specs.Pairs.{bound_times, frame_of, node_of};
ghost use Rattle.page_tables.specs.Entries.{is_in_frame};
ghost use Rattle.page_tables.specs.Translations.{IsFrame, Narrows, unless};
ghost use Rattle.local_cache.specs.Arena.{Arena};
ghost use Rattle.residency.specs.Frames.{free_frames, with_held, with_pinned};
ghost use Rattle.residency.specs.Lending.{LendsFrame, LendsTables};
ghost use Rattle.residency.specs.World.{HasNoNodes, IsStoreRight, world};

mod bringing;
mod evicting;

use crate::marks::Marks;
use frame_pool::FramePool;
use global_map::GlobalMap;
use page_tables::PageTables;
use slot_pool::SlotPool;
use std::alloc::Global;
use vm_ids::{FrameId, NoMemory, NodeId, SlotId};

/// The page frames, the swap slots, the page tables and the map from page nodes to frames.
pub struct Store {
    frames: FramePool,
    slots: SlotPool,
    map: GlobalMap,
    tables: PageTables,
    marks: Marks,
}

impl Drop for Store {
    // One call, so that whoever lets a store go needs to know of none of its parts.
    fn drop(self) {
        let Store {
            frames: _,
            slots: _,
            map: _,
            tables: _,
            marks: _,
        } = self;
    }
}

impl Store {
    /// A store of so many free frames of `page` bytes each, without swap slots and translations.
    pub fn new(alloc: Global, frames: u32, page: u32) -> Result<Store, NoMemory>
        requires frames { frames ≤ 2 ^ 16 }
        requires page { page ≤ 2 ^ 16 }
        ensures is { IfOk result (λ s. s ≡ record {
          frames = free_frames frames page;
          slots = [];
          map = replicate frames None;
          tables = replicate (4 * frames) None;
          marks = replicate frames false;
        }) }
        ensures right { IfOk result (λ s. (told : Option Held) (size : Option ℕ) (caches : Arena) →
            HasNoNodes caches → IfSome size (λ n. n ≡ page) →
            IsStoreRight (world told size caches s)) }
    {
        let pool = FramePool::new(alloc, frames, page)?;
        let map = GlobalMap::new(alloc, frames)?;
        let tables = PageTables::new(alloc, frames)?;
        let marks = Marks::new(alloc, frames)?;
        Ok(Store {
            frames: pool,
            slots: SlotPool::new(alloc),
            map,
            tables,
            marks,
        })
    }

    /// The page frames.
    pub fn frames(&self) -> &FramePool
        ensures { result.now ≡ self.now.frames }
    {
        &self.frames
    }

    /// The swap slots.
    pub fn slots(&self) -> &SlotPool
        ensures { result.now ≡ self.now.slots }
    {
        &self.slots
    }

    /// Which node is in each frame.
    pub fn map(&self) -> &GlobalMap
        ensures { result.now ≡ self.now.map }
    {
        &self.map
    }

    /// The page tables.
    pub fn tables(&self) -> &PageTables
        ensures { result.now ≡ self.now.tables }
    {
        &self.tables
    }

    /// The page tables, to be changed.
    pub fn tables_mut(&mut self) -> &mut PageTables
        ensures* writes_back { sem 𝓛 (LendsTables self.entry result) }
        ensures tables { result.now ≡ self.old.tables }
    {
        &mut self.tables
    }

    /// Makes the translations read-only that lead to the frame of a node that is picked. It is
    /// asked of each node to whose frame a translation for writing leads, in any order.
    pub fn narrow_picked<F: Fn(NodeId) -> bool>(&mut self, picks: F)
        requires places { length self.old.tables ≡ 4 * length self.old.map }
        requires callable { (frame : ℕ) (node : NodeId) → node_of self.old.map frame ≡ Some node →
            F.pre picks node }
        ensures same { self.new ≡ record self.old { tables = self.new.tables } }
        ensures narrowed { Narrows self.old.tables self.new.tables (λ frame picked.
            MatchOption (node_of self.old.map frame) (picked ≡ false)
            (λ node. F.post picks node picked)) }
    {
        let map = &self.map;
        self.tables.narrow_picked(
            |frame|
                requires frame { frame.0 < length map.now }
                requires node { IfSome (node_of map.now frame.0) (λ node. F.pre picks node) }
                ensures { MatchOption (node_of map.entry.now frame.0) (result ≡ false)
                    (λ node. F.post picks node result) }
            {
                match map.node_at(frame) {
                    Some(node) => picks(node),
                    None => false,
                }
            },
        );
    }

    /// The bytes of a frame, to be written.
    pub fn bytes_mut(&mut self, frame: FrameId) -> &mut [u8]
        requires { frame.0 < length self.old.frames.held }
        ensures* writes_back { sem 𝓛 (LendsFrame self.entry frame.0 result) }
        ensures bytes { result.now ≡ bytes_of self.old.frames frame.0 }
        ensures page { length result.now ≡ self.old.frames.page }
    {
        self.frames.bytes_mut(frame)
    }

    /// Makes the bytes of one frame those of another.
    pub fn copy(&mut self, from: FrameId, to: FrameId)
        requires from { from.0 < length self.old.frames.held }
        requires to { to.0 < length self.old.frames.held }
        requires apart { from.0 ≢ to.0 }
        ensures { self.new ≡ record self.old {
          frames = with_bytes self.old.frames to.0 (bytes_of self.old.frames from.0);
        } }
    {
        self.frames.copy(from, to);
    }

    /// Makes the bytes of a frame zeros.
    pub fn zero(&mut self, frame: FrameId)
        requires { frame.0 < length self.old.frames.held }
        ensures { self.new ≡ record self.old {
          frames = with_bytes self.old.frames frame.0 (replicate self.old.frames.page 0);
        } }
    {
        self.frames.zero(frame);
    }

    /// Pins a frame, so that it is no victim of eviction.
    pub fn pin(&mut self, frame: FrameId)
        requires { frame.0 < length self.old.frames.held }
        ensures { self.new ≡ record self.old { frames = with_pinned self.old.frames frame.0 true } }
    {
        self.frames.pin(frame);
    }

    /// Unpins a frame.
    pub fn unpin(&mut self, frame: FrameId)
        requires { frame.0 < length self.old.frames.held }
        ensures { self.new ≡ record self.old {
          frames = with_pinned self.old.frames frame.0 false;
        } }
    {
        self.frames.unpin(frame);
    }

    /// Gives a held frame back that isn't pinned. It is then free.
    pub fn give_back_frame(&mut self, frame: FrameId)
        requires held { is_held self.old.frames frame.0 ≡ true }
        requires unpinned { is_pinned self.old.frames frame.0 ≡ false }
        ensures { self.new ≡ record self.old { frames = with_held self.old.frames frame.0 false } }
    {
        self.frames.give_back(frame);
    }

    /// Binds an unbound node to an unbound frame.
    pub fn bind(&mut self, node: NodeId, frame: FrameId)
        requires frame { frame.0 < length self.old.map }
        requires free { node_of self.old.map frame.0 ≡ None }
        requires node { bound_times self.old.map node.0 ≡ 0 }
        ensures { self.new ≡ record self.old { map = slice_set self.old.map frame.0 (Some node) } }
    {
        self.map.bind(node, frame);
    }

    /// Unbinds a bound node from its frame, whose translations are dropped.
    pub fn unbind(&mut self, node: NodeId)
        requires bound { bound_times self.old.map node.0 ≡ 1 }
        requires tables { IsFrame self.old.tables (frame_of self.old.map node.0) }
        ensures { self.new ≡ record self.old {
          map = slice_set self.old.map (frame_of self.old.map node.0) None;
          tables = map (unless (is_in_frame (frame_of self.old.map node.0))) self.old.tables;
        } }
    {
        let emptied = self.map.get(node).unwrap();
        self.map.unbind(node);
        self.tables.drop_frame(emptied);
    }

    /// Binds the unbound node `to` in place of the bound node `from`.
    pub fn rekey(&mut self, from: NodeId, to: NodeId)
        requires from { bound_times self.old.map from.0 ≡ 1 }
        requires to { bound_times self.old.map to.0 ≡ 0 }
        ensures { self.new ≡ record self.old {
          map = slice_set self.old.map (frame_of self.old.map from.0) (Some to);
        } }
    {
        self.map.rekey(from, to);
    }

    /// Gives a held slot back. It is then free.
    pub fn give_back_slot(&mut self, slot: SlotId)
        requires { swap.is_held self.old.slots slot.0 ≡ true }
        ensures { self.new ≡ record self.old { slots = slice_set self.old.slots slot.0 false } }
    {
        self.slots.give_back(slot);
    }

    /// Makes the number of slots at least `total`, the new ones free. It can fail only where there
    /// were fewer, and after an error the store is as it was.
    pub fn reserve_slots(&mut self, total: u32) -> Result<(), NoMemory>
        ensures ok { OnOk result (self.new ≡ record self.old {
          slots = self.old.slots ++ replicate (total - length self.old.slots) false;
        }) }
        ensures err { OnErr result (self.new ≡ self.old) }
        ensures enough { total ≤ length self.old.slots → IsOk result }
    {
        self.slots.reserve(total)
    }

    /// Sets the referenced mark of a frame, which the chooser sees at its next pick.
    pub fn touch(&mut self, frame: FrameId)
        requires { frame.0 < length self.old.marks }
        ensures { self.new ≡ record self.old { marks = slice_set self.old.marks frame.0 true } }
    {
        self.marks.touch(frame);
    }
}
