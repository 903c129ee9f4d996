// A pool of page frames.
ghost use Rattle.std.specs.Prelude.{◌≡◌, ◌≢◌, ℕ, ◌<◌, ◌≤◌, ◌^◌, true, false, not, length, replicate, slice_set, count_by, All, IfOk, MatchOption};
ghost use Rattle.std.specs.Borrow.{sem};
ghost use Rattle.frame_pool.specs.Lending.{LendsPage};
ghost use Rattle.frame_pool.specs.Pool.{bytes_of, evictable_count, evictable_frames, is_evictable, is_held, is_pinned, with_bytes};

use crate::marks::Marks;
use crate::region::Region;
use number_pool::NumberPool;
use std::alloc::Global;
use std::marker::Model;
use vm_ids::{FrameId, NoMemory};

/// The page frames, each free or held.
#[derive(Drop)]
pub struct FramePool {
    // The numbers of the frames. Those of held frames are taken.
    held: NumberPool,
    pinned: Vec<bool>,
    // The frames that are held and not pinned.
    evictable: Marks,
    // Frame k has the k-th page.
    region: Region,
}

impl Model for FramePool {
    ghost use Rattle.frame_pool.specs.Pool.{Frames, frames_seen, IsSound};

    ghost Value = { Frames };

    ghost view = { frames_seen };

    ghost invariant = { IsSound };
}

impl FramePool {
    /// A pool of so many free frames of `page` bytes each, all bytes zero.
    pub fn new(alloc: Global, frames: u32, page: u32) -> Result<FramePool, NoMemory>
        requires frames { frames ≤ 2 ^ 16 }
        requires page { page ≤ 2 ^ 16 }
        ensures { IfOk result
            (λ p. p ≡ record {
              page = page;
              held = replicate frames false;
              pinned = replicate frames false;
              bytes = replicate frames (replicate page 0);
            }) }
    {
        let count = frames as usize;
        let mut held = NumberPool::new(alloc);
        held.reserve(frames)?;
        Ok(FramePool {
            held,
            pinned: vec![in alloc; false; count]?,
            evictable: Marks::new(alloc, count)?,
            region: Region::new(alloc, page as usize, count)?,
        })
    }

    /// How many frames there are, free or held.
    pub fn count(&self) -> u32
        ensures { result ≡ length self.now.held }
    {
        self.held.bound()
    }

    /// How many frames are free.
    pub fn free_count(&self) -> u32
        ensures { result ≡ count_by (λ held. not held) self.now.held }
    {
        self.held.bound() - self.held.taken()
    }

    /// A free frame, which is then held with whatever bytes it had. `None` exactly where no frame
    /// is free.
    pub fn take(&mut self) -> Option<FrameId>
        ensures { MatchOption result
            ((self.new ≡ self.old) × All (λ held. held ≡ true) self.old.held)
            (λ frame. (frame.0 < length self.old.held) × (is_held self.old frame.0 ≡ false)
            × (self.new ≡ record self.old { held = slice_set self.old.held frame.0 true })) }
    {
        let number = self.held.take()?;
        let at = number as usize;
        self.evictable.put(at, !self.pinned[at]);
        Some(FrameId(number))
    }

    /// Gives a held frame back that isn't pinned. It is then free.
    pub fn give_back(&mut self, frame: FrameId)
        requires held { is_held self.old frame.0 ≡ true }
        requires unpinned { is_pinned self.old frame.0 ≡ false }
        ensures { self.new ≡ record self.old { held = slice_set self.old.held frame.0 false } }
    {
        self.held.give_back(frame.0);
        self.evictable.put(frame.0 as usize, false);
    }

    /// Whether a frame is held.
    pub fn is_held(&self, frame: FrameId) -> bool
        requires { frame.0 < length self.now.held }
        ensures { result ≡ is_held self.now frame.0 }
    {
        self.held.is_taken(frame.0)
    }

    /// Whether a frame is pinned.
    pub fn is_pinned(&self, frame: FrameId) -> bool
        requires { frame.0 < length self.now.held }
        ensures { result ≡ is_pinned self.now frame.0 }
    {
        self.pinned[frame.0 as usize]
    }

    /// Whether a frame is held and not pinned.
    pub fn is_evictable(&self, frame: FrameId) -> bool
        requires { frame.0 < length self.now.held }
        ensures { result ≡ is_evictable self.now frame.0 }
    {
        self.held.is_taken(frame.0) && !self.pinned[frame.0 as usize]
    }

    /// Of each frame whether it is held and not pinned.
    pub fn evictable(&self) -> &[bool]
        ensures { result.now ≡ evictable_frames self.now }
    {
        self.evictable.as_slice()
    }

    /// How many frames are held and not pinned.
    pub fn evictable_count(&self) -> u32
        ensures { result ≡ evictable_count self.now }
    {
        self.evictable.count() as u32
    }

    /// Pins a frame, so that it is no victim of eviction.
    pub fn pin(&mut self, frame: FrameId)
        requires { frame.0 < length self.old.held }
        ensures { self.new ≡ record self.old { pinned = slice_set self.old.pinned frame.0 true } }
    {
        self.pinned[frame.0 as usize] = true;
        self.evictable.put(frame.0 as usize, false);
    }

    /// Unpins a frame.
    pub fn unpin(&mut self, frame: FrameId)
        requires { frame.0 < length self.old.held }
        ensures { self.new ≡ record self.old { pinned = slice_set self.old.pinned frame.0 false } }
    {
        self.pinned[frame.0 as usize] = false;
        let held = self.held.is_taken(frame.0);
        self.evictable.put(frame.0 as usize, held);
    }

    /// The bytes of a frame, as many as a page has.
    pub fn bytes(&self, frame: FrameId) -> &[u8]
        requires { frame.0 < length self.now.held }
        ensures bytes { result.now ≡ bytes_of self.now frame.0 }
        ensures page { length result.now ≡ self.now.page }
    {
        self.region.page(frame.0 as usize)
    }

    /// The bytes of a frame, to be written.
    pub fn bytes_mut(&mut self, frame: FrameId) -> &mut [u8]
        requires { frame.0 < length self.old.held }
        ensures* writes_back { sem 𝓛 (LendsPage self.entry frame.0 result) }
        ensures bytes { result.now ≡ bytes_of self.old frame.0 }
        ensures page { length result.now ≡ self.old.page }
    {
        self.region.page_mut(frame.0 as usize)
    }

    /// Makes the bytes of one frame those of another.
    pub fn copy(&mut self, from: FrameId, to: FrameId)
        requires from { from.0 < length self.old.held }
        requires to { to.0 < length self.old.held }
        requires apart { from.0 ≢ to.0 }
        ensures { self.new ≡ with_bytes self.old to.0 (bytes_of self.old from.0) }
    {
        self.region.copy(from.0 as usize, to.0 as usize);
    }

    /// Makes the bytes of a frame zeros.
    pub fn zero(&mut self, frame: FrameId)
        requires { frame.0 < length self.old.held }
        ensures { self.new ≡ with_bytes self.old frame.0 (replicate self.old.page 0) }
    {
        self.bytes_mut(frame).fill(0);
    }
}
