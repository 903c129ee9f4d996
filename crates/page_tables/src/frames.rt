// A set of page frames that can be gone through.
ghost use Rattle.std.specs.Prelude.{◌≡◌, ℕ, ◌<◌, ◌≤◌, ◌^◌, true, false, length, replicate, slice_set, IfOk, MatchOption};
ghost use Rattle.page_tables.specs.FrameSets.{count_in, has};

use std::alloc::Global;
use std::marker::Model;
use vm_ids::{FrameId, NoMemory};

/// A set of page frames. It is seen as a list that says of each frame whether the set has it.
#[derive(Drop)]
pub struct FrameSet {
    // The frames that it has, in any order, with room for all.
    frames: Vec<u32>,
    // Where each frame stands among these, if the set has it.
    places: Vec<Option<u32>>,
}

impl Model for FrameSet {
    ghost use Rattle.std.specs.Prelude.{◌≤◌, Bool, List, is_some, length, map, vec_capacity};
    ghost use Rattle.page_tables.specs.FrameSets.{IsFrameSet};

    ghost Value = { List Bool };

    ghost view = { λ s. map is_some s.places.items };

    ghost invariant = { λ s. IsFrameSet s.frames.items s.places.items
        × (length s.places.items ≤ vec_capacity s.frames) };
}

impl FrameSet {
    /// A set of none of so many frames.
    pub fn new(alloc: Global, frames: u32) -> Result<FrameSet, NoMemory>
        requires { frames ≤ 2 ^ 16 }
        ensures { IfOk result (λ set. set ≡ replicate frames false) }
    {
        let mut places = Vec::new(alloc);
        places.resize(frames as usize, None)?;
        let frames = Vec::with_capacity(alloc, frames as usize)?;
        Ok(FrameSet { frames, places })
    }

    /// How many frames it has.
    pub fn len(&self) -> u32
        ensures { result ≡ count_in self.now }
    {
        self.frames.len() as u32
    }

    /// Whether it has a frame.
    pub fn contains(&self, frame: FrameId) -> bool
        requires { frame.0 < length self.now }
        ensures { result ≡ has self.now frame.0 }
    {
        self.places[frame.0 as usize].is_some()
    }

    /// A frame that it has, if it has one.
    pub fn any(&self) -> Option<FrameId>
        ensures { MatchOption result ((frame : ℕ) → has self.now frame ≡ false)
            (λ frame. has self.now frame.0 ≡ true) }
    {
        let count = self.frames.len();
        if count == 0 {
            return None;
        }
        Some(FrameId(self.frames[count - 1]))
    }

    /// Puts a frame in, whether it has it or not.
    pub fn insert(&mut self, frame: FrameId)
        requires { frame.0 < length self.old }
        ensures { self.new ≡ slice_set self.old frame.0 true }
    {
        if self.places[frame.0 as usize].is_none() {
            self.places[frame.0 as usize] = Some(self.frames.len() as u32);
            self.frames.push_reserved(frame.0);
        }
    }

    /// Takes a frame out that it has. The last of its frames comes to stand in its place.
    pub fn remove(&mut self, frame: FrameId)
        requires { has self.old frame.0 ≡ true }
        ensures { self.new ≡ slice_set self.old frame.0 false }
    {
        let place = self.places[frame.0 as usize].unwrap();
        let last = self.frames[self.frames.len() - 1];
        let _frame = self.frames.swap_remove(place as usize);
        self.places[last as usize] = Some(place);
        self.places[frame.0 as usize] = None;
    }
}
