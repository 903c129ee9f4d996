// Which frames were referenced, as the chooser is shown them.
ghost use Rattle.std.specs.Prelude.{◌≡◌, ◌<◌, ◌≤◌, ◌^◌, true, false, length, replicate, slice_set, IfOk};
ghost use Rattle.frame_pool.specs.Pool.{is_evictable};
ghost use Rattle.residency.specs.Frames.{HasEvictable};

use frame_pool::FramePool;
use std::alloc::Global;
use std::marker::Model;
use vm_ids::{FrameId, NoMemory};
use vm_port::Chooser;

/// For each frame whether it was referenced.
#[derive(Drop)]
pub(crate) struct Marks {
    referenced: Vec<bool>,
}

impl Model for Marks {
    ghost use Rattle.std.specs.Prelude.{Bool, List};

    ghost Value = { List Bool };

    ghost view = { λ m. m.referenced.items };
}

impl Marks {
    pub(crate) fn new(alloc: Global, frames: u32) -> Result<Marks, NoMemory>
        ensures { IfOk result (λ m. m ≡ replicate frames false) }
    {
        Ok(Marks {
            referenced: vec![in alloc; false; frames as usize]?,
        })
    }

    /// A frame of the chooser's choice that is held and not pinned.
    pub(crate) fn pick<C: Chooser>(&mut self, frames: &FramePool, chooser: &mut C) -> FrameId
        requires length { length self.old ≡ length frames.now.held }
        requires few { length frames.now.held ≤ 2 ^ 16 }
        requires some { HasEvictable frames.now }
        ensures may { is_evictable frames.now result.0 ≡ true }
        ensures length { length self.new ≡ length self.old }
    {
        let frame = chooser.pick(frames.evictable(), &mut self.referenced);
        FrameId(frame as u32)
    }

    pub(crate) fn touch(&mut self, frame: FrameId)
        requires { frame.0 < length self.old }
        ensures { self.new ≡ slice_set self.old frame.0 true }
    {
        self.referenced[frame.0 as usize] = true;
    }
}
