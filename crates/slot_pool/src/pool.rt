// A pool of swap slots.
ghost use Rattle.std.specs.Prelude.{◌≡◌, ◌++◌, ◌-◌, ◌<◌, ◌≤◌, false, true, [], length, replicate, slice_set, IsOk, OnOk, OnErr};
ghost use Rattle.slot_pool.specs.Slots.{held_count, is_held};

use number_pool::NumberPool;
use std::alloc::Global;
use std::marker::Model;
use vm_ids::{NoMemory, SlotId};

/// The swap slots below a capacity, each free or held.
#[derive(Drop)]
pub struct SlotPool {
    numbers: NumberPool,
}

impl Model for SlotPool {
    ghost use Rattle.std.specs.Prelude.{Bool, List};

    ghost Value = { List Bool };

    ghost view = { λ p. p.numbers };
}

impl SlotPool {
    /// A pool without slots.
    pub fn new(alloc: Global) -> SlotPool
        ensures { result ≡ [] }
    {
        SlotPool {
            numbers: NumberPool::new(alloc),
        }
    }

    /// Below this number the slots are the pool's.
    pub fn capacity(&self) -> u32
        ensures { result ≡ length self.now }
    {
        self.numbers.bound()
    }

    /// How many slots are held.
    pub fn held(&self) -> u32
        ensures { result ≡ held_count self.now }
    {
        self.numbers.taken()
    }

    /// Whether a slot is held.
    pub fn is_held(&self, slot: SlotId) -> bool
        requires { slot.0 < length self.now }
        ensures { result ≡ is_held self.now slot.0 }
    {
        self.numbers.is_taken(slot.0)
    }

    /// Makes the capacity at least `total`. The slots that were there stay as they are, and the new
    /// ones are free. It can fail only where the capacity was less than `total`, and after an error
    /// the pool is as it was.
    pub fn reserve(&mut self, total: u32) -> Result<(), NoMemory>
        ensures ok { OnOk result
            (self.new ≡ self.old ++ replicate (total - length self.old) false) }
        ensures err { OnErr result (self.new ≡ self.old) }
        ensures enough { total ≤ length self.old → IsOk result }
    {
        self.numbers.reserve(total)
    }

    /// A free slot, which is then held. There has to be one.
    #[tactic(auto, using(crate::proofs::Free::some_free))]
    pub fn take(&mut self) -> SlotId
        requires { held_count self.old < length self.old }
        ensures below { result.0 < length self.old }
        ensures fresh { is_held self.old result.0 ≡ false }
        ensures held { self.new ≡ slice_set self.old result.0 true }
    {
        SlotId(self.numbers.take().unwrap())
    }

    /// Gives a held slot back. It is then free.
    pub fn give_back(&mut self, slot: SlotId)
        requires { is_held self.old slot.0 ≡ true }
        ensures { self.new ≡ slice_set self.old slot.0 false }
    {
        self.numbers.give_back(slot.0);
    }
}
