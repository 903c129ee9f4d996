// A pool of numbers.
ghost use Rattle.std.specs.Prelude.{◌≡◌, ◌++◌, ◌-◌, ◌<◌, ◌≤◌, false, true, [], length, replicate, slice_set, All, IsOk, OnOk, OnErr, MatchOption};
ghost use Rattle.number_pool.specs.Numbers.{is_taken, taken_count};

use std::alloc::Global;
use std::marker::Model;
use vm_ids::NoMemory;

/// The numbers below a bound, each free or taken.
#[derive(Drop)]
pub struct NumberPool {
    bound: u32,
    // Of each number that was taken before whether it is taken now. The numbers behind these were
    // never taken. There is room for each number below the bound.
    taken: Vec<bool>,
    // The free numbers that were taken before, and room for each number below the bound.
    returned: Vec<u32>,
}

impl Model for NumberPool {
    ghost use Rattle.std.specs.Prelude.{Bool, List};
    ghost use Rattle.number_pool.specs.Layout.{numbers_seen, IsSound};

    ghost Value = { List Bool };

    ghost view = { numbers_seen };

    ghost invariant = { IsSound };
}

impl NumberPool {
    /// A pool without numbers.
    pub fn new(alloc: Global) -> NumberPool
        ensures { result ≡ [] }
    {
        NumberPool {
            bound: 0,
            taken: Vec::new(alloc),
            returned: Vec::new(alloc),
        }
    }

    /// The numbers below this one are the pool's.
    pub fn bound(&self) -> u32
        ensures { result ≡ length self.now }
    {
        self.bound
    }

    /// How many numbers are taken.
    pub fn taken(&self) -> u32
        ensures { result ≡ taken_count self.now }
    {
        (self.taken.len() - self.returned.len()) as u32
    }

    /// Whether a number is taken.
    pub fn is_taken(&self, number: u32) -> bool
        requires { number < length self.now }
        ensures { result ≡ is_taken self.now number }
    {
        let at = number as usize;
        at < self.taken.len() && self.taken[at]
    }

    /// Makes the bound at least `total`. The numbers that were there stay as they are, and the new
    /// ones are free. It can fail only where the bound was less than `total`, and after an error
    /// the pool is as it was.
    pub fn reserve(&mut self, total: u32) -> Result<(), NoMemory>
        ensures ok { OnOk result
            (self.new ≡ self.old ++ replicate (total - length self.old) false) }
        ensures err { OnErr result (self.new ≡ self.old) }
        ensures enough { total ≤ length self.old → IsOk result }
    {
        if total <= self.bound {
            return Ok(());
        }
        self.taken.reserve(total as usize - self.taken.len())?;
        self.returned.reserve(total as usize - self.returned.len())?;
        self.bound = total;
        Ok(())
    }

    /// A free number, which is then taken. `None` exactly where no number is free.
    pub fn take(&mut self) -> Option<u32>
        ensures { MatchOption result
            ((self.new ≡ self.old) × All (λ taken. taken ≡ true) self.old)
            (λ number. (number < length self.old) × (is_taken self.old number ≡ false)
            × (self.new ≡ slice_set self.old number true)) }
    {
        if let Some(number) = self.returned.pop() {
            self.taken[number as usize] = true;
            return Some(number);
        }
        let number = self.taken.len() as u32;
        if number == self.bound {
            return None;
        }
        self.taken.push_reserved(true);
        Some(number)
    }

    /// Gives a taken number back. It is then free.
    pub fn give_back(&mut self, number: u32)
        requires { is_taken self.old number ≡ true }
        ensures { self.new ≡ slice_set self.old number false }
    {
        self.taken[number as usize] = false;
        self.returned.push_reserved(number);
    }
}
