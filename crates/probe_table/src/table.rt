// The table: a hash for each number, and the buckets in which the numbers stand.
ghost use Rattle.std.specs.Prelude.{◌≡◌, ℕ, ◌<◌, ◌≤◌, ◌^◌, true, false, length, None, Some, replicate, slice_set, IfOk, IfNone, IfSome, IsSome};
ghost use Rattle.probe_table.specs.Entries.{hash_of};

use crate::growth::bring;
use crate::probe::{close_gap, first_with, home_of, put};
use std::alloc::Global;
use std::marker::Model;
use vm_ids::NoMemory;

/// Which numbers are entered, and under which hash. A number is entered under one hash at most;
/// several may be entered under the same.
#[derive(Drop)]
pub struct ProbeTable {
    // For how many numbers the table is made.
    count: u32,
    // The hashes of the numbers up to some, and room for all. Those behind aren't entered.
    hashes: Vec<Option<u32>>,
    // The buckets for so many numbers as have hashes, and room for those of all.
    buckets: Vec<Option<u32>>,
}

impl Model for ProbeTable {
    ghost use Rattle.std.specs.Prelude.{ℕ, List, Option};
    ghost use Rattle.probe_table.specs.Entries.{table_of};
    ghost use Rattle.probe_table.specs.Probing.{IsKept};

    ghost Value = { List (Option ℕ) };

    ghost view = { λ t. table_of t.count t.hashes.items };

    ghost invariant = { λ t. IsKept t.count t.hashes t.buckets };
}

impl ProbeTable {
    /// A table for so many numbers, at most 2^18, with none entered.
    pub fn new(alloc: Global, count: u32) -> Result<ProbeTable, NoMemory>
        requires { count ≤ 2 ^ 18 }
        ensures { IfOk result (λ table. table ≡ replicate count None) }
    {
        let hashes = Vec::with_capacity(alloc, count as usize)?;
        // The homes are the first 2 * count buckets, so a walk from one ends before the last.
        let buckets = Vec::with_capacity(alloc, 3 * count as usize)?;
        Ok(ProbeTable {
            count,
            hashes,
            buckets,
        })
    }

    /// For how many numbers the table is made.
    pub fn count(&self) -> u32
        ensures { result ≡ length self.now }
    {
        self.count
    }

    /// A number that is entered under the hash and passes the test; `None` exactly where none does.
    /// Only numbers that are entered under the hash are tested.
    pub fn find<F: Fn(u32) -> bool>(&self, hash: u32, passes: F) -> Option<u32>
        requires callable { (n : ℕ) → hash_of self.now n ≡ Some hash → F.pre passes n }
        ensures below { IfSome result (λ n. n < length self.now) }
        ensures entered { IfSome result (λ n. hash_of self.now n ≡ Some hash) }
        ensures found { IfSome result (λ n. F.post passes n true) }
        ensures absent { IfNone result
            ((n : ℕ) → hash_of self.now n ≡ Some hash → F.post passes n false) }
    {
        let home = home_of(hash, self.hashes.len());
        for at in home..self.buckets.len() {
            let number = self.buckets[at]?;
            if self.hashes[number as usize] == Some(hash) && passes(number) {
                return Some(number);
            }
        }
        None
    }

    /// Enters a number that isn't entered.
    pub fn enter(&mut self, number: u32, hash: u32)
        requires below { number < length self.old }
        requires absent { hash_of self.old number ≡ None }
        ensures { self.new ≡ slice_set self.old number (Some hash) }
    {
        bring(&mut self.hashes, &mut self.buckets, self.count, number);
        put(&mut self.buckets, self.hashes.len(), number, hash);
        self.hashes[number as usize] = Some(hash);
    }

    /// Removes a number that is entered.
    #[inline(always)]
    pub fn remove(&mut self, number: u32)
        requires { IsSome (hash_of self.old number) }
        ensures { self.new ≡ slice_set self.old number None }
    {
        let hash = self.hashes[number as usize].unwrap();
        let home = home_of(hash, self.hashes.len());
        let at = first_with(&self.buckets, home, Some(number));
        self.hashes[number as usize] = None;
        self.buckets[at] = None;
        close_gap(&mut self.buckets, &self.hashes, at);
    }
}
