// A source in memory.
ghost use Rattle.std.specs.Prelude.{◌≡◌, ℕ, Some, ◌+◌, ◌-◌, ◌^◌, ◌≤◌, ◌<◌, [], ◌++◌, length, take, drop, min, option_map, is_err, IfOk, IfSome, OnErr};
ghost use Rattle.vm_ids.specs.Counting.{HasCause};
ghost use Rattle.vm_port.specs.Calls.{next_call, fault_more, is_failing};
ghost use Rattle.vm_port.specs.Streams.{SourceInMemory};

use super::calls::is_failing;
use crate::{Failed, Source};
use std::marker::Model;

/// A source over bytes in memory, which tells what it has left. It fails at the calls that it was
/// told to.
pub struct MemorySource<'a> {
    rest: &'a [u8],
    fails: &'a [u32],
    calls: u64,
    faults: u64,
    most: usize,
}

impl<'a> Model for MemorySource<'a> {
    ghost Value = { SourceInMemory };

    ghost view = { λ s. record {
      left = s.rest.now;
      most = s.most;
      fails = s.fails.now;
      calls = s.calls;
      faults = s.faults;
    } };

    ghost invariant = { λ s. 0 < s.most };
}

impl<'a> Drop for MemorySource<'a> {
    fn drop(self) {
        let MemorySource {
            rest: _,
            fails: _,
            calls: _,
            faults: _,
            most: _,
        } = self;
    }
}

impl<'a> MemorySource<'a> {
    /// Over these bytes. It fails at the calls whose numbers, counted from 1, stand in `fails`, and
    /// at no other.
    pub fn new(bytes: &'a [u8], fails: &'a [u32]) -> MemorySource<'a>
        ensures { result ≡ record {
          left = bytes.now;
          most = usize.MAX;
          fails = fails.now;
          calls = 0;
          faults = 0;
        } }
    {
        MemorySource {
            rest: bytes,
            fails,
            calls: 0,
            faults: 0,
            most: usize::MAX,
        }
    }

    /// From now on one read gives at most this many bytes, at least 1.
    pub fn chunk(&mut self, most: usize)
        requires { 1 ≤ most }
        ensures { self.new ≡ record self.old { most = most } }
    {
        self.most = most;
    }
}

impl<'a> Source for MemorySource<'a> {
    ghost left = { λ s. Some s.left };

    ghost faults = { λ s. s.faults };

    fn read(&mut self, into: &mut [u8]) -> Result<usize, Failed>
        requires { 0 < length into.old }
        ensures most { IfOk result (λ n. n ≤ length into.new) }
        ensures front { IfOk result (λ n.
            Some self.old.left
            ≡ option_map (λ rest. take n into.new ++ rest) (Some self.new.left)) }
        ensures end { IfOk result (λ n. n ≡ 0 → IfSome (Some self.old.left) (λ rest. rest ≡ [])) }
        ensures err { OnErr result (Some self.new.left ≡ Some self.old.left) }
        ensures cause { HasCause self.old.faults self.new.faults result }
        // It fails exactly at the calls told.
        ensures failing { is_err result ≡ is_failing self.old.fails (next_call self.old.calls) }
        ensures failed { OnErr result (self.new ≡ record self.old {
          calls = next_call self.old.calls;
          faults = fault_more self.old.faults;
        }) }
        // Else it gives as much as there is, fits and is allowed.
        ensures count { IfOk result (λ n.
            n ≡ min (min (length self.old.left) (length into.old)) self.old.most) }
        ensures rest { IfOk result (λ n. self.new ≡ record self.old {
          left = drop n self.old.left;
          calls = next_call self.old.calls;
        }) }
    {
        self.calls = self.calls.saturating_add(1);
        if is_failing(self.fails, self.calls) {
            self.faults = self.faults.saturating_add(1);
            return Err(Failed);
        }
        let n = self.rest.len().min(into.len()).min(self.most);
        let rest = self.rest;
        into[..n].copy_from_slice(&rest[..n]);
        self.rest = &rest[n..];
        Ok(n)
    }
}
