// A sink in memory.
ghost use Rattle.std.specs.Prelude.{◌≡◌, ℕ, Some, ◌+◌, ◌-◌, ◌^◌, ◌≤◌, ◌<◌, [], ◌++◌, ◌||◌, ◌==◌, length, take, min, option_map, is_err, IfOk, OnErr};
ghost use Rattle.std.specs.Vec.{vec_capacity};
ghost use Rattle.vm_ids.specs.Counting.{HasCause};
ghost use Rattle.vm_port.specs.Calls.{next_call, fault_more, is_failing};
ghost use Rattle.vm_port.specs.Streams.{SinkInMemory};

use super::calls::is_failing;
use crate::{Failed, Sink};
use std::alloc::Global;
use std::marker::Model;
use vm_ids::NoMemory;

/// A sink into memory, which tells what was written. It fails at the calls that it was told to, and
/// where no room is left.
#[derive(Drop)]
pub struct MemorySink {
    bytes: Vec<u8>,
    room: usize,
    fails: Vec<u32>,
    calls: u64,
    faults: u64,
}

impl Model for MemorySink {
    ghost Value = { SinkInMemory };

    ghost view = { λ s. record {
      written = s.bytes.items;
      room = s.room;
      fails = s.fails.items;
      calls = s.calls;
      faults = s.faults;
    } };

    ghost invariant = { λ s. (length s.bytes.items ≤ s.room) × (s.room ≤ vec_capacity s.bytes) };
}

impl MemorySink {
    /// With room for so many bytes. It fails at the calls whose numbers, counted from 1, stand in
    /// `fails`. Its writes take no memory. `NoMemory` where there is none for the room.
    pub fn new(alloc: Global, room: usize, fails: &[u32]) -> Result<MemorySink, NoMemory>
        ensures { IfOk result (λ s.
            s ≡ record { written = []; room = room; fails = fails.now; calls = 0; faults = 0 }) }
    {
        Ok(MemorySink {
            bytes: Vec::with_capacity(alloc, room)?,
            room,
            fails: Vec::from_slice(alloc, fails)?,
            calls: 0,
            faults: 0,
        })
    }

    /// All bytes written so far.
    pub fn written(&self) -> &[u8]
        ensures { result.now ≡ self.now.written }
    {
        &self.bytes
    }
}

impl Sink for MemorySink {
    ghost written = { λ s. Some s.written };

    ghost faults = { λ s. s.faults };

    fn write(&mut self, from: &[u8]) -> Result<usize, Failed>
        requires { 0 < length from.now }
        ensures least { IfOk result (λ n. 0 < n) }
        ensures most { IfOk result (λ n. n ≤ length from.now) }
        ensures taken { IfOk result (λ n.
            Some self.new.written
            ≡ option_map (λ old. old ++ take n from.now) (Some self.old.written)) }
        ensures err { OnErr result (Some self.new.written ≡ Some self.old.written) }
        ensures cause { HasCause self.old.faults self.new.faults result }
        // It fails exactly at the calls told and where no room is left.
        ensures failing { is_err result ≡ (is_failing self.old.fails (next_call self.old.calls)
            || self.old.room - length self.old.written == 0) }
        ensures failed { OnErr result (self.new ≡ record self.old {
          calls = next_call self.old.calls;
          faults = fault_more self.old.faults;
        }) }
        // Else it takes as much as fits.
        ensures count { IfOk result (λ n.
            n ≡ min (self.old.room - length self.old.written) (length from.now)) }
        ensures after { IfOk result (λ n. self.new ≡ record self.old {
          written = self.old.written ++ take n from.now;
          calls = next_call self.old.calls;
        }) }
    {
        self.calls = self.calls.saturating_add(1);
        let room = self.room - self.bytes.len();
        if is_failing(&self.fails, self.calls) || room == 0 {
            self.faults = self.faults.saturating_add(1);
            return Err(Failed);
        }
        let n = room.min(from.len());
        match self.bytes.extend_from_slice(&from[..n]) {
            Ok(()) => Ok(n),
            Err(_) => unreachable!(),
        }
    }
}
