// Numbers at places, of which the least is at hand.
ghost use Rattle.std.specs.Prelude.{◌≡◌, ℕ, ◌<◌, ◌≤◌, None, Some, length, max, IsOk, IsSome, MatchOption, OnErr, OnOk, vec_capacity};
ghost use Rattle.std.specs.FinMap as map;
ghost use Rattle.least_heap.specs.Heaps.{Extends, IsLeast};

use crate::heap::{Numbered, put_in, take_out};
use std::alloc::{AllocError, Global};
use std::marker::Model;

/// Numbers at places, each place with one number at most. Places are counted from 0.
#[derive(Drop)]
pub struct LeastHeap {
    // None is less than the one at half its own index.
    heap: Vec<Numbered>,
    // Where each place stands in the heap, as far as it does.
    stands: Vec<u32>,
    // For so many places there is memory.
    room: u32,
}

impl Model for LeastHeap {
    ghost use Rattle.std.specs.Prelude.{vec_capacity};
    ghost use Rattle.least_heap.specs.Heaps.{IsKept, Numbers, numbers_code, numbers_of};

    ghost Value = { Numbers };

    ghost coded = { numbers_code };

    ghost view = { λ h. record { numbers = numbers_of h.heap.items; room = h.room } };

    ghost invariant = { λ h. IsKept h.heap.items h.stands.items h.room (vec_capacity h.heap)
        (vec_capacity h.stands) };
}

// Sees to it that there is an index for a place.
fn cover(stands: &mut Vec<u32>, place: u32)
    requires { place < vec_capacity stands.old }
    ensures covered { place < length stands.new.items }
    ensures same { Extends stands.old.items stands.new.items }
    ensures few { (room : ℕ) → length stands.old.items ≤ room → place < room
        → length stands.new.items ≤ room }
    ensures capacity { vec_capacity stands.new ≡ vec_capacity stands.old }
{
    while stands.len() <= place as usize {
        stands.push_reserved(0);
    }
}

impl LeastHeap {
    /// No number, and no memory for a place.
    pub fn new(alloc: Global) -> Self
        ensures { result ≡ record { numbers = map.empty; room = 0 } }
    {
        LeastHeap {
            heap: Vec::new(alloc),
            stands: Vec::new(alloc),
            room: 0,
        }
    }

    /// Makes room for so many places in all, and touches no memory for them. It can fail only where
    /// there was less room, and then nothing changes.
    pub fn reserve(&mut self, room: u32) -> Result<(), AllocError>
        ensures ok { OnOk result (self.new ≡ record self.old { room = max self.old.room room }) }
        ensures err { OnErr result (self.new ≡ self.old) }
        ensures enough { room ≤ self.old.room → IsOk result }
    {
        if room > self.room {
            let total = room as usize;
            self.heap.reserve(total.saturating_sub(self.heap.len()))?;
            self.stands
                .reserve(total.saturating_sub(self.stands.len()))?;
            self.room = room;
        }
        Ok(())
    }

    /// The least number and its place. `None` exactly where there is no number.
    pub fn least(&self) -> Option<Numbered>
        ensures { MatchOption result (self.now.numbers ≡ map.empty) (IsLeast self.now.numbers) }
    {
        self.heap.first().copied()
    }

    /// Enters a number at a place that has none.
    pub fn enter(&mut self, number: u64, place: u32)
        requires free { map.get self.old.numbers place ≡ None }
        requires room { place < self.old.room }
        ensures { self.new
            ≡ record self.old { numbers = map.insert self.old.numbers place number } }
    {
        cover(&mut self.stands, place);
        put_in(&mut self.heap, &mut self.stands, Numbered { number, place });
    }

    /// The number at a place, which has one, goes.
    pub fn leave(&mut self, place: u32)
        requires { IsSome (map.get self.old.numbers place) }
        ensures { self.new ≡ record self.old { numbers = map.remove self.old.numbers place } }
    {
        take_out(&mut self.heap, &mut self.stands, place);
    }
}
