// Entries by number, each in a slot of its own.
ghost use Rattle.std.specs.Prelude.{◌≡◌, ◌≢◌, ℕ, ◌+◌, ◌<◌, ◌≤◌, None, Some, max, IfNone, IfOk, IfSome, IsOk, OnErr, OnOk, option_copied};
ghost use Rattle.std.specs.Borrow.{sem};
ghost use Rattle.std.specs.FinMap as map;
ghost use Rattle.mixed_map.specs.Place.{IsPlace};

use crate::{Place, Same};
use linear_index::Index;
use slab::Slab;
use std::alloc::{AllocError, Global};
use std::marker::Model;

// These entries under their keys, with room for just so many in all. A slab that grows may come to
// have room for more than it was asked for, and give out keys up to there: so its room is looked at
// before it is used.
fn roomier<S: Same>(slots: &Slab<S>, room: u32) -> Result<Slab<S>, AllocError>
    ensures { IfOk result (λ more. more ≡ record slots.now { capacity = room }) }
{
    let total = room as usize;
    let mut more = slots.clone()?;
    more.reserve_exact(total.saturating_sub(more.len()))?;
    if more.capacity() > total {
        return Err(AllocError);
    }
    Ok(more)
}

/// A finite map by number, whose entries each have a slot of their own. An entry keeps its slot as
/// long as it stands.
#[derive(Drop)]
pub struct LoneMap<S> {
    // The slot of each number.
    index: Index,
    // The entry in each slot: the slot is its key.
    slots: Slab<S>,
    // For so many entries there is memory, and slots are below.
    room: u32,
}

impl<S> Model for LoneMap<S> {
    ghost use Rattle.std.specs.Prelude.{◌≤◌};
    ghost use Rattle.std.specs.FinMap as map;
    ghost use Rattle.mixed_map.specs.Lone.{Lone, lone_code, filled, IsKept};

    ghost Value = { Lone S };

    ghost coded = { lone_code S.code };

    ghost view = { λ l. record {
      entries = filled l.slots (map.entries l.index.places);
      slots = l.index.places;
      room = l.room;
    } };

    ghost invariant = { λ l. (l.room ≤ l.index.room) × IsKept l.index.places l.slots l.room };
}

impl<S> LoneMap<S> {
    ghost use Rattle.mixed_map.specs.Lending.{LendsAlone};

    /// No entry, and no memory for one.
    pub fn new(alloc: Global) -> Self
        ensures { result ≡ record { entries = map.empty; slots = map.empty; room = 0 } }
    {
        LoneMap {
            index: Index::new(alloc),
            slots: Slab::new(alloc),
            room: 0,
        }
    }

    /// Makes room for so many entries in all. It can fail only where there was less room, and then
    /// nothing changes.
    pub fn reserve(&mut self, room: u32) -> Result<(), AllocError>
    where
        S: Same,
        ensures ok { OnOk result (self.new ≡ record self.old { room = max self.old.room room }) }
        ensures err { OnErr result (self.new ≡ self.old) }
        ensures enough { room ≤ self.old.room → IsOk result }
    {
        if room > self.room {
            let slots = roomier(&self.slots, room)?;
            self.index.reserve(room)?;
            self.slots = slots;
            self.room = room;
        }
        Ok(())
    }

    /// Where the entry of a number stands. `None` exactly where it has none.
    #[inline(always)]
    pub fn place(&self, number: u64) -> Option<Place>
        ensures place { IfSome result (λ place. (place.number ≡ number)
            × IsPlace self.now.slots place) }
        ensures none { IfNone result ((map.get self.now.slots number ≡ None)
            × (map.get self.now.entries number ≡ None)) }
    {
        match self.index.lately(number) {
            Some(slot) => Some(Place { number, slot }),
            None => self.search(number),
        }
    }

    // What `place` tells, by the index alone.
    fn search(&self, number: u64) -> Option<Place>
        ensures place { IfSome result (λ place. (place.number ≡ number)
            × IsPlace self.now.slots place) }
        ensures none { IfNone result ((map.get self.now.slots number ≡ None)
            × (map.get self.now.entries number ≡ None)) }
    {
        let slot = self.index.find(number)?;
        Some(Place { number, slot })
    }

    /// What `place` tells where the entry was found lately; or else `None`.
    #[inline(always)]
    pub fn recent_place(&self, number: u64) -> Option<Place>
        ensures { IfSome result (λ place. (place.number ≡ number)
            × IsPlace self.now.slots place) }
    {
        let slot = self.index.lately(number)?;
        Some(Place { number, slot })
    }

    /// The place with this slot, in which an entry is.
    pub fn place_of(&self, slot: u32) -> Place
        requires { (number : ℕ) × (map.get self.now.slots number ≡ Some slot) }
        ensures slot { result.slot ≡ slot }
        ensures place { IsPlace self.now.slots result }
    {
        Place {
            number: self.index.key(slot),
            slot,
        }
    }

    /// The entry at a place.
    #[inline(always)]
    pub fn at(&self, place: Place) -> &S
        requires { IsPlace self.now.slots place }
        ensures { map.get self.now.entries place.number ≡ Some result.now }
    {
        &self.slots[place.slot as usize]
    }

    /// The entry at a place, to be changed.
    #[inline(always)]
    pub fn at_mut(&mut self, place: Place) -> &mut S
        requires { IsPlace self.old.slots place }
        ensures* writes_back { sem 𝓛 (LendsAlone S.row self.entry place result) }
        ensures entry { map.get self.old.entries place.number ≡ Some result.now }
    {
        &mut self.slots[place.slot as usize]
    }

    /// The entry of a number. `None` exactly where it has none.
    pub fn get(&self, number: u64) -> Option<&S>
        ensures { option_copied result ≡ map.get self.now.entries number }
    {
        let place = self.place(number)?;
        Some(self.at(place))
    }

    /// An entry for a number that has none. Its place.
    pub fn insert(&mut self, number: u64, entry: S) -> Place
        requires vacant { map.get self.old.entries number ≡ None }
        requires room { map.len self.old.slots < self.old.room }
        ensures number { result.number ≡ number }
        ensures apart { (other : ℕ) → map.get self.old.slots other ≢ Some result.slot }
        ensures within { result.slot < self.old.room }
        ensures inserted { self.new ≡ record self.old {
          entries = map.insert self.old.entries number entry;
          slots = map.insert self.old.slots number result.slot;
        } }
        ensures count { map.len self.new.slots ≡ map.len self.old.slots + 1 }
    {
        let slot = self.slots.insert_reserved(entry) as u32;
        self.index.enter(number, slot);
        Place { number, slot }
    }

    /// Takes out the entry at a place.
    pub fn take(&mut self, place: Place) -> S
        requires { IsPlace self.old.slots place }
        ensures entry { map.get self.old.entries place.number ≡ Some result }
        ensures taken { self.new ≡ record self.old {
          entries = map.remove self.old.entries place.number;
          slots = map.remove self.old.slots place.number;
        } }
        ensures count { map.len self.new.slots + 1 ≡ map.len self.old.slots }
    {
        self.index.leave(place.number, place.slot);
        self.slots.remove(place.slot as usize)
    }
}
