// Entries by number, alone or in stretches.
ghost use Rattle.std.specs.Borrow.{sem};
ghost use Rattle.std.specs.Prelude.{◌≡◌, ◌≢◌, ℕ, ◌+◌, ◌<◌, ◌≤◌, ◌^◌, [], false, length, true, None, Some, max, IfNone, IfSome, IsOk, IsSome, MatchOption, OnErr, OnOk};
ghost use Rattle.std.specs.FinMap as map;
ghost use Rattle.stretches.specs.Changes.{SayAlso, SayNoMore};
ghost use Rattle.stretches.specs.Stretch.{IsFit, is_in};
ghost use Rattle.stretches.specs.Stretches.{AreTogether, IsStretchWith, said};
ghost use Rattle.mixed_map.specs.Finding.{IsFound};
ghost use Rattle.mixed_map.specs.Mixed.{AreAlone, IsStretchFrom, Tells, with_stretch, without_range, without_stretch};
ghost use Rattle.mixed_map.specs.Place.{IsPlace};
ghost use Rattle.mixed_map.specs.declared.place.Place.{Place};

use crate::{Alone, Found, LoneMap, Place};
use std::alloc::{AllocError, Global};
use std::marker::Model;
use stretches::{Says, Stretch, StretchList};

/// A finite map by number. An entry stands alone, in a slot of its own, or in a stretch, and no
/// number stands in both. Slots are counted from 0; an entry keeps its slot while it stands alone,
/// so that whoever found it may change it without another search, and may count by slots.
#[derive(Drop)]
pub struct MixedMap<V: Says, S: Alone<V>> {
    stretches: StretchList<V>,
    lone: LoneMap<S>,
    // For entries that are had from what a stretch says.
    alloc: Global,
}

impl<V: Says, S: Alone<V>> Model for MixedMap<V, S> {
    ghost use Rattle.std.specs.Prelude.{◌+◌};
    ghost use Rattle.std.specs.FinMap as map;
    ghost use Rattle.stretches.specs.Stretches.{number_count};
    ghost use Rattle.mixed_map.specs.Mixed.{IsMixed, Mixed, mixed_code, with_told};

    ghost Value = { Mixed V S };

    ghost coded = { mixed_code V.code S.code };

    ghost view = { λ m. record {
      cells = with_told V.Says S.told m.lone.entries m.stretches.list;
      slots = m.lone.slots;
      list = m.stretches.list;
      count = map.len m.lone.slots + number_count m.stretches.list;
      room = m.lone.room;
    } };

    ghost invariant = { λ m. IsMixed V.Says m.lone m.stretches };
}

impl<V: Says, S: Alone<V>> MixedMap<V, S> {
    ghost use Rattle.mixed_map.specs.Lending.{LendsEntry};

    /// No entry, and no memory for one.
    pub fn new(alloc: Global) -> Self
        ensures { result ≡ record {
          cells = map.empty;
          slots = map.empty;
          list = [];
          count = 0;
          room = 0;
        } }
    {
        MixedMap {
            stretches: StretchList::new(alloc),
            lone: LoneMap::new(alloc),
            alloc,
        }
    }

    /// Makes room for so many entries in all. It can fail only where there was less room, and then
    /// nothing changes.
    pub fn reserve(&mut self, total: u32) -> Result<(), AllocError>
        ensures ok { OnOk result (self.new
            ≡ record self.old { room = max self.old.room total }) }
        ensures err { OnErr result (self.new ≡ self.old) }
        ensures enough { total ≤ self.old.room → IsOk result }
    {
        self.stretches.reserve(total as usize)?;
        self.lone.reserve(total)
    }

    /// What is said of a number, or `None` exactly where nothing is.
    pub fn get(&self, number: u64) -> Option<Found<'_, V, S>>
        ensures { MatchOption result (map.get self.now.cells number ≡ None)
            (IsFound V.Says S.told self.now number) }
    {
        match self.lone.get(number) {
            Some(entry) => Some(Found::Alone(entry)),
            None => {
                let value = self.stretches.get(number)?;
                Some(Found::Told(value))
            }
        }
    }

    /// The entry of a number that stands alone, or `None` exactly where none does.
    pub fn lone(&self, number: u64) -> Option<&S>
        ensures slot { MatchOption result (map.get self.now.slots number ≡ None)
            (λ entry. IsSome (map.get self.now.slots number)) }
        ensures entry { IfSome result (λ entry. map.get self.now.cells number ≡ Some entry.now) }
    {
        let place = self.place(number)?;
        Some(self.at(place))
    }

    /// What `lone` tells where the entry was found lately; or else `None`.
    #[inline(always)]
    pub fn recent(&self, number: u64) -> Option<&S>
        ensures slot { IfSome result (λ entry. IsSome (map.get self.now.slots number)) }
        ensures entry { IfSome result (λ entry. map.get self.now.cells number ≡ Some entry.now) }
    {
        let place = self.recent_place(number)?;
        Some(self.at(place))
    }

    /// Where the entry of a number stands that stands alone, or `None` exactly where it doesn't.
    #[inline(always)]
    pub fn place(&self, number: u64) -> Option<Place>
        ensures place { IfSome result (λ place. (place.number ≡ number)
            × IsPlace self.now.slots place) }
        ensures alone { IfSome result (λ place. said V.Says self.now.list number ≡ None) }
        ensures none { IfNone result ((map.get self.now.slots number ≡ None)
            × (IsSome (map.get self.now.cells number)
            → IsSome (said V.Says self.now.list number))) }
    {
        self.lone.place(number)
    }

    /// What `place` tells where the entry was found lately; or else `None`.
    #[inline(always)]
    pub fn recent_place(&self, number: u64) -> Option<Place>
        ensures { IfSome result (λ place. (place.number ≡ number)
            × IsPlace self.now.slots place) }
    {
        self.lone.recent_place(number)
    }

    /// The place with this slot, in which an entry stands.
    pub fn place_of(&self, slot: u32) -> Place
        requires { (number : ℕ) × (map.get self.now.slots number ≡ Some slot) }
        ensures slot { result.slot ≡ slot }
        ensures place { IsPlace self.now.slots result }
    {
        self.lone.place_of(slot)
    }

    /// The entry at a place.
    #[inline(always)]
    pub fn at(&self, place: Place) -> &S
        requires { IsPlace self.now.slots place }
        ensures { map.get self.now.cells place.number ≡ Some result.now }
    {
        self.lone.at(place)
    }

    /// The entry at a place, to be changed.
    #[inline(always)]
    pub fn at_mut(&mut self, place: Place) -> &mut S
        requires { IsPlace self.old.slots place }
        ensures* writes_back { sem 𝓛 (LendsEntry V.row S.row V.Says S.Alone.own S.Clone
            self.entry place result) }
        ensures entry { map.get self.old.cells place.number ≡ Some result.now }
    {
        self.lone.at_mut(place)
    }

    /// What is left of the stretch that has a number, from this number on, or `None` exactly where
    /// it is in no stretch.
    pub fn stretch_from(&self, number: u64) -> Option<Stretch<V>>
        ensures from { MatchOption result
            (said V.Says self.now.list number ≡ None)
            (IsStretchFrom V.Says S.told self.now.cells number) }
        ensures together { IfSome result (λ r. AreTogether self.now.list r.first r.count) }
    {
        self.stretches.stretch_from(number)
    }

    /// The stretch that has a number, or `None` exactly where it is in no stretch.
    pub fn stretch_with(&self, number: u64) -> Option<Stretch<V>>
        ensures with { MatchOption result
            (said V.Says self.now.list number ≡ None)
            (IsStretchWith V.Says self.now.list number) }
        ensures told { IfSome result (λ r. Tells V.Says S.told self.now.cells r) }
    {
        self.stretches.stretch_with(number)
    }

    /// The stretch that has a number, where it is the one that was found last, or right beside; or
    /// else `None`.
    pub fn stretch_beside(&self, number: u64) -> Option<&Stretch<V>>
        ensures with { IfSome result (λ r. IsStretchWith V.Says self.now.list number r.now) }
        ensures told { IfSome result (λ r. Tells V.Says S.told self.now.cells r.now) }
    {
        self.stretches.stretch_beside(number)
    }

    /// How many stretches there are.
    pub fn stretch_count(&self) -> usize
        ensures { result ≡ length self.now.list }
    {
        self.stretches.len()
    }

    /// An entry for a number that has none. It stands alone, at a place that none has.
    pub fn insert(&mut self, number: u64, entry: S) -> Place
        requires vacant { map.get self.old.cells number ≡ None }
        requires room { self.old.count < self.old.room }
        ensures number { result.number ≡ number }
        ensures apart { (other : ℕ) → map.get self.old.slots other ≢ Some result.slot }
        ensures within { result.slot < self.old.room }
        ensures inserted { self.new ≡ record self.old {
          cells = map.insert self.old.cells number entry;
          slots = map.insert self.old.slots number result.slot;
          count = self.old.count + 1;
        } }
    {
        self.lone.insert(number, entry)
    }

    /// Entries for the numbers of a stretch, none of which has one. A stretch may have no number
    /// here, and the entry of one number stands alone. It is joined with its neighbours where they
    /// continue each other.
    pub fn insert_stretch(&mut self, stretch: Stretch<V>)
        requires fit { 0 < stretch.count → IsFit V.Says stretch }
        requires vacant { (n : ℕ) → is_in stretch n ≡ true → map.get self.old.cells n ≡ None }
        requires room { self.old.count + stretch.count ≤ self.old.room }
        ensures cells { self.new.cells ≡ with_stretch V.Says S.told self.old.cells stretch }
        ensures others { (n : ℕ) → is_in stretch n ≡ false
            → said V.Says self.new.list n ≡ said V.Says self.old.list n }
        ensures slots { (n : ℕ) → is_in stretch n ≡ false
            → map.get self.new.slots n ≡ map.get self.old.slots n }
        ensures told { 1 < stretch.count → self.new.slots ≡ self.old.slots }
        ensures count { self.new.count ≡ self.old.count + stretch.count }
        ensures room { self.new.room ≡ self.old.room }
    {
        if stretch.count > 1 {
            self.stretches.insert(stretch);
            self.stretches.join_at(stretch.first + stretch.count as u64);
            self.stretches.join_at(stretch.first);
        } else if stretch.count == 1 {
            let entry = self.entry_of(stretch.value);
            self.insert(stretch.first, entry);
        }
    }

    // The entry of a number of which a stretch says this.
    fn entry_of(&self, value: V) -> S
        ensures { result ≡ S.told value }
    {
        S::from_stretch(self.alloc, value)
    }

    /// Says something else of numbers that are in one stretch: what this stretch says of them. It
    /// is joined with its neighbours where they continue each other.
    pub fn put_stretch(&mut self, stretch: Stretch<V>)
        requires fit { IsFit V.Says stretch }
        requires together { AreTogether self.old.list stretch.first stretch.count }
        ensures cells { self.new.cells ≡ with_stretch V.Says S.told self.old.cells stretch }
        ensures apart { (n : ℕ) → is_in stretch n ≡ true → map.get self.old.slots n ≡ None }
        ensures also { SayAlso V.Says self.old.list stretch self.new.list }
        ensures slots { self.new.slots ≡ self.old.slots }
        ensures count { self.new.count ≡ self.old.count }
        ensures room { self.new.room ≡ self.old.room }
    {
        self.stretches.put(stretch);
    }

    /// Takes out the entries of numbers that are in one stretch, so many from one on.
    pub fn remove_stretch(&mut self, first: u64, count: u32) -> Stretch<V>
        requires some { 0 < count }
        requires together { AreTogether self.old.list first count }
        ensures from { IsStretchFrom V.Says S.told self.old.cells first result }
        ensures whole { result.count ≡ count }
        ensures apart { (n : ℕ) → is_in result n ≡ true → map.get self.old.slots n ≡ None }
        ensures cells { self.new.cells ≡ without_stretch self.old.cells result }
        ensures less { SayNoMore V.Says self.old.list result self.new.list }
        ensures slots { self.new.slots ≡ self.old.slots }
        ensures count { self.new.count + count ≡ self.old.count }
        ensures fits { self.new.count + count ≤ self.new.room }
        ensures room { self.new.room ≡ self.old.room }
    {
        self.stretches.remove_part(first, count)
    }

    /// Another entry for a number that has one. It stands alone from then on.
    pub fn set(&mut self, number: u64, entry: S)
        requires { IsSome (map.get self.old.cells number) }
        ensures cells { self.new.cells ≡ map.insert self.old.cells number entry }
        ensures alone { said V.Says self.new.list number ≡ None }
        ensures slots { (place : Place) → IsPlace self.old.slots place
            → IsPlace self.new.slots place }
        ensures count { self.new.count ≡ self.old.count }
        ensures room { self.new.room ≡ self.old.room }
    {
        match self.place(number) {
            Some(place) => *self.at_mut(place) = entry,
            None => {
                self.remove_stretch(number, 1);
                self.insert(number, entry);
            }
        }
    }

    /// Takes out the entry at a place.
    pub fn remove(&mut self, place: Place) -> S
        requires { IsPlace self.old.slots place }
        ensures entry { map.get self.old.cells place.number ≡ Some result }
        ensures count { self.new.count + 1 ≡ self.old.count }
        ensures fits { self.new.count < self.new.room }
        ensures removed { self.new ≡ record self.old {
          cells = map.remove self.old.cells place.number;
          slots = map.remove self.old.slots place.number;
          count = self.new.count;
        } }
    {
        self.lone.take(place)
    }

    /// Takes out the entries of so many numbers from one on, each of which has one.
    pub fn remove_range(&mut self, first: u64, count: u32)
        requires short { first + count ≤ 2 ^ 64 }
        requires held { (k : ℕ) → k < count → IsSome (map.get self.old.cells (first + k)) }
        ensures cells { self.new.cells ≡ without_range self.old.cells first count }
        ensures slots { self.new.slots ≡ without_range self.old.slots first count }
        ensures count { self.new.count + count ≡ self.old.count }
        ensures fits { 0 < count → self.new.count + count ≤ self.new.room }
        ensures room { self.new.room ≡ self.old.room }
    {
        let mut done = 0;
        while done < count {
            done += self.remove_some(first + done as u64, count - done);
        }
    }

    // Takes out the entry of a number that stands alone, or those of as many as are in one stretch
    // with it, as far as so many. How many.
    fn remove_some(&mut self, number: u64, most: u32) -> u32
        requires some { 0 < most }
        requires held { IsSome (map.get self.old.cells number) }
        ensures some { 0 < result }
        ensures within { result ≤ most }
        ensures cells { self.new.cells ≡ without_range self.old.cells number result }
        ensures slots { self.new.slots ≡ without_range self.old.slots number result }
        ensures count { self.new.count + result ≡ self.old.count }
        ensures fits { self.new.count + result ≤ self.new.room }
        ensures room { self.new.room ≡ self.old.room }
    {
        match self.place(number) {
            Some(place) => {
                self.remove(place);
                1
            }
            None => self.remove_told(number, most),
        }
    }

    // Takes out the entries of as many numbers as are in one stretch, from one on, as far as so
    // many. How many.
    fn remove_told(&mut self, number: u64, most: u32) -> u32
        requires some { 0 < most }
        requires told { IsSome (said V.Says self.old.list number) }
        ensures some { 0 < result }
        ensures within { result ≤ most }
        ensures cells { self.new.cells ≡ without_range self.old.cells number result }
        ensures slots { self.new.slots ≡ without_range self.old.slots number result }
        ensures count { self.new.count + result ≡ self.old.count }
        ensures fits { self.new.count + result ≤ self.new.room }
        ensures room { self.new.room ≡ self.old.room }
    {
        match self.stretch_from(number) {
            Some(stretch) => self.remove_stretch(number, stretch.count.min(most)).count,
            None => unreachable!(),
        }
    }

    /// Puts the entries of the numbers of a stretch into it: each stands alone, and is what the
    /// stretch tells of its number.
    pub fn gather(&mut self, stretch: Stretch<V>)
        requires fit { IsFit V.Says stretch }
        requires alone { AreAlone self.old stretch.first stretch.count }
        requires told { Tells V.Says S.told self.old.cells stretch }
        ensures cells { self.new.cells ≡ self.old.cells }
        ensures others { (n : ℕ) → is_in stretch n ≡ false
            → map.get self.new.slots n ≡ map.get self.old.slots n }
        ensures gone { 1 < stretch.count
            → self.new.slots ≡ without_range self.old.slots stretch.first stretch.count }
        ensures count { self.new.count ≡ self.old.count }
        ensures room { self.new.room ≡ self.old.room }
    {
        self.remove_range(stretch.first, stretch.count);
        self.insert_stretch(stretch);
    }
}
