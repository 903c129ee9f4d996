// The index: a map from keys to places.
ghost use Rattle.std.specs.Prelude.{◌≡◌, ◌≢◌, ℕ, ◌<◌, ◌≤◌, ◌↔◌, None, Some, max, IfSome, IsOk, IsTrue, OnErr, OnOk};
ghost use Rattle.std.specs.FinMap as map;

use crate::cell::Cell;
use crate::chains::{make_place, place_in, put_in, take_out};
use crate::hashes::{bucket_of_hash, hash};
use crate::head::Head;
use crate::recent::Recent;
use std::alloc::{AllocError, Global};
use std::marker::Model;

/// At which place each key is entered. Places are counted from 0; a key has one place at most, and
/// a place one key.
#[derive(Drop)]
pub struct Index {
    // The first place of each bucket.
    heads: Vec<Head>,
    // The cells of the places, as far as one was ever used.
    cells: Vec<Cell>,
    // One less than a power of two, and not less than the last bucket.
    mask: usize,
    // For so many places there is memory.
    room: u32,
    // Where keys were found lately.
    recent: Recent,
}

impl Model for Index {
    ghost use Rattle.std.specs.Prelude.{vec_capacity};
    ghost use Rattle.linear_index.specs.Entered.{Entered, entered_code, placed};
    ghost use Rattle.linear_index.specs.Buckets.{IsIndexed};

    ghost Value = { Entered };

    ghost coded = { entered_code };

    ghost view = { λ i. record { places = placed 0 i.cells.items; room = i.room } };

    ghost invariant = { λ i. IsIndexed i.heads.items i.cells.items i.mask i.room
        (vec_capacity i.heads) (vec_capacity i.cells) };
}

impl Index {
    /// No key, and no memory for a place.
    pub fn new(alloc: Global) -> Self
        ensures { result ≡ record { places = map.empty; room = 0 } }
    {
        Index {
            heads: Vec::new(alloc),
            cells: Vec::new(alloc),
            mask: 0,
            room: 0,
            recent: Recent::new(),
        }
    }

    /// Makes room for so many places in all, and touches no memory for them. It can fail only where
    /// there was less room, and then nothing changes.
    pub fn reserve(&mut self, room: u32) -> Result<(), AllocError>
        ensures ok { OnOk result (self.new ≡ record self.old { room = max self.old.room room }) }
        ensures err { OnErr result (self.new ≡ self.old) }
        ensures enough { room ≤ self.old.room → IsOk result }
    {
        if room > self.room {
            let total = room as usize;
            self.heads.reserve(total.saturating_sub(self.heads.len()))?;
            self.cells.reserve(total.saturating_sub(self.cells.len()))?;
            self.room = room;
        }
        Ok(())
    }

    /// The place at which a key is entered. `None` exactly where it isn't entered.
    #[inline(never)]
    pub fn find(&self, key: u64) -> Option<u32>
        ensures { result ≡ map.get self.now.places key }
    {
        let place = self.search(key)?;
        self.recent.remember(key, place);
        Some(place)
    }

    /// The place at which a key is entered, where it is the one that was found last for keys such
    /// as this one; or else `None`.
    #[inline(always)]
    pub fn lately(&self, key: u64) -> Option<u32>
        ensures { IfSome result (λ place. map.get self.now.places key ≡ Some place) }
    {
        let lately = self.recent.place(key);
        if self.is_at(key, lately) {
            Some(lately)
        } else {
            None
        }
    }

    /// The key that is entered at a place, at which one is.
    pub fn key(&self, place: u32) -> u64
        requires { (key : ℕ) × (map.get self.now.places key ≡ Some place) }
        ensures { map.get self.now.places result ≡ Some place }
    {
        self.cells[place as usize].key
    }

    // Whether a key is entered at this place.
    #[inline(always)]
    fn is_at(&self, key: u64, place: u32) -> bool
        ensures { IsTrue result ↔ (map.get self.now.places key ≡ Some place) }
    {
        match self.cells.get(place as usize) {
            Some(cell) => cell.has(key),
            None => false,
        }
    }

    // The same as `find`, by the chain of the key's bucket.
    fn search(&self, key: u64) -> Option<u32>
        ensures { result ≡ map.get self.now.places key }
    {
        if self.heads.is_empty() {
            return None;
        }
        let bucket = bucket_of_hash(hash(key), self.mask, self.heads.len());
        place_in(&self.cells, self.heads[bucket].place(), key)
    }

    /// Enters a key, which isn't entered, at a place that has none.
    #[inline(always)]
    pub fn enter(&mut self, key: u64, place: u32)
        requires new_key { map.get self.old.places key ≡ None }
        requires free { (other : ℕ) → map.get self.old.places other ≢ Some place }
        requires room { place < self.old.room }
        ensures { self.new ≡ record self.old { places = map.insert self.old.places key place } }
    {
        self.mask = make_place(&mut self.heads, &mut self.cells, self.mask, place);
        put_in(&mut self.heads, &mut self.cells, self.mask, key, place);
    }

    /// A key, which is entered at this place, goes.
    pub fn leave(&mut self, key: u64, place: u32)
        requires { map.get self.old.places key ≡ Some place }
        ensures { self.new ≡ record self.old { places = map.remove self.old.places key } }
    {
        take_out(&mut self.heads, &mut self.cells, self.mask, key, place);
    }
}
