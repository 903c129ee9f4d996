// The entries at places, of which those behind the last one that was put there take room alone.
ghost use Rattle.std.specs.Prelude.{◌≡◌, ◌<◌, ◌≤◌, None, length, replicate, slice_set, vec_capacity, IfOk};
ghost use Rattle.page_tables.specs.Places.{places_in};
ghost use Rattle.page_tables.specs.Translations.{entry_at};

use crate::entry::Entry;
use std::alloc::Global;
use std::marker::Model;
use vm_ids::NoMemory;

/// An entry, or none, at each place. It is seen as the list of them.
#[derive(Drop)]
pub struct Entries {
    // How many places there are.
    count: u32,
    // The places up to the last one to which an entry was put, and room for all.
    there: Vec<Option<Entry>>,
}

impl Model for Entries {
    ghost use Rattle.std.specs.Prelude.{◌≤◌, List, Option, length, vec_capacity};
    ghost use Rattle.page_tables.specs.declared.entry.Entry.{Entry};
    ghost use Rattle.page_tables.specs.Places.{places_in};

    ghost Value = { List (Option Entry) };

    ghost view = { λ e. places_in e.count e.there.items };

    ghost invariant = { λ e. (length e.there.items ≤ e.count)
        × (e.count ≤ vec_capacity e.there) };
}

// Makes the places up to this one be there.
fn bring(there: &mut Vec<Option<Entry>>, count: u32, place: u32)
    requires below { place < count }
    requires within { length there.old.items ≤ count }
    requires room { count ≤ vec_capacity there.old }
    ensures at { place < length there.new.items }
    ensures within { length there.new.items ≤ count }
    ensures room { count ≤ vec_capacity there.new }
    ensures same { places_in count there.new.items ≡ places_in count there.old.items }
{
    let end = place as usize + 1;
    if end <= there.len() {
        return;
    }
    match there.resize(end, None) {
        Ok(()) => {}
        Err(_) => unreachable!(),
    }
}

impl Entries {
    /// So many places, all empty.
    pub fn new(alloc: Global, count: u32) -> Result<Entries, NoMemory>
        ensures { IfOk result (λ entries. entries ≡ replicate count None) }
    {
        Ok(Entries {
            count,
            there: Vec::with_capacity(alloc, count as usize)?,
        })
    }

    /// How many places there are.
    pub fn count(&self) -> u32
        ensures { result ≡ length self.now }
    {
        self.count
    }

    /// What is at a place.
    pub fn get(&self, place: u32) -> Option<Entry>
        requires { place < length self.now }
        ensures { result ≡ entry_at self.now place }
    {
        if (place as usize) < self.there.len() {
            self.there[place as usize]
        } else {
            None
        }
    }

    /// Puts this at a place, an entry or nothing, whatever was there.
    pub fn put(&mut self, place: u32, entry: Option<Entry>)
        requires { place < length self.old }
        ensures { self.new ≡ slice_set self.old place entry }
    {
        bring(&mut self.there, self.count, place);
        self.there[place as usize] = entry;
    }
}
