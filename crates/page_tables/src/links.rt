// The links of entries, of which those that were never written take room alone.
ghost use Rattle.std.specs.Prelude.{◌≡◌, ◌<◌, ◌≤◌, ◌^◌, Some, length, map, slice_set, vec_capacity, IfOk};
ghost use Rattle.std.specs.List.{range_with_len};
ghost use Rattle.page_tables.specs.Links as spec;
ghost use Rattle.page_tables.specs.Links.{link_of, links_in, number_before, with_before, with_behind};

use crate::lists::{LOOSE, Link};
use std::alloc::Global;
use std::marker::Model;
use vm_ids::NoMemory;

/// A link for each entry. It is seen as the list of them.
#[derive(Drop)]
pub struct Links {
    // The list on which all entries are at first, in order, if they are on one.
    list: Option<u32>,
    // How many entries there are.
    entries: u32,
    // The links up to the last one that was written, and room for all.
    there: Vec<Link>,
}

impl Model for Links {
    ghost use Rattle.std.specs.Prelude.{◌≤◌, List, length, vec_capacity};
    ghost use Rattle.page_tables.specs.declared.lists.Link.{Link};
    ghost use Rattle.page_tables.specs.Links.{links_in};

    ghost Value = { List Link };

    ghost view = { λ l. links_in l.list l.entries l.there.items };

    ghost invariant = { λ l. (length l.there.items ≤ l.entries)
        × (l.entries ≤ vec_capacity l.there) };
}

// The entry before one, if there is one.
fn number_before(entry: u32) -> Option<u32>
    ensures { result ≡ number_before entry }
{
    if entry == 0 { None } else { Some(entry - 1) }
}

// The link of an entry that was never written.
fn first_link(list: Option<u32>, entries: u32, entry: u32) -> Link
    requires { entry < entries }
    ensures { result ≡ spec.first_link list entries entry }
{
    match list {
        Some(list) => Link {
            list: Some(list),
            before: number_before(entry),
            behind: if entry + 1 < entries {
                Some(entry + 1)
            } else {
                None
            },
        },
        None => LOOSE,
    }
}

// Makes the links up to that of an entry be there.
#[inline(never)]
fn extend(there: &mut Vec<Link>, list: Option<u32>, entries: u32, entry: u32)
    requires below { entry < entries }
    requires within { length there.old.items ≤ entries }
    requires room { entries ≤ vec_capacity there.old }
    ensures at { entry < length there.new.items }
    ensures within { length there.new.items ≤ entries }
    ensures room { entries ≤ vec_capacity there.new }
    ensures same { links_in list entries there.new.items ≡ links_in list entries there.old.items }
{
    while there.len() <= entry as usize {
        let next = there.len() as u32;
        there.push_reserved(first_link(list, entries, next));
    }
}

// Sees to it that the link of an entry is there.
#[inline(always)]
fn bring(there: &mut Vec<Link>, list: Option<u32>, entries: u32, entry: u32)
    requires below { entry < entries }
    requires within { length there.old.items ≤ entries }
    requires room { entries ≤ vec_capacity there.old }
    ensures at { entry < length there.new.items }
    ensures within { length there.new.items ≤ entries }
    ensures room { entries ≤ vec_capacity there.new }
    ensures same { links_in list entries there.new.items ≡ links_in list entries there.old.items }
{
    if there.len() <= entry as usize {
        extend(there, list, entries, entry);
    }
}

impl Links {
    /// The links of so many entries, all on this list in the order of their numbers, or on none.
    pub fn new(alloc: Global, list: Option<u32>, entries: u32) -> Result<Links, NoMemory>
        ensures { IfOk result (λ links.
            links ≡ map (spec.first_link list entries) (range_with_len 0 entries)) }
    {
        Ok(Links {
            list,
            entries,
            there: Vec::with_capacity(alloc, entries as usize)?,
        })
    }

    /// The link of an entry.
    #[inline(always)]
    pub fn get(&self, entry: u32) -> Link
        requires { entry < length self.now }
        ensures { result ≡ link_of self.now entry }
    {
        if (entry as usize) < self.there.len() {
            self.there[entry as usize]
        } else {
            first_link(self.list, self.entries, entry)
        }
    }

    /// Sets the link of an entry.
    #[inline(always)]
    pub fn set(&mut self, entry: u32, link: Link)
        requires { entry < length self.old }
        ensures { self.new ≡ slice_set self.old entry link }
    {
        bring(&mut self.there, self.list, self.entries, entry);
        self.there[entry as usize] = link;
    }

    /// Sets who stands before an entry.
    #[inline(always)]
    pub fn set_before(&mut self, entry: u32, before: Option<u32>)
        requires { entry < length self.old }
        ensures { self.new ≡ with_before self.old (Some entry) before }
    {
        bring(&mut self.there, self.list, self.entries, entry);
        let link = &mut self.there[entry as usize];
        link.before = before;
    }

    /// Sets who stands behind an entry.
    #[inline(always)]
    pub fn set_behind(&mut self, entry: u32, behind: Option<u32>)
        requires { entry < length self.old }
        ensures { self.new ≡ with_behind self.old (Some entry) behind }
    {
        bring(&mut self.there, self.list, self.entries, entry);
        let link = &mut self.there[entry as usize];
        link.behind = behind;
    }
}
