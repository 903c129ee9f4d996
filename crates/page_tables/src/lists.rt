// Lists of entries, threaded through the entries.
ghost use Rattle.std.specs.Prelude.{◌≡◌, ◌≢◌, ℕ, ◌<◌, ◌≤◌, ◌^◌, None, Some, length, replicate, slice_set, count_by, IfOk, MatchOption};
ghost use Rattle.page_tables.specs.Membership.{list_of, is_on, Membership};
ghost use Rattle.page_tables.specs.Links.{first_of, heads_past, with_before, with_behind};

use crate::links::Links;
use std::alloc::Global;
use std::marker::Model;
use vm_ids::NoMemory;

// The list on which an entry is, and its neighbours there.
#[derive(Clone, Copy, Drop)]
pub struct Link {
    pub(crate) list: Option<u32>,
    pub(crate) before: Option<u32>,
    pub(crate) behind: Option<u32>,
}

// An entry that is on no list.
pub(crate) const LOOSE: Link = Link {
    list: None,
    before: None,
    behind: None,
};

/// Lists of numbered entries. An entry is on one list at most, and is added and taken off at once.
#[derive(Drop)]
pub struct EntryLists {
    heads: Vec<Option<u32>>,
    counts: Vec<u32>,
    links: Links,
}

impl Model for EntryLists {
    ghost use Rattle.std.specs.Prelude.{length, map};
    ghost use Rattle.page_tables.specs.Membership.{Membership};

    ghost Value = { Membership };

    ghost use Rattle.page_tables.specs.Threads.{IsThreaded};
    ghost use Rattle.page_tables.specs.Links.{list_in};

    ghost view = { λ l. record { lists = length l.heads.items; on = map list_in l.links } };

    ghost invariant = { λ l. IsThreaded l.heads.items l.counts.items l.links };
}

// Writes who stands before an entry, if there is one.
fn set_before(links: &mut Links, at: Option<u32>, before: Option<u32>)
    requires { (entry : ℕ) → at ≡ Some entry → entry < length links.old }
    ensures { links.new ≡ with_before links.old at before }
{
    if let Some(entry) = at {
        links.set_before(entry, before);
    }
}

// Writes who stands behind an entry, if there is one.
fn set_behind(links: &mut Links, at: Option<u32>, behind: Option<u32>)
    requires { (entry : ℕ) → at ≡ Some entry → entry < length links.old }
    ensures { links.new ≡ with_behind links.old at behind }
{
    if let Some(entry) = at {
        links.set_behind(entry, behind);
    }
}

// The list begins behind an entry that stood between these neighbours, if it began there.
fn set_head(heads: &mut Vec<Option<u32>>, list: u32, before: Option<u32>, behind: Option<u32>)
    requires { list < length heads.old.items }
    ensures { heads.new.items ≡ heads_past heads.old.items list before behind }
{
    if before.is_none() {
        heads[list as usize] = behind;
    }
}

// The first of so many entries, if there is one.
fn first_entry(entries: u32) -> Option<u32>
    ensures { result ≡ first_of entries }
{
    if entries == 0 { None } else { Some(0) }
}

impl EntryLists {
    /// So many empty lists for so many entries, all on none.
    pub fn new(alloc: Global, lists: u32, entries: u32) -> Result<EntryLists, NoMemory>
        requires { entries ≤ 2 ^ 18 }
        ensures { IfOk result
            (λ of. of ≡ record { lists = lists; on = replicate entries None }) }
    {
        let mut heads = Vec::new(alloc);
        heads.resize(lists as usize, None)?;
        let mut counts = Vec::new(alloc);
        counts.resize(lists as usize, 0)?;
        let links = Links::new(alloc, None, entries)?;
        Ok(EntryLists {
            heads,
            counts,
            links,
        })
    }

    /// So many lists for so many entries, all on list 0.
    pub fn new_on_first(alloc: Global, lists: u32, entries: u32) -> Result<EntryLists, NoMemory>
        requires entries { entries ≤ 2 ^ 18 }
        requires lists { 0 < lists }
        ensures { IfOk result
            (λ of. of ≡ record { lists = lists; on = replicate entries (Some 0) }) }
    {
        let mut heads = Vec::new(alloc);
        heads.resize(lists as usize, None)?;
        heads[0] = first_entry(entries);
        let mut counts = Vec::new(alloc);
        counts.resize(lists as usize, 0)?;
        counts[0] = entries;
        let links = Links::new(alloc, Some(0), entries)?;
        Ok(EntryLists {
            heads,
            counts,
            links,
        })
    }

    /// How many entries are on a list.
    pub fn len(&self, list: u32) -> u32
        requires { list < self.now.lists }
        ensures { result ≡ count_by (is_on list) self.now.on }
    {
        self.counts[list as usize]
    }

    /// An entry that is on the list; `None` exactly where none is.
    pub fn first(&self, list: u32) -> Option<u32>
        requires { list < self.now.lists }
        ensures { MatchOption result ((entry : ℕ) → list_of self.now entry ≢ Some list)
            (λ entry. list_of self.now entry ≡ Some list) }
    {
        self.heads[list as usize]
    }

    /// Puts an entry that is on no list on this one.
    pub fn add(&mut self, list: u32, entry: u32)
        requires list { list < self.old.lists }
        requires entry { entry < length self.old.on }
        requires loose { list_of self.old entry ≡ None }
        ensures { self.new ≡ record self.old { on = slice_set self.old.on entry (Some list) } }
    {
        let front = self.heads[list as usize];
        set_before(&mut self.links, front, Some(entry));
        let link = Link {
            list: Some(list),
            before: None,
            behind: front,
        };
        self.links.set(entry, link);
        self.heads[list as usize] = Some(entry);
        self.counts[list as usize] += 1;
    }

    /// Takes an entry off its list.
    pub fn take_off(&mut self, entry: u32)
        requires { list_of self.old entry ≢ None }
        ensures { self.new ≡ record self.old { on = slice_set self.old.on entry None } }
    {
        let link = self.links.get(entry);
        let list = link.list.unwrap();
        set_head(&mut self.heads, list, link.before, link.behind);
        set_behind(&mut self.links, link.before, link.behind);
        set_before(&mut self.links, link.behind, link.before);
        self.links.set(entry, LOOSE);
        self.counts[list as usize] -= 1;
    }
}
