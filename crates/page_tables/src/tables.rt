// The page tables: the places of entries, and the rows in which those of an actor are found.
ghost use Rattle.std.specs.Prelude.{◌≡◌, ◌≢◌, ℕ, ◌+◌, ◌*◌, ◌<◌, ◌≤◌, ◌^◌, true, false, None, Some, length, map, replicate, slice_set, IfOk, IfSome, MatchOption};
ghost use Rattle.vm_ids.specs.declared.numbers.FrameId.{FrameId};
ghost use Rattle.page_tables.specs.Entries.{is_in_frame, is_in_range, is_of_actor, is_picked};
ghost use Rattle.page_tables.specs.Indexes.{place_row};
ghost use Rattle.page_tables.specs.Membership.{list_of, Membership};
ghost use Rattle.page_tables.specs.Rows.{IsAside, IsInRows};
ghost use Rattle.page_tables.specs.Translations.{entries_for, entry_at, holds, narrowed, translation, unless, written_count, IsEntered, IsFrame, IsPlaceFor, Narrows};

use crate::entry::{Entry, Pages, ROWS, Translation, actor_row};
use crate::lists::EntryLists;
use crate::places::Places;
use std::alloc::Global;
use std::marker::Model;
use vm_ids::{ActorId, FrameId, NoMemory};

// The row, behind those of actors, in which places wait while the rest of their row is dropped.
const ASIDE: u32 = ROWS;

/// What is seen at the pages of actors, in four places for each page frame.
#[derive(Drop)]
pub struct PageTables {
    places: Places,
    rows: EntryLists,
    // the next place to give way where none is empty
    hand: u32,
}

impl Model for PageTables {
    ghost use Rattle.std.specs.Prelude.{List, Option};
    ghost use Rattle.page_tables.specs.declared.entry.Entry.{Entry};

    ghost Value = { List (Option Entry) };

    ghost use Rattle.page_tables.specs.Rows.{IsInRows};

    ghost view = { λ t. t.places };

    ghost invariant = { λ t. IsInRows t.places t.rows };
}

// A place with this entry, or an empty one, is in no row any more.
fn leave(rows: &mut EntryLists, place: u32, was: Option<Entry>)
    requires { list_of rows.old place ≡ place_row was }
    ensures { rows.new ≡ record rows.old { on = slice_set rows.old.on place None } }
{
    if was.is_some() {
        rows.take_off(place);
    }
}

// A place that is in no row gets this entry, or none.
fn join(rows: &mut EntryLists, place: u32, entry: Option<Entry>)
    requires rows { 1024 < rows.old.lists }
    requires below { place < length rows.old.on }
    requires absent { list_of rows.old place ≡ None }
    ensures { rows.new ≡ record rows.old { on = slice_set rows.old.on place (place_row entry) } }
{
    if let Some(entry) = entry {
        rows.add(actor_row(entry.actor), place);
    }
}

// Drops the entries of these pages of an actor, which are all in its row.
fn drop_in_row(places: &mut Places, rows: &mut EntryLists, actor: ActorId, pages: Pages)
    requires rows { IsInRows places.old rows.old }
    ensures dropped { places.new ≡ map (unless (is_picked actor.0 pages)) places.old }
    ensures rows { IsInRows places.new rows.new }
{
    let row = actor_row(actor);
    set_aside(places, rows, actor, pages);
    while let Some(place) = rows.first(ASIDE) {
        rows.take_off(place);
        rows.add(row, place);
    }
}

// Drops the entries of these pages of an actor, and sets the others of its row aside.
fn set_aside(places: &mut Places, rows: &mut EntryLists, actor: ActorId, pages: Pages)
    requires rows { IsInRows places.old rows.old }
    ensures dropped { places.new ≡ map (unless (is_picked actor.0 pages)) places.old }
    ensures rows { IsAside places.new rows.new actor.0 }
{
    let row = actor_row(actor);
    while let Some(place) = rows.first(row) {
        rows.take_off(place);
        if is_picked(places.get(place), actor, pages) {
            places.put(place, None);
        } else {
            rows.add(ASIDE, place);
        }
    }
}

// Whether there is an entry and it is for one of these pages of an actor.
fn is_picked(entry: Option<Entry>, actor: ActorId, pages: Pages) -> bool
    ensures { result ≡ holds (is_picked actor.0 pages) entry }
{
    match entry {
        Some(entry) => entry.is_picked(actor, pages),
        None => false,
    }
}

impl PageTables {
    /// Tables for so many page frames, at most 65,536, with no entry. It takes memory for four
    /// entries for each frame.
    pub fn new(alloc: Global, frames: u32) -> Result<PageTables, NoMemory>
        requires { frames ≤ 2 ^ 16 }
        ensures { IfOk result (λ tables. tables ≡ replicate (4 * frames) None) }
    {
        let places = Places::new(alloc, frames)?;
        let rows = EntryLists::new(alloc, ASIDE + 1, 4 * frames)?;
        Ok(PageTables {
            places,
            rows,
            hand: 0,
        })
    }

    /// What is seen at a page of an actor; `None` exactly where nothing is entered for it.
    pub fn lookup(&self, actor: ActorId, page: u64) -> Option<Translation>
        ensures seen { result ≡ translation self.now actor.0 page }
        ensures once { entries_for self.now actor.0 page ≤ 1 }
    {
        let place = self.places.find(actor, page)?;
        let entry = self.places.get(place)?;
        Some(entry.to)
    }

    /// Enters what is seen at a page of an actor, in place of what was. Where nothing was and each
    /// of the four places for each frame has an entry, one of these is dropped.
    pub fn enter(&mut self, actor: ActorId, page: u64, frame: FrameId, writable: bool)
        requires { IsFrame self.old frame.0 }
        ensures placed { IsEntered self.old self.new (record {
          actor = actor;
          page = page;
          to = record { frame = frame; writable = writable };
        }) }
        ensures seen { translation self.new actor.0 page
            ≡ Some (record { frame = frame; writable = writable }) }
    {
        let place = self.place_for(actor, page);
        let to = Translation { frame, writable };
        self.put(place, Some(Entry { actor, page, to }));
    }

    /// Drops each entry that leads to a frame.
    pub fn drop_frame(&mut self, frame: FrameId)
        requires { IsFrame self.old frame.0 }
        ensures { self.new ≡ map (unless (is_in_frame frame.0)) self.old }
    {
        while let Some(place) = self.any_of(frame) {
            self.put(place, None);
        }
    }

    /// Makes each entry that leads to a frame read-only.
    pub fn narrow_frame(&mut self, frame: FrameId)
        requires { IsFrame self.old frame.0 }
        ensures { self.new ≡ map (narrowed frame.0) self.old }
    {
        self.places.narrow_frame(frame);
    }

    /// To how many frames an entry for writing leads.
    pub fn written(&self) -> u32
        ensures { (frames : ℕ) → length self.now ≡ 4 * frames →
            result ≡ written_count self.now frames }
    {
        self.places.written()
    }

    /// Makes each entry read-only that leads to a frame that is picked. It is asked once of each
    /// frame to which an entry for writing leads, and of no other, in any order.
    pub fn narrow_picked<F: Fn(FrameId) -> bool>(&mut self, picks: F)
        requires { (frame : FrameId) → IsFrame self.old frame.0 → F.pre picks frame }
        ensures { Narrows self.old self.new
            (λ frame picked. F.post picks (record { 0 = frame }) picked) }
    {
        self.places.narrow_picked(picks);
    }

    /// Drops the entries of so many pages of an actor, from the first one on.
    pub fn drop_range(&mut self, actor: ActorId, first: u64, pages: u32)
        ensures { self.new ≡ map (unless (is_in_range actor.0 first pages)) self.old }
    {
        let few = pages <= self.rows.len(actor_row(actor));
        if few && first <= u64::MAX - pages as u64 {
            self.drop_pages(actor, first, pages);
        } else {
            let range = Pages::Range { first, pages };
            drop_in_row(&mut self.places, &mut self.rows, actor, range);
        }
    }

    /// Drops each entry of an actor.
    pub fn drop_actor(&mut self, actor: ActorId)
        ensures { self.new ≡ map (unless (is_of_actor actor.0)) self.old }
    {
        drop_in_row(&mut self.places, &mut self.rows, actor, Pages::All);
    }

    // Drops the entries of so many pages, one page after another.
    fn drop_pages(&mut self, actor: ActorId, first: u64, pages: u32)
        requires { first + pages < 2 ^ 64 }
        ensures { self.new ≡ map (unless (is_in_range actor.0 first pages)) self.old }
    {
        for i in 0..pages {
            if let Some(place) = self.places.find(actor, first + i as u64) {
                self.put(place, None);
            }
        }
    }

    // A place with an entry that leads to a frame.
    fn any_of(&self, frame: FrameId) -> Option<u32>
        requires { IsFrame self.now frame.0 }
        ensures { MatchOption result
            ((place : ℕ) → holds (is_in_frame frame.0) (entry_at self.now place) ≡ false)
            (λ place. (place < length self.now)
            × (holds (is_in_frame frame.0) (entry_at self.now place) ≡ true)) }
    {
        match self.places.first_of(frame, true) {
            Some(place) => Some(place),
            None => self.places.first_of(frame, false),
        }
    }

    // The place for an entry of an actor's page.
    fn place_for(&mut self, actor: ActorId, page: u64) -> u32
        requires { 0 < length self.old }
        ensures place { IsPlaceFor self.old actor.0 page result }
        ensures alone { entries_for (slice_set self.old result None) actor.0 page ≡ 0 }
        ensures same { self.new ≡ self.old }
    {
        if let Some(place) = self.places.find(actor, page) {
            return place;
        }
        if let Some(place) = self.places.empty() {
            return place;
        }
        let place = self.hand % self.places.count();
        self.hand = place + 1;
        place
    }

    // Puts this at a place, an entry or nothing, whatever was there.
    #[inline(always)]
    fn put(&mut self, place: u32, entry: Option<Entry>)
        requires below { place < length self.old }
        requires frame { IfSome entry (λ entry. IsFrame self.old entry.to.frame.0) }
        requires alone { IfSome entry (λ entry.
            entries_for (slice_set self.old place None) entry.actor.0 entry.page ≡ 0) }
        ensures { self.new ≡ slice_set self.old place entry }
    {
        leave(&mut self.rows, place, self.places.get(place));
        self.places.put(place, entry);
        join(&mut self.rows, place, entry);
    }
}
