// The places of entries, with what finds an entry by its page and those of a frame.
ghost use Rattle.std.specs.Prelude.{◌≡◌, ◌≢◌, ℕ, ◌+◌, ◌*◌, ◌<◌, ◌≤◌, ◌^◌, true, false, None, Some, length, map, replicate, slice_set, count_by, IfOk, IfSome, MatchOption};
ghost use Rattle.probe_table.specs.Entries.{hash_of};
ghost use Rattle.vm_ids.specs.declared.numbers.FrameId.{FrameId};
ghost use Rattle.page_tables.specs.Entries.{frame_row, is_for, is_in_frame, leads_to};
ghost use Rattle.page_tables.specs.Indexes.{listed_at, place_hash, place_list};
ghost use Rattle.page_tables.specs.Membership.{list_of};
ghost use Rattle.page_tables.specs.Translations.{entry_at, entries_for, holds, narrowed, read_only_at, written_count, IsFrame, Narrows};
ghost use Rattle.page_tables.specs.Writing.{written_frame, IsKept, IsWriting};

use crate::entries::Entries;
use crate::entry::{Entry, Translation, frame_list};
use crate::frames::FrameSet;
use crate::lists::EntryLists;
use probe_table::{ProbeTable, hash_pair};
use std::alloc::Global;
use std::marker::Model;
use std::mem::swap;
use vm_ids::{ActorId, FrameId, NoMemory};

/// The places of entries, each empty or with an entry.
#[derive(Drop)]
pub struct Places {
    entries: Entries,
    index: ProbeTable,
    by_frame: EntryLists,
    // The frames to which an entry for writing leads, and, of these, the ones that a walk through
    // them has passed.
    writing: FrameSet,
    asked: FrameSet,
}

impl Model for Places {
    ghost use Rattle.std.specs.Prelude.{List, Option};
    ghost use Rattle.page_tables.specs.declared.entry.Entry.{Entry};

    ghost Value = { List (Option Entry) };

    ghost use Rattle.page_tables.specs.Indexes.{IsIndexed};
    ghost use Rattle.page_tables.specs.Writing.{IsKept};

    ghost view = { λ p. p.entries };

    ghost invariant = { λ p. IsIndexed p.entries p.index p.by_frame
        × IsKept p.entries p.by_frame p.writing p.asked };
}

// A place with this entry, or an empty one, is no more in the index.
fn unindex(index: &mut ProbeTable, place: u32, was: Option<Entry>)
    requires below { place < length index.old }
    requires was { hash_of index.old place ≡ place_hash was }
    ensures { index.new ≡ slice_set index.old place None }
{
    if was.is_some() {
        index.remove(place);
    }
}

// A place that isn't in the index gets this entry, or none.
fn reindex(index: &mut ProbeTable, place: u32, entry: Option<Entry>)
    requires below { place < length index.old }
    requires absent { hash_of index.old place ≡ None }
    ensures { index.new ≡ slice_set index.old place (place_hash entry) }
{
    if let Some(entry) = entry {
        index.enter(place, entry.hash());
    }
}

// The list of places with an entry like this, or of the empty ones.
fn place_list(entry: Option<Entry>) -> u32
    requires { IfSome entry (λ entry. entry.to.frame.0 < 2 ^ 16) }
    ensures { result ≡ place_list entry }
{
    match entry {
        Some(entry) => frame_list(entry.to.frame, entry.to.writable),
        None => 0,
    }
}

// The frame to which an entry is for writing, if it is.
fn written_frame(entry: Option<Entry>) -> Option<FrameId>
    ensures { result ≡ written_frame entry }
{
    match entry {
        Some(entry) => {
            if entry.to.writable {
                Some(entry.to.frame)
            } else {
                None
            }
        }
        None => None,
    }
}

// A place with this entry, or an empty one, is taken off its list.
fn delist(by_frame: &mut EntryLists, writing: &mut FrameSet, place: u32, was: Option<Entry>)
    requires listed { list_of by_frame.old place ≡ Some (place_list was) }
    requires writing { IsWriting by_frame.old writing.old }
    ensures lists { by_frame.new
        ≡ record by_frame.old { on = slice_set by_frame.old.on place None } }
    ensures writing { IsWriting by_frame.new writing.new }
    ensures frames { length writing.new ≡ length writing.old }
{
    by_frame.take_off(place);
    if let Some(frame) = written_frame(was) {
        if by_frame.len(frame_list(frame, true)) == 0 {
            writing.remove(frame);
        }
    }
}

// A place that is on no list gets on that of this entry, or of the empty ones.
fn enlist(by_frame: &mut EntryLists, writing: &mut FrameSet, place: u32, entry: Option<Entry>)
    requires below { place < length by_frame.old.on }
    requires loose { list_of by_frame.old place ≡ None }
    requires frame { IfSome entry (λ entry. entry.to.frame.0 < length writing.old) }
    requires writing { IsWriting by_frame.old writing.old }
    ensures lists { by_frame.new
        ≡ record by_frame.old { on = slice_set by_frame.old.on place (listed_at entry) } }
    ensures writing { IsWriting by_frame.new writing.new }
    ensures frames { length writing.new ≡ length writing.old }
{
    by_frame.add(place_list(entry), place);
    if let Some(frame) = written_frame(entry) {
        writing.insert(frame);
    }
}

// The entry, for reading alone.
fn read_only(entry: Option<Entry>) -> Option<Entry>
    ensures { result ≡ read_only_at entry }
{
    match entry {
        Some(entry) => Some(Entry {
            to: Translation {
                writable: false,
                ..entry.to
            },
            ..entry
        }),
        None => None,
    }
}

// Makes each entry that leads to a frame read-only.
fn narrow(entries: &mut Entries, by_frame: &mut EntryLists, frame: FrameId)
    requires few { frame.0 < 2 ^ 16 }
    requires list { frame_row frame.0 true < by_frame.old.lists }
    requires on { by_frame.old.on ≡ map listed_at entries.old }
    ensures narrowed { entries.new ≡ map (narrowed frame.0) entries.old }
    ensures lists { by_frame.new.lists ≡ by_frame.old.lists }
    ensures on { by_frame.new.on ≡ map listed_at entries.new }
{
    while let Some(place) = by_frame.first(frame_list(frame, true)) {
        by_frame.take_off(place);
        by_frame.add(frame_list(frame, false), place);
        entries.put(place, read_only(entries.get(place)));
    }
}

// Makes the entries read-only that lead to frames of the set that are picked. Those that aren't are
// the ones in `asked` then.
fn narrow_picked<F: Fn(FrameId) -> bool>(
    entries: &mut Entries,
    by_frame: &mut EntryLists,
    writing: &mut FrameSet,
    asked: &mut FrameSet,
    picks: F,
)
    requires on { by_frame.old.on ≡ map listed_at entries.old }
    requires kept { IsKept entries.old by_frame.old writing.old asked.old }
    requires callable { (frame : FrameId) → frame.0 < length writing.old → F.pre picks frame }
    ensures narrowed { Narrows entries.old entries.new
        (λ frame picked. F.post picks (record { 0 = frame }) picked) }
    ensures lists { by_frame.new.lists ≡ by_frame.old.lists }
    ensures on { by_frame.new.on ≡ map listed_at entries.new }
    ensures kept { IsKept entries.new by_frame.new asked.new writing.new }
{
    while let Some(frame) = writing.any() {
        writing.remove(frame);
        if picks(frame) {
            narrow(entries, by_frame, frame);
        } else {
            asked.insert(frame);
        }
    }
}

// Whether there is an entry at a place and it is for an actor's page.
fn is_for(entries: &Entries, place: u32, actor: ActorId, page: u64) -> bool
    requires { place < length entries.now }
    ensures { result ≡ holds (is_for actor.0 page) (entry_at entries.now place) }
{
    match entries.get(place) {
        Some(entry) => entry.is_for(actor, page),
        None => false,
    }
}

impl Places {
    /// Four empty places for each frame.
    pub fn new(alloc: Global, frames: u32) -> Result<Places, NoMemory>
        requires { frames ≤ 2 ^ 16 }
        ensures { IfOk result (λ places. places ≡ replicate (4 * frames) None) }
    {
        let count = 4 * frames;
        let entries = Entries::new(alloc, count)?;
        let index = ProbeTable::new(alloc, count)?;
        let by_frame = EntryLists::new_on_first(alloc, 2 * frames + 1, count)?;
        let writing = FrameSet::new(alloc, frames)?;
        let asked = FrameSet::new(alloc, frames)?;
        Ok(Places {
            entries,
            index,
            by_frame,
            writing,
            asked,
        })
    }

    /// How many places there are.
    pub fn count(&self) -> u32
        ensures { result ≡ length self.now }
    {
        self.entries.count()
    }

    /// What is at a place. No other place has an entry for the same page.
    pub fn get(&self, place: u32) -> Option<Entry>
        requires { place < length self.now }
        ensures entry { result ≡ entry_at self.now place }
        ensures alone { IfSome result (λ entry.
            entries_for (slice_set self.now place None) entry.actor.0 entry.page ≡ 0) }
    {
        self.entries.get(place)
    }

    /// The place with the entry of an actor's page.
    pub fn find(&self, actor: ActorId, page: u64) -> Option<u32>
        ensures found { MatchOption result (entries_for self.now actor.0 page ≡ 0) (λ place.
            (place < length self.now)
            × (holds (is_for actor.0 page) (entry_at self.now place) ≡ true)) }
        ensures once { entries_for self.now actor.0 page ≤ 1 }
    {
        let entries = &self.entries;
        let hash = hash_pair(actor.0 as u64, page);
        self.index
            .find(hash, |place| is_for(entries, place, actor, page))
    }

    /// An empty place, if there is one.
    pub fn empty(&self) -> Option<u32>
        requires { 0 < length self.now }
        ensures { MatchOption result
            ((place : ℕ) → place < length self.now → entry_at self.now place ≢ None)
            (λ place. (place < length self.now) × (entry_at self.now place ≡ None)) }
    {
        self.by_frame.first(0)
    }

    /// A place with an entry that leads to a frame and may, or may not, be written.
    pub fn first_of(&self, frame: FrameId, writable: bool) -> Option<u32>
        requires { IsFrame self.now frame.0 }
        ensures { MatchOption result
            ((place : ℕ) → holds (leads_to frame.0 writable) (entry_at self.now place) ≡ false)
            (λ place. (place < length self.now)
            × (holds (leads_to frame.0 writable) (entry_at self.now place) ≡ true)) }
    {
        self.by_frame.first(frame_list(frame, writable))
    }

    /// Puts this at a place, an entry or nothing, whatever was there.
    pub fn put(&mut self, place: u32, entry: Option<Entry>)
        requires below { place < length self.old }
        requires frame { IfSome entry (λ entry. IsFrame self.old entry.to.frame.0) }
        requires alone { IfSome entry (λ entry.
            entries_for (slice_set self.old place None) entry.actor.0 entry.page ≡ 0) }
        ensures { self.new ≡ slice_set self.old place entry }
    {
        let was = self.entries.get(place);
        unindex(&mut self.index, place, was);
        reindex(&mut self.index, place, entry);
        delist(&mut self.by_frame, &mut self.writing, place, was);
        enlist(&mut self.by_frame, &mut self.writing, place, entry);
        self.entries.put(place, entry);
    }

    /// Makes each entry that leads to a frame read-only.
    pub fn narrow_frame(&mut self, frame: FrameId)
        requires { IsFrame self.old frame.0 }
        ensures { self.new ≡ map (narrowed frame.0) self.old }
    {
        if self.writing.contains(frame) {
            narrow(&mut self.entries, &mut self.by_frame, frame);
            self.writing.remove(frame);
        }
    }

    /// To how many frames an entry for writing leads.
    pub fn written(&self) -> u32
        ensures { (frames : ℕ) → length self.now ≡ 4 * frames →
            result ≡ written_count self.now frames }
    {
        self.writing.len()
    }

    /// Makes each entry read-only that leads to a frame that is picked, which is asked of each
    /// frame to which an entry for writing leads.
    pub fn narrow_picked<F: Fn(FrameId) -> bool>(&mut self, picks: F)
        requires { (frame : FrameId) → IsFrame self.old frame.0 → F.pre picks frame }
        ensures { Narrows self.old self.new
            (λ frame picked. F.post picks (record { 0 = frame }) picked) }
    {
        narrow_picked(
            &mut self.entries,
            &mut self.by_frame,
            &mut self.writing,
            &mut self.asked,
            picks,
        );
        swap(&mut self.writing, &mut self.asked);
    }
}
