// An entry of the page tables, by what it is found, and the tests by which it is dropped.
ghost use Rattle.std.specs.Prelude.{◌≡◌, ◌+◌, ◌*◌, ◌≤◌, ◌<◌, ◌^◌};
ghost use Rattle.page_tables.specs.Entries.{frame_row, hash_in, is_for, is_in_frame, is_picked, is_within};
ghost use Rattle.page_tables.specs.Entries as spec;

use probe_table::hash_pair;
use vm_ids::{ActorId, FrameId};

/// What is seen at a page of an actor.
#[derive(Clone, Copy, Debug, PartialEq, Eq)]
pub struct Translation {
    /// The page frame.
    pub frame: FrameId,
    /// Whether it may be written.
    pub writable: bool,
}

/// A translation with the page of an actor that it is for.
#[derive(Clone, Copy)]
pub struct Entry {
    /// The actor.
    pub actor: ActorId,
    /// The page, counted from the one at address 0.
    pub page: u64,
    /// What is seen there.
    pub to: Translation,
}

/// Pages of an actor.
#[derive(Clone, Copy)]
pub enum Pages {
    /// Each page.
    All,
    /// So many pages from the first one on.
    Range { first: u64, pages: u32 },
}

impl Pages {
    // Whether a page is one of these.
    pub(crate) fn contains(self, page: u64) -> bool
        ensures { result ≡ is_within self page }
    {
        match self {
            Pages::All => true,
            Pages::Range { first, pages } => first <= page && page - first < pages as u64,
        }
    }
}

impl Entry {
    // Whether this is the entry of an actor's page.
    pub(crate) fn is_for(self, actor: ActorId, page: u64) -> bool
        ensures { result ≡ is_for actor.0 page self }
    {
        self.actor.0 == actor.0 && self.page == page
    }

    // Whether it is for one of these pages of an actor.
    pub(crate) fn is_picked(self, actor: ActorId, pages: Pages) -> bool
        ensures { result ≡ is_picked actor.0 pages self }
    {
        pages.contains(self.page) && self.actor.0 == actor.0
    }

    // The hash under which it is found.
    pub(crate) fn hash(self) -> u32
        ensures { result ≡ hash_in self }
    {
        hash_pair(self.actor.0 as u64, self.page)
    }
}

// How many rows there are for the entries of actors.
pub(crate) const ROWS: u32 = 1024;

// The row of an actor's entries. Actors whose numbers are 1,024 apart share one.
pub(crate) fn actor_row(actor: ActorId) -> u32
    ensures row { result ≡ spec.actor_row actor.0 }
    ensures below { result < 1024 }
{
    actor.0 % ROWS
}

// The list of a frame's entries that may, or may not, be written.
pub(crate) fn frame_list(frame: FrameId, writable: bool) -> u32
    requires { frame.0 < 2 ^ 16 }
    ensures { result ≡ frame_row frame.0 writable }
{
    if writable {
        2 + 2 * frame.0
    } else {
        1 + 2 * frame.0
    }
}
