// The eager machine: the plain one, computed.
ghost use Rattle.std.specs.Prelude.{None, Some, Ok, false, ◌≡◌, ◌+◌, ◌≤◌, ◌<◌, ◌^◌, length, map, replicate, option_map, All, IfErr, IfOk, IsSome, OnOk, OnErr};
ghost use Rattle.std.specs.FinMap.{get};
ghost use Rattle.vm_ids.specs.Counting.{no_counts};
ghost use Rattle.vm_ids.specs.Held.{Segments};
ghost use Rattle.vm_model.specs.Allowed.{AllowedOutcome, AwaitsAccess, CanOpen, MayFailToOpen};
ghost use Rattle.vm_model.specs.Answering.{answer_by, held_for, held_part, is_any_locked};
ghost use Rattle.vm_model.specs.Machine.{Machine, cache_of, live_pages, pages_in, segment_of, start, zero_page};
ghost use Rattle.vm_model.specs.Outcome.{HasWholePages, Outcome, PlainOutcome};
ghost use Rattle.vm_model.specs.PageForest.{page_in};
ghost use Rattle.vm_model.specs.Seen.{machine_seen, AreTablesSound};

mod regions;

use crate::tables::Tables;
use crate::{LIVE_PAGES, accesses, actors, caches, copies, extents, place, telling};
use std::alloc::Global;
use std::marker::Model;
use vm_ids::{
    ActorId, CacheId, ChainList, Command, Counts, Extent, NoMemory, PageNo, Reply, SegId, Span,
    Trouble,
};

/// The machine itself, run plainly: each cache is a vector of pages, and a copy copies at once. It
/// is the yardstick of the managers. It is seen as the machine that it is; each call meets its row
/// of the table of answers, and is refused, or answers want of memory, before anything changes.
///
/// It reaches no mapper. Who has one asks it between two calls: `check_..` tells what the machine
/// alone refuses and what the mapper has to be asked for, and the call of the command's own name
/// makes the change.
#[derive(Drop)]
pub struct EagerMachine {
    tables: Tables,
}

impl Model for EagerMachine {
    ghost Value = { Machine };

    ghost view = { λ e. machine_seen e.tables };

    ghost invariant = { λ e. AreTablesSound e.tables };
}

impl EagerMachine {
    /// A machine without caches and actors. It keeps the number of page frames, which limits locks
    /// alone, and its pages have `page` bytes, 1 to 65,536.
    pub fn new(alloc: Global, frames: u32, page: u32) -> EagerMachine
        requires some { 1 ≤ page }
        requires most { page ≤ 2 ^ 16 }
        ensures machine { result ≡ start frames page }
        ensures whole { HasWholePages result }
    {
        EagerMachine {
            tables: Tables {
                alloc,
                page_bytes: page as usize,
                frames,
                caches: Vec::new(alloc),
                actors: Vec::new(alloc),
                regions_made: 0,
                living: 0,
                live: 0,
            },
        }
    }

    /// Makes an actor without regions. Refused as `TooMany` exactly where 256 actors are alive or
    /// 65,535 were made.
    #[tactic(auto, using(crate::proofs::Machines::Sound::whole))]
    pub fn make_actor(&mut self) -> Result<ActorId, Trouble>
        ensures outcome { PlainOutcome self.old Command.MakeActor
            (answer_by Reply.Actor result) self.new }
        ensures whole { HasWholePages self.new }
    {
        actors::make_actor(&mut self.tables)
    }

    /// Ends an actor, and takes its regions away. Refused as `NoActor` exactly where no living
    /// actor has the number. It takes no memory.
    #[tactic(auto, using(crate::proofs::Machines::Sound::whole))]
    pub fn exit_actor(&mut self, actor: ActorId) -> Result<(), Trouble>
        ensures outcome { PlainOutcome self.old (Command.ExitActor actor)
            (answer_by (λ _. Reply.Done) result) self.new }
        ensures whole { HasWholePages self.new }
    {
        actors::exit_actor(&mut self.tables, actor)
    }

    /// Makes a temporary cache of so many zero pages, at least one. Refused as `TooMany` exactly
    /// where 65,535 caches were made or the live pages would be more than 4,194,304. `Memory` where
    /// there is none for the pages.
    #[tactic(auto, using(crate::proofs::Machines::Sound::whole))]
    pub fn make_temp(&mut self, pages: u32) -> Result<CacheId, Trouble>
        requires { 1 ≤ pages }
        ensures outcome { PlainOutcome self.old (Command.MakeTemp pages)
            (answer_by Reply.Cache result) self.new }
        ensures whole { HasWholePages self.new }
    {
        caches::make_temp(&mut self.tables, pages)
    }

    /// Whether a segment may be opened, as far as the machine alone can tell. Refused as
    /// `SegmentInUse` where a live cache is of it, and as `TooMany` where 65,535 caches were made,
    /// in this order.
    pub fn check_open(&self, seg: SegId) -> Result<(), Trouble>
        ensures refused { OnErr result (PlainOutcome self.now (Command.OpenSegment seg)
            (answer_by (λ _. Reply.Done) result) self.now) }
        ensures open { OnOk result (CanOpen self.now seg) }
        ensures fault { OnOk result (MayFailToOpen self.now seg) }
    {
        caches::check_open(&self.tables, seg)
    }

    /// Zero pages for the segment of this size, to be filled with its pages. Refused as `NoSegment`
    /// where there is none, and as `TooMany` where the live pages would be more than 4,194,304.
    /// `Memory` where there is none for the pages.
    pub fn room_for(&self, seg: SegId, size: Option<u32>) -> Result<Vec<Vec<u8>>, Trouble>
        requires { CanOpen self.now seg }
        ensures refused { OnErr result ((h : Segments)
            → option_map length (get h.pages seg.0) ≡ size
            → Outcome self.now None (Command.OpenSegment seg) h
            (answer_by (λ _. Reply.Done) result) self.now no_counts) }
        ensures size { IfOk result (λ pages. Some (length pages.items) ≡ size) }
        ensures room { IfOk result
            (λ pages. live_pages self.now + length pages.items ≤ LIVE_PAGES) }
        ensures whole { IfOk result
            (λ pages. All (λ p. length p.items ≡ self.now.page_bytes) pages.items) }
    {
        caches::room_for(&self.tables, seg, size)
    }

    /// Makes a cache that the segment names, with these pages, which are the segment's. `Memory`
    /// where there is none.
    #[tactic(auto, using(crate::proofs::Machines::Sound::whole))]
    pub fn open_segment(&mut self, seg: SegId, pages: Vec<Vec<u8>>) -> Result<CacheId, Trouble>
        requires open { CanOpen self.old seg }
        requires room { live_pages self.old + length pages.items ≤ LIVE_PAGES }
        requires whole { All (λ p. length p.items ≡ self.old.page_bytes) pages.items }
        ensures outcome { (h : Segments)
            → get h.pages seg.0 ≡ Some (map (λ p. p.items) pages.items)
            → Outcome self.old None (Command.OpenSegment seg) h
            (answer_by Reply.Cache result) self.new no_counts }
        ensures memory { IfErr result (λ trouble. trouble ≡ Trouble.Memory) }
        ensures whole { HasWholePages self.new }
    {
        caches::open_segment(&mut self.tables, seg, pages)
    }

    /// The segment that names a cache, or none where the cache is temporary or isn't alive.
    pub fn segment_of(&self, cache: CacheId) -> Option<SegId>
        ensures { option_map (λ s. s.0) result ≡ segment_of self.now cache.0 }
    {
        place::segment_of(&self.tables, cache)
    }

    /// How many pages a cache has, or 0 where it isn't alive.
    pub fn page_count(&self, cache: CacheId) -> u32
        ensures { result ≡ pages_in (cache_of self.now cache.0) }
    {
        place::page_count(&self.tables, cache)
    }

    /// The bytes of a page of a cache, where it is there.
    pub fn page(&self, cache: CacheId, page: PageNo) -> Option<&[u8]>
        ensures { option_map (λ p. p.now) result ≡ page_in self.now cache.0 page.0 }
    {
        accesses::page_in(&self.tables.caches, cache.0, page.0 as u64)
    }

    /// So many zero pages, to be filled from a segment.
    pub fn zero_pages(&self, pages: u32) -> Result<Vec<Vec<u8>>, NoMemory>
        ensures { IfOk result
            (λ v. map (λ p. p.items) v.items ≡ replicate pages (zero_page self.now.page_bytes)) }
    {
        Ok(caches::zero_pages(self.tables.alloc, pages, self.tables.page_bytes)?)
    }

    /// The segment whose pages a copy would change, or none where the destination is temporary.
    /// Refused as `NoCache`, `OutOfCache`, `Overlap` or `Locked`, in this order.
    pub fn check_copy(&self, span: &Span) -> Result<Option<SegId>, Trouble>
        ensures refused { OnErr result (PlainOutcome self.now (Command.Copy span.now)
            (answer_by (λ _. Reply.Done) result) self.now) }
        ensures awaits { OnOk result (AwaitsAccess self.now (Command.Copy span.now)) }
        ensures segment { IfOk result
            (λ seg. option_map (λ s. s.0) seg ≡ segment_of self.now span.now.to.0) }
        ensures within { OnOk result (span.now.to_page.0 + span.now.pages
            ≤ pages_in (cache_of self.now span.now.to.0)) }
        ensures few { OnOk result (span.now.to_page.0 + span.now.pages < 2 ^ 32) }
    {
        copies::check_copy(&self.tables, span)
    }

    /// Copies pages from one place to another, all at once, where the mapper denies none of the
    /// destination. Refused as `NoCache`, `OutOfCache`, `Overlap` or `Locked`, in this order.
    /// `Memory` where there is none for the copies.
    #[tactic(auto, using(crate::proofs::Machines::Sound::whole))]
    pub fn copy_pages(&mut self, span: &Span) -> Result<(), Trouble>
        requires { 1 ≤ span.now.pages }
        ensures outcome { AllowedOutcome self.old (Command.Copy span.now)
            (answer_by (λ _. Reply.Done) result) self.new }
        ensures whole { HasWholePages self.new }
    {
        copies::copy_pages(&mut self.tables, span)
    }

    /// Whether a cache may go, as far as the machine alone can tell. Refused as `NoCache` or
    /// `InUse`, in this order.
    pub fn check_destroy(&self, cache: CacheId) -> Result<(), Trouble>
        ensures refused { OnErr result (PlainOutcome self.now (Command.Destroy cache)
            (answer_by (λ _. Reply.Done) result) self.now) }
        ensures awaits { OnOk result (AwaitsAccess self.now (Command.Destroy cache)) }
    {
        caches::check_destroy(&self.tables, cache)
    }

    /// Takes a cache away, with all its pages, and pushes none of them. Refused as `NoCache` or
    /// `InUse`, in this order. It takes no memory.
    #[tactic(auto, using(crate::proofs::Machines::Sound::whole))]
    pub fn destroy(&mut self, cache: CacheId) -> Result<(), Trouble>
        ensures outcome { PlainOutcome self.old (Command.Destroy cache)
            (answer_by (λ _. Reply.Done) result) self.new }
        ensures whole { HasWholePages self.new }
    {
        caches::destroy(&mut self.tables, cache)
    }

    /// The segment whose pages a move would change, or none where the destination is temporary.
    /// Refused as `NoCache`, `OutOfCache`, `NotTemp`, `Overlap` or `Locked`, in this order.
    pub fn check_move(&self, span: &Span) -> Result<Option<SegId>, Trouble>
        ensures refused { OnErr result (PlainOutcome self.now (Command.Move span.now)
            (answer_by (λ _. Reply.Done) result) self.now) }
        ensures awaits { OnOk result (AwaitsAccess self.now (Command.Move span.now)) }
        ensures segment { IfOk result
            (λ seg. option_map (λ s. s.0) seg ≡ segment_of self.now span.now.to.0) }
        ensures within { OnOk result (span.now.to_page.0 + span.now.pages
            ≤ pages_in (cache_of self.now span.now.to.0)) }
        ensures few { OnOk result (span.now.to_page.0 + span.now.pages < 2 ^ 32) }
    {
        copies::check_move(&self.tables, span)
    }

    /// Moves pages from one place to another, where the mapper denies none of the destination;
    /// zeros are left where they were. Refused as `NoCache`, `OutOfCache`, `NotTemp`, `Overlap` or
    /// `Locked`, in this order. `Memory` where there is none for the pages.
    #[tactic(auto, using(crate::proofs::Machines::Sound::whole))]
    pub fn move_pages(&mut self, span: &Span) -> Result<(), Trouble>
        requires { 1 ≤ span.now.pages }
        ensures outcome { AllowedOutcome self.old (Command.Move span.now)
            (answer_by (λ _. Reply.Done) result) self.new }
        ensures whole { HasWholePages self.new }
    {
        copies::move_pages(&mut self.tables, span)
    }

    /// The segment that names the cache of these pages. Refused as `NoCache`, `NotNamed` or
    /// `OutOfCache`, in this order. A sync changes nothing of the machine.
    pub fn check_extent(&self, extent: &Extent) -> Result<SegId, Trouble>
        ensures sync { PlainOutcome self.now (Command.Sync extent.now)
            (answer_by (λ _. Reply.Done) result) self.now }
        ensures segment { IfOk result
            (λ seg. segment_of self.now extent.now.cache.0 ≡ Some seg.0) }
        ensures within { OnOk result (extent.now.first.0 + extent.now.pages
            ≤ pages_in (cache_of self.now extent.now.cache.0)) }
        ensures few { OnOk result (extent.now.first.0 + extent.now.pages < 2 ^ 32) }
    {
        extents::check_extent(&self.tables, extent)
    }

    /// The same of a flush or an invalidate, for which no page may be locked: refused as `Locked`
    /// last. A flush changes nothing of the machine.
    pub fn check_flush(&self, extent: &Extent) -> Result<SegId, Trouble>
        ensures flush { PlainOutcome self.now (Command.Flush extent.now)
            (answer_by (λ _. Reply.Done) result) self.now }
        ensures refused { OnErr result (PlainOutcome self.now (Command.Invalidate extent.now)
            (answer_by (λ _. Reply.Done) result) self.now) }
        ensures awaits { OnOk result (AwaitsAccess self.now (Command.Invalidate extent.now)) }
        ensures segment { IfOk result
            (λ seg. segment_of self.now extent.now.cache.0 ≡ Some seg.0) }
        ensures within { OnOk result (extent.now.first.0 + extent.now.pages
            ≤ pages_in (cache_of self.now extent.now.cache.0)) }
        ensures few { OnOk result (extent.now.first.0 + extent.now.pages < 2 ^ 32) }
        ensures unlocked { OnOk result (is_any_locked self.now extent.now.cache
            extent.now.first.0 extent.now.pages ≡ false) }
    {
        extents::check_flush(&self.tables, extent)
    }

    /// Puts these pages, which are the segment's, in the cache that the segment names. None of them
    /// is locked. It takes no memory.
    #[tactic(auto, using(crate::proofs::Machines::Sound::whole))]
    pub fn invalidate(&mut self, extent: &Extent, pages: Vec<Vec<u8>>)
        requires named { IsSome (segment_of self.old extent.now.cache.0) }
        requires within { extent.now.first.0 + extent.now.pages
            ≤ pages_in (cache_of self.old extent.now.cache.0) }
        requires unlocked { is_any_locked self.old extent.now.cache
            extent.now.first.0 extent.now.pages ≡ false }
        requires many { length pages.items ≡ extent.now.pages }
        requires whole { All (λ p. length p.items ≡ self.old.page_bytes) pages.items }
        ensures outcome { (h : Segments)
            → held_part (held_for self.old h extent.now.cache.0)
            extent.now.first.0 extent.now.pages
            ≡ map (λ p. p.items) pages.items
            → Outcome self.old None (Command.Invalidate extent.now) h
            (Ok Reply.Done) self.new no_counts }
        ensures whole { HasWholePages self.new }
    {
        extents::invalidate(&mut self.tables, extent, pages);
    }

    /// Evicts nothing: this machine has no page frames.
    pub fn page_out(&self, count: u32) -> Result<(), Trouble>
        ensures { PlainOutcome self.now (Command.PageOut count)
            (answer_by (λ _. Reply.Done) result) self.now }
    {
        let _ = count;
        Ok(())
    }

    /// The node of a page, which owns itself. Refused as `NoCache` or `OutOfCache`, in this order.
    pub fn chain(&self, cache: CacheId, page: PageNo) -> Result<ChainList, Trouble>
        ensures { PlainOutcome self.now (Command.Chain cache page)
            (answer_by Reply.Chain result) self.now }
    {
        telling::chain(&self.tables, cache, page)
    }

    /// The live pages; no working node, and no page copied by a forest.
    pub fn stat(&self) -> Counts
        ensures { PlainOutcome self.now Command.Stat (Ok (Reply.Stat result)) self.now }
    {
        telling::stat(&self.tables)
    }
}
