// Caches are made and taken away.
ghost use Rattle.std.specs.Prelude.{◌≡◌, ◌≤◌, ◌+◌, length, nat_le, nat_lt, Ok};
ghost use Rattle.vm_model.specs.Answering.{answer_by};
ghost use Rattle.vm_model.specs.Machine.{live_pages};
ghost use Rattle.gmi_calls.specs.Calling.{AnswersWithin, CallDone, Fits, MapperCall, done_by};
ghost use Rattle.flat_mm.specs.Manager.{IsValid, flat, machine_in, room_of};

use crate::FlatMm;
use crate::pulling::pull_loose;
use vm_ids::{
    CacheId, ChainList, Command, Counts, FaultAt, PageNo, Refusal, Reply, SegId, Trouble,
};
use vm_model::{LIVE_PAGES, MOST_MADE};
use vm_port::Mapper;

impl FlatMm {
    // Whether as many caches were made as may be.
    fn has_made_all(&self) -> bool
        ensures { result ≡ nat_le MOST_MADE (length (machine_in self.now).caches) }
    {
        self.store.made() >= MOST_MADE as usize
    }

    // Whether so many live pages more would be too many.
    fn passes_live_pages(&self, pages: u32) -> bool
        ensures { result ≡ nat_lt LIVE_PAGES (live_pages (machine_in self.now) + pages) }
    {
        self.store.live() as u64 + pages as u64 > LIVE_PAGES as u64
    }

    // Whether fewer frames are free.
    pub(crate) fn lacks_room(&self, pages: u32) -> bool
        ensures free { result ≡ nat_lt self.now.store.free pages }
        ensures room { result ≡ nat_lt (room_of self.now) pages }
    {
        self.store.free() < pages
    }

    /// Makes a temporary cache of so many zero pages. Refused as `TooMany` where 65,535 caches were
    /// made or the live pages would be too many, or as `Full` where there are fewer free frames, in
    /// this order.
    pub fn make_temp(&mut self, pages: u32) -> Result<CacheId, Trouble>
        requires { 1 ≤ pages }
        ensures { CallDone flat self.old
            (Command.MakeTemp pages) (answer_by Reply.Cache result) self.new }
    {
        if self.has_made_all() {
            return Err(Trouble::Refused(Refusal::TooMany));
        }
        if self.passes_live_pages(pages) {
            return Err(Trouble::Refused(Refusal::TooMany));
        }
        if self.lacks_room(pages) {
            return Err(Trouble::Refused(Refusal::Full));
        }
        Ok(self.store.make(pages)?)
    }

    /// Makes a cache that a segment names, with the segment's pages. Refused as `SegmentInUse`,
    /// `TooMany` where 65,535 caches were made, `NoSegment`, `TooMany` where the live pages would
    /// be too many, or `Full` where there are fewer free frames, in this order.
    pub fn open_segment<M: Mapper>(
        &mut self,
        seg: SegId,
        mapper: &mut M,
    ) -> Result<CacheId, Trouble>
        requires valid { IsValid self.old (M.held mapper.old) }
        requires fits { Fits (M.page_bytes mapper.old) (machine_in self.old) }
        ensures { MapperCall M.Mapper flat mapper.old self.old
            (Command.OpenSegment seg) (answer_by Reply.Cache result) mapper.new self.new }
    {
        if self.store.has(seg) {
            return Err(Trouble::Refused(Refusal::SegmentInUse));
        }
        if self.has_made_all() {
            return Err(Trouble::Refused(Refusal::TooMany));
        }
        let Ok(size) = mapper.size(seg) else {
            return Err(Trouble::Mapper(FaultAt::Opening));
        };
        let Some(size) = size else {
            return Err(Trouble::Refused(Refusal::NoSegment));
        };
        if self.passes_live_pages(size) {
            return Err(Trouble::Refused(Refusal::TooMany));
        }
        if self.lacks_room(size) {
            return Err(Trouble::Refused(Refusal::Full));
        }
        self.store.take_loose(size)?;
        match pull_loose(&mut self.store, seg, PageNo(0), mapper) {
            Ok(()) => Ok(self.store.adopt(Some(seg))?),
            Err(_) => {
                self.store.drop_loose();
                Err(Trouble::Mapper(FaultAt::Opening))
            }
        }
    }

    /// Takes a cache away, with all its pages. Where a segment names it, the pages that were
    /// changed are pushed to it first. Refused as `NoCache` or `InUse`, in this order.
    pub fn destroy<M: Mapper>(&mut self, cache: CacheId, mapper: &mut M) -> Result<(), Trouble>
        requires valid { IsValid self.old (M.held mapper.old) }
        requires fits { Fits (M.page_bytes mapper.old) (machine_in self.old) }
        ensures { MapperCall M.Mapper flat mapper.old self.old
            (Command.Destroy cache) (done_by result) mapper.new self.new }
    {
        let Some(pages) = self.store.size(cache) else {
            return Err(Trouble::Refused(Refusal::NoCache));
        };
        if self.contexts.maps(cache) {
            return Err(Trouble::Refused(Refusal::InUse));
        }
        match self.push_cache(cache, pages, mapper) {
            Ok(()) => {
                self.store.release(cache);
                self.store.drop_loose();
                Ok(())
            }
            Err(page) => Err(Trouble::Mapper(FaultAt::Page(page))),
        }
    }

    /// The node of a page, which owns itself. Refused as `NoCache` or `OutOfCache`, in this order.
    pub fn chain(&self, cache: CacheId, page: PageNo) -> Result<ChainList, Trouble>
        ensures { AnswersWithin flat self.now
            (Command.Chain cache page) (answer_by Reply.Chain result) self.now }
    {
        let Some(size) = self.store.size(cache) else {
            return Err(Trouble::Refused(Refusal::NoCache));
        };
        let is_past = page.0 >= size;
        if is_past {
            return Err(Trouble::Refused(Refusal::OutOfCache));
        }
        Ok(self.store.own_chain(cache, page)?)
    }

    /// The live pages; no working node, and no page copied by a forest.
    pub fn stat(&self) -> Counts
        ensures { AnswersWithin flat self.now Command.Stat (Ok (Reply.Stat result)) self.now }
    {
        Counts {
            live: self.store.live(),
            working: 0,
            copies: 0,
        }
    }
}
