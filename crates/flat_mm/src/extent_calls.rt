// Pages of caches that segments name are pushed and taken again; regions are locked.
ghost use Rattle.std.specs.Prelude.{◌≡◌, ◌≤◌, false, IfErr, IfOk, OnOk};
ghost use Rattle.vm_model.specs.Answering.{is_any_locked};
ghost use Rattle.gmi_calls.specs.Calling.{Fits, MapperCall, done_by};
ghost use Rattle.gmi_calls.specs.Reaching.{NoPages};
ghost use Rattle.flat_mm.specs.Alone.{FlatCall};
ghost use Rattle.flat_mm.specs.Extents.{IsExtent, RefusesFlush, RefusesSync};
ghost use Rattle.flat_mm.specs.Manager.{IsValid, flat, machine_in};

use crate::FlatMm;
use crate::pulling::pull_loose;
use vm_ids::{Command, Extent, FaultAt, Refusal, RegionId, SegId, Trouble};
use vm_port::Mapper;

impl FlatMm {
    // The segment that names the cache of these pages. Refused as `NoCache`, `NotNamed` or
    // `OutOfCache`, in this order.
    fn check_extent(&self, extent: &Extent) -> Result<SegId, Refusal>
        ensures refused { IfErr result (λ refusal.
            RefusesSync (machine_in self.now) extent.now refusal) }
        ensures extent { IfOk result (λ seg. IsExtent self.now.store extent.now seg) }
    {
        let Some(size) = self.store.size(extent.cache) else {
            return Err(Refusal::NoCache);
        };
        let Some(seg) = self.store.segment(extent.cache) else {
            return Err(Refusal::NotNamed);
        };
        if extent.first.0 as u64 + extent.pages as u64 > size as u64 {
            return Err(Refusal::OutOfCache);
        }
        Ok(seg)
    }

    // The segment that names the cache of these pages, none of which is locked. Refused as
    // `NoCache`, `NotNamed`, `OutOfCache` or `Locked`, in this order.
    fn check_unlocked(&self, extent: &Extent) -> Result<SegId, Refusal>
        ensures refused { IfErr result (λ refusal.
            RefusesFlush (machine_in self.now) extent.now refusal) }
        ensures extent { IfOk result (λ seg. IsExtent self.now.store extent.now seg) }
        ensures unlocked { OnOk result (is_any_locked (machine_in self.now) extent.now.cache
            extent.now.first.0 extent.now.pages ≡ false) }
    {
        let seg = self.check_extent(extent)?;
        if self.is_any_locked(extent.cache, extent.first, extent.pages) {
            return Err(Refusal::Locked);
        }
        Ok(seg)
    }

    /// Pushes those of these pages that were changed. Refused as `NoCache`, `NotNamed` or
    /// `OutOfCache`, in this order.
    pub fn sync<M: Mapper>(&mut self, extent: Extent, mapper: &mut M) -> Result<(), Trouble>
        requires some { 1 ≤ extent.pages }
        requires valid { IsValid self.old (M.held mapper.old) }
        requires fits { Fits (M.page_bytes mapper.old) (machine_in self.old) }
        ensures { MapperCall M.Mapper flat mapper.old self.old
            (Command.Sync extent) (done_by result) mapper.new self.new }
    {
        let seg = self.check_extent(&extent)?;
        match self.push_pages(&extent, seg, mapper) {
            Ok(()) => Ok(()),
            Err(page) => Err(Trouble::Mapper(FaultAt::Page(page))),
        }
    }

    /// Pushes those of these pages that were changed, as `sync` does; the pages keep their frames.
    /// Refused as `NoCache`, `NotNamed`, `OutOfCache` or `Locked`, in this order.
    pub fn flush<M: Mapper>(&mut self, extent: Extent, mapper: &mut M) -> Result<(), Trouble>
        requires some { 1 ≤ extent.pages }
        requires valid { IsValid self.old (M.held mapper.old) }
        requires fits { Fits (M.page_bytes mapper.old) (machine_in self.old) }
        ensures { MapperCall M.Mapper flat mapper.old self.old
            (Command.Flush extent) (done_by result) mapper.new self.new }
    {
        let seg = self.check_unlocked(&extent)?;
        match self.push_pages(&extent, seg, mapper) {
            Ok(()) => Ok(()),
            Err(page) => Err(Trouble::Mapper(FaultAt::Page(page))),
        }
    }

    /// Takes these pages from the segment again: into free frames first, which are then exchanged
    /// for theirs. Refused as `NoCache`, `NotNamed`, `OutOfCache`, `Locked`, or `Full` where there
    /// are fewer free frames, in this order.
    pub fn invalidate<M: Mapper>(&mut self, extent: Extent, mapper: &mut M) -> Result<(), Trouble>
        requires some { 1 ≤ extent.pages }
        requires valid { IsValid self.old (M.held mapper.old) }
        requires fits { Fits (M.page_bytes mapper.old) (machine_in self.old) }
        ensures { MapperCall M.Mapper flat mapper.old self.old
            (Command.Invalidate extent) (done_by result) mapper.new self.new }
    {
        let seg = self.check_unlocked(&extent)?;
        if self.lacks_room(extent.pages) {
            return Err(Trouble::Refused(Refusal::Full));
        }
        self.store.take_loose(extent.pages)?;
        match pull_loose(&mut self.store, seg, extent.first, mapper) {
            Ok(()) => {
                self.store.exchange(extent.cache, extent.first);
                self.store.drop_loose();
                Ok(())
            }
            Err(_) => {
                self.store.drop_loose();
                Err(Trouble::Mapper(FaultAt::Save(0)))
            }
        }
    }

    /// Locks a region. Refused as `NoRegion`, as `Locked` where it is locked, or as `LockLimit`
    /// where fewer than three page frames would be left that no locked page takes, in this order.
    /// No page is pulled or pushed.
    pub fn lock<M: Mapper>(&mut self, region: RegionId, mapper: &mut M) -> Result<(), Trouble>
        requires { IsValid self.old (M.held mapper.old) }
        ensures { FlatCall M.Mapper NoPages mapper.old self.old
            (Command.Lock region) (done_by result) mapper.new self.new }
    {
        let _ = mapper;
        let Some(status) = self.contexts.status(region) else {
            return Err(Trouble::Refused(Refusal::NoRegion));
        };
        if status.locked {
            return Err(Trouble::Refused(Refusal::Locked));
        }
        self.contexts.set_locked(region, true);
        if self.passes_lock_limit() {
            self.contexts.set_locked(region, false);
            return Err(Trouble::Refused(Refusal::LockLimit));
        }
        Ok(())
    }

    /// Evicts nothing: each page keeps its frame, and none is pulled or pushed.
    pub fn page_out<M: Mapper>(&mut self, count: u32, mapper: &mut M) -> Result<(), Trouble>
        requires { IsValid self.old (M.held mapper.old) }
        ensures { FlatCall M.Mapper NoPages mapper.old self.old
            (Command.PageOut count) (done_by result) mapper.new self.new }
    {
        let _ = count;
        let _ = mapper;
        Ok(())
    }
}
