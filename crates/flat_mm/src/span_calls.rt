// Pages are copied and moved.
ghost use Rattle.std.specs.Prelude.{◌≡◌, ◌≤◌, false, IfErr, OnOk};
ghost use Rattle.vm_ids.specs.Held.{Segments};
ghost use Rattle.vm_model.specs.Answering.{copy_of, move_of, overlaps_itself, refuse};
ghost use Rattle.gmi_calls.specs.Calling.{Fits, MapperCall, done_by};
ghost use Rattle.flat_mm.specs.Manager.{IsValid, flat, machine_in};
ghost use Rattle.flat_mm.specs.Spans.{CanCopy, CanMove, IsSpanned};
ghost use Rattle.flat_mm.specs.Store.{AreWhole, cleared, copied};

use crate::FlatMm;
use crate::store::PageStore;
use vm_ids::{Command, FaultAt, PageNo, Refusal, Span, Trouble};
use vm_port::Mapper;

// Whether source and destination share a page.
fn overlaps(span: &Span) -> bool
    ensures { result ≡ overlaps_itself span.now }
{
    let from = span.from_page.0 as u64;
    let to = span.to_page.0 as u64;
    let pages = span.pages as u64;
    span.from == span.to && from < to + pages && to < from + pages
}

// Makes the pages of the destination what those of the source are.
fn fill(store: &mut PageStore, span: &Span)
    requires spanned { IsSpanned store.old span.now }
    requires apart { overlaps_itself span.now ≡ false }
    ensures copied { store.new ≡ copied store.old span.now span.now.pages }
    ensures whole { AreWhole store.old → AreWhole store.new }
{
    for i in 0..span.pages {
        let from = PageNo(span.from_page.0 + i);
        let to = PageNo(span.to_page.0 + i);
        store.copy(span.from, from, span.to, to);
    }
}

// Makes the pages of the source zeros.
fn clear(store: &mut PageStore, span: &Span)
    requires { IsSpanned store.old span.now }
    ensures cleared { store.new ≡ cleared store.old span.now span.now.pages }
    ensures whole { AreWhole store.old → AreWhole store.new }
{
    for i in 0..span.pages {
        store.zero(span.from, PageNo(span.from_page.0 + i));
    }
}

impl FlatMm {
    // Whether the pages of a copy or a move are there. Refused as `NoCache` or `OutOfCache`.
    #[tactic(auto, unfolding(vm_model::specs::Answering::copy_of, vm_model::specs::Answering::move_of, vm_model::specs::Answering::with_some, vm_model::specs::Answering::unless))]
    fn check_span(&self, span: &Span) -> Result<(), Refusal>
        ensures refused_copy { IfErr result (λ refusal. (h : Segments)
            → copy_of (machine_in self.now) span.now h ≡ refuse (machine_in self.now) refusal) }
        ensures refused_move { IfErr result (λ refusal. (h : Segments)
            → move_of (machine_in self.now) span.now h ≡ refuse (machine_in self.now) refusal) }
        ensures spanned { OnOk result (IsSpanned self.now.store span.now) }
    {
        let Some(from) = self.store.size(span.from) else {
            return Err(Refusal::NoCache);
        };
        let Some(to) = self.store.size(span.to) else {
            return Err(Refusal::NoCache);
        };
        let pages = span.pages as u64;
        if span.from_page.0 as u64 + pages > from as u64 {
            return Err(Refusal::OutOfCache);
        }
        if span.to_page.0 as u64 + pages > to as u64 {
            return Err(Refusal::OutOfCache);
        }
        Ok(())
    }

    // Whether pages may be copied, as far as the mapper isn't asked. Refused as `NoCache`,
    // `OutOfCache`, `Overlap` or `Locked`, in this order.
    fn check_copy(&self, span: &Span) -> Result<(), Refusal>
        ensures refused { IfErr result (λ refusal. (h : Segments)
            → copy_of (machine_in self.now) span.now h ≡ refuse (machine_in self.now) refusal) }
        ensures can { OnOk result (CanCopy self.now span.now) }
    {
        self.check_span(span)?;
        if overlaps(span) {
            return Err(Refusal::Overlap);
        }
        if self.is_any_locked(span.to, span.to_page, span.pages) {
            return Err(Refusal::Locked);
        }
        Ok(())
    }

    // Whether pages may be moved, as far as the mapper isn't asked. Refused as `NoCache`,
    // `OutOfCache`, `NotTemp` where a segment names the source, `Overlap` or `Locked`, in this order.
    fn check_move(&self, span: &Span) -> Result<(), Refusal>
        ensures refused { IfErr result (λ refusal. (h : Segments)
            → move_of (machine_in self.now) span.now h ≡ refuse (machine_in self.now) refusal) }
        ensures can { OnOk result (CanMove self.now span.now) }
    {
        self.check_span(span)?;
        if self.store.segment(span.from).is_some() {
            return Err(Refusal::NotTemp);
        }
        if overlaps(span) {
            return Err(Refusal::Overlap);
        }
        if self.is_any_locked(span.from, span.from_page, span.pages) {
            return Err(Refusal::Locked);
        }
        if self.is_any_locked(span.to, span.to_page, span.pages) {
            return Err(Refusal::Locked);
        }
        Ok(())
    }

    /// Copies pages from one place to another, all at once. Refused as `NoCache`, `OutOfCache`,
    /// `Overlap`, `Locked` or `WriteDenied`, in this order.
    pub fn copy_pages<M: Mapper>(&mut self, span: Span, mapper: &mut M) -> Result<(), Trouble>
        requires some { 1 ≤ span.pages }
        requires valid { IsValid self.old (M.held mapper.old) }
        requires fits { Fits (M.page_bytes mapper.old) (machine_in self.old) }
        ensures { MapperCall M.Mapper flat mapper.old self.old
            (Command.Copy span) (done_by result) mapper.new self.new }
    {
        self.check_copy(&span)?;
        match self.may_change(span.to, span.to_page, span.pages, mapper) {
            Ok(true) => {
                fill(&mut self.store, &span);
                Ok(())
            }
            Ok(false) => Err(Trouble::Refused(Refusal::WriteDenied)),
            Err(page) => Err(Trouble::Mapper(FaultAt::Access(page))),
        }
    }

    /// Moves pages from one place to another; zeros are left where they were. Refused as `NoCache`,
    /// `OutOfCache`, `NotTemp`, `Overlap`, `Locked` or `WriteDenied`, in this order.
    pub fn move_pages<M: Mapper>(&mut self, span: Span, mapper: &mut M) -> Result<(), Trouble>
        requires some { 1 ≤ span.pages }
        requires valid { IsValid self.old (M.held mapper.old) }
        requires fits { Fits (M.page_bytes mapper.old) (machine_in self.old) }
        ensures { MapperCall M.Mapper flat mapper.old self.old
            (Command.Move span) (done_by result) mapper.new self.new }
    {
        self.check_move(&span)?;
        match self.may_change(span.to, span.to_page, span.pages, mapper) {
            Ok(true) => {
                fill(&mut self.store, &span);
                clear(&mut self.store, &span);
                Ok(())
            }
            Ok(false) => Err(Trouble::Refused(Refusal::WriteDenied)),
            Err(page) => Err(Trouble::Mapper(FaultAt::Access(page))),
        }
    }
}
