// Temporary caches are made, and caches copied, moved and destroyed.
ghost use Rattle.std.specs.Prelude.{◌≡◌, ◌⊎◌, ◌≤◌, ◌^◌, false, Err, OnErr, OnOk};
ghost use Rattle.vm_ids.specs.Forest.Commands.{extent_names};
ghost use Rattle.vm_ids.specs.Forest.NameLists.{◌∈◌};
ghost use Rattle.vm_ids.specs.Forest.Laws.Settling.{IsSettled};
ghost use Rattle.vm_model.specs.Answering.{answer_by};
ghost use Rattle.gmi_calls.specs.Calling.{CallDone, Fits, MapperCall, done_by};
ghost use Rattle.pvm_core.specs.Keeping.{CopiesNothing, HasMoreRoom};
ghost use Rattle.pvm_core.specs.Leaving.{ReplacesPages};
ghost use Rattle.pvm_core.specs.Saving.{CopiesSaved, all_of, is_named};
ghost use Rattle.pvm_core.specs.Spans.{read_from, replaced};
ghost use Rattle.pvm_core.specs.Manager.{IsValid, machine_of, meaning, nodes_of, numbered};

use crate::Pvm;
use crate::nodes::reserve;
use crate::spans::{copy_refusal, destination, move_refusal};
use page_commands::{copy_pages, destroy_pages, move_pages};
use vm_ids::{CacheId, Command, Extent, PageNo, Refusal, Reply, Span, Trouble};
use vm_model::{LIVE_PAGES, MOST_MADE};
use vm_port::{Chooser, Mapper};

impl Pvm {
    /// Makes a temporary cache of so many zero pages. Refused as `TooMany` exactly where 65,535
    /// caches were made or the live pages would be too many.
    pub fn make_temp(&mut self, pages: u32) -> Result<CacheId, Trouble>
        ensures call { CallDone meaning self.old
            (Command.MakeTemp pages) (answer_by Reply.Cache result) self.new }
        ensures err { OnErr result (HasMoreRoom self.old self.new) }
    {
        if self.caches.caches_made() >= MOST_MADE
            || self.live as u64 + pages as u64 > LIVE_PAGES as u64
        {
            return Err(Trouble::Refused(Refusal::TooMany));
        }
        let live = self.live + pages;
        reserve(&mut self.caches, &mut self.store, live)?;
        self.live = live;
        Ok(self.caches.make_temp(pages))
    }

    /// Takes a cache away, with all its pages; where a segment names it, they are pushed to the
    /// segment first. Refused as `NoCache` or `InUse`, in this order. After a fault the cache is
    /// there still.
    pub fn destroy<M: Mapper, C: Chooser>(
        &mut self,
        cache: CacheId,
        mapper: &mut M,
        chooser: &mut C,
    ) -> Result<(), Trouble>
        requires valid { IsValid self.old (M.held mapper.old) }
        requires made { numbered self.old ≤ 2 ^ 62 }
        requires fits { Fits (M.page_bytes mapper.old) (machine_of self.old (M.held mapper.old)) }
        ensures call { MapperCall M.Mapper meaning mapper.old self.old
            (Command.Destroy cache) (done_by result) mapper.new self.new }
        // A page is copied for a save alone, and of a temporary cache none is pulled or pushed
        // either, and frames are given back alone.
        ensures copies { CopiesSaved (all_of self.old.caches cache)
            self.old (M.held mapper.old) self.new result }
        ensures idle { is_named self.old.caches cache.0 ≡ false → (mapper.new ≡ mapper.old)
            × (chooser.new ≡ chooser.old) × CopiesNothing self.old self.new
            × OnErr result (self.new ≡ self.old) }
        ensures settled { OnOk result (IsSettled (nodes_of self.new)) }
        ensures refused { (r : Refusal) → result ≡ Err (Trouble.Refused r)
            → (self.new ≡ self.old) × (mapper.new ≡ mapper.old) }
    {
        let Some(pages) = self.caches.pages(cache) else {
            return Err(Trouble::Refused(Refusal::NoCache));
        };
        if self.contexts.maps(cache) {
            return Err(Trouble::Refused(Refusal::InUse));
        }
        let all = Extent {
            cache,
            first: PageNo(0),
            pages,
        };
        self.write_back(all, mapper, chooser)?;
        destroy_pages(&mut self.store, &mut self.caches, cache, pages);
        self.caches.remove(cache);
        self.live -= pages;
        Ok(())
    }

    /// Copies pages from one place to another, all at once. Refused as `NoCache`, `OutOfCache`,
    /// `Overlap`, `Locked` or `WriteDenied`, in this order.
    pub fn copy_pages<M: Mapper, C: Chooser>(
        &mut self,
        span: Span,
        mapper: &mut M,
        chooser: &mut C,
    ) -> Result<(), Trouble>
        requires some { 1 ≤ span.pages }
        requires valid { IsValid self.old (M.held mapper.old) }
        requires made { numbered self.old ≤ 2 ^ 62 }
        requires fits { Fits (M.page_bytes mapper.old) (machine_of self.old (M.held mapper.old)) }
        ensures call { MapperCall M.Mapper meaning mapper.old self.old
            (Command.Copy span) (done_by result) mapper.new self.new }
        ensures replaces { ReplacesPages M.Mapper (replaced span)
            (λ x. x ∈ extent_names (replaced span))
            mapper.old chooser.old self.old result mapper.new chooser.new self.new }
    {
        if let Some(refusal) = copy_refusal(&self.caches, span) {
            return Err(Trouble::Refused(refusal));
        }
        self.make_ready(destination(span), 2 * span.pages, mapper, chooser)?;
        let mapped = self.contexts.maps(span.to);
        copy_pages(&mut self.store, &mut self.caches, span, mapped);
        Ok(())
    }

    /// Moves pages from one place to another; zeros are left where they were. Refused as `NoCache`,
    /// `OutOfCache`, `NotTemp`, `Overlap`, `Locked` or `WriteDenied`, in this order.
    pub fn move_pages<M: Mapper, C: Chooser>(
        &mut self,
        span: Span,
        mapper: &mut M,
        chooser: &mut C,
    ) -> Result<(), Trouble>
        requires some { 1 ≤ span.pages }
        requires valid { IsValid self.old (M.held mapper.old) }
        requires made { numbered self.old ≤ 2 ^ 62 }
        requires fits { Fits (M.page_bytes mapper.old) (machine_of self.old (M.held mapper.old)) }
        ensures call { MapperCall M.Mapper meaning mapper.old self.old
            (Command.Move span) (done_by result) mapper.new self.new }
        ensures replaces { ReplacesPages M.Mapper (replaced span)
            (λ x. (x ∈ extent_names (replaced span)) ⊎ (x ∈ extent_names (read_from span)))
            mapper.old chooser.old self.old result mapper.new chooser.new self.new }
    {
        if let Some(refusal) = move_refusal(&self.caches, span) {
            return Err(Trouble::Refused(refusal));
        }
        self.make_ready(destination(span), span.pages, mapper, chooser)?;
        let from_mapped = self.contexts.maps(span.from);
        let to_mapped = self.contexts.maps(span.to);
        move_pages(
            &mut self.store,
            &mut self.caches,
            span,
            from_mapped,
            to_mapped,
        );
        Ok(())
    }
}
