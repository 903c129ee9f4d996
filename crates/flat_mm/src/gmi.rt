// The manager is one of the interface.
ghost use Rattle.std.specs.Prelude.{None, Some, true};
ghost use Rattle.vm_model.specs.Outcome.{seen_at};
ghost use Rattle.flat_mm.specs.Manager.{IsValid, machine_in, room_of};

use crate::FlatMm;
use gmi_calls::{Delivered, Gmi};
use vm_ids::{
    Access, ActorId, Answer, CacheId, ChainList, Counts, Extent, Mapping, PageNo, Piece, Prot,
    RegionId, RegionStatus, SegId, Span, Trouble,
};
use vm_port::{Chooser, Mapper};

/// Each page has a frame of its own, so that it is at hand: each access is ready, and none waits.
/// It tells no page forest, and there is room for as many pages as frames are free.
impl<M: Mapper, C: Chooser> Gmi<M, C> for FlatMm {
    ghost machine = { λ p told. seen_at told (machine_in p) };

    ghost forest = { λ _ _. None };

    ghost valid = { λ p told. IsValid p told };

    ghost made = { λ _. 0 };

    ghost room = { λ p. Some (room_of p) };

    ghost ready = { λ _ _ _. true };

    ghost admits = { λ _ _. ⊥ };

    fn make_actor(&mut self) -> Result<ActorId, Trouble> {
        FlatMm::make_actor(self)
    }

    fn exit_actor(&mut self, actor: ActorId) -> Result<(), Trouble> {
        FlatMm::exit_actor(self, actor)
    }

    fn make_temp(&mut self, pages: u32) -> Result<CacheId, Trouble> {
        FlatMm::make_temp(self, pages)
    }

    fn open_segment(&mut self, seg: SegId, mapper: &mut M) -> Result<CacheId, Trouble> {
        FlatMm::open_segment(self, seg, mapper)
    }

    fn destroy(&mut self, cache: CacheId, mapper: &mut M, _chooser: &mut C) -> Result<(), Trouble> {
        FlatMm::destroy(self, cache, mapper)
    }

    fn copy_pages(&mut self, span: Span, mapper: &mut M, _chooser: &mut C) -> Result<(), Trouble> {
        FlatMm::copy_pages(self, span, mapper)
    }

    fn move_pages(&mut self, span: Span, mapper: &mut M, _chooser: &mut C) -> Result<(), Trouble> {
        FlatMm::move_pages(self, span, mapper)
    }

    fn map(&mut self, actor: ActorId, mapping: Mapping) -> Result<RegionId, Trouble> {
        FlatMm::map(self, actor, mapping)
    }

    fn split(&mut self, region: RegionId, pages: u32) -> Result<RegionId, Trouble> {
        FlatMm::split(self, region, pages)
    }

    fn protect(&mut self, region: RegionId, prot: Prot) -> Result<(), Trouble> {
        FlatMm::protect(self, region, prot)
    }

    fn lock(&mut self, region: RegionId, mapper: &mut M, _chooser: &mut C) -> Result<(), Trouble> {
        FlatMm::lock(self, region, mapper)
    }

    fn unlock(&mut self, region: RegionId) -> Result<(), Trouble> {
        FlatMm::unlock(self, region)
    }

    fn unmap(&mut self, region: RegionId) -> Result<(), Trouble> {
        FlatMm::unmap(self, region)
    }

    fn status(&self, region: RegionId) -> Result<RegionStatus, Trouble> {
        FlatMm::status(self, region)
    }

    fn find(&self, actor: ActorId, address: u64) -> Result<RegionId, Trouble> {
        FlatMm::find(self, actor, address)
    }

    fn load(
        &mut self,
        actor: ActorId,
        address: u64,
        bytes: u8,
        mapper: &mut M,
        _chooser: &mut C,
    ) -> Result<Piece, Trouble> {
        FlatMm::load(self, actor, address, bytes, mapper)
    }

    fn store(
        &mut self,
        actor: ActorId,
        address: u64,
        piece: &Piece,
        mapper: &mut M,
        _chooser: &mut C,
    ) -> Result<(), Trouble> {
        FlatMm::store(self, actor, address, piece, mapper)
    }

    #[tactic(auto, using(crate::proofs::Alone::none_pulled))]
    fn issue(
        &mut self,
        actor: ActorId,
        access: &Access,
        mapper: &mut M,
        _chooser: &mut C,
    ) -> Option<Answer> {
        Some(self.carry_out(actor, access, mapper))
    }

    fn deliver(
        &mut self,
        actor: ActorId,
        access: &Access,
        mapper: &mut M,
        _chooser: &mut C,
    ) -> Delivered {
        let answer = self.carry_out(actor, access, mapper);
        Delivered { answer, came: true }
    }

    fn sync(&mut self, extent: Extent, mapper: &mut M, _chooser: &mut C) -> Result<(), Trouble> {
        FlatMm::sync(self, extent, mapper)
    }

    fn flush(&mut self, extent: Extent, mapper: &mut M, _chooser: &mut C) -> Result<(), Trouble> {
        FlatMm::flush(self, extent, mapper)
    }

    fn invalidate(
        &mut self,
        extent: Extent,
        mapper: &mut M,
        _chooser: &mut C,
    ) -> Result<(), Trouble> {
        FlatMm::invalidate(self, extent, mapper)
    }

    fn page_out(&mut self, count: u32, mapper: &mut M, _chooser: &mut C) -> Result<(), Trouble> {
        FlatMm::page_out(self, count, mapper)
    }

    fn chain(&self, cache: CacheId, page: PageNo) -> Result<ChainList, Trouble> {
        FlatMm::chain(self, cache, page)
    }

    fn stat(&self) -> Counts {
        FlatMm::stat(self)
    }

    ghost bounded = { λ _ _ _. tt };
}
