// The commands of the manager below.
ghost use Rattle.std.specs.Prelude.{◌≡◌, ◌≤◌, ◌<◌, ◌^◌, Option, insert};
ghost use Rattle.std.specs.Vec.{vec_capacity, vec_len};
ghost use Rattle.vm_ids.specs.Held.{Held};
ghost use Rattle.vm_model.specs.Answering.{answer_by};
ghost use Rattle.vm_model.specs.Asking.{IsWellFormed};
ghost use Rattle.gmi_calls.specs.Calling.{done_by};
ghost use Rattle.seg_manager.specs.Calling.{IsPassed, IsServed, Serves};
ghost use Rattle.seg_manager.specs.Inner.{place_from, shown};
ghost use Rattle.seg_manager.specs.Tying.{CanCall};

use crate::SegManager;
use crate::tables::{Mapped, place_for};
use gmi_calls::Gmi;
use vm_ids::{ActorId, Answer, CacheId, Command, Extent, Mapping, RegionId, Reply, Span, Trouble};
use vm_port::{Chooser, Mapper};

// No cache has this number.
const NO_CACHE: CacheId = CacheId(0);

impl<G> SegManager<G> {
    /// Carries a command of the manager's own out. It finds no cache that is hidden. A region
    /// refers to the cache that it maps, from `map` until `unmap` or `exit`; these two take no
    /// memory. `temp` is refused as `TooMany` only where no cache is kept any more.
    pub fn answer<M: Mapper, C: Chooser>(
        &mut self,
        command: &Command,
        mapper: &mut M,
        chooser: &mut C,
    ) -> Answer
    where
        G: Gmi<M, C>,
        requires served { IsServed command.now }
        requires formed { IsWellFormed command.now }
        requires can { CanCall G.Gmi self.old (M.held mapper.old) (M.page_bytes mapper.old) }
        requires made { G.made self.old.gmi ≤ 2 ^ 61 }
        ensures { Serves M.Mapper G.Gmi mapper.old self.old command.now result mapper.new self.new }
    {
        match command {
            Command::ExitActor(actor) => {
                self.exit_actor(*actor, mapper, chooser)?;
                Ok(Reply::Done)
            }
            Command::MakeTemp(pages) => Ok(Reply::Cache(self.make_temp(*pages, mapper, chooser)?)),
            Command::Copy(span) => {
                self.copy_pages(*span, mapper, chooser)?;
                Ok(Reply::Done)
            }
            Command::Map(actor, mapping) => Ok(Reply::Region(self.map(*actor, *mapping)?)),
            Command::Unmap(region) => {
                self.unmap(*region, mapper, chooser)?;
                Ok(Reply::Done)
            }
            command => self.pass_on(command, mapper, chooser),
        }
    }

    // Makes a temporary cache; caches that are kept make room.
    fn make_temp<M: Mapper, C: Chooser>(
        &mut self,
        pages: u32,
        mapper: &mut M,
        chooser: &mut C,
    ) -> Result<CacheId, Trouble>
    where
        G: Gmi<M, C>,
        requires some { 1 ≤ pages }
        requires can { CanCall G.Gmi self.old (M.held mapper.old) (M.page_bytes mapper.old) }
        requires made { G.made self.old.gmi ≤ 2 ^ 61 }
        ensures { Serves M.Mapper G.Gmi mapper.old self.old (Command.MakeTemp pages)
            (answer_by Reply.Cache result) mapper.new self.new }
    {
        loop {
            match self.gmi.make_temp(pages) {
                Ok(cache) => return Ok(cache),
                Err(trouble) => self.make_room(trouble, mapper, chooser)?,
            }
        }
    }

    // Copies pages from one cache to another, as they are found.
    fn copy_pages<M: Mapper, C: Chooser>(
        &mut self,
        span: Span,
        mapper: &mut M,
        chooser: &mut C,
    ) -> Result<(), Trouble>
    where
        G: Gmi<M, C>,
        requires some { 1 ≤ span.pages }
        requires can { CanCall G.Gmi self.old (M.held mapper.old) (M.page_bytes mapper.old) }
        requires made { G.made self.old.gmi ≤ 2 ^ 61 }
        ensures { Serves M.Mapper G.Gmi mapper.old self.old (Command.Copy span)
            (done_by result) mapper.new self.new }
    {
        let Span {
            from,
            from_page,
            to,
            to_page,
            pages,
        } = span;
        let found = Span {
            from: self.shown(from),
            from_page,
            to: self.shown(to),
            to_page,
            pages,
        };
        self.gmi.copy_pages(found, mapper, chooser)
    }

    // Maps pages of a cache, as it is found.
    fn map<M: Mapper, C: Chooser>(
        &mut self,
        actor: ActorId,
        mapping: Mapping,
    ) -> Result<RegionId, Trouble>
    where
        G: Gmi<M, C>,
        requires some { 1 ≤ mapping.extent.pages }
        requires valid { (told : Option Held) × G.valid self.old.gmi told }
        requires made { G.made self.old.gmi ≤ 2 ^ 61 }
        ensures { (mapper : M) → CanCall G.Gmi self.old (M.held mapper) (M.page_bytes mapper)
            → Serves M.Mapper G.Gmi mapper self.old (Command.Map actor mapping)
            (answer_by Reply.Region result) mapper self.new }
    {
        self.regions.reserve(1)?;
        let Mapping {
            extent,
            address,
            prot,
        } = mapping;
        let cache = self.shown(extent.cache);
        let extent = Extent {
            cache,
            first: extent.first,
            pages: extent.pages,
        };
        let found = Mapping {
            extent,
            address,
            prot,
        };
        let region = self.gmi.map(actor, found)?;
        self.note_region(Mapped {
            actor,
            region,
            address,
            cache,
        });
        Ok(region)
    }

    // Notes a region, for which there is room.
    fn note_region(&mut self, mapped: Mapped)
        requires { vec_len self.old.regions < vec_capacity self.old.regions }
        ensures regions { self.new.regions.items
            ≡ insert self.old.regions.items (place_from mapped 0 self.old.regions.items) mapped }
        ensures same { self.new ≡ record self.old { regions = self.new.regions } }
    {
        let place = place_for(&self.regions, &mapped);
        match self.regions.insert(place, mapped) {
            Ok(()) => {}
            Err(_) => unreachable!(),
        }
    }

    // Passes a command on to the manager below that names no cache and takes no reference away.
    fn pass_on<M: Mapper, C: Chooser>(
        &mut self,
        command: &Command,
        mapper: &mut M,
        chooser: &mut C,
    ) -> Answer
    where
        G: Gmi<M, C>,
        requires passed { IsPassed command.now }
        requires formed { IsWellFormed command.now }
        requires can { CanCall G.Gmi self.old (M.held mapper.old) (M.page_bytes mapper.old) }
        requires made { G.made self.old.gmi ≤ 2 ^ 61 }
        ensures { Serves M.Mapper G.Gmi mapper.old self.old command.now result mapper.new self.new }
    {
        gmi_calls::answer(&mut self.gmi, command, mapper, chooser)
    }

    // A cache as a command finds it.
    fn shown(&self, cache: CacheId) -> CacheId
        ensures { result ≡ shown self.now.kept.items cache }
    {
        if self.hidden(cache) { NO_CACHE } else { cache }
    }
}
