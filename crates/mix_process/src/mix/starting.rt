// A process begins: its image is opened, and it is made whole or taken back.
ghost use Rattle.std.specs.Prelude.{◌≡◌, ℕ, Option, ◌≤◌, ◌+◌, ◌^◌, None, Some};
ghost use Rattle.vm_ids.specs.Held.{Held};
ghost use Rattle.vm_model.specs.Machine.{Cache, cache_of};
ghost use Rattle.mix_process.specs.Loaded.{IsLoaded, MayLoad};
ghost use Rattle.mix_process.specs.Starting.{Checks, IsLastAlive, IsMadeOrTakenBack, IsOpened, IsStarted};
ghost use Rattle.mix_process.specs.Tying.{CanCall};

use crate::Area;
use crate::mix::{Image, Mix, bad_image, cache_for};
use crate::process::{Part, Process};
use gmi_calls::Gmi;
use vm_ids::{CacheId, PageNo, ProcId, SegId, Trouble};
use vm_port::{Chooser, Mapper};

impl<G> Mix<G> {
    // The cache of a segment, which is opened where it isn't open yet.
    pub(super) fn open_image<M: Mapper, C: Chooser>(
        &mut self,
        seg: SegId,
        mapper: &mut M,
    ) -> Result<CacheId, Trouble>
    where
        G: Gmi<M, C>,
        requires can { CanCall G.Gmi self.old (M.held mapper.old) (M.page_bytes mapper.old) }
        requires made { G.made self.old.gmi ≤ 2 ^ 62 }
        ensures { IsOpened M.Mapper G.Gmi mapper.old self.old seg result mapper.new self.new }
    {
        match cache_for(&self.images, seg) {
            Some(cache) => return Ok(cache),
            None => {}
        }
        self.images.reserve(1)?;
        let cache = self.gmi.open_segment(seg, mapper)?;
        self.images.push_reserved(Image { seg, cache });
        Ok(cache)
    }

    // Whether an image has so many pages, at least 1.
    pub(super) fn check_image<M: Mapper, C: Chooser>(
        &self,
        image: CacheId,
        pages: u32,
    ) -> Result<(), Trouble>
    where
        G: Gmi<M, C>,
        requires { 1 ≤ pages }
        ensures { (told : Option Held) → G.valid self.now.gmi told → G.room self.now.gmi ≡ None
            → (cache : Cache) → cache_of (G.machine self.now.gmi told) image.0 ≡ Some cache
            → Checks cache.pages pages result }
    {
        match self.gmi.chain(image, PageNo(pages - 1)) {
            Ok(_) => Ok(()),
            Err(trouble) => Err(bad_image(trouble)),
        }
    }

    // A process without any pages, the last one.
    pub(super) fn make_process<M: Mapper, C: Chooser>(&mut self) -> Result<(), Trouble>
    where
        G: Gmi<M, C>,
        requires valid { (told : Option Held) × G.valid self.old.gmi told }
        requires made { G.made self.old.gmi ≤ 2 ^ 62 }
        ensures { (told : Option Held) (page_bytes : Option ℕ)
            → CanCall G.Gmi self.old told page_bytes
            → IsStarted G.Gmi told page_bytes self.old result self.new }
    {
        self.processes.reserve(1)?;
        let actor = self.gmi.make_actor()?;
        let parts = Vec::new(self.alloc);
        self.processes.push_reserved(Some(Process { actor, parts }));
        Ok(())
    }

    // What the last process gets of its image: this text, data behind it, and a stack of zeros.
    pub(super) fn load_image<M: Mapper, C: Chooser>(
        &mut self,
        text: Part,
        data_pages: u32,
        stack_pages: u32,
        mapper: &mut M,
        chooser: &mut C,
    ) -> Result<(), Trouble>
    where
        G: Gmi<M, C>,
        requires can { CanCall G.Gmi self.old (M.held mapper.old) (M.page_bytes mapper.old) }
        requires may { MayLoad (G.machine self.old.gmi (M.held mapper.old))
            self.old.processes.items text data_pages stack_pages }
        requires made { G.made self.old.gmi ≤ 2 ^ 61 + 2 ^ 29 }
        ensures { (may : MayLoad (G.machine self.old.gmi (M.held mapper.old))
            self.old.processes.items text data_pages stack_pages)
            → IsLoaded M.Mapper G.Gmi mapper.old self.old may.front text data_pages stack_pages
            result mapper.new self.new }
    {
        let place = self.processes.len() - 1;
        let behind = Some((text.cache, PageNo(text.pages)));
        self.map_part(place, text)?;
        self.add_own(place, Area::Data, data_pages, behind, mapper, chooser)?;
        self.add_own(place, Area::Stack, stack_pages, None, mapper, chooser)
    }

    // The number of the last process; or it is taken back, since it couldn't be made whole.
    pub(super) fn made_or_taken_back<M: Mapper, C: Chooser>(
        &mut self,
        made: Result<(), Trouble>,
        mapper: &mut M,
        chooser: &mut C,
    ) -> Result<ProcId, Trouble>
    where
        G: Gmi<M, C>,
        requires can { CanCall G.Gmi self.old (M.held mapper.old) (M.page_bytes mapper.old) }
        requires made { G.made self.old.gmi ≤ 2 ^ 61 + 2 ^ 30 }
        requires last { IsLastAlive self.old.processes.items }
        ensures { IsMadeOrTakenBack M.Mapper G.Gmi mapper.old self.old made result mapper.new
            self.new }
    {
        match made {
            Ok(()) => Ok(ProcId(self.processes.len() as u32)),
            Err(trouble) => {
                match self.processes.pop() {
                    Some(Some(process)) => self.end(process, mapper, chooser),
                    _ => unreachable!(),
                }
                Err(trouble)
            }
        }
    }
}
