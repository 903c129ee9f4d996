// Actors that end and regions that go.
ghost use Rattle.std.specs.Prelude.{◌≡◌, ◌≤◌, ◌+◌, ◌++◌, ◌^◌, length};
ghost use Rattle.gmi_calls.specs.Calling.{done_by};
ghost use Rattle.seg_manager.specs.Calling.{Serves};
ghost use Rattle.seg_manager.specs.Inner.{staying, unused_then};
ghost use Rattle.seg_manager.specs.Tying.{AreOnce, CanCall};

use crate::SegManager;
use crate::tables::{Leaving, first_leaving};
use gmi_calls::Gmi;
use vm_ids::{ActorId, Command, RegionId, Trouble};
use vm_port::{Chooser, Mapper};

impl<G> SegManager<G> {
    // Ends an actor. Its regions refer to nothing any more.
    pub(crate) fn exit_actor<M: Mapper, C: Chooser>(
        &mut self,
        actor: ActorId,
        mapper: &mut M,
        chooser: &mut C,
    ) -> Result<(), Trouble>
    where
        G: Gmi<M, C>,
        requires can { CanCall G.Gmi self.old (M.held mapper.old) (M.page_bytes mapper.old) }
        requires made { G.made self.old.gmi ≤ 2 ^ 61 }
        ensures { Serves M.Mapper G.Gmi mapper.old self.old (Command.ExitActor actor)
            (done_by result) mapper.new self.new }
    {
        self.gmi.exit_actor(actor)?;
        self.drop_regions(Leaving::Actor(actor));
        self.trim(mapper, chooser);
        Ok(())
    }

    // Takes a region away. It refers to nothing any more.
    pub(crate) fn unmap<M: Mapper, C: Chooser>(
        &mut self,
        region: RegionId,
        mapper: &mut M,
        chooser: &mut C,
    ) -> Result<(), Trouble>
    where
        G: Gmi<M, C>,
        requires can { CanCall G.Gmi self.old (M.held mapper.old) (M.page_bytes mapper.old) }
        requires made { G.made self.old.gmi ≤ 2 ^ 61 }
        ensures { Serves M.Mapper G.Gmi mapper.old self.old (Command.Unmap region)
            (done_by result) mapper.new self.new }
    {
        self.gmi.unmap(region)?;
        self.drop_regions(Leaving::Region(region));
        self.trim(mapper, chooser);
        Ok(())
    }

    // Takes the regions away that go, in order of address, and keeps the caches to which nothing
    // refers any more.
    fn drop_regions(&mut self, leaving: Leaving)
        requires once { AreOnce (self.old.kept.items
            ++ unused_then self.old.caches.items leaving self.old.regions.items) }
        requires room { length self.old.kept.items
            + length (unused_then self.old.caches.items leaving self.old.regions.items)
            ≤ self.old.kept.room }
        ensures regions { self.new.regions.items ≡ staying leaving self.old.regions.items }
        ensures kept { self.new.kept.items ≡ self.old.kept.items
            ++ unused_then self.old.caches.items leaving self.old.regions.items }
        ensures capacity { self.new.kept.room ≡ self.old.kept.room }
        ensures same { self.new
            ≡ record self.old { kept = self.new.kept; regions = self.new.regions } }
    {
        while let Some(place) = first_leaving(&self.regions, leaving) {
            let mapped = self.regions.remove(place);
            self.keep_unused(mapped.cache);
        }
    }
}
