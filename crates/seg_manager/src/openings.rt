// Openings of segments.
ghost use Rattle.std.specs.Prelude.{◌≡◌, ◌≤◌, ◌<◌, ◌+◌, ◌^◌, None, length, OnOk};
ghost use Rattle.seg_manager.specs.Calling.{Acquires};
ghost use Rattle.seg_manager.specs.Inner.{IsOpenedAgain, StandsAt, first_of};
ghost use Rattle.seg_manager.specs.Thinning.{IsTried, credit};
ghost use Rattle.seg_manager.specs.Tying.{CanCall};

use crate::SegManager;
use crate::tables::Named;
use gmi_calls::Gmi;
use vm_ids::{CacheId, Command, NoMemory, SegId, Trouble};
use vm_port::{Chooser, Mapper};

impl<G> SegManager<G> {
    // Another opening of a segment that has a cache, which is kept no longer. Openings are counted
    // by 64 bits: to open a segment more often would take memory that there isn't.
    pub(crate) fn open_again(&mut self, place: usize) -> Result<CacheId, Trouble>
        requires { place < length self.old.caches.items }
        ensures { IsOpenedAgain self.old place result self.new }
    {
        let named = self.caches.at(place);
        let Some(openings) = named.openings.checked_add(1) else {
            return Err(Trouble::Memory);
        };
        self.caches.set_openings(place, openings);
        self.kept.remove(named.cache);
        Ok(named.cache)
    }

    // The first opening of a segment that has no cache.
    pub(crate) fn open_anew<M: Mapper, C: Chooser>(
        &mut self,
        seg: SegId,
        mapper: &mut M,
        chooser: &mut C,
    ) -> Result<CacheId, Trouble>
    where
        G: Gmi<M, C>,
        requires can { CanCall G.Gmi self.old (M.held mapper.old) (M.page_bytes mapper.old) }
        requires made { G.made self.old.gmi ≤ 2 ^ 61 }
        requires anew { StandsAt self.old.caches.items (first_of seg.0) None }
        ensures { Acquires M.Mapper G.Gmi mapper.old self.old seg result mapper.new self.new }
    {
        self.reserve_cache()?;
        let cache = self.open_segment(seg, mapper, chooser)?;
        self.caches.push(Named {
            seg,
            cache,
            openings: 1,
        });
        Ok(cache)
    }

    // Makes room for one cache more that a segment names, and for keeping each of them.
    fn reserve_cache(&mut self) -> Result<(), NoMemory>
        ensures caches { self.new.caches.items ≡ self.old.caches.items }
        ensures kept { self.new.kept.items ≡ self.old.kept.items }
        ensures spare { OnOk result (1 ≤ self.new.caches.spare) }
        ensures all { OnOk result (length self.new.caches.items + 1 ≤ self.new.kept.room) }
        ensures less { self.old.kept.room ≤ self.new.kept.room }
        ensures same { self.new
            ≡ record self.old { caches = self.new.caches; kept = self.new.kept } }
    {
        self.caches.reserve_one()?;
        self.kept.reserve(self.caches.len() + 1)
    }

    // Opens a segment of the manager; caches that are kept make room.
    fn open_segment<M: Mapper, C: Chooser>(
        &mut self,
        seg: SegId,
        mapper: &mut M,
        chooser: &mut C,
    ) -> Result<CacheId, Trouble>
    where
        G: Gmi<M, C>,
        requires can { CanCall G.Gmi self.old (M.held mapper.old) (M.page_bytes mapper.old) }
        requires made { credit M.Mapper G.Gmi self.old mapper.old ≤ 2 ^ 61 + 2 ^ 32 }
        requires anew { StandsAt self.old.caches.items (first_of seg.0) None }
        ensures { IsTried M.Mapper G.Gmi (Command.OpenSegment seg) mapper.old self.old result
            mapper.new self.new }
    {
        loop {
            match self.gmi.open_segment(seg, mapper) {
                Ok(cache) => return Ok(cache),
                Err(trouble) => self.make_room(trouble, mapper, chooser)?,
            }
        }
    }
}
