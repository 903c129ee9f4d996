// Caches that are kept, and that go.
ghost use Rattle.std.specs.Prelude.{◌≡◌, ◌≤◌, ◌+◌, ◌++◌, ◌^◌, length, OnErr};
ghost use Rattle.seg_manager.specs.Inner.{IsClosed, is_too_many, unused_in};
ghost use Rattle.seg_manager.specs.Thinning.{IsDestroyed, IsRoomMade, Trims, credit};
ghost use Rattle.seg_manager.specs.Tying.{AreOnce, CanCall};

use crate::SegManager;
use crate::tables::{Kept, is_mapped};
use gmi_calls::Gmi;
use vm_ids::{CacheId, Refusal, SegId, Trouble};
use vm_port::{Chooser, Mapper};

impl<G> SegManager<G> {
    // Takes an opening of a segment back, and gives its cache.
    pub(crate) fn close(&mut self, seg: SegId) -> Result<CacheId, Refusal>
        ensures closed { IsClosed self.old.caches.items seg result self.new.caches.items }
        ensures same { self.new ≡ record self.old { caches = self.new.caches } }
        ensures refused { OnErr result (self.new ≡ self.old) }
    {
        let Some(place) = self.caches.place_of(seg) else {
            return Err(Refusal::NotOpen);
        };
        let named = self.caches.at(place);
        if named.openings == 0 {
            return Err(Refusal::NotOpen);
        }
        self.caches.set_openings(place, named.openings - 1);
        Ok(named.cache)
    }

    // Keeps a cache to which something referred until now, if a segment names it and nothing refers
    // to it any more.
    pub(crate) fn keep_unused(&mut self, cache: CacheId)
        requires once { AreOnce (self.old.kept.items
            ++ unused_in self.old.caches.items self.old.regions.items cache) }
        requires room { length self.old.kept.items
            + length (unused_in self.old.caches.items self.old.regions.items cache)
            ≤ self.old.kept.room }
        ensures kept { self.new.kept.items ≡ self.old.kept.items
            ++ unused_in self.old.caches.items self.old.regions.items cache }
        ensures capacity { self.new.kept.room ≡ self.old.kept.room }
        ensures same { self.new ≡ record self.old { kept = self.new.kept } }
    {
        let Some(named) = self.caches.named_with(cache) else {
            return;
        };
        if named.openings == 0 && !is_mapped(&self.regions, cache) {
            self.kept.push(Kept {
                seg: named.seg,
                cache,
            });
        }
    }

    // Destroys the least recently used caches while more are kept than may be. One that can't be
    // destroyed stays kept, and so do those behind it.
    pub(crate) fn trim<M: Mapper, C: Chooser>(&mut self, mapper: &mut M, chooser: &mut C)
    where
        G: Gmi<M, C>,
        requires can { CanCall G.Gmi self.old (M.held mapper.old) (M.page_bytes mapper.old) }
        requires made { credit M.Mapper G.Gmi self.old mapper.old ≤ 2 ^ 62 }
        ensures { Trims M.Mapper G.Gmi mapper.old self.old mapper.new self.new }
    {
        while self.kept.len() > self.limit as usize {
            match self.destroy_first(mapper, chooser) {
                Ok(()) => {}
                Err(_) => return,
            }
        }
    }

    // Where the manager has no room for a cache, the least recently used one is destroyed, if one
    // is kept. Any other trouble stays the answer.
    pub(crate) fn make_room<M: Mapper, C: Chooser>(
        &mut self,
        trouble: Trouble,
        mapper: &mut M,
        chooser: &mut C,
    ) -> Result<(), Trouble>
    where
        G: Gmi<M, C>,
        requires can { CanCall G.Gmi self.old (M.held mapper.old) (M.page_bytes mapper.old) }
        requires made { G.made self.old.gmi ≤ 2 ^ 62 }
        ensures { IsRoomMade M.Mapper G.Gmi trouble mapper.old self.old result mapper.new
            self.new }
    {
        if !is_too_many(&trouble) {
            return Err(trouble);
        }
        if self.kept.is_empty() {
            return Err(trouble);
        }
        self.destroy_first(mapper, chooser)
    }

    // Destroys the least recently used of the caches that are kept.
    fn destroy_first<M: Mapper, C: Chooser>(
        &mut self,
        mapper: &mut M,
        chooser: &mut C,
    ) -> Result<(), Trouble>
    where
        G: Gmi<M, C>,
        requires some { 1 ≤ length self.old.kept.items }
        requires can { CanCall G.Gmi self.old (M.held mapper.old) (M.page_bytes mapper.old) }
        requires made { G.made self.old.gmi ≤ 2 ^ 62 }
        ensures { IsDestroyed M.Mapper G.Gmi mapper.old self.old result mapper.new self.new }
    {
        let cache = match self.kept.first() {
            Some(first) => first.cache,
            None => unreachable!(),
        };
        self.gmi.destroy(cache, mapper, chooser)?;
        self.kept.remove_first();
        self.caches.remove(cache);
        Ok(())
    }
}

// Whether there was no room for a cache.
fn is_too_many(trouble: &Trouble) -> bool
    ensures { result ≡ is_too_many trouble.now }
{
    matches!(trouble, Trouble::Refused(Refusal::TooMany))
}
