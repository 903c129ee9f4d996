// The caches that are kept.
ghost use Rattle.std.specs.Prelude.{◌≡◌, ◌≤◌, ◌<◌, ◌+◌, ◌++◌, ◌∷◌, [], drop, filter, length, not, slice_get, OnOk, IsTrue, ◌↔◌};
ghost use Rattle.seg_manager.specs.Inner.{is_of};
ghost use Rattle.seg_manager.specs.Keeps.{AreOnce, is_kept};

use crate::links::{Link, Links};
use crate::tables::Kept;
use std::alloc::Global;
use std::marker::Model;
use vm_ids::{CacheId, NoMemory};

// The caches to which nothing refers, the least recently used first. Each of them is found by its
// number, and none but `reserve` takes memory.
#[derive(Drop)]
pub(crate) struct KeptCaches {
    links: Links,
}

impl Model for KeptCaches {
    ghost use Rattle.seg_manager.specs.Keeps.{Keeps};
    ghost use Rattle.seg_manager.specs.Ring.{IsRing, items_of};

    ghost Value = { Keeps };

    ghost view = { λ k. record { items = items_of k.links; room = k.links.room } };

    ghost invariant = { λ k. IsRing k.links (items_of k.links) };
}

impl KeptCaches {
    // None, and no memory for one.
    pub(crate) fn new(alloc: Global) -> KeptCaches
        ensures { result.items ≡ [] }
    {
        KeptCaches {
            links: Links::new(alloc),
        }
    }

    // How many there are.
    pub(crate) fn len(&self) -> usize
        ensures { result ≡ length self.now.items }
    {
        self.links.len()
    }

    // Whether there is none.
    pub(crate) fn is_empty(&self) -> bool
        ensures { IsTrue result ↔ (length self.now.items ≡ 0) }
    {
        self.len() == 0
    }

    // Makes room for so many in all.
    pub(crate) fn reserve(&mut self, room: usize) -> Result<(), NoMemory>
        ensures items { self.new.items ≡ self.old.items }
        ensures ok { OnOk result (room ≤ self.new.room) }
        ensures less { self.old.room ≤ self.new.room }
    {
        let Ok(room) = u32::try_from(room) else {
            return Err(NoMemory);
        };
        self.links.reserve(room)?;
        Ok(())
    }

    // Whether a cache is kept.
    pub(crate) fn contains(&self, cache: CacheId) -> bool
        ensures { result ≡ is_kept self.now.items cache.0 }
    {
        self.links.find(cache).is_some()
    }

    // The least recently used one.
    pub(crate) fn first(&self) -> Option<Kept>
        ensures { result ≡ slice_get self.now.items 0 }
    {
        let cache = self.links.first()?;
        let link = self.links.find(cache)?;
        Some(link.kept)
    }

    // Another one, which was used last, and for which there is room.
    pub(crate) fn push(&mut self, kept: Kept)
        requires once { AreOnce (self.old.items ++ kept ∷ []) }
        requires room { length self.old.items < self.old.room }
        ensures items { self.new.items ≡ self.old.items ++ kept ∷ [] }
        ensures room { self.new.room ≡ self.old.room }
    {
        let cache = Some(kept.cache);
        let last = self.links.last();
        self.links.insert(Link {
            kept,
            before: last,
            after: None,
        });
        self.links.set_after(last, cache);
        self.links.set_before(None, cache);
    }

    // A cache is kept no longer.
    pub(crate) fn remove(&mut self, cache: CacheId)
        ensures items { self.new.items ≡ filter (λ k. not (is_of cache.0 k)) self.old.items }
        ensures room { self.new.room ≡ self.old.room }
    {
        if let Some(link) = self.links.take(cache) {
            self.links.set_after(link.before, link.after);
            self.links.set_before(link.after, link.before);
        }
    }

    // The least recently used one is kept no longer.
    pub(crate) fn remove_first(&mut self)
        ensures items { self.new.items ≡ drop 1 self.old.items }
        ensures room { self.new.room ≡ self.old.room }
    {
        if let Some(cache) = self.links.first() {
            self.remove(cache);
        }
    }
}
