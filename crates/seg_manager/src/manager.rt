// The manager of segments: what it keeps, and what is asked of it by segments.
ghost use Rattle.std.specs.Prelude.{◌≡◌, ◌≤◌, ◌^◌, ℕ, Option};
ghost use Rattle.vm_ids.specs.Held.{Held, segments_of};
ghost use Rattle.seg_manager.specs.Calling.{Acquires, Releases, beginning, made_by};
ghost use Rattle.seg_manager.specs.Seen.{is_kept, state_of};
ghost use Rattle.seg_manager.specs.Tying.{CanCall, IsBare};

use crate::kept_caches::KeptCaches;
use crate::named_caches::NamedCaches;
use crate::tables::Mapped;
use gmi_calls::Gmi;
use std::alloc::Global;
use vm_ids::{CacheId, SegId, Trouble};
use vm_port::{Chooser, Mapper};

/// Segments over a memory manager. A segment has one cache, which all its openings and all regions
/// that map it share. When the last of these references goes, the cache is kept for the next
/// opening, and is hidden meanwhile; of the caches that are kept, those least recently used are
/// destroyed while there are more than the limit, or where the manager has no room.
#[derive(Drop)]
pub struct SegManager<G> {
    pub(crate) gmi: G,
    pub(crate) limit: u32,
    // All caches that segments name, in the order of their numbers.
    pub(crate) caches: NamedCaches,
    // Those to which nothing refers, the least recently used first.
    pub(crate) kept: KeptCaches,
    // The regions of each actor in order of address, the actors in order of their numbers.
    pub(crate) regions: Vec<Mapped>,
}

impl<G> SegManager<G> {
    /// No segment is open, and so many caches may be kept. The calls can be made where the manager
    /// has no caches and regions, and its room isn't limited.
    pub fn new<M: Mapper, C: Chooser>(alloc: Global, gmi: G, limit: u32) -> SegManager<G>
    where
        G: Gmi<M, C>,
        ensures can { (told : Option Held) (page_bytes : Option ℕ)
            → IsBare G.Gmi gmi told page_bytes → CanCall G.Gmi result told page_bytes }
        ensures begins { (told : Option Held) (page_bytes : Option ℕ)
            → IsBare G.Gmi gmi told page_bytes
            → state_of G.Gmi result told ≡ beginning (G.machine gmi told) (segments_of told) }
        ensures made { made_by G.Gmi result ≡ G.made gmi }
        ensures limit { result.limit ≡ limit }
    {
        let caches = NamedCaches::new(alloc);
        let kept = KeptCaches::new(alloc);
        let regions = Vec::new(alloc);
        SegManager {
            gmi,
            limit,
            caches,
            kept,
            regions,
        }
    }

    /// Whether a cache is kept: nothing refers to it. A command that names it finds no such cache.
    pub fn hidden(&self, cache: CacheId) -> bool
        ensures { result ≡ is_kept self.now.kept.items cache.0 }
    {
        self.kept.contains(cache)
    }

    /// Opens a segment, and gives its cache: the one that it has, which keeps its number, or a new
    /// one with the segment's pages. Refused as `NoSegment`, or as `TooMany` where no cache is kept
    /// any more and the manager has no room for another.
    pub fn acquire<M: Mapper, C: Chooser>(
        &mut self,
        seg: SegId,
        mapper: &mut M,
        chooser: &mut C,
    ) -> Result<CacheId, Trouble>
    where
        G: Gmi<M, C>,
        requires can { CanCall G.Gmi self.old (M.held mapper.old) (M.page_bytes mapper.old) }
        requires made { G.made self.old.gmi ≤ 2 ^ 61 }
        ensures { Acquires M.Mapper G.Gmi mapper.old self.old seg result mapper.new self.new }
    {
        match self.caches.place_of(seg) {
            Some(place) => self.open_again(place),
            None => self.open_anew(seg, mapper, chooser),
        }
    }

    /// Takes an opening of a segment back. Refused as `NotOpen` exactly where none is left. It
    /// takes no memory.
    pub fn release<M: Mapper, C: Chooser>(
        &mut self,
        seg: SegId,
        mapper: &mut M,
        chooser: &mut C,
    ) -> Result<(), Trouble>
    where
        G: Gmi<M, C>,
        requires can { CanCall G.Gmi self.old (M.held mapper.old) (M.page_bytes mapper.old) }
        requires made { G.made self.old.gmi ≤ 2 ^ 61 }
        ensures { Releases M.Mapper G.Gmi mapper.old self.old seg result mapper.new self.new }
    {
        let cache = self.close(seg)?;
        self.keep_unused(cache);
        self.trim(mapper, chooser);
        Ok(())
    }
}
