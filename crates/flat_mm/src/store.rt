// The pages of all caches, each in a page frame of its own.
ghost use Rattle.std.specs.Prelude.{◌≡◌, ◌≢◌, ◌+◌, ◌≤◌, ◌^◌, ◌∷◌, [], true, false, Some, length, option_map, option_and_then, IfOk, IfSome, IsSome};
ghost use Rattle.std.specs.List.{list_any};
ghost use Rattle.vm_model.specs.Answering.{overwrite};
ghost use Rattle.vm_model.specs.Machine.{numbered, zero_page};
ghost use Rattle.flat_mm.specs.Frames.{framed_at, is_framed_of, with_framed};
ghost use Rattle.flat_mm.specs.Store.{AreWhole, Page, is_of, live_in, page_at, with_page};

mod frames;

use crate::framed::{FramedCache, FramedPage};
use frame_pool::FramePool;
use std::alloc::Global;
use std::marker::Model;
use vm_ids::{CacheId, ChainItem, ChainList, FrameId, NoMemory, NodeName, PageNo, SegId};
use vm_model::numbered;

/// The pages of all caches, and pages that are in frames already and of no cache yet, or no more:
/// the loose ones. It is seen without the frames.
#[derive(Drop)]
pub(crate) struct PageStore {
    alloc: Global,
    frames: FramePool,
    // Caches stand at their number less 1.
    caches: Vec<Option<FramedCache>>,
    loose: Vec<FramedPage>,
}

impl Model for PageStore {
    ghost use Rattle.flat_mm.specs.Layout.{store_seen, IsStoreSound};
    ghost use Rattle.flat_mm.specs.Store.{Store};

    ghost Value = { Store };

    ghost view = { store_seen };

    ghost invariant = { IsStoreSound };
}

// The page of a live cache.
fn page_in(caches: &[Option<FramedCache>], cache: CacheId, page: PageNo) -> FramedPage
    requires { IsSome (framed_at caches.now cache.0 page.0) }
    ensures { framed_at caches.now cache.0 page.0 ≡ Some result }
{
    match numbered(caches, cache.0) {
        Some(cache) => cache.page(page),
        None => unreachable!(),
    }
}

// Whether one of the live caches is of the segment.
fn any_of(caches: &[Option<FramedCache>], seg: SegId) -> bool
    ensures { result ≡ list_any (is_framed_of seg) caches.now }
{
    for cache in caches {
        if let Some(cache) = cache {
            if cache.segment() == Some(seg) {
                return true;
            }
        }
    }
    false
}

// Says of a page of a live cache whether it was changed. It tells its frame.
fn mark(caches: &mut [Option<FramedCache>], cache: CacheId, page: PageNo, changed: bool) -> FrameId
    requires { IsSome (framed_at caches.old cache.0 page.0) }
    ensures frame { option_map (λ p. p.frame) (framed_at caches.old cache.0 page.0) ≡ Some result }
    ensures caches { caches.new ≡ with_framed caches.old cache.0 page.0
        (record { frame = result; changed = changed }) }
{
    match &mut caches[cache.0 as usize - 1] {
        Some(cache) => {
            let frame = cache.page(page).frame;
            cache.put(page, FramedPage { frame, changed });
            frame
        }
        None => unreachable!(),
    }
}

// These bytes stand in the page from this byte on.
fn write_page(page: &mut [u8], at: usize, bytes: &[u8])
    requires { at + length bytes.now ≤ length page.old }
    ensures { page.new ≡ overwrite at bytes.now page.old }
{
    page[at..at + bytes.len()].copy_from_slice(bytes);
}

impl PageStore {
    /// No caches, and so many free frames of `page` bytes.
    pub(crate) fn new(alloc: Global, frames: u32, page: u32) -> Result<PageStore, NoMemory>
        requires frames { frames ≤ 2 ^ 16 }
        requires page { page ≤ 2 ^ 16 }
        ensures { IfOk result (λ s. s ≡ record {
          page_bytes = page;
          frames = frames;
          free = frames;
          caches = [];
          loose = [];
        }) }
    {
        Ok(PageStore {
            alloc,
            frames: FramePool::new(alloc, frames, page)?,
            caches: Vec::new(alloc),
            loose: Vec::new(alloc),
        })
    }

    /// How many frames there are.
    pub(crate) fn frames(&self) -> u32
        ensures { result ≡ self.now.frames }
    {
        self.frames.count()
    }

    /// How many frames are free.
    pub(crate) fn free(&self) -> u32
        ensures free { result ≡ self.now.free }
        ensures counted { result + live_in self.now.caches + length self.now.loose
            ≡ self.now.frames }
    {
        self.frames.free_count()
    }

    /// How many pages live caches have.
    pub(crate) fn live(&self) -> u32
        ensures live { result ≡ live_in self.now.caches }
        ensures few { result ≤ 2 ^ 16 }
    {
        self.frames.count() - self.frames.free_count() - self.loose.len() as u32
    }

    /// How many pages are loose.
    pub(crate) fn loose(&self) -> u32
        ensures loose { result ≡ length self.now.loose }
        ensures few { result ≤ 2 ^ 16 }
    {
        self.loose.len() as u32
    }

    /// How many caches were made.
    pub(crate) fn made(&self) -> usize
        ensures { result ≡ length self.now.caches }
    {
        self.caches.len()
    }

    /// How many pages a cache has. `None` exactly where it isn't alive.
    pub(crate) fn size(&self, cache: CacheId) -> Option<u32>
        ensures size { result ≡ option_map (λ c. length c.pages)
            (numbered self.now.caches cache.0) }
        ensures few { IfSome result (λ size. size ≤ 2 ^ 16) }
    {
        Some(numbered(&self.caches, cache.0)?.size() as u32)
    }

    /// The segment that names a live cache, if one does.
    pub(crate) fn segment(&self, cache: CacheId) -> Option<SegId>
        ensures { result ≡ option_and_then (λ c. c.segment) (numbered self.now.caches cache.0) }
    {
        numbered(&self.caches, cache.0)?.segment()
    }

    /// The node of a page that owns itself, as a chain.
    pub(crate) fn own_chain(&self, cache: CacheId, page: PageNo) -> Result<ChainList, NoMemory>
        ensures { IfOk result (λ chain. chain
            ≡ record { name = NodeName.Live cache page; children = 0 } ∷ []) }
    {
        let mut items = Vec::with_capacity(self.alloc, 1)?;
        items.push_reserved(ChainItem {
            name: NodeName::Live(cache, page),
            children: 0,
        });
        Ok(ChainList::new(items))
    }

    /// Whether a live cache is of the segment.
    pub(crate) fn has(&self, seg: SegId) -> bool
        ensures { result ≡ list_any (is_of seg) self.now.caches }
    {
        any_of(&self.caches, seg)
    }

    /// The bytes of a page of a live cache.
    pub(crate) fn bytes(&self, cache: CacheId, page: PageNo) -> &[u8]
        requires { IsSome (page_at self.now.caches cache.0 page.0) }
        ensures bytes { option_map (λ p. p.bytes) (page_at self.now.caches cache.0 page.0)
            ≡ Some result.now }
        ensures length { length result.now ≡ self.now.page_bytes }
    {
        self.frames.bytes(page_in(&self.caches, cache, page).frame)
    }

    /// Whether a page of a live cache may differ from that of the segment.
    pub(crate) fn is_changed(&self, cache: CacheId, page: PageNo) -> bool
        requires { IsSome (page_at self.now.caches cache.0 page.0) }
        ensures { option_map (λ p. p.changed) (page_at self.now.caches cache.0 page.0)
            ≡ Some result }
    {
        page_in(&self.caches, cache, page).changed
    }

    /// Writes bytes into a page of a live cache, which is changed then.
    pub(crate) fn write(&mut self, cache: CacheId, page: PageNo, at: usize, bytes: &[u8])
        requires there { IsSome (page_at self.old.caches cache.0 page.0) }
        requires within { at + length bytes.now ≤ self.old.page_bytes }
        ensures written { (p : Page) → page_at self.old.caches cache.0 page.0 ≡ Some p
            → self.new ≡ with_page cache.0 page.0
            (record { bytes = overwrite at bytes.now p.bytes; changed = true }) self.old }
        ensures whole { AreWhole self.new }
    {
        let frame = mark(&mut self.caches, cache, page, true);
        write_page(self.frames.bytes_mut(frame), at, bytes);
    }

    /// Makes a page of a live cache what another page is. It is changed then.
    pub(crate) fn copy(&mut self, from: CacheId, from_page: PageNo, to: CacheId, to_page: PageNo)
        requires from { IsSome (page_at self.old.caches from.0 from_page.0) }
        requires to { IsSome (page_at self.old.caches to.0 to_page.0) }
        requires apart { from.0 ≡ to.0 → from_page.0 ≢ to_page.0 }
        ensures copied { (p : Page) → page_at self.old.caches from.0 from_page.0 ≡ Some p
            → self.new ≡ with_page to.0 to_page.0
            (record { bytes = p.bytes; changed = true }) self.old }
        ensures whole { AreWhole self.new }
    {
        let source = page_in(&self.caches, from, from_page).frame;
        let frame = mark(&mut self.caches, to, to_page, true);
        self.frames.copy(source, frame);
    }

    /// Makes a page of a live cache zeros. It is changed then.
    pub(crate) fn zero(&mut self, cache: CacheId, page: PageNo)
        requires { IsSome (page_at self.old.caches cache.0 page.0) }
        ensures zeros { self.new ≡ with_page cache.0 page.0
            (record { bytes = zero_page self.old.page_bytes; changed = true }) self.old }
        ensures whole { AreWhole self.new }
    {
        let frame = mark(&mut self.caches, cache, page, true);
        self.frames.zero(frame);
    }

    /// Says of a page of a live cache that it is what the segment has.
    pub(crate) fn settle(&mut self, cache: CacheId, page: PageNo)
        requires { IsSome (page_at self.old.caches cache.0 page.0) }
        ensures settled { (p : Page) → page_at self.old.caches cache.0 page.0 ≡ Some p
            → self.new ≡ with_page cache.0 page.0
            (record { bytes = p.bytes; changed = false }) self.old }
        ensures whole { AreWhole self.new }
    {
        mark(&mut self.caches, cache, page, false);
    }
}
