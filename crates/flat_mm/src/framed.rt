// A cache whose pages are in page frames.
ghost use Rattle.std.specs.Prelude.{◌≡◌, ◌==◌, false, ◌+◌, ◌≤◌, ◌<◌, length, take, drop, slice_get, slice_set, Some};
ghost use Rattle.std.specs.Option.{option_map_or};
ghost use Rattle.vm_model.specs.Answering.{overwrite};

use std::marker::Model;
use vm_ids::{FrameId, PageNo, SegId};

/// A page: the frame that has its bytes, and whether it may differ from that of the segment.
#[derive(Clone, Copy, Debug, PartialEq, Eq)]
pub(crate) struct FramedPage {
    pub frame: FrameId,
    pub changed: bool,
}

/// The segment that names a cache, or none where it is temporary, and its pages.
#[derive(Drop)]
pub(crate) struct FramedCache {
    segment: Option<SegId>,
    pages: Vec<FramedPage>,
}

impl Model for FramedCache {
    ghost use Rattle.flat_mm.specs.Frames.{Framed};

    ghost Value = { Framed };

    ghost view = { λ c. record { segment = c.segment; pages = c.pages.items } };
}

impl FramedCache {
    pub(crate) fn new(segment: Option<SegId>, pages: Vec<FramedPage>) -> FramedCache
        ensures { result ≡ record { segment = segment; pages = pages.items } }
    {
        FramedCache { segment, pages }
    }

    pub(crate) fn segment(&self) -> Option<SegId>
        ensures { result ≡ self.now.segment }
    {
        self.segment
    }

    pub(crate) fn is_of(&self, seg: SegId) -> bool
        ensures { result ≡ option_map_or (λ s. s.0 == seg.0) self.now.segment false }
    {
        match self.segment {
            Some(named) => named.0 == seg.0,
            None => false,
        }
    }

    pub(crate) fn size(&self) -> usize
        ensures { result ≡ length self.now.pages }
    {
        self.pages.len()
    }

    pub(crate) fn page(&self, page: PageNo) -> FramedPage
        requires { page.0 < length self.now.pages }
        ensures { slice_get self.now.pages page.0 ≡ Some result }
    {
        self.pages[page.0 as usize]
    }

    pub(crate) fn put(&mut self, page: PageNo, to: FramedPage)
        requires { page.0 < length self.old.pages }
        ensures { self.new ≡ record self.old {
          pages = slice_set self.old.pages page.0 to;
        } }
    {
        self.pages[page.0 as usize] = to;
    }

    /// Exchanges these pages for those from page `first` on.
    pub(crate) fn exchange(&mut self, first: PageNo, pages: &mut [FramedPage])
        requires { first.0 + length pages.old ≤ length self.old.pages }
        ensures cache { self.new ≡ record self.old {
          pages = overwrite first.0 pages.old self.old.pages;
        } }
        ensures pages { pages.new ≡ take (length pages.old) (drop first.0 self.old.pages) }
    {
        let start = first.0 as usize;
        let end = start + pages.len();
        self.pages[start..end].swap_with_slice(pages);
    }

    /// Its pages, where it is taken away.
    pub(crate) fn into_pages(self) -> Vec<FramedPage>
        ensures { result.items ≡ self.pages }
    {
        self.pages
    }
}
