// Changed pages are pushed to the segment that names their cache.
ghost use Rattle.std.specs.Prelude.{◌≡◌, ℕ, ◌+◌, ◌≤◌, ◌<◌, ◌^◌, Some, IfErr, OnOk};
ghost use Rattle.vm_ids.specs.Held.{segments_of};
ghost use Rattle.vm_model.specs.Machine.{cache_of, pages_in, segment_of};
ghost use Rattle.vm_model.specs.Outcome.{IsNamed, IsPageIn, IsPageOf};
ghost use Rattle.vm_model.specs.Synchronised.{ArePushed};
ghost use Rattle.gmi_calls.specs.Calling.{Fits};
ghost use Rattle.gmi_calls.specs.Reaching.{past};
ghost use Rattle.flat_mm.specs.Extents.{IsPushed};
ghost use Rattle.flat_mm.specs.Manager.{IsValid, machine_in};

use crate::FlatMm;
use vm_ids::{CacheId, Extent, PageNo, SegId};
use vm_port::{Failed, Mapper};

impl FlatMm {
    // Pushes a page of a cache to the segment that names it, where it was changed: the segment
    // holds it then.
    fn push_page<M: Mapper>(
        &mut self,
        cache: CacheId,
        page: PageNo,
        seg: SegId,
        mapper: &mut M,
    ) -> Result<(), Failed>
        requires named { segment_of (machine_in self.old) cache.0 ≡ Some seg.0 }
        requires within { page.0 < pages_in (cache_of (machine_in self.old) cache.0) }
        requires valid { IsValid self.old (M.held mapper.old) }
        requires fits { Fits (M.page_bytes mapper.old) (machine_in self.old) }
        ensures pushed { IsPushed M.Mapper mapper.old self.old mapper.new self.new result }
        ensures there { OnOk result (ArePushed (machine_in self.old)
            (segments_of (M.held mapper.new)) cache.0 page.0 (page.0 + 1)) }
        ensures kept { (first : ℕ) → ArePushed (machine_in self.old)
            (segments_of (M.held mapper.old)) cache.0 first page.0
            → ArePushed (machine_in self.old) (segments_of (M.held mapper.new))
            cache.0 first page.0 }
    {
        if !self.store.is_changed(cache, page) {
            return Ok(());
        }
        mapper.push_out(seg, page, self.store.bytes(cache, page))?;
        self.store.settle(cache, page);
        Ok(())
    }

    /// Pushes those of these pages that were changed, in rising order. The error is the page at
    /// which the mapper failed; those before it are pushed.
    pub(crate) fn push_pages<M: Mapper>(
        &mut self,
        extent: &Extent,
        seg: SegId,
        mapper: &mut M,
    ) -> Result<(), PageNo>
        requires named { segment_of (machine_in self.old) extent.now.cache.0 ≡ Some seg.0 }
        requires within { extent.now.first.0 + extent.now.pages
            ≤ pages_in (cache_of (machine_in self.old) extent.now.cache.0) }
        requires few { extent.now.first.0 + extent.now.pages ≤ 2 ^ 32 }
        requires valid { IsValid self.old (M.held mapper.old) }
        requires fits { Fits (M.page_bytes mapper.old) (machine_in self.old) }
        ensures pushed { IsPushed M.Mapper mapper.old self.old mapper.new self.new result }
        ensures there { ArePushed (machine_in self.old) (segments_of (M.held mapper.new))
            extent.now.cache.0 extent.now.first.0
            (past (extent.now.first.0 + extent.now.pages) result) }
        ensures fault { IfErr result (λ page. IsPageIn extent.now page.0) }
    {
        for i in 0..extent.pages {
            let page = PageNo(extent.first.0 + i);
            match self.push_page(extent.cache, page, seg, mapper) {
                Ok(()) => {}
                Err(_) => return Err(page),
            }
        }
        Ok(())
    }

    /// Pushes those of all pages of a cache, which has so many, that were changed, in rising order;
    /// nothing where no segment names it.
    pub(crate) fn push_cache<M: Mapper>(
        &mut self,
        cache: CacheId,
        pages: u32,
        mapper: &mut M,
    ) -> Result<(), PageNo>
        requires all { pages ≡ pages_in (cache_of (machine_in self.old) cache.0) }
        requires valid { IsValid self.old (M.held mapper.old) }
        requires fits { Fits (M.page_bytes mapper.old) (machine_in self.old) }
        ensures pushed { IsPushed M.Mapper mapper.old self.old mapper.new self.new result }
        ensures there { ArePushed (machine_in self.old) (segments_of (M.held mapper.new))
            cache.0 0 (past pages result) }
        ensures fault { IfErr result (λ page. IsNamed (machine_in self.old) cache.0
            × IsPageOf (machine_in self.old) cache.0 page.0) }
    {
        match self.store.segment(cache) {
            Some(seg) => {
                let extent = Extent {
                    cache,
                    first: PageNo(0),
                    pages,
                };
                self.push_pages(&extent, seg, mapper)
            }
            None => Ok(()),
        }
    }
}
