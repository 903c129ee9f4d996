// The mapper is asked whether pages may be written.
ghost use Rattle.std.specs.Prelude.{◌≡◌, ◌+◌, ◌≤◌, ◌<◌, ◌^◌, ℕ, not, false, IfErr, IfOk, IfSome, OnErr};
ghost use Rattle.std.specs.List.{list_any, range_with_len};
ghost use Rattle.vm_ids.specs.Held.{segments_in};
ghost use Rattle.vm_model.specs.Answering.{is_denied_page};
ghost use Rattle.vm_model.specs.Machine.{cache_of, pages_in};
ghost use Rattle.vm_model.specs.Outcome.{IsNamed};
ghost use Rattle.gmi_calls.specs.Reaching.{Asked};
ghost use Rattle.flat_mm.specs.Manager.{IsValid, machine_in};

use crate::FlatMm;
use vm_ids::{CacheId, PageNo};
use vm_port::{Failed, Mapper};

impl FlatMm {
    // Asks whether a page may be written. Nobody is asked where no segment names the cache, nor of
    // a page that was changed: it was let be written.
    fn may_write<M: Mapper>(
        &self,
        cache: CacheId,
        page: PageNo,
        mapper: &mut M,
    ) -> Result<bool, Failed>
        requires within { page.0 < pages_in (cache_of (machine_in self.now) cache.0) }
        requires valid { IsValid self.now (M.held mapper.old) }
        ensures answer { IfOk result (λ may. IfSome (M.held mapper.old) (λ h.
            may ≡ not (is_denied_page (machine_in self.now) (segments_in h) cache.0 page.0))) }
        ensures named { IfOk result (λ may. may ≡ false → IsNamed (machine_in self.now) cache.0) }
        ensures fault { OnErr result (IsNamed (machine_in self.now) cache.0) }
        ensures asked { Asked M.Mapper mapper.old mapper.new result }
    {
        let Some(seg) = self.store.segment(cache) else {
            return Ok(true);
        };
        if self.store.is_changed(cache, page) {
            return Ok(true);
        }
        mapper.get_write_access(seg, page)
    }

    // Asks the same of so many pages, one after the other, up to one that may not be written. The
    // error is the page at which the mapper failed.
    pub(crate) fn may_change<M: Mapper>(
        &self,
        cache: CacheId,
        first: PageNo,
        pages: u32,
        mapper: &mut M,
    ) -> Result<bool, PageNo>
        requires within { first.0 + pages ≤ pages_in (cache_of (machine_in self.now) cache.0) }
        requires few { first.0 + pages ≤ 2 ^ 32 }
        requires valid { IsValid self.now (M.held mapper.old) }
        ensures answer { IfOk result (λ may. IfSome (M.held mapper.old) (λ h. may
            ≡ not (list_any (is_denied_page (machine_in self.now) (segments_in h) cache.0)
            (range_with_len first.0 pages)))) }
        ensures named { IfOk result (λ may. may ≡ false → IsNamed (machine_in self.now) cache.0) }
        ensures fault { IfErr result (λ page. IsNamed (machine_in self.now) cache.0
            × first.0 ≤ page.0 × page.0 < first.0 + pages) }
        ensures before { IfErr result (λ page. IfSome (M.held mapper.old) (λ h.
            (q : ℕ) → first.0 ≤ q → q < page.0
            → is_denied_page (machine_in self.now) (segments_in h) cache.0 q ≡ false)) }
        ensures asked { Asked M.Mapper mapper.old mapper.new result }
    {
        for i in 0..pages {
            let page = PageNo(first.0 + i);
            match self.may_write(cache, page, mapper) {
                Ok(true) => {}
                Ok(false) => return Ok(false),
                Err(_) => return Err(page),
            }
        }
        Ok(true)
    }
}
