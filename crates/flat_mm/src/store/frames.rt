// Page frames are taken for pages, filled, given to caches and given back.
ghost use Rattle.std.specs.Prelude.{◌≡◌, ℕ, List, ◌+◌, ◌-◌, ◌≤◌, ◌<◌, ◌^◌, ◌∷◌, ◌++◌, [], false, Some, None, length, take, drop, replicate, slice_set, IfOk, IfSome, IsSome, OnErr, OnOk};
ghost use Rattle.std.specs.Option.{option_map_or};
ghost use Rattle.vm_ids.specs.Counting.{Counted};
ghost use Rattle.vm_ids.specs.Held.{page_of};
ghost use Rattle.vm_model.specs.Machine.{numbered};
ghost use Rattle.flat_mm.specs.Store.{AreWhole, put_pages, size_of, temporary, with_cache, with_loose, zeros};

use crate::framed::{FramedCache, FramedPage};
use crate::store::PageStore;
use std::mem;
use vm_ids::{CacheId, NoMemory, PageNo, SegId};
use vm_model::numbered;
use vm_port::{Failed, Mapper};

impl PageStore {
    // Takes a frame for a loose page of zeros more.
    fn take_one(&mut self) -> Result<(), NoMemory>
        requires { 1 ≤ self.old.free }
        ensures ok { OnOk result (self.new ≡ record self.old {
          free = self.old.free - 1;
          loose = self.old.loose ++ zeros self.old.page_bytes ∷ [];
        }) }
        ensures err { OnErr result (self.new ≡ self.old) }
    {
        self.loose.reserve(1)?;
        let frame = match self.frames.take() {
            Some(frame) => frame,
            None => unreachable!(),
        };
        self.frames.zero(frame);
        self.loose.push_reserved(FramedPage {
            frame,
            changed: false,
        });
        Ok(())
    }

    // Gives the frame of the last loose page back.
    fn drop_one(&mut self)
        requires { 1 ≤ length self.old.loose }
        ensures { self.new ≡ record self.old {
          free = self.old.free + 1;
          loose = take (length self.old.loose - 1) self.old.loose;
        } }
    {
        match self.loose.pop() {
            Some(page) => self.frames.give_back(page.frame),
            None => unreachable!(),
        }
    }

    /// Gives the frames of all loose pages back.
    pub(crate) fn drop_loose(&mut self)
        ensures { self.new ≡ record self.old {
          free = self.old.free + length self.old.loose;
          loose = [];
        } }
    {
        while self.loose() > 0 {
            self.drop_one();
        }
    }

    /// Takes frames for so many loose pages of zeros.
    pub(crate) fn take_loose(&mut self, pages: u32) -> Result<(), NoMemory>
        requires none { self.old.loose ≡ [] }
        requires room { pages ≤ self.old.free }
        ensures ok { OnOk result (self.new ≡ record self.old {
          free = self.old.free - pages;
          loose = replicate pages (zeros self.old.page_bytes);
        }) }
        ensures err { OnErr result (self.new ≡ self.old) }
    {
        for _taken in 0..pages {
            match self.take_one() {
                Ok(()) => {}
                Err(NoMemory) => {
                    self.drop_loose();
                    return Err(NoMemory);
                }
            }
        }
        Ok(())
    }

    /// Fills a loose page with a page of a segment. Where it fails, the page may have any bytes.
    pub(crate) fn pull<M: Mapper>(
        &mut self,
        at: usize,
        seg: SegId,
        page: PageNo,
        mapper: &mut M,
    ) -> Result<(), Failed>
        requires one { at < length self.old.loose }
        requires room { IfSome (M.page_bytes mapper.old) (λ n. self.old.page_bytes ≡ n) }
        requires there { IfSome (M.held mapper.old) (λ h. IsSome (page_of h seg.0 page.0)) }
        ensures filled { (w : List ℕ) × (self.new ≡ with_loose (slice_set self.old.loose at
            (record { bytes = w; changed = false })) self.old) × OnOk result
            (IfSome (M.held mapper.old) (λ h. page_of h seg.0 page.0 ≡ Some w)) }
        ensures whole { AreWhole self.new }
        ensures held { M.held mapper.new ≡ M.held mapper.old }
        ensures counts { Counted 1 0 (M.counts mapper.old) (M.counts mapper.new) result }
        ensures page { M.page_bytes mapper.new ≡ M.page_bytes mapper.old }
    {
        let frame = self.loose[at].frame;
        self.loose[at] = FramedPage {
            frame,
            changed: false,
        };
        mapper.pull_in(seg, page, self.frames.bytes_mut(frame))
    }

    /// Makes a cache of the loose pages, with the next number. Where there is no memory for it they
    /// are given up.
    pub(crate) fn adopt(&mut self, segment: Option<SegId>) -> Result<CacheId, NoMemory>
        requires { length self.old.caches < 2 ^ 16 }
        ensures number { IfOk result (λ cache. cache.0 ≡ length self.old.caches + 1) }
        ensures ok { OnOk result (self.new ≡ record self.old {
          caches = self.old.caches
              ++ Some (record { segment = segment; pages = self.old.loose }) ∷ [];
          loose = [];
        }) }
        ensures err { OnErr result (self.new ≡ record self.old {
          free = self.old.free + length self.old.loose;
          loose = [];
        }) }
        ensures whole { OnOk result (AreWhole self.new) }
    {
        match self.caches.reserve(1) {
            Ok(()) => {}
            Err(_) => {
                self.drop_loose();
                return Err(NoMemory);
            }
        }
        let pages = mem::replace(&mut self.loose, Vec::new(self.alloc));
        self.caches
            .push_reserved(Some(FramedCache::new(segment, pages)));
        Ok(CacheId(self.caches.len() as u32))
    }

    /// Makes a temporary cache of so many zero pages, with the next number.
    pub(crate) fn make(&mut self, pages: u32) -> Result<CacheId, NoMemory>
        requires few { length self.old.caches < 2 ^ 16 }
        requires none { self.old.loose ≡ [] }
        requires room { pages ≤ self.old.free }
        ensures number { IfOk result (λ cache. cache.0 ≡ length self.old.caches + 1) }
        ensures ok { OnOk result (self.new ≡ record self.old {
          free = self.old.free - pages;
          caches = self.old.caches ++ Some (temporary self.old.page_bytes pages) ∷ [];
        }) }
        ensures err { OnErr result (self.new ≡ self.old) }
        ensures whole { OnOk result (AreWhole self.new) }
    {
        self.take_loose(pages)?;
        self.adopt(None)
    }

    /// Takes a live cache away; its pages are loose then.
    pub(crate) fn release(&mut self, cache: CacheId)
        requires none { self.old.loose ≡ [] }
        requires alive { IsSome (numbered self.old.caches cache.0) }
        ensures released { self.new ≡ record self.old {
          caches = slice_set self.old.caches (cache.0 - 1) None;
          loose = option_map_or (λ c. c.pages) (numbered self.old.caches cache.0) [];
        } }
        ensures whole { AreWhole self.new }
    {
        match self.caches[cache.0 as usize - 1].take() {
            Some(released) => self.loose = released.into_pages(),
            None => unreachable!(),
        }
    }

    /// Exchanges the loose pages for those of a live cache from page `first` on.
    pub(crate) fn exchange(&mut self, cache: CacheId, first: PageNo)
        requires within { first.0 + length self.old.loose
            ≤ size_of (numbered self.old.caches cache.0) }
        requires some { 1 ≤ length self.old.loose }
        ensures exchanged { self.new ≡ record self.old {
          caches = with_cache cache.0 (put_pages first.0 self.old.loose) self.old.caches;
          loose = take (length self.old.loose) (drop first.0
              (option_map_or (λ c. c.pages) (numbered self.old.caches cache.0) []));
        } }
        ensures whole { AreWhole self.new }
    {
        match &mut self.caches[cache.0 as usize - 1] {
            Some(changed) => changed.exchange(first, &mut self.loose),
            None => unreachable!(),
        }
    }
}
