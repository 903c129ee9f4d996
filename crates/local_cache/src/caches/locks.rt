// The pages that may be written, and those that are locked.
ghost use Rattle.std.specs.Prelude.{◌≡◌, ◌+◌, ◌-◌, ◌<◌, ◌^◌, true, if◌then◌else◌};
ghost use Rattle.local_cache.specs.Arena.{HasPlace, is_granted, is_locked, locked_count, locks_of, with_grant, with_locks, CellsStay};
ghost use Rattle.local_cache.specs.Reading.{forest_of};
ghost use Rattle.local_cache.specs.Sound.{IsSound};

use crate::caches::Caches;
use vm_ids::{CacheId, PageNo};

impl Caches {
    /// Keeps that the mapper granted a page of a live cache to be written. That is its answer to
    /// getWriteAccess (Abrossimov, Rozier and Shapiro, SOSP 1989), which is asked once for a page:
    /// the grant is kept until the cache goes.
    pub fn grant(&mut self, cache: CacheId, page: PageNo)
        requires { HasPlace self.old cache page }
        ensures changed { self.new ≡ with_grant self.old cache.0 page.0 }
        ensures granted { is_granted self.new cache.0 page.0 ≡ true }
        ensures forest { forest_of self.new ≡ forest_of self.old }
        ensures sound { IsSound self.old → IsSound self.new }
        ensures stays { CellsStay self.old self.new }
    {
        self.list.grant(cache, page);
    }

    /// Whether a page of a live cache is granted. A cache is made with no page granted.
    pub fn granted(&self, cache: CacheId, page: PageNo) -> bool
        requires { HasPlace self.now cache page }
        ensures { result ≡ is_granted self.now cache.0 page.0 }
    {
        self.list.granted(cache, page)
    }

    /// Locks a page of a live cache once more: one more locked region holds it. A lock is on the
    /// page of the cache, whatever its node, and stays where the page gets another one, until it is
    /// dropped or the cache goes.
    pub fn add_lock(&mut self, cache: CacheId, page: PageNo)
        requires place { HasPlace self.old cache page }
        requires few { locks_of self.old cache.0 page.0 + 1 < 2 ^ 32 }
        ensures changed { self.new
            ≡ with_locks self.old cache.0 page.0 (locks_of self.old cache.0 page.0 + 1) }
        ensures locks { locks_of self.new cache.0 page.0 ≡ locks_of self.old cache.0 page.0 + 1 }
        ensures locked { locked_count self.new ≡ locked_count self.old
            + (if is_locked (locks_of self.old cache.0 page.0) then 0 else 1) }
        ensures forest { forest_of self.new ≡ forest_of self.old }
        ensures sound { IsSound self.old → IsSound self.new }
        ensures stays { CellsStay self.old self.new }
    {
        let count = self.locks(cache, page);
        self.set_locks(cache, page, count + 1);
    }

    /// Unlocks a locked page once: one locked region less holds it.
    pub fn drop_lock(&mut self, cache: CacheId, page: PageNo)
        requires { 0 < locks_of self.old cache.0 page.0 }
        ensures changed { self.new
            ≡ with_locks self.old cache.0 page.0 (locks_of self.old cache.0 page.0 - 1) }
        ensures locks { locks_of self.new cache.0 page.0 + 1 ≡ locks_of self.old cache.0 page.0 }
        ensures locked { locked_count self.old ≡ locked_count self.new
            + (if is_locked (locks_of self.new cache.0 page.0) then 0 else 1) }
        ensures forest { forest_of self.new ≡ forest_of self.old }
        ensures sound { IsSound self.old → IsSound self.new }
        ensures stays { CellsStay self.old self.new }
    {
        let count = self.locks(cache, page);
        self.set_locks(cache, page, count - 1);
    }

    /// How many locked regions hold a page: 0 where it was never locked, where its locks were
    /// dropped, and where no live cache has such a page.
    pub fn locks(&self, cache: CacheId, page: PageNo) -> u32
        ensures count { result ≡ locks_of self.now cache.0 page.0 }
        ensures place { 0 < result → HasPlace self.now cache page }
    {
        self.list.locks(cache, page)
    }

    /// How many pages of all live caches are locked, each counted once however often it is locked.
    /// It takes constant time.
    pub fn locked(&self) -> u32
        ensures { result ≡ locked_count self.now }
    {
        self.list.locked()
    }

    // Puts so many locks on a page of a live cache.
    fn set_locks(&mut self, cache: CacheId, page: PageNo, count: u32)
        requires { HasPlace self.old cache page }
        ensures changed { self.new ≡ with_locks self.old cache.0 page.0 count }
        ensures locks { locks_of self.new cache.0 page.0 ≡ count }
    {
        self.list.set_locks(cache, page, count);
    }
}
