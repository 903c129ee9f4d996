// Which pages are locked.
ghost use Rattle.std.specs.Prelude.{◌≡◌, ◌+◌, ◌≤◌, length};
ghost use Rattle.std.specs.List.{list_any};
ghost use Rattle.regions.specs.AddressSpace.{view_of};
ghost use Rattle.vm_model.specs.Answering.{is_any_locked, passes_lock_limit};
ghost use Rattle.vm_model.specs.Machine.{Region, locked_in, locked_pages, locks, locks_any, numbered};
ghost use Rattle.flat_mm.specs.Manager.{machine_in};

use crate::FlatMm;
use contexts::Contexts;
use regions::{RegionMap, RegionView};
use vm_ids::{ActorId, CacheId, PageNo};
use vm_model::UNLOCKED_FRAMES;

// Whether the region is locked and covers this page of the cache.
fn locks(view: RegionView, cache: CacheId, page: u64) -> bool
    ensures { (r : Region) → view_of r ≡ view → result ≡ locks cache.0 page r }
{
    let extent = view.mapping.extent;
    view.locked
        && extent.cache == cache
        && extent.first.0 as u64 <= page
        && page < extent.first.0 as u64 + extent.pages as u64
}

// Whether one of these regions is locked and covers this page of the cache.
fn any_locks(regions: &RegionMap, cache: CacheId, page: u64) -> bool
    ensures { result ≡ list_any (locks cache.0 page) regions.now.regions }
{
    for place in 0..regions.count() {
        match regions.nth(place) {
            Some(view) => {
                if locks(view, cache, page) {
                    return true;
                }
            }
            None => unreachable!(),
        }
    }
    false
}

// Whether an actor is alive, and a locked region of it covers this page.
fn locks_by(contexts: &Contexts, actor: ActorId, cache: CacheId, page: u64) -> bool
    ensures { result ≡ locks_any cache.0 page (numbered contexts.now.actors actor.0) }
{
    match contexts.regions(actor) {
        Some(regions) => any_locks(regions, cache, page),
        None => false,
    }
}

// Whether a locked region of a living actor, of so many made, covers this page.
fn is_locked_page(contexts: &Contexts, made: u32, cache: CacheId, page: u64) -> bool
    requires { made ≡ length contexts.now.actors }
    ensures { result ≡ list_any (locks_any cache.0 page) contexts.now.actors }
{
    for actor in 0..made {
        if locks_by(contexts, ActorId(actor + 1), cache, page) {
            return true;
        }
    }
    false
}

impl FlatMm {
    // Whether one of so many pages of the cache is locked.
    pub(crate) fn is_any_locked(&self, cache: CacheId, first: PageNo, pages: u32) -> bool
        ensures { result ≡ is_any_locked (machine_in self.now) cache first.0 pages }
    {
        for i in 0..pages {
            let page = first.0 as u64 + i as u64;
            if is_locked_page(&self.contexts, self.actors, cache, page) {
                return true;
            }
        }
        false
    }

    // How many pages of the cache are locked.
    fn locked_in(&self, cache: CacheId) -> u32
        ensures { result ≡ locked_in (machine_in self.now) cache.0 }
    {
        let Some(pages) = self.store.size(cache) else {
            return 0;
        };
        let mut locked = 0;
        for page in 0..pages {
            if is_locked_page(&self.contexts, self.actors, cache, page as u64) {
                locked += 1;
            }
        }
        locked
    }

    // How many pages are locked, each counted once.
    fn locked_pages(&self) -> u32
        ensures { result ≡ locked_pages (machine_in self.now) }
    {
        let live = self.store.live();
        let mut locked = 0;
        for made in 0..self.store.made() as u32 {
            let more = self.locked_in(CacheId(made + 1));
            prove!(locked as u64 + more as u64 <= live as u64);
            locked += more;
        }
        locked
    }

    // Whether so many pages are locked that an access could lack a frame.
    pub(crate) fn passes_lock_limit(&self) -> bool
        ensures { result ≡ passes_lock_limit (machine_in self.now) }
    {
        self.locked_pages() > self.store.frames().saturating_sub(UNLOCKED_FRAMES)
    }
}
