// Kept caches, each linked with the one that was kept before it and the one after.
ghost use Rattle.std.specs.Prelude.{◌≡◌, ◌==◌, ◌≤◌, ◌<◌, ◌+◌, ℕ, [], None, Some, if◌then◌else◌, length, IfNone, OnSome, OnOk};
ghost use Rattle.std.specs.FinMap as map;
ghost use Rattle.seg_manager.specs.Linked.{changed_at, end_set, link_of, with_after, with_before};

use crate::tables::Kept;
use linear_index::Index;
use std::alloc::{AllocError, Global};
use std::marker::Model;
use vm_ids::CacheId;

// A kept cache and its neighbours.
#[derive(Clone, Copy)]
pub(crate) struct Link {
    pub(crate) kept: Kept,
    pub(crate) before: Option<CacheId>,
    pub(crate) after: Option<CacheId>,
}

// Links, each found by the number of its cache, and the first and the last of them.
#[derive(Drop)]
pub(crate) struct Links {
    // At which place the link of each cache is.
    index: Index,
    // In any order.
    links: Vec<Link>,
    first: Option<CacheId>,
    last: Option<CacheId>,
    // For so many there is memory.
    room: u32,
}

impl Model for Links {
    ghost use Rattle.std.specs.Prelude.{◌≤◌, vec_capacity};
    ghost use Rattle.std.specs.Coded.{codes, coded_ℕ};
    ghost use Rattle.std.specs.FinMap as map;
    ghost use Rattle.std.specs.Ordering.{nat_cmp};
    ghost use Rattle.seg_manager.specs.Linked.{ArePlaced, Linked};

    ghost Value = { Linked };

    ghost coded = { Prim.hlevel (codes, map.code {R = nat_cmp} coded_ℕ coded_ℕ) };

    ghost view = { λ l. record {
      links = l.links.items;
      places = l.index.places;
      first = l.first;
      last = l.last;
      room = l.room;
    } };

    ghost invariant = { λ l. (l.room ≤ l.index.room) × (l.room ≤ vec_capacity l.links)
        × ArePlaced l.links.items l.index.places l.room };
}

impl Links {
    // No link, and no memory for one.
    pub(crate) fn new(alloc: Global) -> Links
        ensures { result
            ≡ record { links = []; places = map.empty; first = None; last = None; room = 0 } }
    {
        Links {
            index: Index::new(alloc),
            links: Vec::new(alloc),
            first: None,
            last: None,
            room: 0,
        }
    }

    // Makes room for so many in all.
    pub(crate) fn reserve(&mut self, room: u32) -> Result<(), AllocError>
        ensures ok { OnOk result (room ≤ self.new.room) }
        ensures less { self.old.room ≤ self.new.room }
        ensures same { self.new ≡ record self.old { room = self.new.room } }
    {
        if room > self.room {
            let more = (room as usize).saturating_sub(self.links.len());
            self.links.reserve(more)?;
            self.index.reserve(room)?;
            self.room = room;
        }
        Ok(())
    }

    // How many there are.
    pub(crate) fn len(&self) -> usize
        ensures { result ≡ length self.now.links }
    {
        self.links.len()
    }

    // The first one.
    pub(crate) fn first(&self) -> Option<CacheId>
        ensures { result ≡ self.now.first }
    {
        self.first
    }

    // The last one.
    pub(crate) fn last(&self) -> Option<CacheId>
        ensures { result ≡ self.now.last }
    {
        self.last
    }

    // The link of a cache.
    pub(crate) fn find(&self, cache: CacheId) -> Option<Link>
        ensures { result ≡ link_of self.now cache.0 }
    {
        let place = self.index.find(cache.0 as u64)?;
        Some(self.links[place as usize])
    }

    // Another one comes after a cache, or comes first.
    pub(crate) fn set_after(&mut self, cache: Option<CacheId>, after: Option<CacheId>)
        ensures links { (n : ℕ) → link_of self.new n
            ≡ changed_at (with_after after) cache n (link_of self.old n) }
        ensures first { self.new.first ≡ end_set cache after self.old.first }
        ensures same { self.new ≡ record self.old {
          links = self.new.links;
          first = self.new.first;
        } }
        ensures count { length self.new.links ≡ length self.old.links }
    {
        match cache {
            Some(cache) => {
                if let Some(place) = self.index.find(cache.0 as u64) {
                    self.links[place as usize].after = after;
                }
            }
            None => self.first = after,
        }
    }

    // Another one comes before a cache, or comes last.
    pub(crate) fn set_before(&mut self, cache: Option<CacheId>, before: Option<CacheId>)
        ensures links { (n : ℕ) → link_of self.new n
            ≡ changed_at (with_before before) cache n (link_of self.old n) }
        ensures last { self.new.last ≡ end_set cache before self.old.last }
        ensures same { self.new ≡ record self.old {
          links = self.new.links;
          last = self.new.last;
        } }
        ensures count { length self.new.links ≡ length self.old.links }
    {
        match cache {
            Some(cache) => {
                if let Some(place) = self.index.find(cache.0 as u64) {
                    self.links[place as usize].before = before;
                }
            }
            None => self.last = before,
        }
    }

    // Another link, for which there is room.
    pub(crate) fn insert(&mut self, link: Link)
        requires none { link_of self.old link.kept.cache.0 ≡ None }
        requires room { length self.old.links < self.old.room }
        ensures links { (n : ℕ) → link_of self.new n
            ≡ (if link.kept.cache.0 == n then Some link else link_of self.old n) }
        ensures same { self.new ≡ record self.old {
          links = self.new.links;
          places = self.new.places;
        } }
        ensures count { length self.new.links ≡ length self.old.links + 1 }
    {
        let place = self.links.len() as u32;
        self.links.push_reserved(link);
        self.index.enter(link.kept.cache.0 as u64, place);
    }

    // Takes the link of a cache out. `None` exactly where it has none, and then nothing changes.
    pub(crate) fn take(&mut self, cache: CacheId) -> Option<Link>
        ensures link { result ≡ link_of self.old cache.0 }
        ensures links { (n : ℕ) → link_of self.new n
            ≡ (if cache.0 == n then None else link_of self.old n) }
        ensures same { self.new ≡ record self.old {
          links = self.new.links;
          places = self.new.places;
        } }
        ensures count { OnSome result (length self.new.links + 1 ≡ length self.old.links) }
        ensures none { IfNone result (self.new ≡ self.old) }
    {
        let place = self.index.find(cache.0 as u64)?;
        self.index.leave(cache.0 as u64, place);
        let last = self.links.len() - 1;
        if place as usize == last {
            return Some(self.links.swap_remove(last));
        }
        let moved = self.links[last].kept.cache.0 as u64;
        self.index.leave(moved, last as u32);
        self.index.enter(moved, place);
        Some(self.links.swap_remove(place as usize))
    }
}
