// The regions of one actor.
ghost use Rattle.std.specs.Prelude.{◌≡◌, ◌+◌, ◌-◌, ◌*◌, ◌≤◌, ◌<◌, ◌^◌, ◌∷◌, [], false, length, not, option_map, slice_get, IsOk, OnOk, OnErr, IsSomeAnd, IsSome};
ghost use Rattle.std.specs.List.{list_any};
ghost use Rattle.vm_model.specs.Answering.{insert_region, overlaps, region_of, without_region};
ghost use Rattle.vm_model.specs.Regions.{region_among, replace_region, split_at, with_lock, with_prot};
ghost use Rattle.vm_model.specs.Place.{place_among, region_at};
ghost use Rattle.regions.specs.AddressSpace.{id_of, place_told, view_of, IsWellFormed, StartsAt};

use crate::region::{Place, Region, RegionView};
use crate::search::{known_spot, overlaps_any, region_holding, spot_of};
use std::alloc::Global;
use std::marker::Model;
use stretches::Directory;
use vm_ids::{Mapping, NoMemory, Prot, Refusal, RegionId};

/// The regions of one actor, in order of start address. No two share an address. Whoever names a
/// region by its number says where it starts, so that it is found by halves.
#[derive(Drop)]
pub struct RegionMap {
    page_bytes: u64,
    regions: Directory<Region>,
}

impl Model for RegionMap {
    ghost use Rattle.regions.specs.AddressSpace.{AddressSpace};

    ghost Value = { AddressSpace };

    ghost use Rattle.regions.specs.Layout.{space_seen, IsSound};

    ghost view = { space_seen };

    ghost invariant = { IsSound };
}

impl RegionMap {
    /// No regions, for pages of `page` bytes, from 1 to 65,536.
    pub fn new(alloc: Global, page: u32) -> RegionMap
        requires some { 1 ≤ page }
        requires most { page ≤ 2 ^ 16 }
        ensures page { result.page_bytes ≡ page }
        ensures regions { result.regions ≡ [] }
    {
        RegionMap {
            page_bytes: page as u64,
            regions: Directory::new(alloc),
        }
    }

    /// Makes room for one region at least. It can fail only where there was none, and after an
    /// error everything is as it was.
    pub fn reserve(&mut self) -> Result<(), NoMemory>
        ensures ok { OnOk result (1 ≤ self.new.spare) }
        ensures same { self.new ≡ record self.old { spare = self.new.spare } }
        ensures err { OnErr result (self.new ≡ self.old) }
        ensures enough { 1 ≤ self.old.spare → IsOk result }
    {
        self.regions.reserve_one()?;
        Ok(())
    }

    /// Whether so many pages at this address share no address with any region.
    pub fn fits(&self, address: u64, pages: u32) -> bool
        ensures { result
            ≡ not (list_any (overlaps self.now.page_bytes address pages) self.now.regions) }
    {
        !overlaps_any(&self.regions, self.page_bytes, address, pages)
    }

    /// Adds a region, unlocked, of which the pages fit where they are mapped.
    pub fn create(&mut self, id: RegionId, mapping: Mapping)
        requires spare { 1 ≤ self.old.spare }
        requires formed { IsWellFormed self.old.page_bytes (region_of id.0 mapping) }
        requires fits { list_any (overlaps self.old.page_bytes mapping.address mapping.extent.pages)
            self.old.regions ≡ false }
        ensures { self.new ≡ record self.old {
          spare = self.old.spare - 1;
          regions = insert_region (region_of id.0 mapping) self.old.regions;
        } }
    {
        let spot = self.regions.spot_behind(mapping.address);
        self.regions.insert(spot, Region::new(id, mapping));
    }

    /// Cuts a region in two. The first `pages` of its pages stay in it, and the others become the
    /// region `fresh`, which allows the same and is locked where the region is. It starts at the
    /// address that is answered.
    pub fn split(&mut self, id: RegionId, start: u64, pages: u32, fresh: RegionId) -> u64
        requires spare { 1 ≤ self.old.spare }
        requires start { StartsAt id.0 start self.old.regions }
        requires some { 1 ≤ pages }
        requires fewer { IsSomeAnd (region_among id.0 self.old.regions) (λ r. pages < r.pages) }
        ensures address { IsSomeAnd (region_among id.0 self.old.regions)
            (λ r. result ≡ r.start + self.old.page_bytes * pages) }
        ensures cut { self.new ≡ record self.old {
          spare = self.old.spare - 1;
          regions = replace_region id.0 (split_at self.old.page_bytes pages fresh.0)
              self.old.regions;
        } }
    {
        let spot = known_spot(&self.regions, self.page_bytes, id, start);
        let region = self.regions.get(spot);
        let back = region.back(self.page_bytes, pages, fresh);
        self.regions.set(spot, Region { pages, ..region });
        self.regions.insert_behind(spot, back);
        back.start()
    }

    /// Changes what a region allows.
    pub fn protect(&mut self, id: RegionId, start: u64, prot: Prot)
        requires start { StartsAt id.0 start self.old.regions }
        requires there { IsSome (region_among id.0 self.old.regions) }
        ensures { self.new ≡ record self.old {
          regions = replace_region id.0 (with_prot prot) self.old.regions;
        } }
    {
        let spot = known_spot(&self.regions, self.page_bytes, id, start);
        let region = self.regions.get(spot);
        self.regions.set(spot, Region { prot, ..region });
    }

    /// Locks or unlocks a region.
    pub fn set_locked(&mut self, id: RegionId, start: u64, locked: bool)
        requires start { StartsAt id.0 start self.old.regions }
        requires there { IsSome (region_among id.0 self.old.regions) }
        ensures { self.new ≡ record self.old {
          regions = replace_region id.0 (with_lock locked) self.old.regions;
        } }
    {
        let spot = known_spot(&self.regions, self.page_bytes, id, start);
        let region = self.regions.get(spot);
        self.regions.set(spot, Region { locked, ..region });
    }

    /// Takes a region away.
    pub fn destroy(&mut self, id: RegionId, start: u64)
        requires { StartsAt id.0 start self.old.regions }
        ensures regions { self.new.regions ≡ without_region id.0 self.old.regions }
        ensures page { self.new.page_bytes ≡ self.old.page_bytes }
        ensures spare { self.old.spare ≤ self.new.spare }
    {
        let Some(spot) = spot_of(&self.regions, self.page_bytes, id, start) else {
            return;
        };
        self.regions.remove(spot);
    }

    /// What there is to tell of a region. `None` exactly where none has the number.
    pub fn status(&self, id: RegionId, start: u64) -> Option<RegionView>
        requires { StartsAt id.0 start self.now.regions }
        ensures { result ≡ option_map view_of (region_among id.0 self.now.regions) }
    {
        let spot = spot_of(&self.regions, self.page_bytes, id, start)?;
        Some(self.regions.at(spot).view())
    }

    /// What there is to tell of the region at a place, from 0, in the order of addresses. `None`
    /// exactly past the last. The place is counted from leaf to leaf.
    pub fn nth(&self, place: usize) -> Option<RegionView>
        ensures { result ≡ option_map view_of (slice_get self.now.regions place) }
    {
        Some(self.regions.nth(place)?.view())
    }

    /// How many regions there are.
    pub fn count(&self) -> usize
        ensures { result ≡ length self.now.regions }
    {
        self.regions.len()
    }

    /// The region that holds an address. `None` exactly where none does.
    pub fn find(&self, address: u64) -> Option<RegionId>
        ensures { result
            ≡ option_map id_of (region_at self.now.page_bytes address self.now.regions) }
    {
        Some(region_holding(&self.regions, self.page_bytes, address)?.number)
    }

    /// The place of an access of `length` bytes. `Crosses` where it passes the end of a page, and
    /// else `BadAddress` where no region holds the address.
    pub fn locate(&self, address: u64, length: u8) -> Result<Place, Refusal>
        ensures { result
            ≡ place_told (place_among self.now.page_bytes self.now.regions address length) }
    {
        let byte = address % self.page_bytes;
        if self.page_bytes < byte + length as u64 {
            return Err(Refusal::Crosses);
        }
        match region_holding(&self.regions, self.page_bytes, address) {
            Some(region) => Ok(region.place(self.page_bytes, address)),
            None => Err(Refusal::BadAddress),
        }
    }
}
