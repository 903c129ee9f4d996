// Actors under their numbers.
ghost use Rattle.std.specs.Prelude.{◌≡◌, ℕ, ◌+◌, ◌-◌, ◌≤◌, ◌<◌, ◌^◌, [], ◌∷◌, ◌++◌, true, false, is_some, map, None, Some, Err, length, slice_set, option_map, IfOk, IfSome, IsSome, IsSomeAnd, OnErr, OnOk, MatchOption, MatchResult};
ghost use Rattle.std.specs.List.{list_any};
ghost use Rattle.vm_ids.specs.declared.refusal.Refusal.TheVariants.{TooMany};
ghost use Rattle.vm_ids.specs.declared.reply.Trouble.TheVariants.{Memory, Refused};
ghost use Rattle.regions.specs.AddressSpace.{place_told, IsWellFormed};
ghost use Rattle.vm_model.specs.Answering.{maps_in, overlaps, without_region};
ghost use Rattle.vm_model.specs.Regions.{region_with, replace_in, status_with, with_lock, with_prot};
ghost use Rattle.vm_model.specs.Machine.{numbered};
ghost use Rattle.vm_model.specs.Place.{place_of_actor};
ghost use Rattle.contexts.specs.Actors.{has_region, holder_of, is_full, next_region, region_count, split_refusal, times_made, with_region, with_split};
ghost use Rattle.contexts.specs.Layout.{owner_of};

use crate::counts::RegionCounts;
use crate::spaces::{
    add_region, forget_regions, lock_region, protect_region, remove_region, split_region,
};
use regions::{Place, RegionMap};
use std::alloc::Global;
use std::marker::Model;
use vm_ids::{ActorId, CacheId, Mapping, NoMemory, Prot, Refusal, RegionId, RegionStatus, Trouble};
use vm_model::{LIVING_ACTORS, MOST_MADE, numbered};

// The actor for which a region was made.
fn owner_in(owners: &[ActorId], region: RegionId) -> Option<ActorId>
    ensures { result ≡ owner_of owners.now region.0 }
{
    if region.0 == 0 {
        return None;
    }
    owners.get(region.0 as usize - 1).copied()
}

/// The actors made so far, each with its regions while it is alive.
#[derive(Drop)]
pub struct Contexts {
    alloc: Global,
    page: u32,
    // Actors stand at their number less 1.
    actors: Vec<Option<RegionMap>>,
    // How many actors are alive.
    living: u32,
    // The actor of region n stands at place n less 1, also when the region is gone.
    owners: Vec<ActorId>,
    // There stands too at which address it starts, in a list of its own.
    starts: Vec<u64>,
    // How many regions of living actors map each cache.
    mapped: RegionCounts,
}

impl Model for Contexts {
    ghost use Rattle.contexts.specs.Actors.{Actors};

    ghost Value = { Actors };

    ghost use Rattle.contexts.specs.Layout.{actors_seen, IsSound};

    ghost view = { actors_seen };

    ghost invariant = { IsSound };
}

impl Contexts {
    /// No actors, for pages of `page` bytes, from 1 to 65,536.
    pub fn new(alloc: Global, page: u32) -> Contexts
        requires some { 1 ≤ page }
        requires most { page ≤ 2 ^ 16 }
        ensures page { result.page_bytes ≡ page }
        ensures actors { result.actors ≡ [] }
        ensures made { result.regions_made ≡ 0 }
    {
        Contexts {
            alloc,
            page,
            actors: Vec::new(alloc),
            living: 0,
            owners: Vec::new(alloc),
            starts: Vec::new(alloc),
            mapped: RegionCounts::new(alloc),
        }
    }

    /// The bytes of a page, from 1 to 65,536.
    pub fn page_bytes(&self) -> u32
        ensures page { result ≡ self.now.page_bytes }
        ensures some { 1 ≤ result }
        ensures most { result ≤ 2 ^ 16 }
    {
        self.page
    }

    /// How many regions were made, at most 65,535. Living actors have no more.
    pub fn regions_made(&self) -> u32
        ensures made { result ≡ self.now.regions_made }
        ensures living { region_count self.now.actors ≤ result }
        ensures most { result ≤ MOST_MADE }
    {
        self.owners.len() as u32
    }

    // The number of the region that is made next.
    fn next_region(&self) -> RegionId
        ensures { result.0 ≡ self.now.regions_made + 1 }
    {
        RegionId(self.owners.len() as u32 + 1)
    }

    /// The regions of an actor. `None` exactly where it isn't alive.
    pub fn regions(&self, actor: ActorId) -> Option<&RegionMap>
        ensures regions { option_map (λ r. r.now.regions) result
            ≡ numbered self.now.actors actor.0 }
        ensures page { IfSome result (λ r. r.now.page_bytes ≡ self.now.page_bytes) }
    {
        numbered(&self.actors, actor.0)
    }

    // Whether no more actors can be made.
    fn is_full(&self) -> bool
        ensures { result ≡ is_full self.now }
    {
        self.living >= LIVING_ACTORS || self.actors.len() >= MOST_MADE as usize
    }

    /// Makes an actor without regions. `TooMany` exactly where 256 actors are alive or 65,535 were
    /// made, and after an error everything is as it was.
    pub fn make(&mut self) -> Result<ActorId, Trouble>
        ensures refused { is_full self.old ≡ true → result ≡ Err (Refused TooMany) }
        ensures made { is_full self.old ≡ false
            → MatchResult result (λ a. a.0 ≡ length self.old.actors + 1) (λ e. e ≡ Memory) }
        ensures ok { OnOk result
            (self.new ≡ record self.old { actors = self.old.actors ++ Some [] ∷ [] }) }
        ensures err { OnErr result (self.new ≡ self.old) }
    {
        if self.is_full() {
            return Err(Trouble::Refused(Refusal::TooMany));
        }
        self.actors
            .push(Some(RegionMap::new(self.alloc, self.page)))?;
        self.living += 1;
        Ok(ActorId(self.actors.len() as u32))
    }

    /// Takes a living actor away, with its regions.
    pub fn exit(&mut self, actor: ActorId)
        requires { IsSome (numbered self.old.actors actor.0) }
        ensures { self.new ≡ record self.old {
          actors = slice_set self.old.actors (actor.0 - 1) None;
        } }
    {
        forget_regions(&mut self.mapped, &self.actors, actor);
        self.actors[actor.0 as usize - 1] = None;
        self.living -= 1;
    }

    /// Maps pages into a living actor, as the next region, unlocked. They fit where they are
    /// mapped, and fewer than 65,535 regions were made. After an error everything is as it was.
    pub fn map(&mut self, actor: ActorId, mapping: Mapping) -> Result<RegionId, NoMemory>
        requires few { self.old.regions_made < MOST_MADE }
        requires formed { IsWellFormed self.old.page_bytes (next_region self.old mapping) }
        requires fits { IsSomeAnd (numbered self.old.actors actor.0) (λ rs.
            list_any (overlaps self.old.page_bytes mapping.address mapping.extent.pages) rs
            ≡ false) }
        ensures number { IfOk result (λ region. region.0 ≡ self.old.regions_made + 1) }
        ensures ok { OnOk result (self.new ≡ with_region self.old actor.0 mapping) }
        ensures err { OnErr result (self.new ≡ self.old) }
    {
        let region = self.next_region();
        self.owners.reserve(1)?;
        self.starts.reserve(1)?;
        self.mapped.make_place(mapping.extent.cache)?;
        add_region(&mut self.actors, actor, region, mapping)?;
        self.mapped.add(mapping.extent.cache);
        self.owners.push_reserved(actor);
        self.starts.push_reserved(mapping.address);
        Ok(region)
    }

    /// Cuts a region in two. It keeps the first `pages` of its pages, and the others become the
    /// next region of its actor, which allows the same and is locked where the region is.
    /// `NoRegion` where no living actor has it, else `BadAddress` where it has no more pages than
    /// these, else `TooMany` where 65,535 regions were made. After an error everything is as it
    /// was.
    pub fn split(&mut self, region: RegionId, pages: u32) -> Result<RegionId, Trouble>
        requires some { 1 ≤ pages }
        ensures refused { IfSome (split_refusal self.old region.0 pages)
            (λ refusal. result ≡ Err (Refused refusal)) }
        ensures made { split_refusal self.old region.0 pages ≡ None
            → MatchResult result (λ fresh. fresh.0 ≡ self.old.regions_made + 1) (λ e. e ≡ Memory) }
        ensures ok { OnOk result (self.new ≡ with_split self.old region.0 pages) }
        ensures err { OnErr result (self.new ≡ self.old) }
    {
        let Some(status) = self.status(region) else {
            return Err(Trouble::Refused(Refusal::NoRegion));
        };
        if status.mapping.extent.pages <= pages {
            return Err(Trouble::Refused(Refusal::BadAddress));
        }
        if self.regions_made() >= MOST_MADE {
            return Err(Trouble::Refused(Refusal::TooMany));
        }
        Ok(self.cut(region, status, pages)?)
    }

    // Cuts the region in two, where nothing refuses it and this is told of it.
    fn cut(
        &mut self,
        region: RegionId,
        status: RegionStatus,
        pages: u32,
    ) -> Result<RegionId, NoMemory>
        requires told { status_with region.0 1 self.old.actors ≡ Some status }
        requires some { 1 ≤ pages }
        requires fewer { pages < status.mapping.extent.pages }
        requires few { self.old.regions_made < MOST_MADE }
        ensures number { IfOk result (λ fresh. fresh.0 ≡ self.old.regions_made + 1) }
        ensures ok { OnOk result (self.new ≡ with_split self.old region.0 pages) }
        ensures err { OnErr result (self.new ≡ self.old) }
    {
        let fresh = self.next_region();
        let address = status.mapping.address;
        self.owners.reserve(1)?;
        self.starts.reserve(1)?;
        let start = split_region(
            &mut self.actors,
            status.actor,
            region,
            address,
            pages,
            fresh,
        )?;
        self.mapped.add(status.mapping.extent.cache);
        self.owners.push_reserved(status.actor);
        self.starts.push_reserved(start);
        Ok(fresh)
    }

    /// Changes what a region allows. `false` exactly where no living actor has it, and then
    /// everything is as it was.
    pub fn protect(&mut self, region: RegionId, prot: Prot) -> bool
        ensures found { result ≡ is_some (region_with region.0 self.old.actors) }
        ensures changed { result ≡ true → self.new ≡ record self.old {
          actors = replace_in region.0 (with_prot prot) self.old.actors;
        } }
        ensures none { result ≡ false → self.new ≡ self.old }
    {
        let Some(status) = self.status(region) else {
            return false;
        };
        protect_region(
            &mut self.actors,
            status.actor,
            region,
            status.mapping.address,
            prot,
        );
        true
    }

    /// Locks or unlocks a region. `false` exactly where no living actor has it, and then everything
    /// is as it was.
    pub fn set_locked(&mut self, region: RegionId, locked: bool) -> bool
        ensures found { result ≡ is_some (region_with region.0 self.old.actors) }
        ensures changed { result ≡ true → self.new ≡ record self.old {
          actors = replace_in region.0 (with_lock locked) self.old.actors;
        } }
        ensures none { result ≡ false → self.new ≡ self.old }
    {
        let Some(status) = self.status(region) else {
            return false;
        };
        lock_region(
            &mut self.actors,
            status.actor,
            region,
            status.mapping.address,
            locked,
        );
        true
    }

    /// Takes a region away, the only one with its number. `false` exactly where no living actor has
    /// it, and then everything is as it was.
    pub fn unmap(&mut self, region: RegionId) -> bool
        ensures once { times_made region.0 self.old.actors ≤ 1 }
        ensures found { result ≡ is_some (region_with region.0 self.old.actors) }
        ensures gone { result ≡ true → self.new ≡ record self.old {
          actors = map (option_map (without_region region.0)) self.old.actors;
        } }
        ensures none { result ≡ false → self.new ≡ self.old }
    {
        let Some(status) = self.status(region) else {
            return false;
        };
        self.mapped.take(status.mapping.extent.cache);
        remove_region(
            &mut self.actors,
            status.actor,
            region,
            status.mapping.address,
        );
        true
    }

    /// The living actor that has a region. `None` exactly where none has it.
    pub fn actor_of(&self, region: RegionId) -> Option<ActorId>
        ensures { MatchOption result
            ((a : ℕ) → has_region region.0 (numbered self.now.actors a) ≡ false)
            (λ a. has_region region.0 (numbered self.now.actors a.0) ≡ true) }
    {
        Some(self.status(region)?.actor)
    }

    /// What there is to tell of a region. `None` exactly where no living actor has it.
    pub fn status(&self, region: RegionId) -> Option<RegionStatus>
        ensures { result ≡ status_with region.0 1 self.now.actors }
    {
        let Some(actor) = owner_in(&self.owners, region) else {
            return None;
        };
        let Some(regions) = self.regions(actor) else {
            return None;
        };
        let start = self.starts[region.0 as usize - 1];
        let view = regions.status(region, start)?;
        Some(RegionStatus {
            actor,
            mapping: view.mapping,
            locked: view.locked,
        })
    }

    /// The region of an actor that holds an address. `NoActor` where the actor isn't alive, else
    /// `BadAddress` where no region of it holds the address.
    pub fn find(&self, actor: ActorId, address: u64) -> Result<RegionId, Refusal>
        ensures { result
            ≡ holder_of self.now.page_bytes (numbered self.now.actors actor.0) address }
    {
        let Some(regions) = self.regions(actor) else {
            return Err(Refusal::NoActor);
        };
        match regions.find(address) {
            Some(region) => Ok(region),
            None => Err(Refusal::BadAddress),
        }
    }

    /// Whether a region of a living actor maps the cache.
    pub fn maps(&self, cache: CacheId) -> bool
        ensures { result ≡ list_any (maps_in cache.0) self.now.actors }
    {
        self.mapped.has(cache)
    }

    /// The place of an access of `length` bytes of an actor. `NoActor` where it isn't alive, else
    /// `Crosses` where the access passes the end of a page, and else `BadAddress` where no region
    /// of the actor holds the address.
    #[inline(always)]
    pub fn locate(&self, actor: ActorId, address: u64, length: u8) -> Result<Place, Refusal>
        ensures { result ≡ place_told (place_of_actor self.now.page_bytes
            (numbered self.now.actors actor.0) address length) }
    {
        match self.regions(actor) {
            Some(regions) => regions.locate(address, length),
            None => Err(Refusal::NoActor),
        }
    }
}
