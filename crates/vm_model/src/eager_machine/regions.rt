// Regions are made, cut, locked and told, and loads and stores go through them.
ghost use Rattle.std.specs.Prelude.{◌≡◌, ◌≤◌, ◌<◌, length, option_map, IfOk, IsOkAnd, OnOk, OnErr};
ghost use Rattle.vm_model.specs.Allowed.{AllowedOutcome, AwaitsAccess, numbers_of, segment_place};
ghost use Rattle.vm_model.specs.Answering.{answer_by};
ghost use Rattle.vm_model.specs.Machine.{cache_of, pages_in};
ghost use Rattle.vm_model.specs.Outcome.{HasWholePages, PlainOutcome};
ghost use Rattle.vm_model.specs.Place.{place};

use crate::{EagerMachine, accesses, located, locks, maps, place, telling};
use vm_ids::{
    ActorId, Command, Mapping, PageNo, Piece, Prot, RegionId, RegionStatus, Reply, SegId, Trouble,
};

impl EagerMachine {
    /// Maps pages of a cache into an actor. Refused as `NoActor`, `NoCache`, `Unaligned`,
    /// `BadAddress`, `OutOfCache`, `Overlap` or `TooMany`, in this order. `Memory` where there is
    /// none for the region.
    #[tactic(auto, using(crate::proofs::Machines::Sound::whole))]
    pub fn map(&mut self, actor: ActorId, mapping: &Mapping) -> Result<RegionId, Trouble>
        requires { 1 ≤ mapping.now.extent.pages }
        ensures outcome { PlainOutcome self.old (Command.Map actor mapping.now)
            (answer_by Reply.Region result) self.new }
        ensures whole { HasWholePages self.new }
    {
        maps::map(&mut self.tables, actor, mapping)
    }

    /// Cuts a region in two: it keeps so many pages, at least one, and a new region, which allows
    /// the same, has the others. Refused as `NoRegion`, as `BadAddress` where the region hasn't
    /// more pages, or as `TooMany` where 65,535 regions were made, in this order. `Memory` where
    /// there is none for the new region.
    #[tactic(auto, using(crate::proofs::Machines::Sound::whole))]
    pub fn split(&mut self, region: RegionId, pages: u32) -> Result<RegionId, Trouble>
        requires { 1 ≤ pages }
        ensures outcome { PlainOutcome self.old (Command.Split region pages)
            (answer_by Reply.Region result) self.new }
        ensures whole { HasWholePages self.new }
    {
        located::split(&mut self.tables, region, pages)
    }

    /// Changes what a region allows beside reading. Refused as `NoRegion` exactly where no region
    /// of a living actor has the number. It takes no memory.
    #[tactic(auto, using(crate::proofs::Machines::Sound::whole))]
    pub fn protect(&mut self, region: RegionId, prot: Prot) -> Result<(), Trouble>
        ensures outcome { PlainOutcome self.old (Command.Protect region prot)
            (answer_by (λ _. Reply.Done) result) self.new }
        ensures whole { HasWholePages self.new }
    {
        located::protect(&mut self.tables, region, prot)
    }

    /// Loads so many bytes, 1 to 64, at an address of an actor. Refused as `NoActor`, `Crosses` or
    /// `BadAddress`, in this order. It takes no memory.
    pub fn load(&self, actor: ActorId, address: u64, bytes: u8) -> Result<Piece, Trouble>
        requires some { 1 ≤ bytes }
        requires few { bytes ≤ 64 }
        ensures outcome { PlainOutcome self.now (Command.Load actor address bytes)
            (answer_by Reply.Bytes result) self.now }
        ensures length { IfOk result (λ piece. length piece ≡ bytes) }
    {
        accesses::load(&self.tables, actor, address, bytes)
    }

    /// The page of a segment that a store would change, or none where the cache is temporary.
    /// Refused as `NoActor`, `Crosses`, `BadAddress` or `Protection`, in this order.
    pub fn check_store(
        &self,
        actor: ActorId,
        address: u64,
        piece: &Piece,
    ) -> Result<Option<(SegId, PageNo)>, Trouble>
        ensures refused { OnErr result (PlainOutcome self.now
            (Command.Store actor address piece.now) (answer_by (λ _. Reply.Done) result)
            self.now) }
        ensures awaits { OnOk result
            (AwaitsAccess self.now (Command.Store actor address piece.now)) }
        ensures page { IfOk result (λ page.
            IsOkAnd (place self.now actor.0 address (length piece.now)) (λ at.
            option_map numbers_of page ≡ segment_place self.now at)) }
        ensures there { OnOk result
            (IsOkAnd (place self.now actor.0 address (length piece.now)) (λ at.
            at.page < pages_in (cache_of self.now at.region.cache))) }
    {
        accesses::check_store(&self.tables, actor, address, piece)
    }

    /// Stores bytes at an address of an actor, where the mapper doesn't deny the page. Refused as
    /// `NoActor`, `Crosses`, `BadAddress` or `Protection`, in this order. It takes no memory.
    #[tactic(auto, using(crate::proofs::Machines::Sound::whole))]
    pub fn store(&mut self, actor: ActorId, address: u64, piece: &Piece) -> Result<(), Trouble>
        ensures outcome { AllowedOutcome self.old (Command.Store actor address piece.now)
            (answer_by (λ _. Reply.Done) result) self.new }
        ensures whole { HasWholePages self.new }
    {
        accesses::store(&mut self.tables, actor, address, piece)
    }

    /// Locks a region. Refused as `NoRegion`, as `Locked` where it is locked, or as `LockLimit`
    /// where fewer than three page frames would be left that no locked page takes, in this order.
    /// It takes no memory.
    #[tactic(auto, using(crate::proofs::Machines::Sound::whole))]
    pub fn lock(&mut self, region: RegionId) -> Result<(), Trouble>
        ensures outcome { PlainOutcome self.old (Command.Lock region)
            (answer_by (λ _. Reply.Done) result) self.new }
        ensures whole { HasWholePages self.new }
    {
        locks::lock(&mut self.tables, region)
    }

    /// Unlocks a region. Refused as `NoRegion`, or as `NotLocked` where it isn't locked, in this
    /// order. It takes no memory.
    #[tactic(auto, using(crate::proofs::Machines::Sound::whole))]
    pub fn unlock(&mut self, region: RegionId) -> Result<(), Trouble>
        ensures outcome { PlainOutcome self.old (Command.Unlock region)
            (answer_by (λ _. Reply.Done) result) self.new }
        ensures whole { HasWholePages self.new }
    {
        locks::unlock(&mut self.tables, region)
    }

    /// Takes a region away. Refused as `NoRegion`, or as `Locked` where it is locked, in this
    /// order. It takes no memory.
    #[tactic(auto, using(crate::proofs::Machines::Sound::whole))]
    pub fn unmap(&mut self, region: RegionId) -> Result<(), Trouble>
        ensures outcome { PlainOutcome self.old (Command.Unmap region)
            (answer_by (λ _. Reply.Done) result) self.new }
        ensures whole { HasWholePages self.new }
    {
        maps::unmap(&mut self.tables, region)
    }

    /// What there is to tell of a region. Refused as `NoRegion` exactly where no region of a living
    /// actor has the number. It takes no memory.
    pub fn status(&self, region: RegionId) -> Result<RegionStatus, Trouble>
        ensures { PlainOutcome self.now (Command.Status region)
            (answer_by Reply.Status result) self.now }
    {
        telling::status(&self.tables, region)
    }

    /// The region of an actor that holds an address. Refused as `NoActor` or `BadAddress`, in this
    /// order. It takes no memory.
    pub fn find(&self, actor: ActorId, address: u64) -> Result<RegionId, Trouble>
        ensures { PlainOutcome self.now (Command.Find actor address)
            (answer_by Reply.Region result) self.now }
    {
        telling::find(&self.tables, actor, address)
    }
}
