// Actors and their regions: the calls that reach neither pages nor the mapper.
ghost use Rattle.std.specs.Prelude.{◌≤◌};
ghost use Rattle.vm_model.specs.Answering.{answer_by};
ghost use Rattle.gmi_calls.specs.Calling.{AnswersWithin, CallDone, done_by};
ghost use Rattle.flat_mm.specs.Manager.{flat};

use crate::FlatMm;
use vm_ids::{ActorId, Command, Mapping, Prot, Refusal, RegionId, RegionStatus, Reply, Trouble};

impl FlatMm {
    /// Makes an actor without regions. Refused as `TooMany` exactly where 256 actors are alive or
    /// 65,535 were made.
    pub fn make_actor(&mut self) -> Result<ActorId, Trouble>
        ensures { CallDone flat self.old Command.MakeActor (answer_by Reply.Actor result) self.new }
    {
        let actor = self.contexts.make()?;
        self.actors = actor.0;
        Ok(actor)
    }

    /// Ends an actor, and takes its regions away. Refused as `NoActor` exactly where it isn't
    /// alive.
    pub fn exit_actor(&mut self, actor: ActorId) -> Result<(), Trouble>
        ensures { CallDone flat self.old (Command.ExitActor actor) (done_by result) self.new }
    {
        if self.contexts.regions(actor).is_none() {
            return Err(Trouble::Refused(Refusal::NoActor));
        }
        self.contexts.exit(actor);
        Ok(())
    }

    /// Maps pages of a cache into an actor. Refused as `NoActor`, `NoCache`, `Unaligned`,
    /// `BadAddress`, `OutOfCache`, `Overlap` or `TooMany`, in this order.
    pub fn map(&mut self, actor: ActorId, mapping: Mapping) -> Result<RegionId, Trouble>
        requires { 1 ≤ mapping.extent.pages }
        ensures { CallDone flat self.old
            (Command.Map actor mapping) (answer_by Reply.Region result) self.new }
    {
        let size = self.store.size(mapping.extent.cache);
        if let Some(refusal) = self.contexts.map_refusal(actor, &mapping, size) {
            return Err(Trouble::Refused(refusal));
        }
        Ok(self.contexts.map(actor, mapping)?)
    }

    /// Cuts a region in two: it keeps so many of its pages, the first, and the others become a new
    /// region, which is told. Refused as `NoRegion`, `BadAddress` where it has no more pages than
    /// these, or `TooMany`, in this order.
    pub fn split(&mut self, region: RegionId, pages: u32) -> Result<RegionId, Trouble>
        requires { 1 ≤ pages }
        ensures { CallDone flat self.old
            (Command.Split region pages) (answer_by Reply.Region result) self.new }
    {
        self.contexts.split(region, pages)
    }

    /// Changes what a region allows. Refused as `NoRegion` exactly where no living actor has it.
    pub fn protect(&mut self, region: RegionId, prot: Prot) -> Result<(), Trouble>
        ensures { CallDone flat self.old
            (Command.Protect region prot) (done_by result) self.new }
    {
        if !self.contexts.protect(region, prot) {
            return Err(Trouble::Refused(Refusal::NoRegion));
        }
        Ok(())
    }

    /// Unlocks a region. Refused as `NoRegion`, or as `NotLocked` where it isn't locked, in this
    /// order.
    pub fn unlock(&mut self, region: RegionId) -> Result<(), Trouble>
        ensures { CallDone flat self.old (Command.Unlock region) (done_by result) self.new }
    {
        let Some(status) = self.contexts.status(region) else {
            return Err(Trouble::Refused(Refusal::NoRegion));
        };
        if !status.locked {
            return Err(Trouble::Refused(Refusal::NotLocked));
        }
        self.contexts.set_locked(region, false);
        Ok(())
    }

    /// Takes a region away. Refused as `NoRegion` or `Locked`, in this order.
    pub fn unmap(&mut self, region: RegionId) -> Result<(), Trouble>
        ensures { CallDone flat self.old (Command.Unmap region) (done_by result) self.new }
    {
        let Some(status) = self.contexts.status(region) else {
            return Err(Trouble::Refused(Refusal::NoRegion));
        };
        if status.locked {
            return Err(Trouble::Refused(Refusal::Locked));
        }
        self.contexts.unmap(region);
        Ok(())
    }

    /// What there is to tell of a region. Refused as `NoRegion` exactly where no living actor has
    /// it.
    pub fn status(&self, region: RegionId) -> Result<RegionStatus, Trouble>
        ensures { AnswersWithin flat self.now
            (Command.Status region) (answer_by Reply.Status result) self.now }
    {
        match self.contexts.status(region) {
            Some(status) => Ok(status),
            None => Err(Trouble::Refused(Refusal::NoRegion)),
        }
    }

    /// The region of an actor that holds an address. Refused as `NoActor` or `BadAddress`, in this
    /// order.
    pub fn find(&self, actor: ActorId, address: u64) -> Result<RegionId, Trouble>
        ensures { AnswersWithin flat self.now
            (Command.Find actor address) (answer_by Reply.Region result) self.now }
    {
        Ok(self.contexts.find(actor, address)?)
    }
}
