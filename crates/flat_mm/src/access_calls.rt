// Bytes are loaded and stored.
ghost use Rattle.std.specs.Prelude.{◌≡◌, ◌≤◌, ◌+◌, Err, IfErr, IfOk, drop, length, take};
ghost use Rattle.vm_ids.specs.Accessing.{command_for};
ghost use Rattle.vm_model.specs.Answering.{answer_by};
ghost use Rattle.vm_model.specs.Asking.{IsWellFormed};
ghost use Rattle.vm_model.specs.Place.{place};
ghost use Rattle.gmi_calls.specs.Calling.{Fits, done_by};
ghost use Rattle.gmi_calls.specs.Reaching.{NoPages};
ghost use Rattle.flat_mm.specs.Accessing.{IsPlacedAt};
ghost use Rattle.flat_mm.specs.Alone.{FlatCall};
ghost use Rattle.flat_mm.specs.Manager.{IsValid, machine_in};

use crate::FlatMm;
use regions::Place;
use vm_ids::{Access, ActorId, Answer, Command, FaultAt, Piece, Refusal, Reply, Trouble};
use vm_port::Mapper;

// So many bytes of a page from one byte on.
fn part(page: &[u8], byte: usize, bytes: u8) -> Piece
    requires some { 1 ≤ bytes }
    requires few { bytes ≤ 64 }
    requires within { byte + bytes ≤ length page.now }
    ensures part { result ≡ take bytes (drop byte page.now) }
    ensures length { length result ≡ bytes }
{
    match Piece::new(&page[byte..byte + bytes as usize]) {
        Some(piece) => piece,
        None => unreachable!(),
    }
}

impl FlatMm {
    // The place of an access: it is of a page of a live cache.
    fn locate(&self, actor: ActorId, address: u64, bytes: u8) -> Result<Place, Refusal>
        ensures refused { IfErr result (λ refusal.
            place (machine_in self.now) actor.0 address bytes ≡ Err refusal) }
        ensures found { IfOk result (λ at. IsPlacedAt self.now actor.0 address bytes at) }
    {
        self.contexts.locate(actor, address, bytes)
    }

    /// Loads so many bytes, 1 to 64, at an address of an actor. Refused as `NoActor`, `Crosses` or
    /// `BadAddress`, in this order. No page is pulled or pushed.
    pub fn load<M: Mapper>(
        &mut self,
        actor: ActorId,
        address: u64,
        bytes: u8,
        mapper: &mut M,
    ) -> Result<Piece, Trouble>
        requires some { 1 ≤ bytes }
        requires few { bytes ≤ 64 }
        requires valid { IsValid self.old (M.held mapper.old) }
        ensures call { FlatCall M.Mapper NoPages mapper.old self.old
            (Command.Load actor address bytes) (answer_by Reply.Bytes result) mapper.new self.new }
        ensures length { IfOk result (λ piece. length piece ≡ bytes) }
    {
        let _ = mapper;
        let at = self.locate(actor, address, bytes)?;
        let page = self.store.bytes(at.cache, at.page);
        Ok(part(page, at.at as usize, bytes))
    }

    /// Stores bytes at an address of an actor. Refused as `NoActor`, `Crosses`, `BadAddress`,
    /// `Protection` or `WriteDenied`, in this order. No page is pulled or pushed.
    pub fn store<M: Mapper>(
        &mut self,
        actor: ActorId,
        address: u64,
        piece: &Piece,
        mapper: &mut M,
    ) -> Result<(), Trouble>
        requires valid { IsValid self.old (M.held mapper.old) }
        requires fits { Fits (M.page_bytes mapper.old) (machine_in self.old) }
        ensures { FlatCall M.Mapper NoPages mapper.old self.old
            (Command.Store actor address piece.now) (done_by result) mapper.new self.new }
    {
        let bytes = piece.as_slice();
        let at = self.locate(actor, address, bytes.len() as u8)?;
        if !at.prot.write {
            return Err(Trouble::Refused(Refusal::Protection));
        }
        match self.may_change(at.cache, at.page, 1, mapper) {
            Ok(true) => {}
            Ok(false) => return Err(Trouble::Refused(Refusal::WriteDenied)),
            Err(_) => return Err(Trouble::Mapper(FaultAt::Access(at.page))),
        }
        self.store.write(at.cache, at.page, at.at as usize, bytes);
        Ok(())
    }

    /// Carries out a load or a store. No page is pulled or pushed.
    pub(crate) fn carry_out<M: Mapper>(
        &mut self,
        actor: ActorId,
        access: &Access,
        mapper: &mut M,
    ) -> Answer
        requires formed { IsWellFormed (command_for actor access.now) }
        requires valid { IsValid self.old (M.held mapper.old) }
        requires fits { Fits (M.page_bytes mapper.old) (machine_in self.old) }
        ensures { FlatCall M.Mapper NoPages mapper.old self.old
            (command_for actor access.now) result mapper.new self.new }
    {
        match access {
            Access::Load { address, length } => {
                let piece = self.load(actor, *address, *length, mapper)?;
                Ok(Reply::Bytes(piece))
            }
            Access::Store { address, piece } => {
                self.store(actor, *address, piece, mapper)?;
                Ok(Reply::Done)
            }
        }
    }
}
