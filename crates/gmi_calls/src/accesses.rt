// Loads and stores of the eager machine.
ghost use Rattle.vm_ids.specs.Accessing.{command_for};
ghost use Rattle.vm_model.specs.Asking.{IsWellFormed};
ghost use Rattle.gmi_calls.specs.Backing.{IsReady, eager};
ghost use Rattle.gmi_calls.specs.Calling.{done_by};
ghost use Rattle.gmi_calls.specs.Parking.{AccessCall};
ghost use Rattle.gmi_calls.specs.Reaching.{NoPages};

use crate::segments::may_store;
use vm_ids::{Access, ActorId, Answer, Command, FaultAt, Piece, Refusal, Reply, Trouble};
use vm_model::EagerMachine;
use vm_port::Mapper;

/// Stores bytes at an address of an actor, where the mapper lets the page be written. No page is
/// pulled or pushed.
pub(crate) fn store_asking<M: Mapper>(
    machine: &mut EagerMachine,
    actor: ActorId,
    address: u64,
    piece: &Piece,
    mapper: &mut M,
) -> Result<(), Trouble>
    requires ready { IsReady machine.old (M.held mapper.old) }
    ensures { AccessCall M.Mapper eager NoPages mapper.old machine.old
        (Command.Store actor address piece.now) (done_by result) mapper.new machine.new }
{
    let place = machine.check_store(actor, address, piece)?;
    match may_store(place, mapper) {
        Ok(true) => machine.store(actor, address, piece),
        Ok(false) => Err(Trouble::Refused(Refusal::WriteDenied)),
        Err(page) => Err(Trouble::Mapper(FaultAt::Access(page))),
    }
}

/// Carries a load or a store out. No page is pulled or pushed.
#[tactic(auto, using(crate::proofs::Called::eager_quiet))]
pub(crate) fn carry_out<M: Mapper>(
    machine: &mut EagerMachine,
    actor: ActorId,
    access: &Access,
    mapper: &mut M,
) -> Answer
    requires formed { IsWellFormed (command_for actor access.now) }
    requires ready { IsReady machine.old (M.held mapper.old) }
    ensures { AccessCall M.Mapper eager NoPages mapper.old machine.old
        (command_for actor access.now) result mapper.new machine.new }
{
    match access {
        Access::Load { address, length } => {
            let piece = machine.load(actor, *address, *length)?;
            Ok(Reply::Bytes(piece))
        }
        Access::Store { address, piece } => {
            store_asking(machine, actor, *address, piece, mapper)?;
            Ok(Reply::Done)
        }
    }
}
