// Actors are made, and end.
ghost use Rattle.std.specs.Prelude.{None, ◌≡◌, ℕ, ◌+◌, ◌≤◌, ◌<◌, ◌∷◌, ◌++◌, [], length};
ghost use Rattle.vm_model.specs.Answering.{answer_by};
ghost use Rattle.vm_model.specs.Outcome.{PlainOutcome};
ghost use Rattle.vm_model.specs.Seen.{machine_seen, AreTablesSound};

use crate::place::actor_at;
use crate::tables::{Actor, Tables};
use crate::{LIVING_ACTORS, MOST_MADE};
use vm_ids::{ActorId, Command, Refusal, Reply, Trouble};

#[tactic(auto, unfolding(crate::specs::Answering::make_actor_of, crate::specs::Answering::unless))]
pub(crate) fn make_actor(tables: &mut Tables) -> Result<ActorId, Trouble>
    requires { AreTablesSound tables.old }
    ensures sound { AreTablesSound tables.new }
    ensures outcome { PlainOutcome (machine_seen tables.old) Command.MakeActor
        (answer_by Reply.Actor result) (machine_seen tables.new) }
{
    if tables.living >= LIVING_ACTORS || tables.actors.len() >= MOST_MADE as usize {
        return Err(Trouble::Refused(Refusal::TooMany));
    }
    let actor = Actor {
        regions: Vec::new(tables.alloc),
    };
    tables.actors.push(Some(actor))?;
    tables.living += 1;
    Ok(ActorId(tables.actors.len() as u32))
}

#[tactic(auto, unfolding(crate::specs::Answering::exit_actor_of, crate::specs::Answering::with_some))]
pub(crate) fn exit_actor(tables: &mut Tables, actor: ActorId) -> Result<(), Trouble>
    requires { AreTablesSound tables.old }
    ensures sound { AreTablesSound tables.new }
    ensures outcome { PlainOutcome (machine_seen tables.old) (Command.ExitActor actor)
        (answer_by (λ _. Reply.Done) result) (machine_seen tables.new) }
{
    if actor_at(&tables.actors, actor.0).is_none() {
        return Err(Trouble::Refused(Refusal::NoActor));
    }
    tables.living -= 1;
    tables.actors[actor.0 as usize - 1] = None;
    Ok(())
}
