// The commands of a script, answered by a manager.
ghost use Rattle.std.specs.Prelude.{◌≡◌, Ok, IsSome, IfOk};
ghost use Rattle.vm_ids.specs.Accessing.{command_for};
ghost use Rattle.vm_model.specs.Machine.{actor_of};
ghost use Rattle.vm_model.specs.Run.{command_semantics, state_of};
ghost use Rattle.actor_script.specs.Forms.{command_of};
ghost use Rattle.gmi_calls.specs.Parking.{address_of};
ghost use Rattle.replay.specs.Few.{few_living, fronts};
ghost use Rattle.replay.specs.Managing.{CanCall};

use actor_script::{read_access, read_other};
use gmi_calls::{Delivered, Gmi, answer};
use line_service::Service;
use vm_ids::{Access, ActorId, Answer};
use vm_port::{Chooser, Mapper};

/// A manager that answers the commands of a script. A load or a store may have to wait for its
/// page.
#[derive(Drop)]
pub struct Commands<G> {
    pub gmi: G,
}

impl<G: Gmi<M, C>, M: Mapper, C: Chooser> Service<M, C> for Commands<G> {
    ghost semantics = { command_semantics };

    ghost read = { command_of };

    ghost access_of = { λ actor access. Ok (command_for actor access) };

    ghost state = { λ s held. state_of G.machine G.forest s.gmi held };

    ghost able = { λ s held page_bytes. CanCall G.Gmi s.gmi held page_bytes };

    ghost made = { λ s. G.made s.gmi };

    ghost ready = { λ s actor access. G.ready s.gmi actor.0 (address_of access) };

    ghost admits = { λ s read. IfOk read (G.admits s.gmi) };

    ghost few = { λ s held page_bytes actors can. few_living actors can };

    ghost fronts = { fronts };

    ghost lives = { λ s held actor. IsSome (actor_of (G.machine s.gmi held) actor) };

    fn access_in(&self, line: &[u8]) -> Option<(ActorId, Access)> {
        read_access(line)
    }

    fn answer(&mut self, line: &[u8], mapper: &mut M, chooser: &mut C) -> Answer {
        let command = read_other(line)?;
        answer(&mut self.gmi, &command, mapper, chooser)
    }

    fn issue(
        &mut self,
        actor: ActorId,
        access: &Access,
        mapper: &mut M,
        chooser: &mut C,
    ) -> Option<Answer> {
        self.gmi.issue(actor, access, mapper, chooser)
    }

    fn deliver(
        &mut self,
        actor: ActorId,
        access: &Access,
        mapper: &mut M,
        chooser: &mut C,
    ) -> Delivered {
        self.gmi.deliver(actor, access, mapper, chooser)
    }
}
