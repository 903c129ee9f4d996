// The commands of a script, answered by the manager in which each live page has a page frame.
ghost use Rattle.std.specs.Prelude.{◌≡◌};
ghost use Rattle.vm_model.specs.Asking.{IsWellFormed};
ghost use Rattle.vm_model.specs.Run.{state_of};
ghost use Rattle.flat_mm.specs.Manager.{flat};
ghost use Rattle.replay.specs.Few.{framed_fronts};
ghost use Rattle.replay.specs.Framed.{asks_forest, framed_command_of, framed_meaning};
ghost use Rattle.replay.specs.Managing.{CanCallFramed};

use crate::at_once::Answerer;
use actor_script::read_line;
use flat_mm::FlatMm;
use vm_ids::{Answer, Command, Refusal};
use vm_port::{Chooser, Mapper};

// Whether the command asks for a page forest.
fn asks_forest(command: &Command) -> bool
    ensures { result ≡ asks_forest command.now }
{
    matches!(command, Command::Chain(..) | Command::Stat)
}

/// It keeps no page forest, for which no line can ask.
impl<M: Mapper, C: Chooser> Answerer<M, C> for FlatMm {
    type Command = Command;

    ghost meaning = { framed_meaning };

    ghost read = { framed_command_of };

    ghost formed = { IsWellFormed };

    ghost state = { λ s held. state_of flat.machine flat.forest s held };

    ghost able = { λ s held page_bytes. CanCallFramed s held page_bytes };

    ghost made = { λ s. 0 };

    ghost fronts = { framed_fronts };

    fn read_line(&self, line: &[u8]) -> Result<Command, Refusal> {
        match read_line(line) {
            Ok(command) if asks_forest(&command) => Err(Refusal::BadLine),
            read => read,
        }
    }

    fn answer_command(&mut self, command: &Command, mapper: &mut M, chooser: &mut C) -> Answer {
        self.answer(command, mapper, chooser)
    }
}
