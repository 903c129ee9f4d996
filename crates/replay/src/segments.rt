// The commands of a script of segments that are opened again and again, answered over a manager.
ghost use Rattle.seg_manager.specs.Asking.{IsKeepWellFormed};
ghost use Rattle.actor_script.specs.KeepForms.{keep_command_of};
ghost use Rattle.seg_manager.specs.Calling.{made_by};
ghost use Rattle.seg_manager.specs.Seen.{state_of};
ghost use Rattle.seg_manager.specs.Tying.{CanCall};
ghost use Rattle.replay.specs.Few.{keep_fronts};
ghost use Rattle.replay.specs.Reopening.{keep_meaning};

use crate::at_once::Answerer;
use actor_script::read_keep;
use gmi_calls::Gmi;
use seg_manager::SegManager;
use vm_ids::{Answer, KeepCommand, Refusal};
use vm_port::{Chooser, Mapper};

impl<G: Gmi<M, C>, M: Mapper, C: Chooser> Answerer<M, C> for SegManager<G> {
    type Command = KeepCommand;

    ghost meaning = { keep_meaning };

    ghost read = { keep_command_of };

    ghost formed = { IsKeepWellFormed };

    ghost state = { λ s held. state_of G.Gmi s held };

    ghost able = { λ s held page_bytes. CanCall G.Gmi s held page_bytes };

    ghost made = { λ s. made_by G.Gmi s };

    ghost fronts = { keep_fronts };

    fn read_line(&self, line: &[u8]) -> Result<KeepCommand, Refusal> {
        read_keep(line)
    }

    fn answer_command(&mut self, command: &KeepCommand, mapper: &mut M, chooser: &mut C) -> Answer {
        self.call(command, mapper, chooser)
    }
}
