// The commands of a script of processes, answered over a manager.
ghost use Rattle.vm_ids.specs.MixAsking.{IsMixWellFormed};
ghost use Rattle.actor_script.specs.MixForms.{mix_command_of};
ghost use Rattle.mix_process.specs.Calling.{made_by};
ghost use Rattle.mix_process.specs.Seen.{state_of};
ghost use Rattle.mix_process.specs.Tying.{CanCall};
ghost use Rattle.replay.specs.Few.{mix_fronts};
ghost use Rattle.replay.specs.Processing.{process_meaning};

use crate::at_once::Answerer;
use actor_script::read_mix;
use gmi_calls::Gmi;
use mix_process::Mix;
use vm_ids::{Answer, MixCommand, Refusal};
use vm_port::{Chooser, Mapper};

impl<G: Gmi<M, C>, M: Mapper, C: Chooser> Answerer<M, C> for Mix<G> {
    type Command = MixCommand;

    ghost meaning = { process_meaning };

    ghost read = { mix_command_of };

    ghost formed = { IsMixWellFormed };

    ghost state = { λ s held. state_of G.Gmi s held };

    ghost able = { λ s held page_bytes. CanCall G.Gmi s held page_bytes };

    ghost made = { λ s. made_by G.Gmi s };

    ghost fronts = { mix_fronts };

    fn read_line(&self, line: &[u8]) -> Result<MixCommand, Refusal> {
        read_mix(line)
    }

    fn answer_command(&mut self, command: &MixCommand, mapper: &mut M, chooser: &mut C) -> Answer {
        self.answer(command, mapper, chooser)
    }
}
