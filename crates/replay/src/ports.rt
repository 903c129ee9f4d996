// The commands of a script of message ports, answered over a manager.
ghost use Rattle.transit_ipc.specs.Asking.{IsPortWellFormed};
ghost use Rattle.actor_script.specs.PortForms.{port_command_of};
ghost use Rattle.transit_ipc.specs.Calling.{made_by};
ghost use Rattle.transit_ipc.specs.Seen.{state_of};
ghost use Rattle.transit_ipc.specs.Tying.{CanCall};
ghost use Rattle.replay.specs.Few.{port_fronts};
ghost use Rattle.replay.specs.Posting.{port_meaning};

use crate::at_once::Answerer;
use actor_script::read_ports;
use gmi_calls::Gmi;
use transit_ipc::Ports;
use vm_ids::{Answer, PortCommand, Refusal};
use vm_port::{Chooser, Mapper};

impl<G: Gmi<M, C>, M: Mapper, C: Chooser> Answerer<M, C> for Ports<G> {
    type Command = PortCommand;

    ghost meaning = { port_meaning };

    ghost read = { port_command_of };

    ghost formed = { IsPortWellFormed };

    ghost state = { λ s held. state_of G.Gmi s held };

    ghost able = { λ s held page_bytes. CanCall G.Gmi s held page_bytes };

    ghost made = { λ s. made_by G.Gmi s };

    ghost fronts = { port_fronts };

    fn read_line(&self, line: &[u8]) -> Result<PortCommand, Refusal> {
        read_ports(line)
    }

    fn answer_command(&mut self, command: &PortCommand, mapper: &mut M, chooser: &mut C) -> Answer {
        self.call(command, mapper, chooser)
    }
}
