// The call that a command names.
ghost use Rattle.std.specs.Prelude.{◌≤◌, ◌^◌};
ghost use Rattle.transit_ipc.specs.Asking.{IsPortWellFormed};
ghost use Rattle.transit_ipc.specs.Calling.{PortCall, made_by};
ghost use Rattle.transit_ipc.specs.Tying.{CanCall};

use crate::Ports;
use gmi_calls::Gmi;
use vm_ids::{Answer, PortCommand, Reply};
use vm_port::{Chooser, Mapper};

impl<G> Ports<G> {
    /// Makes the one call that a command names, and gives its result as an answer.
    pub fn call<M: Mapper, C: Chooser>(
        &mut self,
        command: &PortCommand,
        mapper: &mut M,
        chooser: &mut C,
    ) -> Answer
    where
        G: Gmi<M, C>,
        requires formed { IsPortWellFormed command.now }
        requires can { CanCall G.Gmi self.old (M.held mapper.old) (M.page_bytes mapper.old) }
        requires made { made_by G.Gmi self.old ≤ 2 ^ 61 }
        ensures { PortCall M.Mapper G.Gmi mapper.old self.old command.now result mapper.new
            self.new }
    {
        match command {
            PortCommand::Port(depth) => {
                let port = self.make_port(*depth)?;
                Ok(Reply::Port(port))
            }
            PortCommand::Send(port, extent) => {
                self.send(*port, *extent, mapper, chooser)?;
                Ok(Reply::Done)
            }
            PortCommand::Receive(port, cache, page) => {
                self.receive(*port, *cache, *page, mapper, chooser)?;
                Ok(Reply::Done)
            }
            PortCommand::Plain(command) => self.answer(command, mapper, chooser),
        }
    }
}
