// The call that a command names.
ghost use Rattle.vm_model.specs.Asking.{IsWellFormed};
ghost use Rattle.gmi_calls.specs.Calling.{Fits};
ghost use Rattle.flat_mm.specs.Alone.{AsksAlone, FlatCall};
ghost use Rattle.flat_mm.specs.Manager.{IsValid, machine_in};

use crate::FlatMm;
use vm_ids::{Answer, Command, Reply};
use vm_port::{Chooser, Mapper};

impl FlatMm {
    /// Makes the one call that a command names, and gives its result as an answer. At a load, a
    /// store, a lock and a page-out no page is pulled or pushed.
    pub fn answer<M: Mapper, C: Chooser>(
        &mut self,
        command: &Command,
        mapper: &mut M,
        chooser: &mut C,
    ) -> Answer
        requires formed { IsWellFormed command.now }
        requires valid { IsValid self.old (M.held mapper.old) }
        requires fits { Fits (M.page_bytes mapper.old) (machine_in self.old) }
        ensures { FlatCall M.Mapper (AsksAlone command.now) mapper.old self.old command.now result
            mapper.new self.new }
    {
        match command {
            Command::Load(actor, address, bytes) => {
                let piece = self.load(*actor, *address, *bytes, mapper)?;
                Ok(Reply::Bytes(piece))
            }
            Command::Store(actor, address, piece) => {
                self.store(*actor, *address, piece, mapper)?;
                Ok(Reply::Done)
            }
            Command::Lock(region) => {
                self.lock(*region, mapper)?;
                Ok(Reply::Done)
            }
            Command::PageOut(count) => {
                self.page_out(*count, mapper)?;
                Ok(Reply::Done)
            }
            command => gmi_calls::answer(self, command, mapper, chooser),
        }
    }
}
