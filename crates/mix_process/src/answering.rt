// The call that a command names.
ghost use Rattle.std.specs.Prelude.{◌≤◌, ◌^◌};
ghost use Rattle.vm_ids.specs.MixAsking.{IsMixWellFormed};
ghost use Rattle.mix_process.specs.Calling.{MixCall, made_by};
ghost use Rattle.mix_process.specs.Tying.{CanCall};

use crate::Mix;
use gmi_calls::Gmi;
use vm_ids::{Answer, MixCommand, Reply};
use vm_port::{Chooser, Mapper};

impl<G> Mix<G> {
    /// Makes the one call that a command names, and gives its result as an answer.
    pub fn answer<M: Mapper, C: Chooser>(
        &mut self,
        command: &MixCommand,
        mapper: &mut M,
        chooser: &mut C,
    ) -> Answer
    where
        G: Gmi<M, C>,
        requires formed { IsMixWellFormed command.now }
        requires can { CanCall G.Gmi self.old (M.held mapper.old) (M.page_bytes mapper.old) }
        requires made { made_by G.Gmi self.old ≤ 2 ^ 61 }
        ensures { MixCall M.Mapper G.Gmi mapper.old self.old command.now result mapper.new
            self.new }
    {
        match command {
            MixCommand::Exec(seg, text, data, stack) => {
                let process = self.exec(*seg, *text, *data, *stack, mapper, chooser)?;
                Ok(Reply::Process(process))
            }
            MixCommand::Fork(of) => Ok(Reply::Process(self.fork(*of, mapper, chooser)?)),
            MixCommand::Exit(of) => {
                self.exit(*of, mapper, chooser)?;
                Ok(Reply::Done)
            }
            MixCommand::Grow(of, pages) => {
                self.grow(*of, *pages, mapper, chooser)?;
                Ok(Reply::Done)
            }
            MixCommand::Load(of, address, length) => {
                let piece = self.load(*of, *address, *length, mapper, chooser)?;
                Ok(Reply::Bytes(piece))
            }
            MixCommand::Store(of, address, piece) => {
                self.store(*of, *address, piece, mapper, chooser)?;
                Ok(Reply::Done)
            }
            MixCommand::PageOut(count) => {
                self.page_out(*count, mapper, chooser)?;
                Ok(Reply::Done)
            }
        }
    }
}
