// The call that a command names.
ghost use Rattle.std.specs.Prelude.{◌≤◌, ◌^◌};
ghost use Rattle.seg_manager.specs.Asking.{IsKeepWellFormed};
ghost use Rattle.seg_manager.specs.Calling.{SegmentCall, made_by};
ghost use Rattle.seg_manager.specs.Tying.{CanCall};

use crate::SegManager;
use gmi_calls::Gmi;
use vm_ids::{Answer, Command, KeepCommand, Reply};
use vm_port::{Chooser, Mapper};

impl<G> SegManager<G> {
    /// Makes the one call that a command names, and gives its result as an answer.
    pub fn call<M: Mapper, C: Chooser>(
        &mut self,
        command: &KeepCommand,
        mapper: &mut M,
        chooser: &mut C,
    ) -> Answer
    where
        G: Gmi<M, C>,
        requires formed { IsKeepWellFormed command.now }
        requires can { CanCall G.Gmi self.old (M.held mapper.old) (M.page_bytes mapper.old) }
        requires made { made_by G.Gmi self.old ≤ 2 ^ 61 }
        ensures { SegmentCall M.Mapper G.Gmi mapper.old self.old command.now result mapper.new
            self.new }
    {
        match command {
            KeepCommand::Close(seg) => {
                self.release(*seg, mapper, chooser)?;
                Ok(Reply::Done)
            }
            KeepCommand::Plain(Command::OpenSegment(seg)) => {
                Ok(Reply::Cache(self.acquire(*seg, mapper, chooser)?))
            }
            KeepCommand::Plain(command) => self.answer(command, mapper, chooser),
        }
    }
}
