// A process ends, and with it the caches that are its own.
ghost use Rattle.std.specs.Prelude.{◌≤◌, ◌+◌, ◌*◌, ◌^◌, [], length};
ghost use Rattle.vm_model.specs.Machine.{numbered};
ghost use Rattle.mix_process.specs.Inner.{AreApart, AreCleared, AreOwn, IsEnded, own_pages, spare_of, with_extra};
ghost use Rattle.mix_process.specs.Tying.{AreAble, none_spare};

use crate::mix::Mix;
use crate::process::{Part, Process, may_write};
use gmi_calls::Gmi;
use vm_model::numbered;
use vm_port::{Chooser, Mapper};

impl<G> Mix<G> {
    // Takes away what was made for a process, in the reverse order: its actor with all regions, and
    // then its own caches. It takes no memory.
    pub(super) fn end<M: Mapper, C: Chooser>(
        &mut self,
        process: Process,
        mapper: &mut M,
        chooser: &mut C,
    )
    where
        G: Gmi<M, C>,
        requires able { AreAble G.Gmi self.old.gmi self.old.images.items (M.held mapper.old)
            (M.page_bytes mapper.old) (length self.old.processes.items)
            (with_extra process (numbered self.old.processes.items)) none_spare }
        requires made { G.made self.old.gmi ≤ 2 ^ 61 + 2 ^ 30 }
        ensures { IsEnded M.Mapper G.Gmi mapper.old self.old mapper.new self.new }
    {
        let Process { actor, parts } = process;
        let _ = self.gmi.exit_actor(actor);
        self.destroy_own(parts, mapper, chooser);
    }

    // Destroys the caches of their own that parts had which no region maps any more, the last one
    // first.
    fn destroy_own<M: Mapper, C: Chooser>(
        &mut self,
        mut parts: Vec<Part>,
        mapper: &mut M,
        chooser: &mut C,
    )
    where
        G: Gmi<M, C>,
        requires able { AreAble G.Gmi self.old.gmi self.old.images.items (M.held mapper.old)
            (M.page_bytes mapper.old) (length self.old.processes.items)
            (numbered self.old.processes.items) (spare_of parts.items) }
        requires apart { AreApart parts.items }
        requires own { AreOwn (G.machine self.old.gmi (M.held mapper.old)) parts.items }
        requires made { G.made self.old.gmi + 16 * own_pages parts.items ≤ 2 ^ 62 }
        ensures { AreCleared M.Mapper G.Gmi mapper.old self.old parts.items [] mapper.new self.new }
    {
        while let Some(part) = parts.pop() {
            if may_write(part.area) {
                let _ = self.gmi.destroy(part.cache, mapper, chooser);
            }
        }
    }
}
