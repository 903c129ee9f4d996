// The lines that a number makes, answered.
ghost use Rattle.std.specs.Prelude.{◌≤◌, [], map, ◌≡◌};
ghost use Rattle.actor_script.specs.Generator.{lines_from};
ghost use Rattle.line_service.specs.Ending.{AllAnsweredOr};
ghost use Rattle.line_service.specs.Going.{scene_of};
ghost use Rattle.line_service.specs.Putting.{PutsAll, PutsTillLast};
ghost use Rattle.line_service.specs.Script.{most_bytes};
ghost use Rattle.line_service.specs.Underway.{CanAnswer};

use crate::answering::answer_line;
use crate::asking::wait_for;
use crate::{Replies, Service};
use actor_script::Gen;
use pull_wait::PullWait;
use vm_port::{Chooser, Dispatcher, Failed, Mapper};

/// Answers the next lines of a generator, so many of them, as a script that ends with them.
pub fn answer_made<V: Service<M, C>, M: Mapper, C: Chooser, D: Dispatcher, R: Replies<K>, K>(
    service: &mut V,
    mapper: &mut M,
    chooser: &mut C,
    waits: &mut PullWait,
    dispatcher: &mut D,
    replies: &mut R,
    sink: &mut K,
    lines: &mut Gen,
    count: u32,
) -> Result<(), Failed>
    requires able { CanAnswer V.Service M.Mapper 1 service.old mapper.old waits.old }
    requires none { waits.old ≡ [] }
    requires few { count ≤ most_bytes }
    requires fits { R.fits replies.old count }
    ensures able { V.able service.new (M.held mapper.new) (M.page_bytes mapper.new) }
    ensures answered { AllAnsweredOr result V.semantics
        (PutsAll R.puts) (PutsTillLast R.puts R.fails)
        (scene_of V.Service M.Mapper service.old mapper.old (D.turns dispatcher.old)
        (replies.old, sink.old))
        (scene_of V.Service M.Mapper service.new mapper.new (D.turns dispatcher.new)
        (replies.new, sink.new))
        (map V.read (lines_from lines.old count)) }
{
    for done in 0..count {
        let line = lines.next_line();
        answer_line(
            service,
            mapper,
            chooser,
            waits,
            dispatcher,
            replies,
            sink,
            done + 1,
            line.as_slice(),
        )?;
    }
    wait_for(
        service, mapper, chooser, waits, dispatcher, replies, sink, None,
    )
}
