// Lines out of bytes, each answered or parked as it ends.
ghost use Rattle.std.specs.Prelude.{◌≡◌, ℕ, List, [], ◌∷◌, ◌≤◌, ◌+◌, ◌++◌, length, MatchOption, OnOk};
ghost use Rattle.vm_ids.specs.Counting.{HasCause};
ghost use Rattle.line_service.specs.Gathering.{Grew, with_gathered};
ghost use Rattle.line_service.specs.Going.{scene_of};
ghost use Rattle.line_service.specs.Parking.{CanServe};
ghost use Rattle.line_service.specs.Script.{HasNoFeed, IsFront, most_bytes};
ghost use Rattle.line_service.specs.Underway.{CanAnswer, Proceeds};

use crate::answering::answer_line;
use crate::progress::Progress;
use crate::{Gathered, Service};
use memchr::memchr;
use pull_wait::PullWait;
use vm_port::{Chooser, Dispatcher, Failed, Mapper, Sink};

// The first line, where a line feed ends it.
fn first_line(bytes: &[u8]) -> Option<&[u8]>
    ensures { MatchOption result (HasNoFeed bytes.now)
        (λ line. HasNoFeed line.now × IsFront (line.now ++ 10 ∷ []) bytes.now) }
{
    let end = memchr(b'\n', bytes)?;
    Some(&bytes[..end])
}

// The rest of a line, which a line feed ends: the line is answered or parked.
fn feed_line<V: Service<M, C>, M: Mapper, C: Chooser, D: Dispatcher, K: Sink>(
    service: &mut V,
    mapper: &mut M,
    chooser: &mut C,
    waits: &mut PullWait,
    dispatcher: &mut D,
    gathered: &mut Gathered,
    sink: &mut K,
    progress: &mut Progress,
    rest: &[u8],
) -> Result<(), Failed>
    requires able { CanAnswer V.Service M.Mapper progress.old.number service.old mapper.old
        waits.old }
    requires few { progress.old.number ≤ most_bytes }
    requires plain { HasNoFeed rest.now }
    ensures serve { CanServe V.Service M.Mapper service.new mapper.new waits.new }
    ensures able { OnOk result (CanAnswer V.Service M.Mapper progress.new.number service.new
        mapper.new waits.new) }
    ensures few { progress.new.number ≤ progress.old.number + 1 }
    ensures proceeds { Proceeds result V.Service
        (scene_of V.Service M.Mapper service.old mapper.old (D.turns dispatcher.old)
        (with_gathered (K.written sink.old) gathered.old)) waits.old progress.old
        (scene_of V.Service M.Mapper service.new mapper.new (D.turns dispatcher.new)
        (with_gathered (K.written sink.new) gathered.new)) waits.new progress.new
        (rest.now ++ 10 ∷ []) }
    ensures grew { Grew (K.written sink.old) (K.written sink.new) }
    ensures cause { HasCause (K.faults sink.old) (K.faults sink.new) result }
{
    progress.extend(rest);
    let result = answer_line(
        service,
        mapper,
        chooser,
        waits,
        dispatcher,
        gathered,
        sink,
        progress.number,
        progress.line.as_slice(),
    );
    progress.next_line();
    result
}

/// More bytes of the script: each line that they end is answered or parked, and the replies are
/// written.
pub fn feed<V: Service<M, C>, M: Mapper, C: Chooser, D: Dispatcher, K: Sink>(
    service: &mut V,
    mapper: &mut M,
    chooser: &mut C,
    waits: &mut PullWait,
    dispatcher: &mut D,
    sink: &mut K,
    progress: &mut Progress,
    bytes: &[u8],
) -> Result<(), Failed>
    requires able { CanAnswer V.Service M.Mapper progress.old.number service.old mapper.old
        waits.old }
    requires few { progress.old.number + length bytes.now ≤ most_bytes + 1 }
    ensures serve { CanServe V.Service M.Mapper service.new mapper.new waits.new }
    ensures able { OnOk result (CanAnswer V.Service M.Mapper progress.new.number service.new
        mapper.new waits.new) }
    ensures few { progress.new.number ≤ progress.old.number + length bytes.now }
    ensures proceeds { Proceeds result V.Service
        (scene_of V.Service M.Mapper service.old mapper.old (D.turns dispatcher.old)
        (K.written sink.old)) waits.old progress.old
        (scene_of V.Service M.Mapper service.new mapper.new (D.turns dispatcher.new)
        (K.written sink.new)) waits.new progress.new bytes.now }
    ensures cause { HasCause (K.faults sink.old) (K.faults sink.new) result }
{
    let mut gathered = Gathered::new();
    let mut from = 0;
    while let Some(line) = first_line(&bytes[from..]) {
        feed_line(
            service,
            mapper,
            chooser,
            waits,
            dispatcher,
            &mut gathered,
            sink,
            progress,
            line,
        )?;
        from += line.len() + 1;
    }
    progress.extend(&bytes[from..]);
    gathered.flush(sink)
}
