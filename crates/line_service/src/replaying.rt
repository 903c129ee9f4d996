// A whole script, read in pieces.
ghost use Rattle.std.specs.Prelude.{◌≡◌, ℕ, List, [], ◌≤◌, ◌<◌, ◌+◌, ◌^◌, length, take, IfOk, IfSome, OnOk, OnErr};
ghost use Rattle.vm_ids.specs.Counting.{HasCause, Rose};
ghost use Rattle.line_service.specs.Ending.{AllAnsweredOr, Ends, Texts, TextsFront, Told, Took};
ghost use Rattle.line_service.specs.Going.{Scene, scene_of};
ghost use Rattle.line_service.specs.Parking.{AreAway, CanServe, made_with};
ghost use Rattle.line_service.specs.Underway.{CanAnswer, NearTheEnd, Underway};
ghost use Rattle.line_service.specs.Gathering.{Grew, with_gathered};
ghost use Rattle.line_service.specs.Script.{most_bytes, reads_of};

use crate::answering::answer_line;
use crate::asking::wait_for;
use crate::feeding::feed;
use crate::progress::Progress;
use crate::{Ended, Gathered, Service};
use pull_wait::PullWait;
use vm_port::{Chooser, Dispatcher, Failed, Mapper, Sink, Source};

// A script has at most this many bytes.
const MOST_BYTES: usize = 1 << 26;

// A script is read in pieces of at most this many bytes.
const PIECE: usize = 1 << 16;

// The next piece of a script, within the limit; at the limit it is the one byte that passes it.
fn next_piece<S: Source>(
    source: &mut S,
    piece: &mut [u8; PIECE],
    taken: usize,
) -> Result<usize, Failed>
    requires { taken ≤ MOST_BYTES }
    ensures most { IfOk result (λ n. n ≤ PIECE) }
    ensures within { IfOk result (λ n. taken < MOST_BYTES → taken + n ≤ MOST_BYTES) }
    ensures one { IfOk result (λ n. taken ≡ MOST_BYTES → n ≤ 1) }
    ensures took { IfOk result (λ n.
        Took (S.left source.old) (S.left source.new) (take n piece.new)) }
    ensures end { IfOk result (λ n. n ≡ 0 → IfSome (S.left source.old) (λ rest. rest ≡ [])) }
    ensures same { OnErr result (S.left source.new ≡ S.left source.old) }
    ensures cause { HasCause (S.faults source.old) (S.faults source.new) result }
{
    let room = (MOST_BYTES - taken).clamp(1, PIECE);
    source.read(&mut piece[..room])
}

// The last line, where no line feed ends it.
fn answer_last<V: Service<M, C>, M: Mapper, C: Chooser, D: Dispatcher, K: Sink>(
    service: &mut V,
    mapper: &mut M,
    chooser: &mut C,
    waits: &mut PullWait,
    dispatcher: &mut D,
    gathered: &mut Gathered,
    sink: &mut K,
    progress: &Progress,
) -> Result<(), Failed>
    requires able { CanAnswer V.Service M.Mapper progress.now.number service.old mapper.old
        waits.old }
    requires few { progress.now.number ≤ most_bytes + 1 }
    ensures serve { CanServe V.Service M.Mapper service.new mapper.new waits.new }
    ensures away { OnOk result (AreAway V.Service service.new waits.new) }
    ensures made { made_with V.Service service.new waits.new ≤ 2 ^ 60 }
    ensures goes { (before : Scene V.semantics Told) (script : List ℕ)
        → Underway V.Service before
        (scene_of V.Service M.Mapper service.old mapper.old (D.turns dispatcher.old)
        (with_gathered (K.written sink.old) gathered.old)) waits.old progress.now script
        → NearTheEnd result V.Service before
        (scene_of V.Service M.Mapper service.new mapper.new (D.turns dispatcher.new)
        (with_gathered (K.written sink.new) gathered.new)) waits.new script }
    ensures grew { Grew (K.written sink.old) (K.written sink.new) }
    ensures cause { HasCause (K.faults sink.old) (K.faults sink.new) result }
{
    let line = progress.line.as_slice();
    if line.is_empty() {
        return Ok(());
    }
    answer_line(
        service,
        mapper,
        chooser,
        waits,
        dispatcher,
        gathered,
        sink,
        progress.number,
        line,
    )
}

// The last line, where no line feed ends it, and then what is parked: the end waits for all.
fn answer_rest<V: Service<M, C>, M: Mapper, C: Chooser, D: Dispatcher, K: Sink>(
    service: &mut V,
    mapper: &mut M,
    chooser: &mut C,
    waits: &mut PullWait,
    dispatcher: &mut D,
    gathered: &mut Gathered,
    sink: &mut K,
    progress: &Progress,
) -> Result<(), Failed>
    requires able { CanAnswer V.Service M.Mapper progress.now.number service.old mapper.old
        waits.old }
    requires few { progress.now.number ≤ most_bytes + 1 }
    ensures able { V.able service.new (M.held mapper.new) (M.page_bytes mapper.new) }
    ensures answered { (before : Scene V.semantics Told) (script : List ℕ)
        → Underway V.Service before
        (scene_of V.Service M.Mapper service.old mapper.old (D.turns dispatcher.old)
        (with_gathered (K.written sink.old) gathered.old)) waits.old progress.now script
        → AllAnsweredOr result V.semantics Texts TextsFront before
        (scene_of V.Service M.Mapper service.new mapper.new (D.turns dispatcher.new)
        (with_gathered (K.written sink.new) gathered.new)) (reads_of V.read script) }
    ensures grew { Grew (K.written sink.old) (K.written sink.new) }
    ensures cause { HasCause (K.faults sink.old) (K.faults sink.new) result }
{
    answer_last(
        service, mapper, chooser, waits, dispatcher, gathered, sink, progress,
    )?;
    wait_for(
        service, mapper, chooser, waits, dispatcher, gathered, sink, None,
    )
}

// The end of the script: each line is answered, and the replies are written.
fn finish<V: Service<M, C>, M: Mapper, C: Chooser, D: Dispatcher, K: Sink>(
    service: &mut V,
    mapper: &mut M,
    chooser: &mut C,
    waits: &mut PullWait,
    dispatcher: &mut D,
    sink: &mut K,
    progress: &Progress,
) -> Result<(), Failed>
    requires able { CanAnswer V.Service M.Mapper progress.now.number service.old mapper.old
        waits.old }
    requires few { progress.now.number ≤ most_bytes + 1 }
    ensures able { V.able service.new (M.held mapper.new) (M.page_bytes mapper.new) }
    ensures answered { (before : Scene V.semantics Told) (script : List ℕ)
        → Underway V.Service before
        (scene_of V.Service M.Mapper service.old mapper.old (D.turns dispatcher.old)
        (K.written sink.old)) waits.old progress.now script
        → AllAnsweredOr result V.semantics Texts TextsFront before
        (scene_of V.Service M.Mapper service.new mapper.new (D.turns dispatcher.new)
        (K.written sink.new)) (reads_of V.read script) }
    ensures cause { HasCause (K.faults sink.old) (K.faults sink.new) result }
{
    let mut gathered = Gathered::new();
    answer_rest(
        service,
        mapper,
        chooser,
        waits,
        dispatcher,
        &mut gathered,
        sink,
        progress,
    )?;
    gathered.flush(sink)
}

/// Answers each line of what the source has left, and writes the replies. An access may be parked,
/// and is answered by a delivery before the end. Before each read the replies are out that can be
/// given. Beside the calls of the service it takes no memory.
pub fn replay<V: Service<M, C>, M: Mapper, C: Chooser, D: Dispatcher, S: Source, K: Sink>(
    service: &mut V,
    mapper: &mut M,
    chooser: &mut C,
    waits: &mut PullWait,
    dispatcher: &mut D,
    source: &mut S,
    sink: &mut K,
) -> Ended
    requires able { CanAnswer V.Service M.Mapper 1 service.old mapper.old waits.old }
    requires none { waits.old ≡ [] }
    ensures able { V.able service.new (M.held mapper.new) (M.page_bytes mapper.new) }
    ensures ends { Ends result V.semantics V.read
        (scene_of V.Service M.Mapper service.old mapper.old (D.turns dispatcher.old)
        (K.written sink.old))
        (scene_of V.Service M.Mapper service.new mapper.new (D.turns dispatcher.new)
        (K.written sink.new))
        (S.left source.old) (S.left source.new) }
    ensures source_fault { result ≡ Ended.SourceFault →
        Rose (S.faults source.old) (S.faults source.new) }
    ensures sink_fault { result ≡ Ended.SinkFault →
        Rose (K.faults sink.old) (K.faults sink.new) }
{
    let mut piece = [0u8; PIECE];
    let mut progress = Progress::new();
    let mut taken: usize = 0;
    'pieces: loop {
        let count = match next_piece(source, &mut piece, taken) {
            Ok(count) => count,
            Err(_) => return Ended::SourceFault,
        };
        if count == 0 {
            break 'pieces;
        }
        if taken == MOST_BYTES {
            return Ended::TooLong;
        }
        match feed(
            service,
            mapper,
            chooser,
            waits,
            dispatcher,
            sink,
            &mut progress,
            &piece[..count],
        ) {
            Ok(()) => taken += count,
            Err(_) => return Ended::SinkFault,
        }
    }
    match finish(service, mapper, chooser, waits, dispatcher, sink, &progress) {
        Ok(()) => Ended::Done,
        Err(_) => Ended::SinkFault,
    }
}
