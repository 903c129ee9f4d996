// The one call that the program makes.
ghost use Rattle.std.specs.Prelude.{◌≡◌, ◌≢◌, ◌↔◌, ◌⊎◌, ◌<◌, ◌+◌, false, length, map, None, IfSome, IsSomeAnd};
ghost use Rattle.vm_ids.specs.Counting.{Rose, last_count};
ghost use Rattle.replay.specs.Commanding.{asked_by, page_size_of};
ghost use Rattle.replay.specs.Ending.{AskedEnds, IsWithinLimit, outside_of, reads_source};
ghost use Rattle.line_service.specs.Script.{most_bytes};

use crate::Status;
use crate::asked::Asked;
use crate::generating::generate;
use crate::given::Given;
use crate::replaying::{
    replay_commands, replay_flat, replay_messages, replay_processes, replay_segments,
};
use crate::trying::trial;
use crate::words::read_words;
use std::alloc::Global;
use vm_port::{Chooser, Dispatcher, Mapper, Sink, Source};

/// Runs the program for the words of a command line, which ask for one of seven things:
///
/// - `run --frames F [--page B] [--segments DIR]` replays the script that the source has left, over
///   a demand-paged manager of F page frames of B bytes, and writes a reply for each line. The
///   mapper's pages have the size that the words name.
/// - `generate N L` writes the L lines of the script that the number N makes.
/// - `trial N L --frames F [--segments DIR]` replays these lines over a manager of F page frames of
///   4,096 bytes. In place of the replies it writes their summary: how many there are, how many of
///   them begin with `ok`, the sum of all bytes loaded modulo 2^64, and the counts of pages.
/// - `mix --frames F [--segments DIR]` replays the script of processes that the source has left,
///   over a manager of F page frames of 4,096 bytes, and writes a reply for each line.
/// - `ipc --frames F [--segments DIR]` replays the script of message ports that the source has
///   left, over a manager of F page frames of 4,096 bytes, and writes a reply for each line.
/// - `keep --limit K --frames F [--segments DIR]` replays the script of segments that the source
///   has left, which are opened again and again, over a manager of F page frames of 4,096 bytes,
///   and writes a reply for each line. K caches to which nothing refers are kept.
/// - `flat --frames F [--segments DIR]` replays the script that the source has left, over a manager
///   without paging, in which each live page has one of F page frames of 4,096 bytes, and writes a
///   reply for each line.
///
/// Whatever the source, the sink, the mapper, the chooser and the dispatcher: the lines written
/// are, in the order written, the replies of a machine that keeps each cache as plain bytes and
/// copies at once, and each page pushed to a segment is what that machine holds for it. Each line
/// is answered once, and a later one before an earlier one only where both are loads or stores, of
/// different actors. Chains and counts are those of the page forest, which follows each answer by
/// its command's rule and agrees with that machine at the end. However reads cut the script, it is
/// the same script. The replies to a script of processes are those of processes that have plain
/// pages of bytes, which a fork copies at once; those to a script of message ports are those of
/// ports at which plain pages of bytes wait, first in, first out. With both no segment changes. The
/// replies to a script of segments are those of a machine in which a segment's cache lives while an
/// opening or a region refers to it; K is no part of what that machine is. The replies of a manager
/// without paging are those of the machine that copies at once, or `Full` exactly where a line asks
/// for more pages than frames are left; it answers lines in order, and no chains and counts.
///
/// - `Done`: where a script is read, the source has nothing left, and each line is answered; else
///   all is written.
/// - `Usage` exactly where the words aren't those, but for want of memory. The options stand in any
///   order, each once at most, as two words or as one with `=`, in a trial also before and between
///   N and L. F is from 3 to 65,536; B is 512, 1,024, 2,048, 4,096 (where it isn't given), 8,192,
///   16,384, 32,768 or 65,536; K is up to 1,024; N is up to 4,294,967,295; L is from 1 to
///   1,000,000; all are decimal with no leading zero, and F times B is 268,435,456 at most; DIR
///   isn't empty, and no hyphen begins it. Nothing was read or written.
/// - `SourceFault`, where a script is read, only where the source's count of faults rose; each line
///   that ended before is answered, or is a load or a store that waits for its page.
/// - `SinkFault` only where the sink's count of faults rose; a front of the text was written.
/// - `NoMemory` where there is none to read the words, or for the frames. Nothing was read or
///   written.
/// - `TooLong`, where a script is read, exactly where byte 67,108,865 of the script was taken; each
///   line that ended before is answered, or waits, as after `SourceFault`.
pub fn run<S: Source, K: Sink, M: Mapper, C: Chooser, D: Dispatcher>(
    alloc: Global,
    words: &[&str],
    source: &mut S,
    sink: &mut K,
    mapper: &mut M,
    chooser: &mut C,
    dispatcher: &mut D,
) -> Status
    requires { IfSome (M.page_bytes mapper.old)
        (λ bytes. bytes ≡ page_size_of (map (λ w. w.now) words.now)) }
    // However it ends, but for want of memory at the start: from the empty machine and the empty
    // page forest on, a run of events answers or parks each line that the status says, and the
    // replies or their summary are written; or the lines that were asked for are written.
    ensures ends { result ≢ Status.NoMemory →
        IfSome (asked_by (map (λ w. w.now) words.now)) (λ asked. AskedEnds result asked
        (outside_of M.Mapper mapper.old (D.turns dispatcher.old) (K.written sink.old))
        (outside_of M.Mapper mapper.new (D.turns dispatcher.new) (K.written sink.new))
        (S.left source.old) (S.left source.new)) }
    // Usage: exactly for other words, but for want of memory.
    ensures usage { result ≢ Status.NoMemory →
        (result ≡ Status.Usage) ↔ (asked_by (map (λ w. w.now) words.now) ≡ None) }
    // A fault is told only where one was counted.
    ensures source_fault { result ≡ Status.SourceFault →
        Rose (S.faults source.old) (S.faults source.new) }
    ensures sink_fault { result ≡ Status.SinkFault →
        Rose (K.faults sink.old) (K.faults sink.new) }
    // TooLong: exactly where the byte behind the limit was taken.
    ensures too_long_exactly { IfSome (S.left source.old)
        (λ all. IfSome (S.left source.new) (λ rest.
        (result ≡ Status.TooLong) ↔ (length all ≡ length rest + (most_bytes + 1)))) }
    // Usage and NoMemory: nothing was touched.
    ensures untouched { (result ≡ Status.Usage) ⊎ (result ≡ Status.NoMemory) →
        (source.new ≡ source.old) × (sink.new ≡ sink.old)
        × (mapper.new ≡ mapper.old) × (chooser.new ≡ chooser.old)
        × (dispatcher.new ≡ dispatcher.old) }
    // Only the replay of a script reads.
    ensures unread { IsSomeAnd (asked_by (map (λ w. w.now) words.now))
        (λ asked. reads_source asked ≡ false) → source.new ≡ source.old }
    // Right words, a script within the limit, and no fault of source and sink: it is done, but for
    // want of memory.
    ensures complete { IsSomeAnd (asked_by (map (λ w. w.now) words.now))
        (λ asked. IsWithinLimit asked (S.left source.old)) →
        S.faults source.new ≡ S.faults source.old → S.faults source.new < last_count →
        K.faults sink.new ≡ K.faults sink.old → K.faults sink.new < last_count →
        (result ≡ Status.Done) ⊎ (result ≡ Status.NoMemory) }
{
    let asked = match read_words(alloc, words) {
        Ok(Some(asked)) => asked,
        Ok(None) => return Status::Usage,
        Err(_) => return Status::NoMemory,
    };
    let given = Given {
        source,
        sink,
        mapper,
        chooser,
        dispatcher,
    };
    match asked {
        Asked::Run(size) => replay_commands(alloc, size, given),
        Asked::Generate(script) => generate(script, given.sink),
        Asked::Trial(script, frames) => trial(alloc, script, frames, given),
        Asked::Mix { frames } => replay_processes(alloc, frames, given),
        Asked::Ipc { frames } => replay_messages(alloc, frames, given),
        Asked::Keep { limit, frames } => replay_segments(alloc, frames, limit, given),
        Asked::Flat { frames } => replay_flat(alloc, frames, given),
    }
}
