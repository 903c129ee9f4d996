// What a run of a script writes.
ghost use Rattle.std.specs.Prelude.{◌≡◌, ◌≤◌, map};
ghost use Rattle.replay.specs.Commanding.{page_size_of};

use crate::mappers::swap_area;
use replay::{Status, page_size, run};
use std::alloc::Global;
use vm_ids::NoMemory;
use vm_port::{
    Chooser, Clock, Dispatcher, ListedTurns, MemoryMapper, MemorySink, MemorySource, Sink, Source,
};

// No script of the tests writes more bytes.
const ROOM: usize = 65536;

/// Runs these words over a source, with a swap area that never fails.
pub fn run_source<S: Source, K: Sink>(
    alloc: Global,
    words: &[&str],
    source: &mut S,
    sink: &mut K,
) -> Result<Status, NoMemory> {
    let mut mapper = swap_area(alloc, page_size(words), &[])?;
    Ok(run(
        alloc,
        words,
        source,
        sink,
        &mut mapper,
        &mut Clock::new(),
        &mut ListedTurns::new(&[]),
    ))
}

/// Runs a script at so many frames, where each read gives at most so many bytes.
pub fn run_cut(
    alloc: Global,
    frames: &str,
    script: &[u8],
    most: usize,
    sink: &mut MemorySink,
) -> Result<Status, NoMemory>
    requires { 1 ≤ most }
{
    let mut source = MemorySource::new(script, &[]);
    source.chunk(most);
    run_source(alloc, &["run", "--frames", frames], &mut source, sink)
}

/// What these words write for a script over a mapper, by these choices and turns. The status, where
/// the run isn't done, and `NoMemory` where there is none for the sink.
pub fn written_by<C: Chooser, D: Dispatcher>(
    alloc: Global,
    words: &[&str],
    script: &str,
    mapper: &mut MemoryMapper,
    chooser: &mut C,
    dispatcher: &mut D,
) -> Result<MemorySink, Status>
    requires { mapper.old.page_bytes ≡ page_size_of (map (λ w. w.now) words.now) }
{
    let mut source = MemorySource::new(script.as_bytes(), &[]);
    let Ok(mut sink) = MemorySink::new(alloc, ROOM, &[]) else {
        return Err(Status::NoMemory);
    };
    let status = run(
        alloc,
        words,
        &mut source,
        &mut sink,
        mapper,
        chooser,
        dispatcher,
    );
    if status == Status::Done {
        Ok(sink)
    } else {
        Err(status)
    }
}

/// What these words write for a script over a mapper, where no turn names an access. The status,
/// where the run isn't done, and `NoMemory` where there is none for the sink.
pub fn written(
    alloc: Global,
    words: &[&str],
    script: &str,
    mapper: &mut MemoryMapper,
) -> Result<MemorySink, Status>
    requires { mapper.old.page_bytes ≡ page_size_of (map (λ w. w.now) words.now) }
{
    let mut turns = ListedTurns::new(&[]);
    written_by(alloc, words, script, mapper, &mut Clock::new(), &mut turns)
}

/// What was written, where that is a text.
pub fn text(sink: &MemorySink) -> &str {
    str::from_utf8(sink.written()).unwrap_or("no text")
}
