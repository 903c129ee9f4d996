// Sources and sinks that fail, and reads that cut a script anywhere: what was written is a front of
// the replies.
ghost use Rattle.std.specs.Prelude.{◌≤◌};

use played_scripts::run_cut;
use replay::{Status, run};
use std::alloc::Global;
use std::process::Abort;
use vm_ids::{NoMemory, PAGE};
use vm_port::{Clock, ListedTurns, MemoryMapper, MemorySink, MemorySource};
use worked_scripts::accesses::{LEAST_SUCCESS, LEAST_SUCCESS_REPLIES};

// The replies to the first lines of the least script, so many of them.
fn first_replies(lines: u32) -> &'static [u8] {
    let mut rest = LEAST_SUCCESS_REPLIES;
    for _ in 0..lines {
        if let Some((_, behind)) = rest.split_once("\n") {
            rest = behind;
        }
    }
    match LEAST_SUCCESS_REPLIES.strip_suffix(rest) {
        Some(replies) => replies.as_bytes(),
        None => b"",
    }
}

// How many lines end in the first bytes of a script, so many of them.
fn lines_in(script: &[u8], bytes: usize) -> u32 {
    let mut lines = 0u32;
    for byte in script.iter().take(bytes) {
        if *byte == b'\n' {
            lines = lines.saturating_add(1);
        }
    }
    lines
}

// Runs a script that no page leaves memory in.
fn replay_in_memory(
    alloc: Global,
    source: &mut MemorySource,
    sink: &mut MemorySink,
) -> Result<Status, NoMemory> {
    let mut mapper = MemoryMapper::new(alloc, &[], &[], 0, &[], PAGE as u32)?;
    let words = ["run", "--frames", "3"];
    Ok(run(
        alloc,
        &words,
        source,
        sink,
        &mut mapper,
        &mut Clock::new(),
        &mut ListedTurns::new(&[]),
    ))
}

// The first read of so many bytes at most fails, then the second, and so on until none fails. The
// lines that ended before are answered.
fn each_read_fails(
    rt: &impl Abort,
    alloc: Global,
    script: &[u8],
    most: usize,
) -> Result<(), NoMemory>
    requires { 1 ≤ most }
{
    for before in 0..200u32 {
        let fails = [before + 1];
        let mut source = MemorySource::new(script, &fails);
        source.chunk(most);
        let mut sink = MemorySink::new(alloc, 4096, &[])?;
        let status = replay_in_memory(alloc, &mut source, &mut sink)?;
        if status == Status::Done {
            assert_eq!(rt; sink.written(), first_replies(7), "{most}");
            assert!(rt;
                most.saturating_mul(before as usize) >= script.len(),
                "{most}"
            );
            return Ok(());
        }
        let ended = lines_in(script, most.saturating_mul(before as usize));
        assert_eq!(rt; status, Status::SourceFault, "{most} {before}");
        assert_eq!(rt; sink.written(), first_replies(ended), "{most} {before}");
    }
    panic!(rt; "each read fails");
}

#[test]
fn a_failed_read_ends_the_run_behind_the_lines_that_ended(rt: HostRuntime) -> Result<(), NoMemory> {
    let whole = LEAST_SUCCESS.as_bytes();
    for most in [1, 2, 3, 7, 4096] {
        each_read_fails(&rt, rt.alloc(), whole, most)?;
    }
    let unended = LEAST_SUCCESS.trim_end().as_bytes();
    each_read_fails(&rt, rt.alloc(), unended, 7)
}

// The first write fails, then the second, and so on until none fails. A read of 7 bytes ends one
// line at most. One of the whole script ends all of them, but a last line without a line feed,
// which is answered behind the last read.
#[test]
fn a_failed_write_ends_the_run(rt: HostRuntime) -> Result<(), NoMemory> {
    let whole = LEAST_SUCCESS.as_bytes();
    let unended = LEAST_SUCCESS.trim_end().as_bytes();
    for (script, most, fronts) in [
        (whole, 1, [0, 1, 2, 3, 4, 5, 6].as_slice()),
        (whole, 2, &[0, 1, 2, 3, 4, 5, 6]),
        (whole, 3, &[0, 1, 2, 3, 4, 5, 6]),
        (whole, 7, &[0, 1, 2, 3, 4, 5, 6]),
        (whole, 4096, &[0]),
        (unended, 7, &[0, 1, 2, 3, 4, 5, 6]),
        (unended, 4096, &[0, 6]),
    ] {
        for before in 0..8u32 {
            let mut sink = MemorySink::new(rt.alloc(), 4096, &[before + 1])?;
            let status = run_cut(rt.alloc(), "3", script, most, &mut sink)?;
            let (wanted, lines) = match fronts.get(before as usize) {
                Some(lines) => (Status::SinkFault, *lines),
                None => (Status::Done, 7),
            };
            assert_eq!(&rt; status, wanted, "{most} {before}");
            assert_eq!(&rt; sink.written(), first_replies(lines), "{most} {before}");
        }
    }
    Ok(())
}

#[test]
fn a_sink_without_room_has_a_front_of_the_replies(rt: HostRuntime) -> Result<(), NoMemory> {
    for most in [1, 6, 4096] {
        let mut sink = MemorySink::new(rt.alloc(), 11, &[])?;
        let status = run_cut(rt.alloc(), "8", b"actor\nactor\ntemp 1", most, &mut sink)?;
        assert_eq!(&rt; status, Status::SinkFault);
        assert_eq!(&rt; sink.written(), b"1 ok a1\n2 o".as_slice());
    }
    Ok(())
}
