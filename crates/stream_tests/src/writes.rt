// How many writes a run takes, when a reply is out, and how long a script may be.
ghost use Rattle.std.specs.Prelude.{None};

use played_scripts::run_source;
use replay::Status;
use std::cell::Cell;
use vm_ids::NoMemory;
use vm_port::{Failed, MemorySink, MemorySource, Sink, Source};

// What went out of a run: how many writes, and how many lines.
#[derive(Drop)]
struct Seen {
    writes: Cell<u32>,
    lines: Cell<u32>,
}

impl Seen {
    fn new() -> Seen {
        Seen {
            writes: Cell::new(0),
            lines: Cell::new(0),
        }
    }
}

// A sink that counts its writes and their lines.
#[derive(Drop)]
struct Counting<'a> {
    seen: &'a Seen,
}

impl Sink for Counting<'_> {
    ghost written = { λ _. None };

    ghost faults = { λ _. 0 };

    fn write(&mut self, from: &[u8]) -> Result<usize, Failed> {
        self.seen
            .writes
            .set(self.seen.writes.get().saturating_add(1));
        for byte in from {
            if *byte == b'\n' {
                self.seen.lines.set(self.seen.lines.get().saturating_add(1));
            }
        }
        Ok(from.len())
    }
}

// A source that gives so many lines `stat`, one a read, and counts the reads at which a reply to an
// earlier line wasn't out.
#[derive(Drop)]
struct Asking<'a> {
    seen: &'a Seen,
    given: u32,
    most: u32,
    late: u32,
}

impl Source for Asking<'_> {
    ghost left = { λ _. None };

    ghost faults = { λ _. 0 };

    fn read(&mut self, into: &mut [u8]) -> Result<usize, Failed> {
        if self.seen.lines.get() != self.given {
            self.late = self.late.saturating_add(1);
        }
        if self.given >= self.most || into.len() < 5 {
            return Ok(0);
        }
        into[..5].copy_from_slice(b"stat\n");
        self.given += 1;
        Ok(5)
    }
}

#[test]
fn each_reply_is_out_before_the_next_read(rt: HostRuntime) -> Result<(), NoMemory> {
    let seen = Seen::new();
    let mut source = Asking {
        seen: &seen,
        given: 0,
        most: 20,
        late: 0,
    };
    let mut sink = Counting { seen: &seen };
    let words = ["run", "--frames", "3"];
    let status = run_source(rt.alloc(), &words, &mut source, &mut sink)?;
    assert_eq!(&rt; status, Status::Done);
    assert_eq!(&rt; source.late, 0);
    assert_eq!(&rt; (seen.writes.get(), seen.lines.get()), (20, 20));
    Ok(())
}

// The 200 replies have 6,892 bytes.
#[test]
fn the_replies_of_one_read_take_few_writes(rt: HostRuntime) -> Result<(), NoMemory> {
    let mut script = Vec::new(rt.alloc());
    for _ in 0..200 {
        script.extend_from_slice(b"stat\n")?;
    }
    let seen = Seen::new();
    let mut source = MemorySource::new(&script, &[]);
    let mut sink = Counting { seen: &seen };
    let words = ["run", "--frames", "3"];
    let status = run_source(rt.alloc(), &words, &mut source, &mut sink)?;
    assert_eq!(&rt; status, Status::Done);
    assert_eq!(&rt; (seen.writes.get(), seen.lines.get()), (2, 200));
    Ok(())
}

// A source of one letter, so many times.
#[derive(Drop)]
struct Repeated {
    letter: u8,
    left: usize,
}

impl Source for Repeated {
    ghost left = { λ _. None };

    ghost faults = { λ _. 0 };

    fn read(&mut self, into: &mut [u8]) -> Result<usize, Failed> {
        let count = self.left.min(into.len());
        into[..count].fill(self.letter);
        self.left -= count;
        Ok(count)
    }
}

#[test]
fn the_longest_script_has_67108864_bytes(rt: HostRuntime) -> Result<(), NoMemory> {
    for (left, status, replies) in [
        (67108864, Status::Done, "1 no BadLine\n"),
        (67108865, Status::TooLong, ""),
    ] {
        let mut source = Repeated { letter: b'x', left };
        let mut sink = MemorySink::new(rt.alloc(), 4096, &[])?;
        let words = ["run", "--frames", "8"];
        let found = run_source(rt.alloc(), &words, &mut source, &mut sink)?;
        assert_eq!(&rt; found, status);
        assert_eq!(&rt; sink.written(), replies.as_bytes());
    }
    Ok(())
}
