// Calls on streams that don't wait by themselves.
ghost use Rattle.std.specs.Io.{ReadsAtMost, WritesAtMost};

use std::io::{Error, ErrorKind, Read, Write};
use std::rt::Clock;
use std::time::Duration;
use std::{io, thread};

/// Reads, as often as it takes: again at once where a signal broke the call off, and after a pause
/// where nothing has come yet and the reader doesn't wait for it.
pub fn read_waiting<R: Read, C: Clock>(
    reader: &mut R,
    clock: &C,
    into: &mut [u8],
) -> io::Result<usize>
    ensures { ReadsAtMost result into.new }
{
    for _ in 0..u64::MAX {
        match reader.read(into) {
            Err(e) if is_to_repeat(&e, clock) => {}
            done => return done,
        }
    }
    Err(Error::from(ErrorKind::WouldBlock))
}

/// Writes likewise.
pub fn write_waiting<W: Write, C: Clock>(
    writer: &mut W,
    clock: &C,
    from: &[u8],
) -> io::Result<usize>
    ensures { WritesAtMost result from.now }
{
    for _ in 0..u64::MAX {
        match writer.write(from) {
            Err(e) if is_to_repeat(&e, clock) => {}
            done => return done,
        }
    }
    Err(Error::from(ErrorKind::WouldBlock))
}

// Whether the call is to be made again. It pauses first where it would come to nothing at once.
fn is_to_repeat<C: Clock>(error: &Error, clock: &C) -> bool {
    match error.kind() {
        ErrorKind::Interrupted => true,
        ErrorKind::WouldBlock => {
            thread::sleep(clock, Duration::from_millis(1));
            true
        }
        _ => false,
    }
}
