// The messages on standard error.
use crate::waiting::write_waiting;
use std::fmt::Display;
use std::io::Write;
use std::rt::Clock;

// A message has at most this many bytes: more than the longest path that the system knows, and
// what is said of it. What is longer is cut.
const ROOM: usize = 4096 + 256;

/// Writes a line on standard error, by one call where that takes it at once. Where it has no room
/// yet it is asked again, as standard output is. Where nobody takes the line nobody is told.
pub fn tell<D: Display + Drop>(rt: &HostRuntime, text: D) {
    let mut room = [0u8; ROOM];
    let mut rest = room.as_mut_slice();
    let _ = rest.writeln(text);
    let count = ROOM.saturating_sub(rest.len());
    write_whole(&mut rt.stderr(), rt, &room[..count]);
}

// Writes these bytes, or those in front of a call that fails.
fn write_whole<W: Write, C: Clock>(writer: &mut W, clock: &C, from: &[u8]) {
    let mut rest = from;
    for _ in 0..u64::MAX {
        if rest.is_empty() {
            return;
        }
        match write_waiting(writer, clock, rest) {
            Ok(count) if count > 0 => rest = &rest[count..],
            _ => return,
        }
    }
}
