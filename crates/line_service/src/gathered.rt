// Replies that wait to be written.
ghost use Rattle.std.specs.Prelude.{◌≡◌, ℕ, List, Some, [], ◌<◌, ◌≤◌, ◌++◌, codes, length, take, option_map, if◌then◌else◌, IfOk, OnOk, OnErr, true, nat_le};
ghost use Rattle.vm_ids.specs.Counting.{HasCause, last_count};
ghost use Rattle.actor_script.specs.Text.{text_of};
ghost use Rattle.actor_script.specs.Writing.{Writes, Wrote};
ghost use Rattle.line_service.specs.Gathering.{Gathers, GathersFront, Grew, HasRoomFor, most_gathered, with_gathered};

use crate::Replies;
use actor_script::write_reply;
use arrayvec::ArrayVec;
use std::marker::Model;
use vm_ids::Answer;
use vm_port::{Failed, Sink};

// So many bytes are gathered at most.
const ROOM: usize = 4096;

/// The lines of replies that wait to be written, at most 4,096 bytes. It is seen as their bytes,
/// and takes no memory.
#[derive(Drop)]
pub struct Gathered {
    bytes: ArrayVec<u8, ROOM>,
}

impl Model for Gathered {
    ghost Value = { List ℕ };

    ghost view = { λ g. g.bytes.items };
}

impl Gathered {
    /// Nothing is gathered yet.
    pub fn new() -> Gathered
        ensures { result ≡ [] }
    {
        Gathered {
            bytes: ArrayVec::new(),
        }
    }

    /// Writes what is gathered. `Failed` only where the sink's count of faults rose; then what it
    /// didn't take stays.
    pub fn flush<K: Sink>(&mut self, sink: &mut K) -> Result<(), Failed>
        ensures empty { OnOk result (self.new ≡ []) }
        ensures kept { with_gathered (K.written sink.new) self.new
            ≡ with_gathered (K.written sink.old) self.old }
        ensures grew { Grew (K.written sink.old) (K.written sink.new) }
        ensures cause { HasCause (K.faults sink.old) (K.faults sink.new) result }
    {
        while !self.bytes.is_empty() {
            let count = sink.write(self.bytes.as_slice())?;
            self.bytes.drain(..count);
        }
        Ok(())
    }

    // Gathers the line of a reply, where there is room for all of it, and tells whether there is.
    fn gather(&mut self, number: u32, answer: &Answer) -> bool
        ensures line { self.new
            ≡ (if result then self.old ++ text_of number answer.now else self.old) }
        ensures fits { HasRoomFor self.old (text_of number answer.now) → result ≡ true }
    {
        let before = self.bytes.len();
        if write_reply(number, answer, self).is_err() {
            self.bytes.truncate(before);
            return false;
        }
        true
    }

    /// Gathers the line of a reply, which waits while the buffer isn't full. Where no room is left
    /// behind what is gathered, that is written first; a line longer than 4,096 bytes is written at
    /// once.
    ///
    /// `Failed` only where the sink's count of faults rose; then a front of the line was written or
    /// gathered.
    pub fn put_reply<K: Sink>(
        &mut self,
        number: u32,
        answer: &Answer,
        sink: &mut K,
    ) -> Result<(), Failed>
        ensures wrote { Wrote result (with_gathered (K.written sink.old) self.old)
            (with_gathered (K.written sink.new) self.new) (text_of number answer.now) }
        ensures waits { HasRoomFor self.old (text_of number answer.now) →
            (self.new ≡ self.old ++ text_of number answer.now) × (sink.new ≡ sink.old) }
        ensures grew { Grew (K.written sink.old) (K.written sink.new) }
        ensures cause { HasCause (K.faults sink.old) (K.faults sink.new) result }
    {
        if self.gather(number, answer) {
            return Ok(());
        }
        self.flush(sink)?;
        if self.gather(number, answer) {
            return Ok(());
        }
        write_reply(number, answer, sink)
    }

    // Gathers a line and a line feed, for which there is room.
    fn append(&mut self, line: &[u8])
        requires { HasRoomFor self.old line.now }
        ensures { self.new ≡ self.old ++ (line.now ++ codes "\n") }
    {
        let _ = self.bytes.try_extend_from_slice(line);
        let _ = self.bytes.try_extend_from_slice(b"\n");
    }

    /// Gathers a line and a line feed. Where no room is left behind what is gathered, that is
    /// written first.
    ///
    /// `Failed` only where the sink's count of faults rose; then a front of what was gathered was
    /// written.
    pub fn put_line<K: Sink>(&mut self, line: &[u8], sink: &mut K) -> Result<(), Failed>
        requires { length line.now ≤ 256 }
        ensures wrote { Wrote result (with_gathered (K.written sink.old) self.old)
            (with_gathered (K.written sink.new) self.new) (line.now ++ codes "\n") }
        ensures grew { Grew (K.written sink.old) (K.written sink.new) }
        ensures cause { HasCause (K.faults sink.old) (K.faults sink.new) result }
    {
        if line.len() < self.bytes.remaining_capacity() {
            self.append(line);
            return Ok(());
        }
        self.flush(sink)?;
        self.append(line);
        Ok(())
    }
}

// A write fails exactly where no room is left: the count of its faults is 0 before, and at its end
// then.
impl Sink for Gathered {
    ghost written = { λ g. Some g };

    ghost faults = { λ g. if nat_le most_gathered (length g) then last_count else 0 };

    fn write(&mut self, from: &[u8]) -> Result<usize, Failed> {
        let count = self.bytes.remaining_capacity().min(from.len());
        if count == 0 {
            return Err(Failed);
        }
        let _ = self.bytes.try_extend_from_slice(&from[..count]);
        Ok(count)
    }
}

// The answers are gathered as the lines of their replies.
impl<K: Sink> Replies<K> for Gathered {
    ghost fits = { λ g more. Unit {0} };

    ghost puts = { λ before number answer after.
        Gathers K.Sink Writes before after (text_of number answer) };

    ghost fails = { λ before number answer after.
        GathersFront K.Sink before after (text_of number answer) };

    fn put(&mut self, number: u32, answer: &Answer, sink: &mut K) -> Result<(), Failed> {
        self.put_reply(number, answer, sink)
    }
}
