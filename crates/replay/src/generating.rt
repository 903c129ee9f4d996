// The lines of a script that a number makes, written.
ghost use Rattle.std.specs.Prelude.{◌≡◌, ◌≤◌};
ghost use Rattle.vm_ids.specs.Counting.{HasCause, Rose};
ghost use Rattle.actor_script.specs.Writing.{Wrote};
ghost use Rattle.replay.specs.Ending.{lines_made, with_feeds, WritesAs};

use crate::Status;
use crate::asked::Generated;
use actor_script::Gen;
use line_service::Gathered;
use vm_port::{Failed, Sink};

// Writes the lines of the script.
fn write_lines<K: Sink>(script: Generated, sink: &mut K) -> Result<(), Failed>
    ensures wrote { Wrote result (K.written sink.old) (K.written sink.new)
        (with_feeds (lines_made script)) }
    ensures cause { HasCause (K.faults sink.old) (K.faults sink.new) result }
{
    let mut lines = Gen::new(script.number);
    let mut gathered = Gathered::new();
    for _line in 0..script.lines {
        gathered.put_line(lines.next_line().as_slice(), sink)?;
    }
    gathered.flush(sink)
}

/// Writes the lines of the script. It takes no memory.
pub fn generate<K: Sink>(script: Generated, sink: &mut K) -> Status
    ensures writes { WritesAs result (K.written sink.old) (K.written sink.new)
        (with_feeds (lines_made script)) }
    ensures sink_fault { result ≡ Status.SinkFault →
        Rose (K.faults sink.old) (K.faults sink.new) }
{
    match write_lines(script, sink) {
        Ok(()) => Status::Done,
        Err(_) => Status::SinkFault,
    }
}
