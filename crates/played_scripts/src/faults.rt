// Calls of a mapper that fail one after the other.
ghost use Rattle.std.specs.Prelude.{◌≡◌, map};
ghost use Rattle.replay.specs.Commanding.{page_size_of};

use crate::mappers::images;
use crate::order::said;
use crate::writing::{text, written};
use replay::Status;
use std::alloc::Global;
use vm_ids::{NoMemory, PAGE};
use vm_port::{CallKind, CallNo, MemorySink};

// The line that tells a fault, counted from 0.
fn faulted(replies: &str) -> Option<usize> {
    replies
        .lines()
        .position(|reply| said(reply).starts_with("fault"))
}

// A script with a line that is no command in place of one.
fn without(alloc: Global, script: &str, gone: usize) -> Result<String, NoMemory> {
    let mut left = String::new(alloc);
    for (place, line) in script.lines().enumerate() {
        left.push_str(if place == gone { "x" } else { line })?;
        left.push_str("\n")?;
    }
    Ok(left)
}

// What these words write for a script, where these calls fail.
fn written_where(
    alloc: Global,
    words: &[&str],
    script: &str,
    fails: &[CallNo],
) -> Result<MemorySink, Status>
    requires { PAGE ≡ page_size_of (map (λ w. w.now) words.now) }
{
    let Ok(mut mapper) = images(alloc, fails) else {
        return Err(Status::NoMemory);
    };
    written(alloc, words, script, &mut mapper)
}

// Whether the replies to a script are the same without the line that tells a fault, but to that
// line.
fn are_the_same_without(
    alloc: Global,
    words: &[&str],
    script: &str,
    replies: &str,
    gone: usize,
) -> Result<bool, Status>
    requires { PAGE ≡ page_size_of (map (λ w. w.now) words.now) }
{
    let Ok(left) = without(alloc, script, gone) else {
        return Err(Status::NoMemory);
    };
    let others = written_where(alloc, words, left.as_str(), &[])?;
    let mut are_same = true;
    for (reply, other) in replies.lines().zip(text(&others).lines()) {
        are_same = are_same && (reply == other || said(other) == "no BadLine");
    }
    Ok(are_same)
}

/// One call of the mapper over [`images`](crate::images) fails, the first of its kind, then the
/// second, till none does. Whether each other line is answered as if there were no line in the place
/// of the one that tells it. The status, where a run isn't done, and `NoMemory` where there is none
/// for a mapper.
pub fn are_answered_beside_faults(
    alloc: Global,
    words: &[&str],
    script: &str,
    kind: CallKind,
) -> Result<bool, Status>
    requires { PAGE ≡ page_size_of (map (λ w. w.now) words.now) }
{
    for nth in 1..60 {
        let sink = written_where(alloc, words, script, &[CallNo { kind, nth }])?;
        let replies = text(&sink);
        let Some(gone) = faulted(replies) else {
            return Ok(true);
        };
        if !are_the_same_without(alloc, words, script, replies, gone)? {
            return Ok(false);
        }
    }
    Ok(true)
}
