// The replies to a script, and the order in which its lines were answered.
use actor_script::read_number;
use std::alloc::Global;
use vm_ids::NoMemory;

/// A reply without the number of its line.
pub fn said(reply: &str) -> &str {
    match reply.split_once(" ") {
        Some((_, rest)) => rest,
        None => reply,
    }
}

/// The number of the line that a reply answers, or 0 where it has none.
pub fn number_of(reply: &str) -> u32 {
    match reply.split_once(" ") {
        Some((number, _)) => read_number(number.as_bytes()).unwrap_or(0),
        None => 0,
    }
}

/// The lines of a script in the order in which these replies answer them.
pub fn as_answered(alloc: Global, script: &str, replies: &str) -> Result<String, NoMemory> {
    let mut lines = Vec::new(alloc);
    for line in script.lines() {
        lines.push(line)?;
    }
    let mut answered = String::new(alloc);
    for reply in replies.lines() {
        let place = number_of(reply).wrapping_sub(1);
        answered.push_str(lines.get(place as usize).unwrap_or(&""))?;
        answered.push_str("\n")?;
    }
    Ok(answered)
}
