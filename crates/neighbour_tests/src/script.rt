// A drawn script that grows line by line, with what it is to be answered.
use std::alloc::Global;
use vm_ids::NoMemory;

// A drawn line, and what it is to be answered.
#[derive(Drop)]
pub(crate) struct Turn {
    pub(crate) line: String,
    pub(crate) reply: String,
}

// A drawn script, and what it is to be answered.
#[derive(Drop)]
pub(crate) struct Script {
    pub(crate) script: String,
    pub(crate) replies: String,
}

impl Script {
    pub(crate) fn new(alloc: Global) -> Script {
        Script {
            script: String::new(alloc),
            replies: String::new(alloc),
        }
    }

    // Adds a line, which has this number.
    pub(crate) fn add(&mut self, alloc: Global, number: u32, turn: &Turn) -> Result<(), NoMemory> {
        self.script
            .push_str(format!(in alloc; "{}\n", turn.line.as_str())?.as_str())?;
        self.replies.push_str(format!(in alloc; "{number} {}\n", turn.reply.as_str())?.as_str())?;
        Ok(())
    }
}
