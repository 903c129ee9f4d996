// The machine that copies at once, over a mapper of its own.
ghost use Rattle.std.specs.Prelude.{◌≡◌, ◌≤◌, ◌^◌, Some};
ghost use Rattle.vm_model.specs.declared.limits.TheConstants.{LIVE_PAGES};
ghost use Rattle.vm_model.specs.Asking.{IsWellFormed};
ghost use Rattle.vm_model.specs.Machine.{Machine, live_pages};
ghost use Rattle.vm_port.specs.Mapping.{MapperInMemory, held_of};
ghost use Rattle.gmi_calls.specs.Backing.{IsReady};

use actor_script::{read_line, write_reply};
use gmi_calls::answer;
use std::alloc::Global;
use std::marker::Model;
use vm_ids::{Answer, Command, NoMemory, Trouble};
use vm_model::EagerMachine;
use vm_port::{Clock, MemoryMapper, MemorySink};

// The replies to a script have so many bytes at most.
const ROOM: usize = 65536;

/// The machine that copies at once, with a mapper of its own.
#[derive(Drop)]
pub struct Plain {
    machine: EagerMachine,
    mapper: MemoryMapper,
}

impl Model for Plain {
    ghost Value = { Machine × MapperInMemory };

    ghost view = { λ p. (p.machine, p.mapper) };

    ghost invariant = { λ p. IsReady p.machine (Some (held_of p.mapper))
        × (p.mapper.page_bytes ≡ p.machine.page_bytes) × (live_pages p.machine ≤ LIVE_PAGES) };
}

impl Plain {
    /// The machine that begins, over this mapper, whose pages have as many bytes as its own, at
    /// most 65,536. It locks pages as so many page frames allow.
    pub fn new(alloc: Global, frames: u32, page_bytes: u32, mapper: MemoryMapper) -> Plain
        requires most { page_bytes ≤ 2 ^ 16 }
        requires same { mapper.page_bytes ≡ page_bytes }
    {
        Plain {
            machine: EagerMachine::new(alloc, frames, page_bytes),
            mapper,
        }
    }

    /// Its mapper.
    pub fn mapper(&self) -> &MemoryMapper {
        &self.mapper
    }

    /// What it answers to a command.
    pub fn answer(&mut self, command: &Command) -> Answer
        requires { IsWellFormed command.now }
    {
        answer(
            &mut self.machine,
            command,
            &mut self.mapper,
            &mut Clock::new(),
        )
    }

    // What it answers to a line of a script.
    fn answer_line(&mut self, line: &str) -> Answer {
        match read_line(line.as_bytes()) {
            Ok(command) => self.answer(&command),
            Err(refusal) => Err(Trouble::Refused(refusal)),
        }
    }

    /// The replies to a script, each as a line: those that 65,536 bytes have room for.
    pub fn replies(&mut self, alloc: Global, script: &str) -> Result<MemorySink, NoMemory> {
        let mut sink = MemorySink::new(alloc, ROOM, &[])?;
        let mut number = 0u32;
        for line in script.lines() {
            number = number.wrapping_add(1);
            let answer = self.answer_line(line);
            if write_reply(number, &answer, &mut sink).is_err() {
                break;
            }
        }
        Ok(sink)
    }
}
