// A manager with all that it needs.
ghost use Rattle.std.specs.Prelude.{◌≡◌, ◌≤◌, ◌^◌, IfOk, nat_lt};
ghost use Rattle.vm_model.specs.Asking.{IsWellFormed};
ghost use Rattle.chorus_c.specs.Parts.{Answers, IsOpened, raised_by};

use gmi_calls::answer;
use pvm_core::Pvm;
use std::alloc::Global;
use std::marker::Model;
use vm_ids::{Answer, Command, NoMemory};
use vm_model::LIVE_PAGES;
use vm_port::{Clock, MemoryMapper};

// The counters may be raised while their bound is no greater.
const MOST_BOUND: u64 = 1 << 62;

/// A demand-paged manager with swap slots in memory and a policy of eviction. It keeps a number
/// that its counters don't pass, so a command can be given whenever that is within its limit.
#[derive(Drop)]
pub struct Chorus {
    manager: Pvm,
    mapper: MemoryMapper,
    chooser: Clock,
    bound: u64,
}

impl Model for Chorus {
    ghost use Rattle.chorus_c.specs.Parts.{IsKept, Parts, parts_code};

    ghost Value = { Parts };

    ghost coded = { parts_code };

    ghost view = { λ c. record { manager = c.manager; mapper = c.mapper; bound = c.bound } };

    ghost invariant = { λ c. IsKept (record {
      manager = c.manager;
      mapper = c.mapper;
      bound = c.bound;
    }) };
}

// By how much a command may raise the counters.
fn raised_by(command: &Command) -> u64
    ensures { result ≡ raised_by command.now }
{
    match command {
        Command::Load(..) | Command::Store(..) => 16,
        _ => 32 * LIVE_PAGES as u64 + 8,
    }
}

impl Chorus {
    /// The machine that begins, with so many page frames, at least three, pages of `page` bytes,
    /// and `swap` swap slots.
    pub fn new(alloc: Global, frames: u32, page: u32, swap: u32) -> Result<Chorus, NoMemory>
        requires few { 3 ≤ frames }
        requires frames { frames ≤ 2 ^ 16 }
        requires some { 1 ≤ page }
        requires page { page ≤ 2 ^ 16 }
        ensures { IfOk result (IsOpened frames page swap) }
    {
        let manager = Pvm::new(alloc, frames, page)?;
        let mapper = MemoryMapper::new(alloc, &[], &[], swap, &[], page)?;
        Ok(Chorus {
            manager,
            mapper,
            chooser: Clock::new(),
            bound: 0,
        })
    }

    /// Whether the bound of its counters is past its limit.
    pub fn is_worn(&self) -> bool
        ensures { result ≡ nat_lt (2 ^ 62) self.now.bound }
    {
        self.bound > MOST_BOUND
    }

    /// What it answers to a command.
    #[tactic(auto, using(crate::proofs::Raising::raises))]
    pub fn answer(&mut self, command: &Command) -> Answer
        requires formed { IsWellFormed command.now }
        requires bound { self.old.bound ≤ 2 ^ 62 }
        ensures { Answers self.old command.now result self.new }
    {
        let answer = answer(
            &mut self.manager,
            command,
            &mut self.mapper,
            &mut self.chooser,
        );
        self.bound += raised_by(command);
        answer
    }
}
