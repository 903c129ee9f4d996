// Lines that are answered at once, one after another.
ghost use Rattle.std.specs.Prelude.{◌≡◌, ◌≤◌, ◌+◌, ◌^◌, ℕ, false, List, Err, IfOk, Ok, Option};
ghost use Rattle.vm_ids.specs.Held.{Held};
ghost use Rattle.vm_ids.specs.declared.refusal.Refusal.TheVariants.{BadLine};
ghost use Rattle.line_service.specs.Script.{front_of_line};
ghost use Rattle.line_service.specs.Serving.{AnswersBy, AnyRise, answer_budget};
ghost use Rattle.replay.specs.AtOnce.{Meaning, Read, at_once};
ghost use Rattle.replay.specs.Few.{nobody};

use gmi_calls::Delivered;
use line_service::Service;
use vm_ids::{Access, ActorId, Answer, Refusal, Trouble};
use vm_port::{Chooser, Mapper};

/// Whoever answers each command of a script at once.
pub trait Answerer<M: Mapper, C: Chooser> {
    /// A command of the script.
    type Command: Drop;

    /// What the commands mean.
    ghost meaning: { Meaning Self.Command };

    /// What a line is read as.
    ghost read: { List ℕ → Read Self.Command };

    /// What a command that was read keeps to.
    ghost formed: { Self.Command → Type 0 };

    /// The state that it stands for, given what the mapper holds, where that is told.
    ghost state: { Self → Option Held → meaning.State };

    /// What each call needs, and keeps, given what the mapper holds and how many bytes its pages
    /// have, where they are told.
    ghost able: { Self → Option Held → Option ℕ → Type 0 };

    /// A number by which it bounds its counters, so that none of them wraps.
    ghost made: { Self → ℕ };

    /// Reads a line as a command.
    fn read_line(&self, line: &[u8]) -> Result<Self::Command, Refusal>
        ensures command { result ≡ read line.now }
        ensures formed { IfOk result formed };

    /// Answers a command.
    fn answer_command(&mut self, command: &Self::Command, mapper: &mut M, chooser: &mut C) -> Answer
        requires formed { formed command.now }
        requires able { able self.old (M.held mapper.old) (M.page_bytes mapper.old) }
        requires made { made self.old ≤ 2 ^ 61 }
        ensures able { able self.new (M.held mapper.new) (M.page_bytes mapper.new) }
        ensures made { made self.new ≤ made self.old + answer_budget }
        ensures answered { AnswersBy (at_once meaning) AnyRise (M.counts mapper.old)
            (M.counts mapper.new) (state self.old (M.held mapper.old)) (Ok command.now) result
            (state self.new (M.held mapper.new)) };

    /// A line is read as its first 257 bytes are, enough to tell that it is too long.
    ghost fronts: { (line : List ℕ) → read (front_of_line line) ≡ read line };
}

/// The lines of a script, whose commands are answered at once.
#[derive(Drop)]
pub struct AtOnce<A> {
    pub answerer: A,
}

impl<A: Answerer<M, C>, M: Mapper, C: Chooser> Service<M, C> for AtOnce<A> {
    ghost semantics = { at_once A.meaning };

    ghost read = { A.read };

    ghost access_of = { λ actor access. Err BadLine };

    ghost state = { λ s held. A.state s.answerer held };

    ghost able = { λ s held page_bytes. A.able s.answerer held page_bytes };

    ghost made = { λ s. A.made s.answerer };

    ghost ready = { λ s actor access. false };

    ghost admits = { λ s read. ⊥ };

    ghost few = { λ s held page_bytes actors can. nobody actors };

    ghost fronts = { A.fronts };

    ghost lives = { λ s held actor. ⊥ };

    fn access_in(&self, _line: &[u8]) -> Option<(ActorId, Access)> {
        None
    }

    fn answer(&mut self, line: &[u8], mapper: &mut M, chooser: &mut C) -> Answer {
        let command = self.answerer.read_line(line)?;
        self.answerer.answer_command(&command, mapper, chooser)
    }

    fn issue(
        &mut self,
        _actor: ActorId,
        _access: &Access,
        _mapper: &mut M,
        _chooser: &mut C,
    ) -> Option<Answer> {
        Some(Err(Trouble::Refused(Refusal::BadLine)))
    }

    fn deliver(
        &mut self,
        _actor: ActorId,
        _access: &Access,
        _mapper: &mut M,
        _chooser: &mut C,
    ) -> Delivered {
        Delivered {
            answer: Err(Trouble::Refused(Refusal::BadLine)),
            came: false,
        }
    }
}
