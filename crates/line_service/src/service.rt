// Whoever answers the lines of a script.
ghost use Rattle.std.specs.Prelude.{◌≡◌, ◌≤◌, ◌+◌, ◌^◌, ℕ, Bool, true, false, List, length, Option, Some, None, IfSome, IfNone, IsOk};
ghost use Rattle.std.specs.List.{AllByRecursion};
ghost use Rattle.vm_ids.specs.Held.{Held};
ghost use Rattle.vm_ids.specs.declared.access.Access.{Access};
ghost use Rattle.vm_ids.specs.declared.numbers.ActorId.{ActorId};
ghost use Rattle.vm_model.specs.Steps.{Semantics};
ghost use Rattle.line_service.specs.Script.{front_of_line};
ghost use Rattle.line_service.specs.Serving.{AnswersBy, AnyRise, AreDistinct, IsDoneOrFault, IsReadSomewhere, NoMoreReady, StillAdmits, StillLive, Waits, answer_budget};
ghost use Rattle.gmi_calls.specs.Parking.{IsDelivered, NoPull};

use gmi_calls::Delivered;
use vm_ids::{Access, ActorId, Answer};
use vm_port::{Chooser, Mapper};

/// Whoever answers the lines of a script.
///
/// An access, which is a load or a store of an actor, is issued, and is answered at once or has to
/// wait for its page; then it is delivered some time. Any other line is answered at once. A service
/// whose lines are never accesses says `None` of each, and answers an access that is issued all the
/// same as the refused line that it is.
pub trait Service<M: Mapper, C: Chooser> {
    /// What the lines of a script mean to it.
    ghost semantics: { Semantics };

    /// What a line is read as.
    ghost read: { List ℕ → semantics.Read };

    /// What an access of an actor is as a line that was read.
    ghost access_of: { ActorId → Access → semantics.Read };

    /// The state that it stands for, given what the mapper holds, where that is told.
    ghost state: { Self → Option Held → semantics.State };

    /// What each call needs, and keeps, given what the mapper holds and how many bytes its pages
    /// have, where they are told.
    ghost able: { Self → Option Held → Option ℕ → Type 0 };

    /// A number by which it bounds its counters, so that none of them wraps.
    ghost made: { Self → ℕ };

    /// Whether an access of an actor needs no page to be brought in.
    ghost ready: { Self → ActorId → Access → Bool };

    /// What was found to be refused by nothing, and can't be refused any more while accesses alone
    /// are answered.
    ghost admits: { Self → semantics.Read → Type 0 };

    /// The actor of this number is alive, given what the mapper holds.
    ghost lives: { Self → Option Held → ℕ → Type 0 };

    /// The access that a line is. `None` exactly where it is none.
    fn access_in(&self, line: &[u8]) -> Option<(ActorId, Access)>
        ensures access { IfSome result (λ p. access_of p.0 p.1 ≡ read line.now) }
        ensures actor { IfSome result
            (λ p. semantics.actor_of (read line.now) ≡ Some p.0.0) }
        ensures other { IfNone result (semantics.actor_of (read line.now) ≡ None) };

    /// Answers a line that is no access.
    fn answer(&mut self, line: &[u8], mapper: &mut M, chooser: &mut C) -> Answer
        requires other { semantics.actor_of (read line.now) ≡ None }
        requires able { able self.old (M.held mapper.old) (M.page_bytes mapper.old) }
        requires made { made self.old ≤ 2 ^ 61 }
        ensures able { able self.new (M.held mapper.new) (M.page_bytes mapper.new) }
        ensures made { made self.new ≤ made self.old + answer_budget }
        ensures answered { AnswersBy semantics AnyRise (M.counts mapper.old) (M.counts mapper.new)
            (state self.old (M.held mapper.old)) (read line.now) result
            (state self.new (M.held mapper.new)) };

    /// Issues an access: it is answered, or has to wait for its page, which is `None`. It waits
    /// only where nothing refuses it and it isn't ready; a call of the mapper may have failed all
    /// the same. No page is pulled. It takes no memory.
    fn issue(
        &mut self,
        actor: ActorId,
        access: &Access,
        mapper: &mut M,
        chooser: &mut C,
    ) -> Option<Answer>
        requires read { IsReadSomewhere read (access_of actor access.now) }
        requires able { able self.old (M.held mapper.old) (M.page_bytes mapper.old) }
        requires made { made self.old ≤ 2 ^ 61 }
        ensures able { able self.new (M.held mapper.new) (M.page_bytes mapper.new) }
        ensures made { IfSome result (λ _. made self.new ≤ made self.old + answer_budget) }
        ensures answered { IfSome result (λ answer. AnswersBy semantics NoPull
            (M.counts mapper.old) (M.counts mapper.new)
            (state self.old (M.held mapper.old)) (access_of actor access.now) answer
            (state self.new (M.held mapper.new))) }
        ensures at_hand { IfSome result
            (λ answer. IsOk answer → ready self.old actor access.now ≡ true) }
        ensures waits { IfNone result (Waits semantics (M.counts mapper.old) (M.counts mapper.new)
            (state self.old (M.held mapper.old)) (access_of actor access.now)
            (state self.new (M.held mapper.new))) }
        ensures not_ready { IfNone result (ready self.old actor access.now ≡ false) }
        ensures admitted { IfNone result (admits self.new (access_of actor access.now)) }
        ensures alive { IfNone result (lives self.new (M.held mapper.new) actor.0) }
        ensures unmade { IfNone result (made self.new ≡ made self.old) }
        ensures no_more_ready { NoMoreReady ready self.old self.new }
        ensures still_admits { StillAdmits admits self.old self.new }
        ensures still_live { StillLive lives self.old (M.held mapper.old)
            self.new (M.held mapper.new) };

    /// Carries an access out that waited: its page is brought in where it isn't at hand. `came` is
    /// false exactly where the page wasn't at hand and couldn't be pulled, or a trouble came before
    /// any pull. It takes no memory.
    fn deliver(
        &mut self,
        actor: ActorId,
        access: &Access,
        mapper: &mut M,
        chooser: &mut C,
    ) -> Delivered
        requires read { IsReadSomewhere read (access_of actor access.now) }
        requires able { able self.old (M.held mapper.old) (M.page_bytes mapper.old) }
        requires made { made self.old ≤ 2 ^ 61 }
        ensures able { able self.new (M.held mapper.new) (M.page_bytes mapper.new) }
        ensures made { made self.new ≤ made self.old + answer_budget }
        ensures delivered { AnswersBy semantics
            (IsDelivered (ready self.old actor access.now) result)
            (M.counts mapper.old) (M.counts mapper.new)
            (state self.old (M.held mapper.old)) (access_of actor access.now) result.answer
            (state self.new (M.held mapper.new)) }
        ensures unrefused { admits self.old (access_of actor access.now)
            → IsDoneOrFault result.answer }
        ensures no_more_ready { result.came ≡ false → NoMoreReady ready self.old self.new }
        ensures still_admits { StillAdmits admits self.old self.new }
        ensures still_live { StillLive lives self.old (M.held mapper.old)
            self.new (M.held mapper.new) };

    /// At most 256 actors are alive.
    ghost few: { (v : Self) (held : Option Held) (page_bytes : Option ℕ) (actors : List ℕ)
        → able v held page_bytes → AreDistinct actors → AllByRecursion (lives v held) actors
        → length actors ≤ 256 };

    /// A line is read as its first 257 bytes are, enough to tell that it is too long.
    ghost fronts: { (line : List ℕ) → read (front_of_line line) ≡ read line };
}
