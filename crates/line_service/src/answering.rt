// One line, answered or parked.
ghost use Rattle.std.specs.Prelude.{◌≡◌, ◌≤◌, ◌+◌, ◌^◌, ℕ, true, Some, None, length, slice_get, List, OnOk};
ghost use Rattle.line_service.specs.Going.{IsScript, Known, scene_of};
ghost use Rattle.line_service.specs.Parking.{AreAway, CanServe, GoesOn, is_none_parked, made_with};
ghost use Rattle.line_service.specs.Serving.{IsReadSomewhere, answer_budget};

use crate::asking::{ask, wait_for};
use crate::{Replies, Service};
use pull_wait::PullWait;
use vm_ids::{Access, ActorId, Parked};
use vm_port::{Chooser, Dispatcher, Failed, Mapper};

// An access: it is answered, or parked, once no access of its actor is parked.
fn answer_access<V: Service<M, C>, M: Mapper, C: Chooser, D: Dispatcher, R: Replies<K>, K>(
    service: &mut V,
    mapper: &mut M,
    chooser: &mut C,
    waits: &mut PullWait,
    dispatcher: &mut D,
    replies: &mut R,
    sink: &mut K,
    number: u32,
    actor: ActorId,
    access: Access,
) -> Result<(), Failed>
    requires read { IsReadSomewhere V.read (V.access_of actor access) }
    requires actor { V.semantics.actor_of (V.access_of actor access) ≡ Some actor.0 }
    requires able { CanServe V.Service M.Mapper service.old mapper.old waits.old }
    requires away { AreAway V.Service service.old waits.old }
    requires made { made_with V.Service service.old waits.old ≤ 2 ^ 60 }
    requires fits { (more : ℕ) × R.fits replies.old (length waits.old + (more + 1)) }
    ensures able { CanServe V.Service M.Mapper service.new mapper.new waits.new }
    ensures made { made_with V.Service service.new waits.new
        ≤ made_with V.Service service.old waits.old + answer_budget }
    ensures fits { OnOk result
        ((more : ℕ) → R.fits replies.old (length waits.old + (more + 1))
        → R.fits replies.new (length waits.new + more)) }
    ensures away { OnOk result (AreAway V.Service service.new waits.new) }
    ensures goes { (known : Known V.semantics.Read) (issued : ℕ) → number ≡ issued + 1
        → ((script : List V.semantics.Read) → IsScript known script
        → slice_get script issued ≡ Some (V.access_of actor access))
        → GoesOn result V.Service R.Replies known
        (scene_of V.Service M.Mapper service.old mapper.old (D.turns dispatcher.old)
        (replies.old, sink.old)) waits.old issued (is_none_parked waits.old)
        (scene_of V.Service M.Mapper service.new mapper.new (D.turns dispatcher.new)
        (replies.new, sink.new)) waits.new (issued + 1) true }
{
    wait_for(
        service,
        mapper,
        chooser,
        waits,
        dispatcher,
        replies,
        sink,
        Some(actor),
    )?;
    match service.issue(actor, &access, mapper, chooser) {
        Some(answer) => replies.put(number, &answer, sink),
        None => {
            waits.park(Parked {
                line: number,
                actor,
                access,
            });
            Ok(())
        }
    }
}

// A line that is no access: it is answered once nothing is parked.
fn answer_other<V: Service<M, C>, M: Mapper, C: Chooser, D: Dispatcher, R: Replies<K>, K>(
    service: &mut V,
    mapper: &mut M,
    chooser: &mut C,
    waits: &mut PullWait,
    dispatcher: &mut D,
    replies: &mut R,
    sink: &mut K,
    number: u32,
    line: &[u8],
) -> Result<(), Failed>
    requires other { V.semantics.actor_of (V.read line.now) ≡ None }
    requires able { CanServe V.Service M.Mapper service.old mapper.old waits.old }
    requires away { AreAway V.Service service.old waits.old }
    requires made { made_with V.Service service.old waits.old ≤ 2 ^ 60 }
    requires fits { (more : ℕ) × R.fits replies.old (length waits.old + (more + 1)) }
    ensures able { CanServe V.Service M.Mapper service.new mapper.new waits.new }
    ensures made { made_with V.Service service.new waits.new
        ≤ made_with V.Service service.old waits.old + answer_budget }
    ensures fits { OnOk result
        ((more : ℕ) → R.fits replies.old (length waits.old + (more + 1))
        → R.fits replies.new (length waits.new + more)) }
    ensures away { OnOk result (AreAway V.Service service.new waits.new) }
    ensures goes { (known : Known V.semantics.Read) (issued : ℕ) → number ≡ issued + 1
        → ((script : List V.semantics.Read) → IsScript known script
        → slice_get script issued ≡ Some (V.read line.now))
        → GoesOn result V.Service R.Replies known
        (scene_of V.Service M.Mapper service.old mapper.old (D.turns dispatcher.old)
        (replies.old, sink.old)) waits.old issued (is_none_parked waits.old)
        (scene_of V.Service M.Mapper service.new mapper.new (D.turns dispatcher.new)
        (replies.new, sink.new)) waits.new (issued + 1) true }
{
    wait_for(
        service, mapper, chooser, waits, dispatcher, replies, sink, None,
    )?;
    let answer = service.answer(line, mapper, chooser);
    replies.put(number, &answer, sink)
}

// A line, before the dispatcher is asked.
fn answer_first<V: Service<M, C>, M: Mapper, C: Chooser, D: Dispatcher, R: Replies<K>, K>(
    service: &mut V,
    mapper: &mut M,
    chooser: &mut C,
    waits: &mut PullWait,
    dispatcher: &mut D,
    replies: &mut R,
    sink: &mut K,
    number: u32,
    line: &[u8],
) -> Result<(), Failed>
    requires able { CanServe V.Service M.Mapper service.old mapper.old waits.old }
    requires away { AreAway V.Service service.old waits.old }
    requires made { made_with V.Service service.old waits.old ≤ 2 ^ 60 }
    requires fits { (more : ℕ) × R.fits replies.old (length waits.old + (more + 1)) }
    ensures able { CanServe V.Service M.Mapper service.new mapper.new waits.new }
    ensures made { made_with V.Service service.new waits.new
        ≤ made_with V.Service service.old waits.old + answer_budget }
    ensures fits { OnOk result
        ((more : ℕ) → R.fits replies.old (length waits.old + (more + 1))
        → R.fits replies.new (length waits.new + more)) }
    ensures away { OnOk result (AreAway V.Service service.new waits.new) }
    ensures goes { (known : Known V.semantics.Read) (issued : ℕ) → number ≡ issued + 1
        → ((script : List V.semantics.Read) → IsScript known script
        → slice_get script issued ≡ Some (V.read line.now))
        → GoesOn result V.Service R.Replies known
        (scene_of V.Service M.Mapper service.old mapper.old (D.turns dispatcher.old)
        (replies.old, sink.old)) waits.old issued (is_none_parked waits.old)
        (scene_of V.Service M.Mapper service.new mapper.new (D.turns dispatcher.new)
        (replies.new, sink.new)) waits.new (issued + 1) true }
{
    match service.access_in(line) {
        Some((actor, access)) => answer_access(
            service, mapper, chooser, waits, dispatcher, replies, sink, number, actor, access,
        ),
        None => answer_other(
            service, mapper, chooser, waits, dispatcher, replies, sink, number, line,
        ),
    }
}

/// Answers or parks one line, once it needn't wait, and then delivers parked accesses until the
/// dispatcher names none.
pub fn answer_line<V: Service<M, C>, M: Mapper, C: Chooser, D: Dispatcher, R: Replies<K>, K>(
    service: &mut V,
    mapper: &mut M,
    chooser: &mut C,
    waits: &mut PullWait,
    dispatcher: &mut D,
    replies: &mut R,
    sink: &mut K,
    number: u32,
    line: &[u8],
) -> Result<(), Failed>
    requires able { CanServe V.Service M.Mapper service.old mapper.old waits.old }
    requires away { AreAway V.Service service.old waits.old }
    requires made { made_with V.Service service.old waits.old ≤ 2 ^ 60 }
    requires fits { (more : ℕ) × R.fits replies.old (length waits.old + (more + 1)) }
    ensures able { CanServe V.Service M.Mapper service.new mapper.new waits.new }
    ensures made { made_with V.Service service.new waits.new
        ≤ made_with V.Service service.old waits.old + answer_budget }
    ensures fits { OnOk result
        ((more : ℕ) → R.fits replies.old (length waits.old + (more + 1))
        → R.fits replies.new (length waits.new + more)) }
    ensures away { OnOk result (AreAway V.Service service.new waits.new) }
    ensures goes { (known : Known V.semantics.Read) (issued : ℕ) → number ≡ issued + 1
        → ((script : List V.semantics.Read) → IsScript known script
        → slice_get script issued ≡ Some (V.read line.now))
        → GoesOn result V.Service R.Replies known
        (scene_of V.Service M.Mapper service.old mapper.old (D.turns dispatcher.old)
        (replies.old, sink.old)) waits.old issued (is_none_parked waits.old)
        (scene_of V.Service M.Mapper service.new mapper.new (D.turns dispatcher.new)
        (replies.new, sink.new)) waits.new (issued + 1) (is_none_parked waits.new) }
{
    answer_first(
        service, mapper, chooser, waits, dispatcher, replies, sink, number, line,
    )?;
    ask(service, mapper, chooser, waits, dispatcher, replies, sink)
}
