// When the dispatcher is asked.
ghost use Rattle.std.specs.Prelude.{◌≡◌, ◌≤◌, ◌<◌, ◌+◌, ◌^◌, ℕ, true, false, length, [], ◌∷◌, Option, option_and_then, option_map, slice_get, unwrap_or, List, OnOk};
ghost use Rattle.line_service.specs.Going.{IsScript, Known, Turned, scene_of};
ghost use Rattle.line_service.specs.Parking.{AreAway, CanServe, GoesOn, has_to_wait, is_none_parked, made_with};

use crate::delivering::deliver_at;
use crate::{Replies, Service};
use pull_wait::PullWait;
use vm_ids::ActorId;
use vm_port::{Chooser, Dispatcher, Failed, Mapper};

/// Asks the dispatcher which parked access is delivered next, and delivers it, until it names none
/// or nothing is parked.
pub fn ask<V: Service<M, C>, M: Mapper, C: Chooser, D: Dispatcher, R: Replies<K>, K>(
    service: &mut V,
    mapper: &mut M,
    chooser: &mut C,
    waits: &mut PullWait,
    dispatcher: &mut D,
    replies: &mut R,
    sink: &mut K,
) -> Result<(), Failed>
    requires able { CanServe V.Service M.Mapper service.old mapper.old waits.old }
    requires away { AreAway V.Service service.old waits.old }
    requires made { made_with V.Service service.old waits.old ≤ 2 ^ 61 }
    requires fits { (more : ℕ) × R.fits replies.old (length waits.old + more) }
    ensures able { CanServe V.Service M.Mapper service.new mapper.new waits.new }
    ensures made { made_with V.Service service.new waits.new
        ≤ made_with V.Service service.old waits.old }
    ensures fits { (more : ℕ) → R.fits replies.old (length waits.old + more)
        → R.fits replies.new (length waits.new + more) }
    ensures away { OnOk result (AreAway V.Service service.new waits.new) }
    ensures goes { (known : Known V.semantics.Read) (issued : ℕ)
        → GoesOn result V.Service R.Replies known
        (scene_of V.Service M.Mapper service.old mapper.old (D.turns dispatcher.old)
        (replies.old, sink.old)) waits.old issued true
        (scene_of V.Service M.Mapper service.new mapper.new (D.turns dispatcher.new)
        (replies.new, sink.new)) waits.new issued (is_none_parked waits.new) }
{
    while waits.len() > 0 {
        match dispatcher.turn(waits.len() as usize) {
            Some(place) => deliver_at(
                service,
                mapper,
                chooser,
                waits,
                replies,
                sink,
                place as u32,
            )?,
            None => return Ok(()),
        }
    }
    Ok(())
}

// Whether an access of this actor, or, where none is named, any other line or the end of the script
// has to wait.
fn has_to_wait(waits: &PullWait, actor: Option<ActorId>) -> bool
    ensures { result ≡ has_to_wait (option_map (λ a. a.0) actor) waits.now }
{
    match actor {
        Some(actor) => waits.of_actor(actor).is_some(),
        None => waits.len() > 0,
    }
}

// The place of the access that is delivered next: the one that the dispatcher names, or the oldest
// where it names none.
fn next_place<D: Dispatcher>(waits: &PullWait, dispatcher: &mut D) -> u32
    requires { 0 < length waits.now }
    ensures within { result < length waits.now }
    ensures turned { (turn : Option ℕ) × (unwrap_or turn 0 ≡ result)
        × Turned (D.turns dispatcher.old) ((length waits.now, turn) ∷ []) (D.turns dispatcher.new) }
{
    match dispatcher.turn(waits.len() as usize) {
        Some(place) => place as u32,
        None => 0,
    }
}

/// Delivers parked accesses until an access of this actor needn't wait any more; or, where no actor
/// is named, any other line and the end of the script. Where the dispatcher names none, the oldest
/// is delivered.
pub fn wait_for<V: Service<M, C>, M: Mapper, C: Chooser, D: Dispatcher, R: Replies<K>, K>(
    service: &mut V,
    mapper: &mut M,
    chooser: &mut C,
    waits: &mut PullWait,
    dispatcher: &mut D,
    replies: &mut R,
    sink: &mut K,
    actor: Option<ActorId>,
) -> Result<(), Failed>
    requires able { CanServe V.Service M.Mapper service.old mapper.old waits.old }
    requires away { AreAway V.Service service.old waits.old }
    requires made { made_with V.Service service.old waits.old ≤ 2 ^ 61 }
    requires fits { (more : ℕ) × R.fits replies.old (length waits.old + more) }
    ensures able { CanServe V.Service M.Mapper service.new mapper.new waits.new }
    ensures made { made_with V.Service service.new waits.new
        ≤ made_with V.Service service.old waits.old }
    ensures fits { (more : ℕ) → R.fits replies.old (length waits.old + more)
        → R.fits replies.new (length waits.new + more) }
    ensures away { OnOk result (AreAway V.Service service.new waits.new) }
    ensures fewer { length waits.new ≤ length waits.old }
    ensures none { OnOk result (has_to_wait (option_map (λ a. a.0) actor) waits.new ≡ false) }
    ensures goes { (known : Known V.semantics.Read) (issued : ℕ)
        → ((script : List V.semantics.Read) → IsScript known script
        → option_and_then V.semantics.actor_of (slice_get script issued)
        ≡ option_map (λ a. a.0) actor)
        → GoesOn result V.Service R.Replies known
        (scene_of V.Service M.Mapper service.old mapper.old (D.turns dispatcher.old)
        (replies.old, sink.old)) waits.old issued (is_none_parked waits.old)
        (scene_of V.Service M.Mapper service.new mapper.new (D.turns dispatcher.new)
        (replies.new, sink.new)) waits.new issued (is_none_parked waits.old) }
{
    while has_to_wait(waits, actor) {
        let place = next_place(waits, dispatcher);
        deliver_at(service, mapper, chooser, waits, replies, sink, place)?;
    }
    Ok(())
}
