// A parked access, delivered.
ghost use Rattle.std.specs.Prelude.{◌≡◌, ◌<◌, ◌≤◌, ◌+◌, ◌^◌, ℕ, [], ◌∷◌, true, if◌then◌else◌, length, remove, slice_get, Some, None, OnOk};
ghost use Rattle.vm_ids.specs.declared.access.Parked.{Parked};
ghost use Rattle.line_service.specs.Going.{Delivers, Tries, scene_of};
ghost use Rattle.line_service.specs.Parking.{AreAway, CanServe, IsAway, is_left, lines_parked, made_with};
ghost use Rattle.line_service.specs.Putting.{PutsOr};
ghost use Rattle.line_service.specs.Serving.{NoMoreReady};

use crate::{Replies, Service};
use pull_wait::PullWait;
use vm_port::{Chooser, Failed, Mapper};

// Tries the parked access at a place, and tells whether it was answered.
fn try_one<V: Service<M, C>, M: Mapper, C: Chooser, R: Replies<K>, K>(
    service: &mut V,
    mapper: &mut M,
    chooser: &mut C,
    waits: &mut PullWait,
    replies: &mut R,
    sink: &mut K,
    place: u32,
) -> Result<bool, Failed>
    requires place { place < length waits.old }
    requires able { CanServe V.Service M.Mapper service.old mapper.old waits.old }
    requires made { made_with V.Service service.old waits.old ≤ 2 ^ 61 }
    requires fits { (more : ℕ) × R.fits replies.old (length waits.old + more) }
    ensures able { CanServe V.Service M.Mapper service.new mapper.new waits.new }
    ensures made { made_with V.Service service.new waits.new
        ≤ made_with V.Service service.old waits.old }
    ensures fits { (more : ℕ) → R.fits replies.old (length waits.old + more)
        → R.fits replies.new (length waits.new + more) }
    ensures waits { waits.new
        ≡ (if is_left result then waits.old else remove waits.old place) }
    ensures tried { (p : Parked) → slice_get waits.old place ≡ Some p
        → Tries V.semantics (PutsOr result R.puts R.fails)
        (scene_of V.Service M.Mapper service.old mapper.old None (replies.old, sink.old))
        (scene_of V.Service M.Mapper service.new mapper.new None (replies.new, sink.new))
        (lines_parked V.Service (p ∷ []))
        (lines_parked V.Service (if is_left result then p ∷ [] else [])) }
    ensures away { (p : Parked) → slice_get waits.old place ≡ Some p → is_left result ≡ true
        → IsAway V.Service service.new p }
    ensures no_more_ready { NoMoreReady V.ready service.old service.new }
{
    let Some(parked) = waits.get(place) else {
        return Ok(false);
    };
    let Some(answer) = service.issue(parked.actor, &parked.access, mapper, chooser) else {
        return Ok(false);
    };
    let line = waits.take(place).line;
    replies.put(line, &answer, sink)?;
    Ok(true)
}

/// Tries each parked access once, in order of issue: those that are ready by then are answered, and
/// the others stay parked.
pub fn try_others<V: Service<M, C>, M: Mapper, C: Chooser, R: Replies<K>, K>(
    service: &mut V,
    mapper: &mut M,
    chooser: &mut C,
    waits: &mut PullWait,
    replies: &mut R,
    sink: &mut K,
) -> Result<(), Failed>
    requires able { CanServe V.Service M.Mapper service.old mapper.old waits.old }
    requires made { made_with V.Service service.old waits.old ≤ 2 ^ 61 }
    requires fits { (more : ℕ) × R.fits replies.old (length waits.old + more) }
    ensures able { CanServe V.Service M.Mapper service.new mapper.new waits.new }
    ensures made { made_with V.Service service.new waits.new
        ≤ made_with V.Service service.old waits.old }
    ensures fits { (more : ℕ) → R.fits replies.old (length waits.old + more)
        → R.fits replies.new (length waits.new + more) }
    ensures away { OnOk result (AreAway V.Service service.new waits.new) }
    ensures fewer { length waits.new ≤ length waits.old }
    ensures tried { Tries V.semantics (PutsOr result R.puts R.fails)
        (scene_of V.Service M.Mapper service.old mapper.old None (replies.old, sink.old))
        (scene_of V.Service M.Mapper service.new mapper.new None (replies.new, sink.new))
        (lines_parked V.Service waits.old) (lines_parked V.Service waits.new) }
{
    let mut place = 0;
    while place < waits.len() {
        if !try_one(service, mapper, chooser, waits, replies, sink, place)? {
            place += 1;
        }
    }
    Ok(())
}

/// Delivers the parked access at a place: it is answered, and where its page came, so is each other
/// one that is ready then, in order of issue.
pub fn deliver_at<V: Service<M, C>, M: Mapper, C: Chooser, R: Replies<K>, K>(
    service: &mut V,
    mapper: &mut M,
    chooser: &mut C,
    waits: &mut PullWait,
    replies: &mut R,
    sink: &mut K,
    place: u32,
) -> Result<(), Failed>
    requires place { place < length waits.old }
    requires able { CanServe V.Service M.Mapper service.old mapper.old waits.old }
    requires away { AreAway V.Service service.old waits.old }
    requires made { made_with V.Service service.old waits.old ≤ 2 ^ 61 }
    requires fits { (more : ℕ) × R.fits replies.old (length waits.old + more) }
    ensures able { CanServe V.Service M.Mapper service.new mapper.new waits.new }
    ensures made { made_with V.Service service.new waits.new
        ≤ made_with V.Service service.old waits.old }
    ensures fits { (more : ℕ) → R.fits replies.old (length waits.old + more)
        → R.fits replies.new (length waits.new + more) }
    ensures away { OnOk result (AreAway V.Service service.new waits.new) }
    ensures fewer { length waits.new < length waits.old }
    ensures delivered { Delivers V.semantics (PutsOr result R.puts R.fails)
        (scene_of V.Service M.Mapper service.old mapper.old None (replies.old, sink.old))
        (scene_of V.Service M.Mapper service.new mapper.new None (replies.new, sink.new))
        (lines_parked V.Service waits.old) place (lines_parked V.Service waits.new) }
{
    let parked = waits.take(place);
    let delivered = service.deliver(parked.actor, &parked.access, mapper, chooser);
    replies.put(parked.line, &delivered.answer, sink)?;
    if !delivered.came {
        return Ok(());
    }
    try_others(service, mapper, chooser, waits, replies, sink)
}
