// Pages of caches that segments name.
ghost use Rattle.std.specs.Prelude.{None, Some, false, Ok, ◌≡◌, ℕ, ◌+◌, ◌≤◌, ◌<◌, ◌^◌, map, length, All, IfOk, OnOk, OnErr, IsSome};
ghost use Rattle.vm_ids.specs.Counting.{no_counts};
ghost use Rattle.vm_ids.specs.Held.{Segments};
ghost use Rattle.vm_model.specs.Allowed.{AwaitsAccess};
ghost use Rattle.vm_model.specs.Answering.{answer_by, held_for, held_part, is_any_locked};
ghost use Rattle.vm_model.specs.Machine.{cache_of, pages_in, segment_of};
ghost use Rattle.vm_model.specs.Outcome.{Outcome, PlainOutcome};
ghost use Rattle.vm_model.specs.Seen.{AreTablesSound, machine_seen};

use crate::copies::put_in_cache;
use crate::locks::is_any_locked;
use crate::place::{cache_at, passes_end};
use crate::tables::Tables;
use vm_ids::{Command, Extent, Refusal, Reply, SegId, Trouble};

// The segment that names the cache of these pages. A sync changes nothing of the machine.
#[tactic(auto, unfolding(crate::specs::Answering::sync_of, crate::specs::Answering::flush_of, crate::specs::Answering::invalidate_of, crate::specs::Answering::with_some, crate::specs::Answering::unless))]
pub(crate) fn check_extent(tables: &Tables, extent: &Extent) -> Result<SegId, Trouble>
    requires { AreTablesSound tables.now }
    ensures sync { PlainOutcome (machine_seen tables.now) (Command.Sync extent.now)
        (answer_by (λ _. Reply.Done) result) (machine_seen tables.now) }
    ensures refused_flush { OnErr result (PlainOutcome (machine_seen tables.now)
        (Command.Flush extent.now) (answer_by (λ _. Reply.Done) result)
        (machine_seen tables.now)) }
    ensures refused_invalidate { OnErr result (PlainOutcome (machine_seen tables.now)
        (Command.Invalidate extent.now) (answer_by (λ _. Reply.Done) result)
        (machine_seen tables.now)) }
    ensures segment { IfOk result
        (λ seg. segment_of (machine_seen tables.now) extent.now.cache.0 ≡ Some seg.0) }
    ensures within { OnOk result (extent.now.first.0 + extent.now.pages
        ≤ pages_in (cache_of (machine_seen tables.now) extent.now.cache.0)) }
    ensures few { OnOk result (extent.now.first.0 + extent.now.pages < 2 ^ 32) }
{
    let Some(cache) = cache_at(&tables.caches, extent.cache.0) else {
        return Err(Trouble::Refused(Refusal::NoCache));
    };
    let Some(seg) = cache.segment else {
        return Err(Trouble::Refused(Refusal::NotNamed));
    };
    if passes_end(cache, extent.first.0, extent.pages) {
        return Err(Trouble::Refused(Refusal::OutOfCache));
    }
    prove!(extent.first.0 as u64 + extent.pages as u64 <= tables.live as u64);
    Ok(seg)
}

// The same of a flush or an invalidate, for which no page may be locked. A flush changes nothing of
// the machine.
pub(crate) fn check_flush(tables: &Tables, extent: &Extent) -> Result<SegId, Trouble>
    requires { AreTablesSound tables.now }
    ensures flush { PlainOutcome (machine_seen tables.now) (Command.Flush extent.now)
        (answer_by (λ _. Reply.Done) result) (machine_seen tables.now) }
    ensures refused { OnErr result (PlainOutcome (machine_seen tables.now)
        (Command.Invalidate extent.now) (answer_by (λ _. Reply.Done) result)
        (machine_seen tables.now)) }
    ensures awaits { OnOk result (AwaitsAccess (machine_seen tables.now)
        (Command.Invalidate extent.now)) }
    ensures segment { IfOk result
        (λ seg. segment_of (machine_seen tables.now) extent.now.cache.0 ≡ Some seg.0) }
    ensures within { OnOk result (extent.now.first.0 + extent.now.pages
        ≤ pages_in (cache_of (machine_seen tables.now) extent.now.cache.0)) }
    ensures few { OnOk result (extent.now.first.0 + extent.now.pages < 2 ^ 32) }
    ensures unlocked { OnOk result (is_any_locked (machine_seen tables.now) extent.now.cache
        extent.now.first.0 extent.now.pages ≡ false) }
{
    let seg = check_extent(tables, extent)?;
    if is_any_locked(tables, extent.cache, extent.first, extent.pages) {
        return Err(Trouble::Refused(Refusal::Locked));
    }
    Ok(seg)
}

// These pages of the segment stand in the cache that it names.
pub(crate) fn invalidate(tables: &mut Tables, extent: &Extent, pages: Vec<Vec<u8>>)
    requires sound { AreTablesSound tables.old }
    requires named { IsSome (segment_of (machine_seen tables.old) extent.now.cache.0) }
    requires within { extent.now.first.0 + extent.now.pages
        ≤ pages_in (cache_of (machine_seen tables.old) extent.now.cache.0) }
    requires unlocked { is_any_locked (machine_seen tables.old) extent.now.cache
        extent.now.first.0 extent.now.pages ≡ false }
    requires many { length pages.items ≡ extent.now.pages }
    requires whole { All (λ p. length p.items ≡ tables.old.page_bytes) pages.items }
    ensures sound { AreTablesSound tables.new }
    ensures outcome { (h : Segments)
        → held_part (held_for (machine_seen tables.old) h extent.now.cache.0)
        extent.now.first.0 extent.now.pages
        ≡ map (λ p. p.items) pages.items
        → Outcome (machine_seen tables.old) None (Command.Invalidate extent.now) h
        (Ok Reply.Done) (machine_seen tables.new) no_counts }
{
    put_in_cache(tables, extent.cache.0, extent.first.0 as usize, pages);
}
