// Loose pages are filled from a segment.
ghost use Rattle.std.specs.Prelude.{◌≡◌, ◌+◌, ◌≤◌, ◌^◌, length, IfSome, OnOk};
ghost use Rattle.gmi_calls.specs.Reaching.{HasPages, Reached};
ghost use Rattle.flat_mm.specs.Extents.{ArePulled};
ghost use Rattle.flat_mm.specs.Store.{AreWhole, with_loose};

use crate::store::PageStore;
use vm_ids::{PageNo, SegId};
use vm_port::{Failed, Mapper};

/// Fills the loose pages from a segment, from its page `first` on.
pub(crate) fn pull_loose<M: Mapper>(
    store: &mut PageStore,
    seg: SegId,
    first: PageNo,
    mapper: &mut M,
) -> Result<(), Failed>
    requires room { IfSome (M.page_bytes mapper.old) (λ n. store.old.page_bytes ≡ n) }
    requires there { IfSome (M.held mapper.old)
        (HasPages seg.0 first.0 (length store.old.loose)) }
    requires few { first.0 + length store.old.loose ≤ 2 ^ 32 }
    ensures pulled { OnOk result (ArePulled (M.held mapper.old) seg.0 first.0 store.new.loose) }
    ensures many { length store.new.loose ≡ length store.old.loose }
    ensures loose { store.new ≡ with_loose store.new.loose store.old }
    ensures whole { AreWhole store.old → AreWhole store.new }
    ensures held { M.held mapper.new ≡ M.held mapper.old }
    ensures reached { Reached (M.counts mapper.old) (M.counts mapper.new) result }
    ensures page { M.page_bytes mapper.new ≡ M.page_bytes mapper.old }
{
    for i in 0..store.loose() {
        let page = PageNo(first.0 + i);
        store.pull(i as usize, seg, page, mapper)?;
    }
    Ok(())
}
