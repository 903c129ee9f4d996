// The mapper is asked whether the pages of a range may be written.
ghost use Rattle.std.specs.Prelude.{◌≡◌, true, Ok, IfErr, OnErr};
ghost use Rattle.vm_ids.specs.Counting.{Rose};
ghost use Rattle.vm_ids.specs.declared.numbers.SegId.{SegId};
ghost use Rattle.local_cache.specs.Reading.{forest_of};
ghost use Rattle.local_cache.specs.Whole.{IsWhole, SameCaches};
ghost use Rattle.residency.specs.Between.{Between, RightStore};
ghost use Rattle.residency.specs.Causes.{Later, Traffic};
ghost use Rattle.fault_path.specs.Faults.{SameForest};
ghost use Rattle.residency.specs.declared.store.Store.{Store};
ghost use Rattle.segment_ops.specs.Access.{GrantsStay, IsAccess, IsGranted};
ghost use Rattle.segment_ops.specs.Ranges.{HasRange, IsNamed, IsNamedBy};

use local_cache::Caches;
use vm_ids::{Extent, PageNo};
use vm_port::Mapper;

/// Whether the pages of a range of a named cache may be written: the mapper is asked for each that
/// wasn't granted, in rising order, and what it allows is granted. False exactly where it denies a
/// page; the error is the page whose call failed. After either no more is asked. Nothing is pulled
/// or pushed, and only grants change: each store that was right beside the caches is right still.
pub fn write_access<M: Mapper>(
    caches: &mut Caches,
    range: Extent,
    mapper: &mut M,
) -> Result<bool, PageNo>
    requires right { (store : Store) × RightStore M.Mapper mapper.old caches.old store }
    requires whole { IsWhole caches.old }
    requires range { HasRange caches.old range }
    requires named { IsNamed caches.old range }
    ensures access { (segment : SegId) → IsNamedBy caches.old range segment
        → IsAccess range (M.held mapper.old) segment caches.old caches.new result }
    ensures stay { GrantsStay caches.old caches.new }
    ensures right { (store : Store) → RightStore M.Mapper mapper.old caches.old store
        → RightStore M.Mapper mapper.new caches.new store }
    ensures whole { IsWhole caches.new }
    ensures sizes { SameCaches caches.old caches.new }
    ensures nodes { forest_of caches.new ≡ forest_of caches.old }
    ensures forest { (store : Store) → RightStore M.Mapper mapper.old caches.old store
        → Between SameForest M.Mapper
        mapper.old caches.old store mapper.new caches.new store }
    ensures held { M.held mapper.new ≡ M.held mapper.old }
    ensures given { M.given mapper.new ≡ M.given mapper.old }
    ensures page_bytes { M.page_bytes mapper.new ≡ M.page_bytes mapper.old }
    ensures later { Later (M.counts mapper.old) (M.counts mapper.new) }
    ensures traffic { Traffic 0 0 (M.counts mapper.old) (M.counts mapper.new) }
    ensures cause { OnErr result (
        Rose (M.counts mapper.old).faults (M.counts mapper.new).faults) }
    ensures idle { IsGranted caches.old range
        → (result ≡ Ok true) × (caches.new ≡ caches.old) × (mapper.new ≡ mapper.old) }
{
    let segment = caches.segment(range.cache).unwrap();
    for number in range.first.0..range.first.0 + range.pages {
        let page = PageNo(number);
        if !caches.granted(range.cache, page) {
            match mapper.get_write_access(segment, page) {
                Ok(true) => caches.grant(range.cache, page),
                Ok(false) => return Ok(false),
                Err(_) => return Err(page),
            }
        }
    }
    Ok(true)
}
