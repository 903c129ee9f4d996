// Who keeps segments and swap slots.
ghost use Rattle.std.specs.Prelude.{◌≡◌, ℕ, not, List, length, Option, option_map, IfOk, IfSome, IsSomeAnd, OnOk, OnErr, IsSome};
ghost use Rattle.std.specs.FinMap as FinMap;
ghost use Rattle.vm_ids.specs.Counting.{Counted, MapperCounts};
ghost use Rattle.vm_ids.specs.Denying.{denies};
ghost use Rattle.vm_ids.specs.Held.{Held, page_of, slot_of, with_page, with_slot};
ghost use Rattle.vm_port.specs.Sizes.{HasPagesOf};

use crate::Failed;
use vm_ids::{PageNo, SegId, SlotId};

/// The keeper of segments and of the swap area, which answers the manager's upcalls (pullIn,
/// pushOut and getWriteAccess of Abrossimov, Rozier and Shapiro, SOSP 1989).
///
/// A pull is a call of `pull_in` or `swap_in`, a push one of `push_out` or `swap_out`; both count
/// where they fail too. Only a push that didn't fail changes what the mapper holds.
pub trait Mapper {
    /// What it holds, where that is told: the pages of each segment, the page in each slot, and the
    /// pages that it denies for writing.
    ghost held: { Self → Option Held };

    /// The page that the last pull gave, where that is told.
    ghost given: { Self → Option (List ℕ) };

    /// Its counts of faults, pulls and pushes.
    ghost counts: { Self → MapperCounts };

    /// How many bytes its pages have, where that is told. Where it isn't, it takes slices of any
    /// length.
    ghost page_bytes: { Self → Option ℕ };

    /// The number of pages of a segment, or `None` exactly where there is no such segment.
    fn size(&mut self, seg: SegId) -> Result<Option<u32>, Failed>
        ensures pages { IfOk result
            (λ pages. IfSome (held self.old)
            (λ h. pages ≡ option_map length (FinMap.get h.segments seg.0))) }
        ensures held { held self.new ≡ held self.old }
        ensures given { given self.new ≡ given self.old }
        ensures counts { Counted 0 0 (counts self.old) (counts self.new) result }
        ensures page { page_bytes self.new ≡ page_bytes self.old };

    /// Brings in a page of a segment. Where it fails, `into` may hold any bytes.
    fn pull_in(&mut self, seg: SegId, page: PageNo, into: &mut [u8]) -> Result<(), Failed>
        requires room { IfSome (page_bytes self.old) (λ n. length into.old ≡ n) }
        requires there { IfSome (held self.old) (λ h. IsSome (page_of h seg.0 page.0)) }
        ensures bytes { OnOk result
            (IfSome (held self.old) (λ h. page_of h seg.0 page.0 ≡ Some into.new)) }
        ensures given { OnOk result (given self.new ≡ option_map (λ _. into.new) (given self.old)) }
        ensures not_given { OnErr result (given self.new ≡ given self.old) }
        ensures held { held self.new ≡ held self.old }
        ensures counts { Counted 1 0 (counts self.old) (counts self.new) result }
        ensures page { page_bytes self.new ≡ page_bytes self.old };

    /// Pushes out a page of a segment. Where it fails, the segment is as it was.
    fn push_out(&mut self, seg: SegId, page: PageNo, from: &[u8]) -> Result<(), Failed>
        requires room { IfSome (page_bytes self.old) (λ n. length from.now ≡ n) }
        requires there { IfSome (held self.old) (λ h. IsSome (page_of h seg.0 page.0)) }
        ensures ok { OnOk result
            (held self.new ≡ option_map (with_page seg.0 page.0 from.now) (held self.old)) }
        ensures err { OnErr result (held self.new ≡ held self.old) }
        ensures given { given self.new ≡ given self.old }
        ensures counts { Counted 0 1 (counts self.old) (counts self.new) result }
        ensures page { page_bytes self.new ≡ page_bytes self.old };

    /// Asks whether a page of a segment may be written: false exactly where the mapper denies it.
    fn get_write_access(&mut self, seg: SegId, page: PageNo) -> Result<bool, Failed>
        requires { IfSome (held self.old) (λ h. IsSome (page_of h seg.0 page.0)) }
        ensures granted { IfOk result
            (λ may. IfSome (held self.old) (λ h. may ≡ not (denies h.denied seg.0 page.0))) }
        ensures held { held self.new ≡ held self.old }
        ensures given { given self.new ≡ given self.old }
        ensures counts { Counted 0 0 (counts self.old) (counts self.new) result }
        ensures page { page_bytes self.new ≡ page_bytes self.old };

    /// Brings in the page of a swap slot. Where it fails, `into` may hold any bytes.
    fn swap_in(&mut self, slot: SlotId, into: &mut [u8]) -> Result<(), Failed>
        requires room { IfSome (page_bytes self.old) (λ n. length into.old ≡ n) }
        requires there { IfSome (held self.old) (λ h. IsSome (slot_of h slot.0)) }
        ensures bytes { OnOk result
            (IfSome (held self.old) (λ h. slot_of h slot.0 ≡ Some into.new)) }
        ensures given { OnOk result (given self.new ≡ option_map (λ _. into.new) (given self.old)) }
        ensures not_given { OnErr result (given self.new ≡ given self.old) }
        ensures held { held self.new ≡ held self.old }
        ensures counts { Counted 1 0 (counts self.old) (counts self.new) result }
        ensures page { page_bytes self.new ≡ page_bytes self.old };

    /// Pushes a page out to a swap slot. Where it fails, the slot is as it was.
    fn swap_out(&mut self, slot: SlotId, from: &[u8]) -> Result<(), Failed>
        requires { IfSome (page_bytes self.old) (λ n. length from.now ≡ n) }
        ensures ok { OnOk result
            (held self.new ≡ option_map (with_slot slot.0 from.now) (held self.old)) }
        ensures err { OnErr result (held self.new ≡ held self.old) }
        ensures given { given self.new ≡ given self.old }
        ensures counts { Counted 0 1 (counts self.old) (counts self.new) result }
        ensures page { page_bytes self.new ≡ page_bytes self.old };

    /// A mapper that tells what it holds tells how many bytes its pages have, and each page that it
    /// holds has so many.
    ghost sized: { (m : Self) → IfSome (held m) (λ h. IsSomeAnd (page_bytes m) (HasPagesOf h)) };
}
