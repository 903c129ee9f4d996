// Two segments in memory, and whether two mappers hold the same of them.
ghost use Rattle.std.specs.Prelude.{◌≡◌, IfOk};

use crate::commands::{PAGE, PAGES};
use plain_machine::Plain;
use std::alloc::Global;
use std::process::Abort;
use vm_ids::{CacheId, Command, Extent, NoMemory, PageNo, SegId};
use vm_port::MemoryMapper;

// The segments. The last page of the second is denied for writing.
const FIRST: &[u8] = b"The first segment's twelve pages of four bytes.\n";

const SECOND: &[u8] = b"The second one's twelve pages, the last denied.\n";

const DENIED: (SegId, PageNo) = (SegId(2), PageNo(PAGES - 1));

// A mapper over the two segments, with so many swap slots.
pub(crate) fn segments(alloc: Global, slots: u32) -> Result<MemoryMapper, NoMemory>
    ensures { IfOk result (λ m. m.page_bytes ≡ 4) }
{
    let segments = [FIRST.to_vec(alloc)?, SECOND.to_vec(alloc)?];
    MemoryMapper::new(alloc, &segments, &[DENIED], slots, &[], PAGE)
}

// Whether two mappers hold the same in a page of a segment, by its number among the pages of both
// segments.
fn agree(one: &MemoryMapper, other: &MemoryMapper, number: u32) -> bool {
    let (seg, page) = (SegId(1 + number / PAGES), PageNo(number % PAGES));
    one.has_page(seg, page)
        && other.has_page(seg, page)
        && one.page(seg, page) == other.page(seg, page)
}

// Whether they do so in all pages.
pub(crate) fn hold_the_same(one: &MemoryMapper, other: &MemoryMapper) -> bool {
    for number in 0..2 * PAGES {
        if !agree(one, other, number) {
            return false;
        }
    }
    true
}

// Pushes each page that the manager pushed. Whatever it is that pushes a page, it is pushed as it
// was before the command, so both mappers are to hold the same then.
pub(crate) fn push_too(
    rt: &impl Abort,
    plain: &mut Plain,
    mapper: &MemoryMapper,
    named: &[CacheId; 2],
) {
    for number in 0..2 * PAGES {
        if !agree(plain.mapper(), mapper, number) {
            let extent = Extent {
                cache: named[(number / PAGES) as usize],
                first: PageNo(number % PAGES),
                pages: 1,
            };
            assert!(rt; plain.answer(&Command::Sync(extent)).is_ok(), "at {number}");
        }
    }
}
