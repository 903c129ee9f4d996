// One process: its actor, and which caches are mapped into it.
ghost use Rattle.std.specs.Prelude.{◌≡◌, ◌≤◌, ◌<◌, ◌^◌};
ghost use Rattle.mix_process.specs.ProcessMachine.{area_start, may_write};
ghost use Rattle.mix_process.specs.Seen.{mapping_behind, pages_in, same_area};

use crate::Area;
use crate::area::{DATA_START, STACK_START, TEXT_START};
use vm_ids::{ActorId, CacheId, Extent, Mapping, PAGE, PageNo, Prot};

// A cache from its first page on, mapped behind what its area had before. The cache is the image's
// where the area is text, and the process's own else.
#[derive(Clone, Copy)]
pub(crate) struct Part {
    pub(crate) area: Area,
    pub(crate) cache: CacheId,
    pub(crate) pages: u32,
}

// A process, with its parts in the order of making.
#[derive(Drop)]
pub(crate) struct Process {
    pub(crate) actor: ActorId,
    pub(crate) parts: Vec<Part>,
}

// Where an area begins.
pub(crate) fn start_of(area: Area) -> u64
    ensures { result ≡ area_start area }
{
    match area {
        Area::Text => TEXT_START,
        Area::Data => DATA_START,
        Area::Stack => STACK_START,
    }
}

// Whether an area is for writing: each but the text.
pub(crate) fn may_write(area: Area) -> bool
    ensures { result ≡ may_write area }
{
    match area {
        Area::Text => false,
        Area::Data | Area::Stack => true,
    }
}

// Whether two areas are the same.
fn is_same(a: Area, b: Area) -> bool
    ensures { result ≡ same_area a b }
{
    a == b
}

// How many pages an area has.
pub(crate) fn pages_in(area: Area, parts: &[Part]) -> u64
    requires few { pages_in area parts.now < 2 ^ 64 }
    ensures { result ≡ pages_in area parts.now }
{
    let mut pages = 0;
    for part in parts {
        if is_same(part.area, area) {
            pages += part.pages as u64;
        }
    }
    pages
}

// The mapping of a part behind what its area has in these.
pub(crate) fn mapping_behind(parts: &[Part], part: Part) -> Mapping
    requires few { pages_in part.area parts.now ≤ 2 ^ 32 }
    ensures { result ≡ mapping_behind parts.now part }
{
    Mapping {
        extent: Extent {
            cache: part.cache,
            first: PageNo(0),
            pages: part.pages,
        },
        address: start_of(part.area) + PAGE as u64 * pages_in(part.area, parts),
        prot: Prot {
            write: may_write(part.area),
        },
    }
}
