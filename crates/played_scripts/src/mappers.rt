// Mappers in memory.
ghost use Rattle.std.specs.Prelude.{◌≡◌, ◌≤◌, ◌*◌, ◌^◌, length, IfOk};

use std::alloc::Global;
use vm_ids::{NoMemory, PAGE};
use vm_port::{CallNo, MemoryMapper};

// Slots enough for each script of the tests.
const SLOTS: u32 = 512;

/// A mapper without segments, whose pages have so many bytes, and which fails at these calls.
pub fn swap_area(alloc: Global, page: u32, fails: &[CallNo]) -> Result<MemoryMapper, NoMemory>
    requires least { 1 ≤ page }
    requires most { page ≤ 2 ^ 16 }
    ensures { IfOk result (λ m. m.page_bytes ≡ page) }
{
    MemoryMapper::new(alloc, &[], &[], SLOTS, fails, page)
}

/// Two pages that begin with these bytes, and are zeros else.
pub fn two_pages(alloc: Global, first: u8, second: u8) -> Result<Vec<u8>, NoMemory>
    ensures { IfOk result (λ v. length v.items ≡ 2 * PAGE) }
{
    let mut bytes = vec![in alloc; 0u8; 2 * PAGE]?;
    bytes[0] = first;
    bytes[PAGE] = second;
    Ok(bytes)
}

/// A mapper over a segment of two pages, which begin with 41 and 42. It fails at these calls.
pub fn one_segment(alloc: Global, fails: &[CallNo]) -> Result<MemoryMapper, NoMemory>
    ensures { IfOk result (λ m. m.page_bytes ≡ PAGE) }
{
    let segments = [two_pages(alloc, 0x41, 0x42)?];
    MemoryMapper::new(alloc, &segments, &[], SLOTS, fails, PAGE as u32)
}

// Five pages that begin with 7f, 41, 42, 43 and 44, and are zeros else.
fn image(alloc: Global) -> Result<Vec<u8>, NoMemory>
    ensures { IfOk result (λ v. length v.items ≡ 5 * PAGE) }
{
    let mut bytes = vec![in alloc; 0u8; 5 * PAGE]?;
    bytes[0] = 0x7f;
    bytes[PAGE] = 0x41;
    bytes[2 * PAGE] = 0x42;
    bytes[3 * PAGE] = 0x43;
    bytes[4 * PAGE] = 0x44;
    Ok(bytes)
}

/// A mapper over a segment of five pages, which begin with 7f, 41, 42, 43 and 44. It fails at these
/// calls.
pub fn images(alloc: Global, fails: &[CallNo]) -> Result<MemoryMapper, NoMemory>
    ensures { IfOk result (λ m. m.page_bytes ≡ PAGE) }
{
    let segments = [image(alloc)?];
    MemoryMapper::new(alloc, &segments, &[], SLOTS, fails, PAGE as u32)
}
