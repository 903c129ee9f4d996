// What lies where C holds a machine.
ghost use Rattle.chorus_c.specs.Serving.{Begun};

use crate::chorus::Chorus;
use std::alloc::Global;

/// There is no memory.
pub const NO_MEMORY: u32 = 200;

/// There is no such call, or a size or a count is out of range.
pub const BAD_ARGUMENT: u32 = 300;

/// A machine, or why there is none, by its number.
#[derive(Drop)]
pub enum Handle {
    /// It answers commands.
    Open(Chorus),
    /// It couldn't be opened, or was closed.
    Closed(u32),
}

/// A machine of so many page frames, 3 to 65,536, with pages of `page` bytes, 1 to 65,536, and
/// `swap` swap slots.
pub fn begin(alloc: Global, frames: u32, page: u32, swap: u32) -> Handle
    ensures { Begun frames page swap result }
{
    if frames < 3 || frames > 65536 || page == 0 || page > 65536 {
        return Handle::Closed(BAD_ARGUMENT);
    }
    match Chorus::new(alloc, frames, page, swap) {
        Ok(chorus) => Handle::Open(chorus),
        Err(_) => Handle::Closed(NO_MEMORY),
    }
}
