// At which places keys were found lately, so that most searches end where they begin.
ghost use Rattle.std.specs.Prelude.{◌<◌};

use std::array;
use std::cell::Cell;

// So many places are remembered.
const PLACES: usize = 1024;

/// The place that was remembered last for the keys of each kind, of which there are 1,024. Keys
/// come and go meanwhile, so whoever takes a place looks whether it is still the one.
#[derive(Drop)]
pub(crate) struct Recent {
    places: [Cell<u32>; PLACES],
}

// The kind of a key. Keys that differ above their last 32 bits alone are of several kinds.
#[inline(always)]
fn kind_of(key: u64) -> usize
    ensures { result < PLACES }
{
    key.wrapping_add((key >> 32).wrapping_mul(57)) as usize % PLACES
}

impl Recent {
    // The first place for all keys.
    pub(crate) fn new() -> Self {
        Recent {
            places: array::from_fn(|_| Cell::new(0)),
        }
    }

    // What was remembered last for keys such as this one.
    #[inline(always)]
    pub(crate) fn place(&self, key: u64) -> u32 {
        self.places[kind_of(key)].get()
    }

    // Remembers a place for keys such as this one.
    pub(crate) fn remember(&self, key: u64, place: u32) {
        self.places[kind_of(key)].set(place);
    }
}
