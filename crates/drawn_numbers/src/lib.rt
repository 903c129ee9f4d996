//! Numbers that look like chance, the same each time: what tests draw from. It has no tests of its
//! own and no program stands on it.
#![tactic(auto)]

ghost use Rattle.std.specs.Prelude.{◌<◌, ◌^◌};

/// A linear congruential generator of 64 bits, whose upper bits are given.
#[derive(Drop)]
pub struct Draws {
    state: u64,
}

impl Draws {
    /// The numbers that begin with this one.
    pub fn new(state: u64) -> Draws {
        Draws { state }
    }

    // A number of 31 bits.
    fn next(&mut self) -> u64
        ensures { result < 2 ^ 31 }
    {
        self.state = self
            .state
            .wrapping_mul(6_364_136_223_846_793_005)
            .wrapping_add(1_442_695_040_888_963_407);
        self.state >> 33
    }

    /// A number below this one.
    pub fn below(&mut self, limit: u32) -> u32
        requires { 0 < limit }
        ensures { result < limit }
    {
        self.next() as u32 % limit
    }

    /// A place in a list of so many.
    pub fn place(&mut self, count: usize) -> usize
        requires { 0 < count }
        ensures { result < count }
    {
        self.next() as usize % count
    }

    /// The value, or none.
    pub fn some<T: Copy + Drop>(&mut self, value: T) -> Option<T> {
        if self.below(3) == 0 {
            None
        } else {
            Some(value)
        }
    }
}
