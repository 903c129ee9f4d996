// Where bytes go.
ghost use Rattle.std.specs.Prelude.{◌≡◌, ℕ, ◌<◌, ◌≤◌, List, ◌++◌, length, take, Option, option_map, IfOk, OnErr};
ghost use Rattle.vm_ids.specs.Counting.{HasCause};

use crate::Failed;

/// A sink for bytes, as a terminal or the bytes of a test.
pub trait Sink {
    /// All bytes written so far, where they are told.
    ghost written: { Self → Option (List ℕ) };

    /// How many writes have failed.
    ghost faults: { Self → ℕ };

    /// Takes bytes of the front of `from`, and answers how many, at least one. `Failed` where the
    /// sink has a fault; then what was written is as it was.
    fn write(&mut self, from: &[u8]) -> Result<usize, Failed>
        requires { 0 < length from.now }
        ensures least { IfOk result (λ n. 0 < n) }
        ensures most { IfOk result (λ n. n ≤ length from.now) }
        ensures taken { IfOk result
            (λ n. written self.new
            ≡ option_map (λ old. old ++ take n from.now) (written self.old)) }
        ensures err { OnErr result (written self.new ≡ written self.old) }
        ensures cause { HasCause (faults self.old) (faults self.new) result };
}
