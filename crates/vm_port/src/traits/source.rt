// Where bytes come from.
ghost use Rattle.std.specs.Prelude.{◌≡◌, ℕ, ◌<◌, ◌≤◌, List, [], ◌++◌, length, take, Option, option_map, IfOk, IfSome, OnErr};
ghost use Rattle.vm_ids.specs.Counting.{HasCause};

use crate::Failed;

/// A source of bytes, as a file or the bytes of a test.
pub trait Source {
    /// The bytes that reads will give, where they are told.
    ghost left: { Self → Option (List ℕ) };

    /// How many reads have failed.
    ghost faults: { Self → ℕ };

    /// Puts bytes in front of `into`, the front of what is left, and answers how many: none exactly
    /// at the end. `Failed` where the source has a fault; then what is left is as it was.
    fn read(&mut self, into: &mut [u8]) -> Result<usize, Failed>
        requires { 0 < length into.old }
        ensures most { IfOk result (λ n. n ≤ length into.new) }
        ensures front { IfOk result
            (λ n. left self.old ≡ option_map (λ rest. take n into.new ++ rest) (left self.new)) }
        ensures end { IfOk result (λ n. n ≡ 0 → IfSome (left self.old) (λ rest. rest ≡ [])) }
        ensures err { OnErr result (left self.new ≡ left self.old) }
        ensures cause { HasCause (faults self.old) (faults self.new) result };
}
