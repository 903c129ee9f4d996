// Who chooses what is evicted.
ghost use Rattle.std.specs.Prelude.{◌≡◌, ℕ, true, length, slice_get, Some, Contains};

/// A policy of eviction. Which frame it picks is free: no promise of the manager rests on the
/// choice.
pub trait Chooser {
    /// Picks a frame among those that may be evicted, and answers its place. `referenced` says
    /// which frames were used since their mark was cleared; the policy may clear marks and sets
    /// none. It can't fail.
    fn pick(&mut self, may: &[bool], referenced: &mut [bool]) -> usize
        requires lengths { length referenced.old ≡ length may.now }
        requires some { Contains may.now true }
        ensures may { slice_get may.now result ≡ Some true }
        ensures marks { (k : ℕ) → slice_get referenced.new k ≡ Some true
            → slice_get referenced.old k ≡ Some true };
}
