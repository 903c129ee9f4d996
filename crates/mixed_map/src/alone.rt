// Entries that stand alone.
ghost use Rattle.std.specs.Prelude.{◌≡◌};

use std::alloc::Global;
use stretches::Says;

/// What is cloned as it is: a clone is the same as what it was made of.
pub trait Same: Clone {
    ghost same: { (entry copy : Self) → Self.is_clone entry copy → copy ≡ entry };
}

/// An entry that stands alone. It can be had from what a stretch says of a number, and contracts
/// see no difference: of a number that is in a stretch they see the entry `told v`.
pub trait Alone<V: Says>: Same {
    ghost told: { V → Self };

    /// The entry of a number of which a stretch says this.
    fn from_stretch(alloc: Global, value: V) -> Self
        ensures { result ≡ told value };
}
