// The fault of the outside.

/// The one fault of the outside: a read, a write or a call of a mapper failed.
#[derive(Clone, Copy, Debug, PartialEq, Eq)]
pub struct Failed;
