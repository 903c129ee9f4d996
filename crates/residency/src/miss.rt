// Why a page couldn't be brought in.

/// Why a page couldn't be brought in. Every page is then where it was, or was evicted.
#[derive(Clone, Copy, Debug, PartialEq, Eq)]
pub enum Miss {
    /// A pull failed.
    Pull,
    /// The push of a victim of eviction failed.
    Victim,
}
