// Accesses, and those that wait for their page.
use crate::{ActorId, Piece};

/// A load or a store: what it is at an address of an actor.
#[derive(Drop)]
pub enum Access {
    /// Load so many bytes, 1 to 64, at an address.
    Load { address: u64, length: u8 },
    /// Store bytes at an address.
    Store { address: u64, piece: Piece },
}

/// An access that was issued and waits for its page: it is parked until the page is brought in.
#[derive(Drop)]
pub struct Parked {
    /// The number of its line.
    pub line: u32,
    /// Whose access it is.
    pub actor: ActorId,
    pub access: Access,
}
