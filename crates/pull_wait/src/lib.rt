//! The accesses that wait for their page, in order of issue: at most one of each actor, and at most
//! 256, since so many actors may be alive.
//!
//! It stands on the plain types alone, and the loop of the replay stands on it. Its model is the
//! list of the parked accesses, the one that was issued first in front. The memory for all of them
//! is taken when it is made, so that no access has to wait for memory.
#![tactic(auto)]

mod waiting;

pub use waiting::PullWait;
