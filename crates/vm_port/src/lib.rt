//! What the memory manager asks of the outside: sources of bytes, sinks for bytes, mappers of
//! segments and swap slots, choosers of what to evict, and dispatchers of accesses that wait for
//! their page.
//!
//! It stands on the plain types alone, and every layer that reads, writes, pulls, pushes or evicts
//! stands on it. The outside is seen through five traits. Contracts speak of what a source has
//! left, what was written to a sink, what a mapper holds and which page it gave last, and of a
//! dispatcher's turns. An object in memory tells these, an adapter over a file or a stream doesn't,
//! and each clause on content holds where it is told. Sources, sinks and mappers count their
//! faults, and a call answers [`Failed`] only where that count rose in the call; a chooser and a
//! dispatcher can't fail. Counts never fall; they end at 2^64 - 1 and stay there.
#![tactic(auto)]

mod memory;
mod policies;
mod traits;

pub use memory::{CallKind, CallNo, MemoryMapper, MemorySink, MemorySource, WrongMapper};
pub use policies::{Clock, Fifo, Listed, ListedTurns, Rotor};
pub use traits::{Chooser, Dispatcher, Failed, Mapper, Sink, Source};
