//! Processes over the interface of a memory manager, as Chorus/MIX makes them.
//!
//! A process is an actor with three areas: text, which all processes made of one segment share, and
//! data and a stack of its own. A fork copies these, and the manager defers the copies. The model
//! is a machine of processes that have plain pages of bytes (`ProcessMachine`), with the answer to
//! each command (`Answering`) and what a call may answer besides (`Outcome`); it knows no cache and
//! no manager. [`PlainProcesses`] is that machine, run plainly. [`laws`] has its worked scripts,
//! and that a fork is of one moment. The crate stands on the interface and the plain types alone,
//! and names no manager.
//!
//! What the processes over a manager stand for is read off the machine that the manager stands for
//! (`Seen`): the pages of an area are those of its parts' caches, one behind the other. They are
//! tied to that machine (`Tying`): each process is a living actor whose regions are its parts, each
//! part has a cache of its own or shares the one of an image, and the machine has no other actors
//! and caches. Each call leads from one such tie to the next (`Calling`); inner calls say besides
//! which caches are spare, that is of no process (`Inner`, `Adding`). Where the mapper doesn't tell
//! what it holds, the same is said of processes without bytes (`Stepping`). A part is mapped behind
//! what its area has, so no two regions ever overlap; text and stack are one part, and each growth
//! of the data is a part more. An image's cache is never written, so that what is pushed to its
//! segment is what the segment holds.
#![tactic(auto)]

mod answering;
mod area;
pub mod laws;
mod mix;
mod plain;
mod process;

pub use area::{Area, DATA_START, MOST_DATA, MOST_STACK, MOST_TEXT, STACK_START, TEXT_START};
pub use mix::Mix;
pub use plain::PlainProcesses;
