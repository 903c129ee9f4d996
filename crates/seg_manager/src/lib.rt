//! Segments whose caches are shared by references, over the interface of a memory manager.
//!
//! A cache of a segment lives while an opening or a region refers to it; what it holds when the
//! last reference goes is what the next opening of the segment finds. The model is the plain
//! machine with the stored pages of each segment beside it (`ReferenceMachine`), with the answer to
//! each command (`Answering`) and what a call may answer besides (`Outcome`); it knows no cache
//! that is kept for the next opening, and no manager. [`SegManager`] keeps such caches over any
//! manager of the interface. [`laws`] has worked scripts, that opening anew finds what was left,
//! and that runs in which caches get other numbers, as where more or fewer are kept, answer alike.
//! The crate stands on the interface and the plain types, and on `linear_index`, by which a cache
//! that is kept is found; it names no manager.
#![tactic(auto)]

mod answering;
mod commands;
mod ending;
mod keeping;
mod kept_caches;
pub mod laws;
mod links;
mod manager;
mod named_caches;
mod openings;
mod tables;

pub use manager::SegManager;
