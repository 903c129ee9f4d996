//! A memory manager without paging: each page of a live cache has a page frame of its own from its
//! making, and a copy copies at once.
//!
//! [`FlatMm`] keeps the pages of all caches in page frames, and the actors with their regions. It
//! swaps nothing, defers nothing and tells no page forest; where it has fewer free frames than
//! pages are asked for it answers `Full`. It is the second manager of the interface of `gmi_calls`:
//! what the manager with paging (`pvm_core`) saves and costs is measured beside it. What it stands
//! for is the machine of plain bytes, whose pages are the bytes of the frames. Inside, the store of
//! pages alone knows of frames; the calls above it speak of caches and their pages. The crate
//! stands on `frame_pool`, `contexts` and `regions`, as the other manager does.
//!
//! [`laws`] compares two managers over one script, by the interface alone and without naming
//! either: one without paging answers as one that pages, until its frames run out. What either
//! pushes to segments, and when, may differ.
#![tactic(auto)]

mod access_calls;
mod answering;
mod cache_calls;
mod extent_calls;
mod framed;
mod gmi;
pub mod laws;
mod locks;
mod manager;
mod pulling;
mod pushing;
mod region_calls;
mod span_calls;
mod store;
mod write_access;

pub use manager::FlatMm;
