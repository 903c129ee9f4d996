//! The machine that the memory manager is measured by: it keeps each cache as plain bytes and
//! copies at once.
//!
//! Its definitions are what a reader must believe, and are in specs/: the machine (`Machine`), the
//! place of an access (`Place`), the answer to each command (`Answering`), what a manager may
//! answer (`Outcome`), how the page forest follows (`PageForest`, `Following`), what a push writes
//! (`Pushing`), what a segment then holds (`Synchronised`) and a whole run (`Run`).
//! [`EagerMachine`] computes the answers; it is seen as the machine itself, and reaches no mapper
//! (`Allowed`). [`laws`] has what holds of machine and forest together. The crate stands on the
//! plain types alone; the interface, every manager and the replay stand on it.
#![tactic(auto)]

mod accesses;
mod actors;
mod caches;
mod copies;
mod eager_machine;
mod extents;
pub mod laws;
mod limits;
mod located;
mod locks;
mod maps;
mod numbering;
mod place;
mod tables;
mod telling;

pub use eager_machine::EagerMachine;
pub use limits::{LIVE_PAGES, LIVING_ACTORS, MOST_MADE, UNLOCKED_FRAMES};
pub use numbering::numbered;
