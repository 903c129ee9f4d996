//! The actors, each with its regions while it is alive, and the place of an access.
//!
//! Actors are numbered from 1 in the order of making, and so are regions; no number comes again.
//! Lists by the numbers of regions tell for which actor each was made and at which address it
//! starts, so it is found without a search among the actors, and among those of its actor by halves.
//! A list by the numbers of caches has how many regions map each, and so tells whether one is
//! mapped. Only `make`, `map` and `split` take memory, for one actor or one region more, and where
//! there is none everything stays as it was.
//!
//! The model is what the plain machine (`vm_model`) has of actors: the regions of each, or none
//! where it is dead, and how many regions were made. The calls say in its words what they do and
//! answer. Of the fields it holds that each region was made for the actor that has it, under a
//! number of its own, that it starts where it is kept that it does, and that each count is of the
//! regions that there are. This crate stands on `vm_ids`, `vm_model` and `regions`; both managers
//! (`pvm_core` and `flat_mm`) stand on it.
#![tactic(auto)]

mod contexts;
mod counts;
mod maps;
mod spaces;

pub use contexts::Contexts;
pub use maps::passes_end;
