//! Entries by number: one finite map, in which an entry stands alone or in a stretch.
//!
//! Of many numbers in a row entries are alike, each as it follows from the one before: they stand
//! in one stretch, and cost what one entry costs. An entry that is like none of its neighbours
//! stands alone: it has a slot of its own in a slab, which an index finds in constant time, and
//! changing it moves nothing else. Whoever keeps entries in a [`MixedMap`] sees one map, and need
//! not know which way an entry stands: `get` finds it either way ([`Found`]), by the index first.
//! What is set by itself stands alone from then on, cut out of its stretch; what is put as a
//! stretch stays one, and entries that stand alone and are alike again are gathered into one.
//! Whoever changes much of one entry finds its [`Place`] once and changes it there.
//!
//! How a lone entry is had from what a stretch says is the trait [`Alone`]'s. The model is a finite
//! map from numbers to entries, another one from the numbers that stand alone to their slots, the
//! stretches that tell the others, how many entries there are, and for how many there is room: the
//! calls are equations on it. Which numbers are in one stretch matters only to loops that go from
//! stretch to stretch (`stretch_from`). None but `reserve` takes memory. For entries to come that
//! is addresses alone; those that stand alone are cloned into the greater room, each as it is
//! ([`Same`]), so whoever needs more room again and again does well to double it.
//!
//! This crate stands on `stretches`, whose list keeps the stretches, on `linear_index`, whose index
//! finds the slots, and on `slab`, which keeps the entries in them. It is made for page nodes.
#![tactic(auto)]

mod alone;
mod found;
mod lone_map;
mod mixed_map;
mod place;

pub use alone::{Alone, Same};
pub use found::Found;
pub use lone_map::LoneMap;
pub use mixed_map::MixedMap;
pub use place::Place;
