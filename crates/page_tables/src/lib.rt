//! The page tables: which page frame is seen at a page of an actor, and whether it may be written.
//!
//! They are to the manager what the memory management unit is to a machine: an access that finds
//! its translation here asks nobody else. There are four places for entries for each page frame,
//! and where none is empty, a new entry takes the place of another one.
//!
//! The model is a list of places, each empty or with an entry: an actor, a page of it and a
//! [`Translation`]. No two entries are for the same page of an actor, so the list is a finite map;
//! which place an entry has means nothing. A drop empties just the places whose entries it names,
//! and leaves the others as they are.
//!
//! An entry is found by the hash of its actor and page (`probe_table`). The places of a frame, and
//! those of a row of actors, are on lists that are threaded through them, so a drop walks along one
//! list, or looks up the pages that it drops; no call goes through all places, and none but `new`
//! takes memory. The frames to which an entry for writing leads are a set that can be gone through:
//! so those of a large range are made read-only without a look at each of its pages. Room for all
//! places is taken by `new`, and those that were never used aren't filled in. This crate stands on
//! `vm_ids` and `probe_table`.
#![tactic(auto)]

mod entries;
mod entry;
mod frames;
mod links;
mod lists;
mod places;
mod tables;

pub use entry::Translation;
pub use tables::PageTables;
