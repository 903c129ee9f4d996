//! Ranges of a cache that is named by a segment: their writes are asked for, their pages are pushed
//! home, and their heirs get them before they are replaced.
//!
//! A page of a named cache is granted once, by the mapper's getWriteAccess, before it is written or
//! replaced (`write_access`). What its node reads goes to the segment by sync and flush
//! (`push_range`): an own page is clean in its frame then, and an inherited one is pushed as the
//! owner has it, and stays inherited. Where pages of a named cache are to be replaced, from a copy,
//! a move or their segment, whoever still reads them through the cache owns them first, since the
//! segment may change afterwards (`save_range`; sync, flush, invalidate and getWriteAccess of
//! Abrossimov, Rozier and Shapiro, SOSP 1989). Pages of which nothing is to be pushed, given up or
//! saved are passed over, as many at once as have alike nodes.
//!
//! The model is that of `residency` and `fault_path`: worlds, and the page forest of a store.
//! `StaysWhole` of `specs` says what the calls that reach the forest keep, and `TellsValues` in it
//! that each page pushed to a segment is what its node reads. Of writes only the grants change
//! (`GrantsBefore`), of pushes only where pages are (`Still`); the saves are those of the forest.
//! Translations are dropped by frame, and what is left of them leads to where it led (`Drops`).
//! The crate stands on `fault_path`, `history_tree`, `residency` and `local_cache`, and the manager
//! stands on it.
#![tactic(auto)]

mod access;
mod alike;
mod pushing;
mod saving;

pub use access::write_access;
pub use pushing::push_range;
pub use saving::save_range;
