//! An index: at which place each key is entered, found by hashing without ever hashing all anew.
//!
//! Its user keeps things of its own at places that are counted from 0, as the keys of a `slab`,
//! enters a place under a number of the thing (the key), and finds the place again by that number.
//! A key has one place at most, and a place one key.
//!
//! The index grows bucket by bucket, by linear hashing (Litwin, VLDB 1980). The buckets are those
//! of the last bits of a hash: of so many bits as there are buckets for, or of one less where that
//! bucket isn't there yet. A bucket more takes its places out of one other, and each place that is
//! entered adds at most one, until there is a bucket for each place. The places of a bucket are
//! chained through one vector of cells, a cell for each place, so a search doesn't touch the things
//! themselves. Nothing shrinks.
//!
//! None but `reserve` takes memory, and that takes addresses alone: a page of it is touched once
//! the first place or bucket on it is used. Sixteen keys in a row have buckets in a row, so whoever
//! goes from key to key goes through the memory in order.
//!
//! The model is a finite map from keys to places, and for how many places there is room; each call
//! is an equation on it. Buckets, chains and the hash are no part of it.
//!
//! This crate stands on nothing. It is made for page nodes that stand by themselves, which are
//! found by their number and by their page.
#![tactic(auto)]

mod cell;
mod chains;
mod hashes;
mod head;
mod index;
mod recent;

pub use index::Index;
