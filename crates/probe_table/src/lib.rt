//! Hash tables of fixed size, by open addressing: from a hash to the numbers entered under it.
//!
//! A table sees no key. Its user keeps things of its own by number, enters a number under the hash
//! of its key, and finds it again by that hash and a test of the number. A table is made for so
//! many numbers, which are counted from 0. A number is found, entered or removed by a walk over one
//! run of taken buckets.
//!
//! Memory for all numbers is taken when a table is made, and none after that, so nothing fails
//! later. It is touched only as numbers are entered: the numbers up to some have hashes and
//! buckets, and entering a number past them gives some to twice as many. Then the buckets are
//! emptied, and each number that is entered is put into one again. Where numbers are entered in
//! their order, that comes to about once for each number in all.
//!
//! The model is a list: for each number, the hash under which it is entered, or none. Which bucket
//! it stands in is no part of it, nor how many numbers have buckets. [`hash`] and [`hash_pair`]
//! make a good hash of plain numbers. This crate stands on the plain types alone; a layer above
//! keeps the keys.
#![tactic(auto)]

mod growth;
mod hashes;
mod probe;
mod table;

pub use hashes::{hash, hash_pair};
pub use table::ProbeTable;
