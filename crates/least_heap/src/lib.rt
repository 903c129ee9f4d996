//! Numbers at places, of which the least is at hand, and any may go.
//!
//! Its user keeps things of its own at places that are counted from 0, as the keys of a `slab`, and
//! enters a number at a place. The least number and its place are always known; the number at any
//! place can go, in the logarithm of how many there are. Numbers that rise are entered in constant
//! time. A place has one number at most; several may have the same.
//!
//! It is a binary heap that knows where each place stands in it: a vector of numbers with their
//! places, in which none is less than the one at half its index, and beside it a vector from places
//! to indexes. None but `reserve` takes memory, and that takes addresses alone: a page of it is
//! touched once the first place or number on it is used.
//!
//! The model is a finite map from places to numbers, and for how many places there is room; each
//! call is an equation on it. How the numbers stand in the heap is no part of it.
//!
//! This crate stands on nothing. It is made for page nodes of which that with the least number is
//! settled next.
#![tactic(auto)]

mod heap;
mod least_heap;

pub use heap::Numbered;
pub use least_heap::LeastHeap;
