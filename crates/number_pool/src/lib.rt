//! Numbers below a bound, each free or taken: the names of page frames and of swap slots.
//!
//! A pool hands out a free number and gets it back, in constant time and whatever the bound, which
//! can grow.
//!
//! The model is a list: of each number below the bound, whether it is taken. Each call changes what
//! it names of the named number alone. Which free number is handed out is no part of it. This crate
//! stands on the plain types alone; `frame_pool` and `slot_pool` stand on it, and say what a number
//! means.
#![tactic(auto)]

mod pool;

pub use pool::NumberPool;
