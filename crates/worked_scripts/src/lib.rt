//! Scripts with their whole output, worked out by hand from the rules of the commands and of the
//! page forest. Tests of several subjects play them; the crate has no tests of its own and no
//! program stands on it.
#![tactic(auto)]

pub mod accesses;
pub mod copies;
pub mod frames;
pub mod segments;
