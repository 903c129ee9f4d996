//! The machine that copies at once, with a mapper in memory of its own: the plain form beside which
//! tests put a manager. It has no tests of its own and no program stands on it.
#![tactic(auto)]

mod plain;

pub use plain::Plain;
