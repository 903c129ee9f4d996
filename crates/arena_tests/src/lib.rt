//! Tests of the arena of page nodes, by public calls alone: nodes that are made or renamed at once
//! stand in few runs, and so do those of pages that are copied, retired and moved at once.
//!
//! What is proved of a crate needs no test of its own. In how many runs nodes stand is the one
//! thing here that no clause tells.
#![tactic(auto)]

#[cfg(test)]
mod merges;
#[cfg(test)]
mod moves;
#[cfg(test)]
mod nodes_in_runs;
