//! Tests of the edge, by public calls alone: sources, sinks, mappers and policies in memory
//! (`ports`), and the accesses that wait for their page (`waits`).
#![tactic(auto)]

#[cfg(test)]
mod ports;
#[cfg(test)]
mod waits;
