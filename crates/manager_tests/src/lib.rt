//! Tests of the demand-paged manager, by public calls alone: histories of drawn commands, each
//! answered beside the machine that copies at once (`answers`), and what memory that is there
//! suffices for (`memory`).
#![tactic(auto)]

#[cfg(test)]
mod answers;
#[cfg(test)]
mod commands;
#[cfg(test)]
mod memory;
#[cfg(test)]
mod segments;
