//! Tests of the program's words (`replay`): those that ask for a run, a script or a trial, and those
//! that ask for nothing.
#![tactic(auto)]

#[cfg(test)]
mod words;
