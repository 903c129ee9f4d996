//! Tests of loads and stores that wait for their page (`replay`): worked scripts in which later
//! answers overtake (`transit`), and drawn scripts by drawn turns, whose replies are those of the
//! machine that copies at once to the lines in the order in which they were answered (`drawn`).
#![tactic(auto)]

#[cfg(test)]
mod drawn;
#[cfg(test)]
mod transit;
