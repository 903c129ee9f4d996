//! Tests of the script's language, by lines and texts from outside (`scripts`), and of the loop over
//! lines, by a service whose accesses always wait (`services`).
#![tactic(auto)]

#[cfg(test)]
mod scripts;
#[cfg(test)]
mod services;
