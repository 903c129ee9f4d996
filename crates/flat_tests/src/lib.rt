//! Tests of the manager without paging (`replay`'s word `flat`): worked scripts, and scripts that
//! both managers answer the same.
#![tactic(auto)]

#[cfg(test)]
mod flat;
