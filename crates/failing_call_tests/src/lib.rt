//! Tests of runs (`replay`) over mappers of which one call fails, or two: the lines that tell no
//! fault are answered as if those that tell one weren't there. A plain page forest (`page_forest`)
//! that follows the replies (`following`) tells the chains and counts.
#![tactic(auto)]

#[cfg(test)]
mod failing_calls;
#[cfg(test)]
mod following;
#[cfg(test)]
mod page_forest;
