//! Tests of whole runs (`replay`) by worked scripts: however the reads of a script are cut it has
//! its replies (`cuts`), over segments what they hold then besides (`segments`), and over a mapper
//! that gives wrong pages what it gave (`wrong_pages`).
#![tactic(auto)]

#[cfg(test)]
mod cuts;
#[cfg(test)]
mod hundred_pages;
#[cfg(test)]
mod segments;
#[cfg(test)]
mod wrong_pages;
