//! Tests of what a run (`replay`) does with its source and its sink: streams that fail (`streams`),
//! lines that are no commands (`lines`), how many writes it takes, when a reply is out, and how long
//! a script may be (`writes`), and the lines that a number makes (`generated`).
#![tactic(auto)]

#[cfg(test)]
mod generated;
#[cfg(test)]
mod lines;
#[cfg(test)]
mod streams;
#[cfg(test)]
mod writes;
