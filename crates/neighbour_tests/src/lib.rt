//! Tests of the words whose lines stand for calls of a neighbour of the manager (`replay`): scripts
//! of processes (`processes`), of message ports (`ports`) and of segments that are opened again and
//! again (`reopened`). Of each, worked scripts, drawn ones beside a plain machine, and calls of the
//! mapper that fail.
#![tactic(auto)]

#[cfg(test)]
mod kept;
#[cfg(test)]
mod ports;
#[cfg(test)]
mod processes;
#[cfg(test)]
mod reopened;
#[cfg(test)]
mod script;
