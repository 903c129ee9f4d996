//! A script from bytes to bytes: each line is read as a command, a memory manager answers it, and
//! the reply is written as a line.
//!
//! Its model is in specs/. What a reader must believe: the words of a command line (`Commanding`),
//! and how a run ends (`Ending`), which says of the commands of a script what `line_service` says
//! of lines, and what lines mean that are answered at once (`AtOnce`, `Processing`, `Posting`,
//! `Reopening`, `Framed`). The rest serves the contracts of the parts alone: what clap reads
//! (`Reading`), what it takes to call a manager (`Managing`, `Few`), and what a replay promises
//! beside how it ends (`Replaying`).
//!
//! It stands on the loop over lines (`line_service`), for which a manager of the interface answers
//! the commands of a script (`commands`), or whoever answers each at once (`at_once`): processes,
//! message ports and segments over a manager, or the manager without paging (`frames`). Only
//! `replaying` and `trying` name the demand-paged manager, and for one word `replaying` and `frames`
//! the other. The program makes one call, [`run`]. The lines that a number makes are written by
//! `generating`, and answered by `trying`, which writes their summary.
#![tactic(auto)]

mod asked;
mod at_once;
mod commands;
mod frames;
mod generating;
mod given;
mod ports;
mod processes;
mod replaying;
mod segments;
mod status;
mod top;
mod trial_words;
mod trying;
mod words;

pub use status::Status;
pub use top::run;
pub use words::{folder, page_size};
