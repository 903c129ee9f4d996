//! Scripts that the program's one call plays over mappers in memory: what the tests of `replay`
//! have in common. It has no tests of its own and no program stands on it.
//!
//! The mappers (`mappers`), what a run of a script writes (`writing`), the order in which it was
//! answered (`order`), drawn scripts of three actors (`drawn`), and calls of a mapper that fail one
//! after the other (`faults`).
#![tactic(auto)]

mod drawn;
mod faults;
mod mappers;
mod order;
mod writing;

pub use drawn::{Touched, drawn_script};
pub use faults::are_answered_beside_faults;
pub use mappers::{images, one_segment, swap_area, two_pages};
pub use order::{as_answered, number_of, said};
pub use writing::{run_cut, run_source, text, written, written_by};
