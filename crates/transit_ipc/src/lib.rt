//! Message ports over the interface of a memory manager.
//!
//! A message is some whole pages, as they are when it is sent. It waits at a port, first in, first
//! out, and is received into another cache. The model is the plain machine with ports beside it
//! (`PortMachine`), with the answer to each command (`Answering`) and what a call may answer
//! besides (`Outcome`); it knows no cache that a message waits in, and no manager. [`laws`] has its
//! worked scripts, and that of each port what is received is what was sent. The crate stands on the
//! interface and the plain types alone, and names no manager.
#![tactic(auto)]

mod answering;
pub mod laws;
mod limits;
mod port;
mod ports;
mod table;

pub use limits::MOST_PORTS;
pub use table::Ports;
