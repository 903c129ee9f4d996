//! The loop over the lines of a script, for whoever answers them.
//!
//! Lines come from a source in pieces, or are made by a number; a [`Service`] answers each; and the
//! answers go, one behind another, to [`Replies`]: as texts to a sink, or into a tally. An access
//! may have to wait for its page. Then it is parked, other actors go on, and a dispatcher says
//! which parked access is delivered next.
//!
//! Its model is in specs/. What a reader must believe: what the calls of a service say (`Serving`),
//! the lines of a script (`Script`), what there is between two lines and how events lead on
//! (`Going`), and how a replay ends (`Ending`); events, and the order of answers that follows from
//! them, are those of the plain machine's crate. The rest serves the contracts of the parts alone:
//! answers that are put (`Putting`), accesses that are parked (`Parking`), texts that are gathered
//! (`Gathering`), how far a replay has come (`Underway`), and tallies (`Tallying`). Where no line
//! is an access, lines are answered one after another: so says a law ([`laws`], `Alone`).
//!
//! It stands on the traits of the outside, the definition of a run by events, the list of parked
//! accesses, what a manager's delivery tells, and the script language; it knows no manager. Whoever
//! answers lines stands on it, so that each word of the program has the same promise over its own
//! meaning of a line. The way of a byte: `replaying` reads pieces, `feeding` finds lines,
//! `answering` answers or parks one line, `asking` asks the dispatcher, `delivering` answers what
//! was parked, `gathered` keeps the replies. Those to one piece go out together, and before the
//! next piece is read. `made` has the loop over lines that are made. Beside the calls of a service
//! nothing here takes memory.
#![tactic(auto)]

mod answering;
mod asking;
mod delivering;
mod ended;
mod feeding;
mod gathered;
pub mod laws;
mod made;
mod progress;
mod replaying;
mod replies;
mod service;
mod tallying;

pub use ended::Ended;
pub use gathered::Gathered;
pub use made::answer_made;
pub use replaying::replay;
pub use replies::Replies;
pub use service::Service;
