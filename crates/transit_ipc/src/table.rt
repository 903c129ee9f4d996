// The ports, and the table of the caches in which their messages wait.
ghost use Rattle.transit_ipc.specs.Transit.{IsTable};

use crate::port::Port;
use std::alloc::Global;

/// Message ports over a memory manager. A message that waits has a temporary cache of its own: it
/// is copied there when it is sent, and moved out when it is received; the manager defers both.
#[derive(Drop)]
pub struct Ports<G> {
    pub(crate) alloc: Global,
    pub(crate) gmi: G,
    // Ports stand at their number less 1.
    pub(crate) ports: Vec<Port>,
    // Of each number of a cache whether a message waits there. It has its full length from the
    // first port on.
    pub(crate) transit: Vec<bool>,
    ghost table: { IsTable ports.items transit.items },
}
