//! Laws of runs. Each function does nothing, and its contract is the law.
ghost use Rattle.line_service.specs.Alone.{LinesAlone};

use crate::Service;
use vm_port::{Chooser, Mapper};

/// A service whose lines are never accesses answers them one after another.
pub fn no_accesses<V: Service<M, C>, M: Mapper, C: Chooser>()
    ensures { LinesAlone V.semantics }
{}
