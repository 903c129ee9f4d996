// Laws of the definitions. Each function does nothing, and its contract is the laws.
ghost use Rattle.mix_process.specs.Laws.{ForksAreOfOneMoment, LoadsAreOfBytes};
ghost use Rattle.mix_process.specs.Rows.{ForkedAndGrown, RefusedProcesses};

/// Worked scripts, computed by the definitions.
pub fn worked_scripts()
    ensures forked_and_grown { ForkedAndGrown }
    ensures refused_processes { RefusedProcesses }
{}

/// Parent and child have, each until it stores there, what the parent had at the fork.
pub fn forking()
    ensures forks_are_of_one_moment { ForksAreOfOneMoment }
    ensures loads_are_of_bytes { LoadsAreOfBytes }
{}
