// Laws of the definitions. Each function does nothing, and its contract is the laws.
ghost use Rattle.flat_mm.specs.FramedAnswers.{FramesAreEnough, FramesRunOut, FramesTellAnswers};
ghost use Rattle.flat_mm.specs.TwoManagers.{AgreeUntilFull};

/// Worked scripts, computed by the definitions.
pub fn worked_scripts()
    ensures frames_run_out { FramesRunOut }
    ensures frames_are_enough { FramesAreEnough }
{}

/// A manager in which each live page has a frame answers as one whose room isn't limited, until
/// more pages would be alive than there are frames.
pub fn two_managers()
    ensures agree_until_full { AgreeUntilFull }
    ensures frames_tell_answers { FramesTellAnswers }
{}
