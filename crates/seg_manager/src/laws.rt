// Laws of the definitions. Each function does nothing, and its contract is the laws.
ghost use Rattle.seg_manager.specs.Laws.{ReopensAsItWas};
ghost use Rattle.seg_manager.specs.Limits.{EqualRunsAnswerEqually, RunsAreAlike};
ghost use Rattle.seg_manager.specs.Rows.{KeptCacheComesAgain, NothingIsKept};

/// Worked scripts, computed by the definitions.
pub fn worked_scripts()
    ensures kept_cache_comes_again { KeptCacheComesAgain }
    ensures nothing_is_kept { NothingIsKept }
{}

/// What a segment's cache held when its last reference went is what the next opening finds.
pub fn reopening()
    ensures { ReopensAsItWas }
{}

/// How many caches are kept for the next opening shows in the numbers of caches alone, and in which
/// commands are answered a fault, want of memory, or too many.
pub fn limits()
    ensures runs_are_alike { RunsAreAlike }
    ensures equal_runs_answer_equally { EqualRunsAnswerEqually }
{}
