//! The laws of a round's lines and of a run's commits, as the contracts of functions that do nothing.
ghost use Rattle.run_log.specs.Laws.{CommitsRunOn, LinesInOrder};

/// Where the operations of several workers are one order, the lines of these are one too: those of
/// each caller in the order of the script, and each with the number that it was told.
pub fn lines_in_order()
    ensures { LinesInOrder }
{}

/// On files that have the first of a run's commits, whole, the next run can begin: their last commit
/// is lawful, or there is none. It asks that there was room for the lines of the run.
pub fn commits_run_on()
    ensures { CommitsRunOn }
{}
