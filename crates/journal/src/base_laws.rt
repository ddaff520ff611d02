//! The laws of what is left after a cut, of deadlocks and of the words of copies, as contracts of functions that do
//! nothing: the check proves each by its name.
ghost use Rattle.journal.specs.Prelude.{SameBaseLaw, WellFormedBaseLaw, FlatBaseLaw, CopyBaseLaw, CutTwiceBaseLaw, NoBaseLaw, HistoryLawUncut};
ghost use Rattle.journal.specs.Prelude.{HistoryLaw, DeadlockLaw, CopyAnswerLaw};

/// What was cut off happens before all that is left, of which order, pasts, races and explained loads are
/// the same, read from the history or from the base.
pub fn same_base_law()
    ensures { SameBaseLaw }
{}

/// A history is well formed exactly if what was cut off is, and what is left is from the base.
pub fn well_formed_base_law()
    ensures { WellFormedBaseLaw }
{}

/// What was cut off of an explained history replays, and what is left replays from the base up to its
/// first race.
pub fn flat_base_law()
    ensures { FlatBaseLaw }
{}

/// A lawful copy of a processor that has departed since the cut is the base's page after the stores of its
/// past that are left.
pub fn copy_base_law()
    ensures { CopyBaseLaw }
{}

/// Cuts add up: the base after one more cut is that of all events cut off.
pub fn cut_twice_base_law()
    ensures { CutTwiceBaseLaw }
{}

/// If nothing was cut off, a journal says from the base what it says without one.
pub fn no_base_law()
    ensures { NoBaseLaw }
{}

/// A journal of which nothing was cut off holds all of its history, and a cut leaves the history as it
/// was.
pub fn history_base_law()
    ensures whole { HistoryLawUncut }
    ensures cut { HistoryLaw }
{}

/// No event may follow a history in which each processor waits for what has not come.
pub fn deadlock_law()
    ensures { DeadlockLaw }
{}

/// Of a processor's copy a history has at most one word at an address before a place, and each history that
/// goes on from it has the same.
pub fn copy_answer_law()
    ensures { CopyAnswerLaw }
{}
