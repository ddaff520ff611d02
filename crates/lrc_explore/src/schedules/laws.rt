//! Laws, as contracts of functions that do nothing: the check proves each by its name.
ghost use Rattle.lrc_explore.specs.Schedules.Prelude.{ExploredScheduleBegunLaw, ExploredScheduleGoesOnLaw, ExploredScheduleNeverStuckLaw, ExploredScheduleReportLaw};

/// An explained history that begins a script, of which no prefix on one flat memory races, has no race and replays, also
/// if it ends before the script does. So `conformance_race_free_law` of crate `conformance` holds of runs that are stuck or halted,
/// too.
pub fn schedule_begun_law()
    ensures { ExploredScheduleBegunLaw }
{}

/// If a search finds a script race-free, each report of it says race-free, whatever the lock, the seed and the order of
/// the threads were. If it finds all outcomes, what its loads answered, processor by processor, is one of them, and the
/// words that it shows are the last ones of processor 0. This is said of the whole history, with what cuts took off it.
pub fn schedule_report_law()
    ensures { ExploredScheduleReportLaw }
{}

/// If a search finds a script race-free and no hang, no run of it is ever stuck: whatever it has done, either that is
/// all of the script, or some call may come next, fetches aside. Which thread goes on, and when, no law says.
pub fn schedule_never_stuck_law()
    ensures { ExploredScheduleNeverStuckLaw }
{}

/// If a search finds a lawful script race-free and no hang, each well formed and explained history that begins it, and
/// isn't whole, goes on: there is a call that may come next. It is the next call of some processor's section, with the reply
/// that a load of it has on one flat memory. That a thread makes it no law says.
pub fn schedule_goes_on_law()
    ensures { ExploredScheduleGoesOnLaw }
{}
