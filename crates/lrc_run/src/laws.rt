//! Laws, as contracts of functions that do nothing: the check proves each by its name.
ghost use Rattle.lrc_run.specs.Prelude.{RaceFreeReportLaw};

/// The report of a script that never races on one flat memory tells of no race, and its history replays there.
pub fn race_free_report_law()
    ensures { RaceFreeReportLaw }
{}
