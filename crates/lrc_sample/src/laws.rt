//! Laws, as contracts of functions that do nothing: the check proves each by its name.
ghost use Rattle.lrc_sample.specs.Prelude.{SampleFirstLaw, SampleRaceFreeLaw};

/// Each line of a sample counts a run at least, and the run that it tells came to its outcome, as none before it did.
pub fn sample_first_law()
    ensures { SampleFirstLaw }
{}

/// No outcome of a script that never races on one flat memory is racy.
pub fn sample_race_free_law()
    ensures { SampleRaceFreeLaw }
{}
