//! Laws of a trace with its fetches, as contracts of functions that do nothing: the check proves each by its name.
ghost use Rattle.lrc_pages.specs.Prelude.{FetchedLaw, OneFetchedLaw};

/// A trace has one history with its fetches at most, on pages of one size.
pub fn one_fetched_law()
    ensures { OneFetchedLaw }
{}

/// In that history each fetch counts its gap, each access finds its copy whole, and all other events are the trace's.
pub fn fetched_law()
    ensures { FetchedLaw }
{}
