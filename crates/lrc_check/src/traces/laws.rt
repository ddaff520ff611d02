//! Laws, as contracts of functions that do nothing: the check proves each by its name.
ghost use Rattle.lrc_check.specs.Traces.Prelude.{UnlabelledTraceLaw, CutRefusedLaw, OneTraceLaw, PrintedTraceLaw, WellFormedTraceLaw};

/// No two traces have one text.
pub fn one_trace_law()
    ensures { OneTraceLaw }
{}

/// What is printed of a journal of which nothing was cut off is, behind the line of its sizes, the text of a trace
/// of its events, and of no other.
pub fn printed_trace_law()
    ensures { PrintedTraceLaw }
{}

/// A journal that is well formed and not too long is a trace.
pub fn well_formed_trace_law()
    ensures { WellFormedTraceLaw }
{}

/// What is printed of a journal of which something was cut off has a fault at its second line: that it was cut.
pub fn cut_law()
    ensures { CutRefusedLaw }
{}

/// The text of a trace has no label: without its labels it is the same.
pub fn unlabelled_trace_law()
    ensures { UnlabelledTraceLaw }
{}
