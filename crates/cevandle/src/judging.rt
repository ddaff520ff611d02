//! What judges a history: whole, event by event, or as a trace's text.

pub use judge::locksets::{Guarded, LocksetFinder, LocksetWords, PairedAccess, Unprotected};
pub use judge::{Frontier, History, KeptStores, MemoryModel, NearestRaces, Sizes, Why};
pub use lrc_check::traces::fault::TraceFault;
pub use lrc_check::traces::labels::TraceLabels;
pub use lrc_check::traces::reader::Reader;
pub use lrc_check::traces::trace::{LabelledTrace, Trace, TraceSizes};
pub use lrc_check::{
    CheckFault, Checked, Lie, Rules, TraceStream, TraceVerdict, Unexplained, judge_history,
};
