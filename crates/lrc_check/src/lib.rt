//! What the command `lrc check` says of a trace: whether such a memory could have made it, and if not, where not and why.
//!
//! **What contracts see.** `Checked` as it is. `IsFaithfulAndCounted` (specs/Faithful) says of a history that each event
//! may follow what stands before it, lax or not, and that each load returns what it may under the model (`IsModelAnswer` of
//! judge). Under lazy release, unless lax, it also says that each fetch counts its gap. `IsTraceJudgeOf` says what a `TraceJudge` is
//! by the events that it was told, `IsTrueCheckVerdict` what each answer means, and `IsFoundInBytes` that it is true of the
//! one trace with these bytes.
//!
//! **What is proved.** A `TraceJudge` takes an event at a time. It tells a lie as soon as that is read: what stands before
//! it is faithful, and with it nothing is, however it goes on; and why. It tells the first race as soon as its second event
//! is read, also if that is the lie. A `HistoryJudge` does this of a history by parts, `judge_history` of a whole one. A
//! `TraceStream` does it of a trace as it is read, and lets go of what it has judged; it answers a
//! fault of a line only if the bytes are no trace's. `tell_trace` answers which of a trace's events are told: all of a faithful one, else those up to the first lie and with it. If that
//! is asked for, the words that need a lock and have none are told besides (`AreUnprotectedTold`), by `judge_history` and by
//! a `TraceStream`, which may have let go of their accesses.
//!
//! **What is only tested**, by whole runs of the program `lrc`. The text of what was found, and that no call allocates
//! without need.
#![tactic(auto)]

mod check_fault;
mod checked;
mod checking_traces;
mod history_judge;
mod kept_lists;
mod labelled_accesses;
mod racing_words;
mod telling_traces;
mod told_events;
mod told_races;
mod trace_history;
mod trace_judge;
mod trace_stream;
pub mod traces;
mod unprotected;
mod verdict_text;
mod waiting;

pub use check_fault::CheckFault;
pub use checked::{Checked, Lie, Rules, TraceVerdict, Unexplained, are_counts_judged};
pub use checking_traces::{JudgedTrace, write_verdict};
pub use history_judge::judge_history;
pub use racing_words::RacingWord;
pub use telling_traces::{ToldTrace, tell_trace};
pub use told_events::{KnownEvent, ToldEvents};
pub use told_races::{RacesAsked, ToldRace, ToldRaces};
pub use trace_history::can_trace_be_held;
pub use trace_stream::TraceStream;
pub use verdict_text::{AnswersTold, verdict_reason_text, verdict_text_answers};
