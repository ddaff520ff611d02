//! The history that is told, and how its events are numbered.

use judge::History;
pub use lrc_prose::numbers::ProseNumbers;

/// A history that is told.
#[derive(Clone, Copy)]
pub struct ToldHistory<'a> {
    pub history: &'a History<'a>,
    /// Of each event what its line had of its logger's own, in printable signs of ASCII; nothing where this has no row.
    pub labels: &'a [Vec<u8>],
    /// Why the last event is a lie, in words; None where it is none.
    pub lie: Option<&'a str>,
}

impl<'a> ToldHistory<'a> {
    /// The history of a run.
    pub fn of_run(history: &'a History<'a>) -> ToldHistory<'a> {
        ToldHistory {
            history,
            labels: &[],
            lie: None,
        }
    }
}

/// The numbers of the history's events.
pub fn told_history_numbers(history: &History<'_>) -> ProseNumbers {
    ProseNumbers {
        cut: history.cut_events(),
        opening: history.opening(),
    }
}
