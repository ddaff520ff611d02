//! What a run of a script answers.

use journal::{Journal, Traffic};

/// The answer of a run: the shown addresses in order with their last words, whether the journal has a
/// race, its traffic, and the journal itself.
#[derive(Drop)]
pub struct Report {
    pub shown: Vec<(usize, u32)>,
    pub racy: bool,
    pub traffic: Traffic,
    pub journal: Journal,
}
