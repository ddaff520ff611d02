//! How far a processor is on its way through a script.

/// How far a processor is in its section.
#[derive(Clone, Copy, PartialEq)]
pub enum TurnProgress {
    /// Its next instruction is this one, or the closing barrier after the last.
    Next(usize),
    /// It waits in this one.
    Waits(usize),
    /// It has passed the closing barrier.
    Passed,
}
