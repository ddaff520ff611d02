//! An event that no cluster could make next.

use crate::why::Why;

/// An event that may not follow what stands before it.
#[derive(Clone, Copy, Debug, PartialEq, Eq)]
pub struct IllFormed {
    /// Its place in the history, counted from 0.
    pub place: usize,
    /// Why it may not stand there.
    pub why: Why,
}
