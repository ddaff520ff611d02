//! The line of a trace that has a fault.

use lrc_check::traces::trace::TraceSizes;
use std::alloc::Global;

/// The line of a trace that has a fault, as far as it was kept, and what is known of the trace before it.
#[derive(Drop)]
pub struct RefusedLine {
    /// Its bytes, without a line feed.
    bytes: Vec<u8>,
    /// How many lines before it were passed over.
    passed: usize,
    /// The trace's sizes, if their line was read.
    sizes: Option<TraceSizes>,
}

impl RefusedLine {
    /// Nothing is kept yet.
    pub fn new(alloc: Global) -> RefusedLine {
        RefusedLine {
            bytes: Vec::new(alloc),
            passed: 0,
            sizes: None,
        }
    }

    /// Keeps a line with these bytes behind so many that were passed over. If there is no memory for the bytes, none is kept.
    pub fn keep(&mut self, bytes: &[u8], passed: usize, sizes: Option<TraceSizes>) {
        self.bytes.clear();
        if self.bytes.extend_from_slice(bytes).is_err() {
            self.bytes.clear();
        }
        self.passed = passed;
        self.sizes = sizes;
    }

    /// Its bytes, without a line feed.
    pub(crate) fn bytes(&self) -> &[u8] {
        &self.bytes
    }

    /// The number of this line in its file, where it is this one among those that aren't passed over.
    pub(crate) fn number(&self, told: usize) -> usize {
        told.saturating_add(self.passed)
    }

    /// The trace's sizes, if their line was read.
    pub(crate) fn sizes(&self) -> Option<TraceSizes> {
        self.sizes
    }
}
