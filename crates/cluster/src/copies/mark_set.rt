//! Sets of small numbers.
ghost use Rattle.std.specs.Prelude.{◌≡◌, ◌<◌, ◌↔◌, IsTrue, IfSome, IfNone, Some, true, false, replicate, slice_get};
ghost use Rattle.std.specs.Prelude.{slice_set};
ghost use Rattle.base.specs.Prelude.{most_pages};
ghost use Rattle.page.specs.Prelude.{page_marks_of};
ghost use Rattle.cluster.specs.Copies.Prelude.{IsLowestMarkedCopyFrom, LacksMarkedCopyFrom};

use base::MOST_PAGES;
use std::marker::Model;

/// A set of numbers below `MOST_PAGES`, one bit each. Contracts see the list of as many marks.
#[derive(Debug, Drop)]
pub struct MarkSet {
    bits: u64,
}

impl Model for MarkSet {
    ghost use Rattle.std.specs.Prelude.{List, Bool};
    ghost use Rattle.base.specs.Limits.{most_pages};
    ghost use Rattle.page.specs.PageMarks.{page_marks_of};

    ghost Value = { List Bool };

    ghost view = { λ m. page_marks_of most_pages m.bits };
}

impl MarkSet {
    /// No number.
    pub fn none() -> MarkSet
        ensures { result ≡ replicate most_pages false }
    {
        MarkSet { bits: 0 }
    }

    /// Whether the number is there.
    pub fn has(&self, number: usize) -> bool
        requires { number < most_pages }
        ensures { slice_get self.now number ≡ Some result }
    {
        self.bits >> number & 1 == 1
    }

    /// The least number from `start` on that is there.
    pub fn first_from(&self, start: usize) -> Option<usize>
        ensures some { IfSome result (λ n. IsLowestMarkedCopyFrom self.now start n) }
        ensures none { IfNone result (LacksMarkedCopyFrom self.now start) }
    {
        if start >= MOST_PAGES {
            return None;
        }
        let rest = self.bits >> start;
        if rest == 0 {
            return None;
        }
        Some(start + rest.trailing_zeros() as usize)
    }

    /// Adds the number.
    pub fn add(&mut self, number: usize)
        requires { number < most_pages }
        ensures { self.new ≡ slice_set self.old number true }
    {
        self.bits |= 1 << number;
    }
}
