//! Write notices, and the records that travel with them.

use page::Record;
use std::marker::Model;
use std::sync::Arc;

/// Says that an interval wrote to a page, and not what it wrote (Keleher, Cox and Zwaenepoel 1992,
/// section 3.2).
#[derive(Clone, Copy, Debug, PartialEq, Eq)]
pub struct Notice {
    /// The page that was written to.
    pub page: usize,
    /// The processor whose interval it was.
    pub owner: usize,
    /// The interval's number, counted from 0 for each owner.
    pub number: u64,
}

/// A write notice together with the record that it announces. The record is shared and never written.
#[derive(Debug, Drop)]
pub struct Sent {
    /// The notice.
    pub notice: Notice,
    /// The closing number of its interval, counted from 0 over all owners.
    pub place: u64,
    /// The words that the interval left in the page.
    pub content: Arc<Record>,
}

impl Model for Sent {
    ghost use Rattle.interval.specs.SentIntervals.{SentRecord};

    ghost Value = { SentRecord };

    ghost view = { λ sent. record {
      notice = sent.notice;
      place = sent.place;
      content =
          sent.content.value;
    } };
}
