//! Closed intervals.
ghost use Rattle.std.specs.Prelude.{◌≡◌, ◌==◌, ◌++◌, IfOk, OnOk, find, map};
ghost use Rattle.std.specs.Arc.{arc_value};
ghost use Rattle.std.specs.Option.{option_copied};
ghost use Rattle.interval.specs.Prelude.{kept_closing_sent_interval, kept_closing_sent_record, kept_closing_has_records, counted_pages_of_changes, PageCountsGrew, PageCountsHaveRoom};

use crate::notice::{Notice, Sent};
use page::Record;
use std::alloc::AllocError;
use std::marker::Model;
use std::sync::Arc;

/// A closed interval of a processor (Keleher, Cox and Zwaenepoel 1992, section 3.1): what its stores
/// left, one record a page. Records are shared and never written.
#[derive(Drop)]
pub struct Interval {
    /// The processor whose interval it is.
    pub owner: usize,
    /// Its number, counted from 0 for each owner.
    pub number: u64,
    /// A record for each page that it wrote to.
    pub records: Vec<Arc<Record>>,
}

impl Model for Interval {
    ghost use Rattle.std.specs.Prelude.{map};
    ghost use Rattle.std.specs.Arc.{arc_value};
    ghost use Rattle.interval.specs.SentIntervals.{ClosedInterval};

    ghost Value = { ClosedInterval };

    ghost view = { λ i. record {
      owner = i.owner;
      number = i.number;
      records = map arc_value
          i.records.items;
    } };
}

impl Interval {
    /// What the interval left in the page, if it wrote to it.
    pub fn record(&self, page: usize) -> Option<&Record>
        ensures { option_copied result ≡ find (λ r. r.page == page) self.now.records }
    {
        look_up_in_interval(self.shared_records(), page)
    }

    /// Counts its records, by pages: entry i of the counts grows by one if there is a record of page
    /// `base + i`. Other pages are not counted.
    pub(crate) fn count_pages(&self, base: usize, counts: &mut [usize])
        requires { PageCountsHaveRoom base (counted_pages_of_changes self.now.records) counts.old }
        ensures { PageCountsGrew base (counted_pages_of_changes self.now.records) counts.old counts.new }
    {
        for record in self.shared_records() {
            let page = record.page();
            if base <= page && page - base < counts.len() {
                counts[page - base] += 1;
            }
        }
    }

    /// Adds each record, under its notice, to what is sent of the interval with this closing number.
    pub(crate) fn send(&self, place: u64, sent: &mut Vec<Sent>) -> Result<(), AllocError>
        ensures { OnOk result (sent.new.items
            ≡ sent.old.items ++ kept_closing_sent_interval (record { place = place; interval = self.now })) }
    {
        for record in self.shared_records() {
            sent.push(self.announced(place, record)?)?;
        }
        Ok(())
    }

    /// A record of its own, under its notice.
    fn announced(&self, place: u64, shared: &Arc<Record>) -> Result<Sent, AllocError>
        ensures { IfOk result (λ sent. sent
            ≡ kept_closing_sent_record (record { place = place; interval = self.now }) (arc_value shared.now)) }
    {
        Ok(Sent {
            notice: Notice {
                page: shared.page(),
                owner: self.owner,
                number: self.number,
            },
            place,
            content: shared.clone()?,
        })
    }

    fn shared_records(&self) -> &[Arc<Record>]
        ensures { map arc_value result.now ≡ self.now.records }
    {
        &self.records
    }
}

/// The first of these records that is of the page.
fn look_up_in_interval(records: &[Arc<Record>], page: usize) -> Option<&Record>
    ensures { option_copied result ≡ find (λ r. r.page == page) (map arc_value records.now) }
{
    for record in records {
        let record: &Record = record;
        if record.page() == page {
            return Some(record);
        }
    }
    None
}

/// A closed interval with its closing number.
#[derive(Drop)]
pub struct KeptInterval {
    /// How many intervals, of all owners, were closed before it.
    pub place: u64,
    /// The interval.
    pub interval: Interval,
}

impl KeptInterval {
    /// The processor whose interval it is.
    pub(crate) fn owner(&self) -> usize
        ensures { result ≡ self.now.interval.owner }
    {
        self.interval.owner
    }

    /// Whether the interval left something in some page.
    pub(crate) fn leaves_records(&self) -> bool
        ensures { result ≡ kept_closing_has_records self.now }
    {
        !self.interval.shared_records().is_empty()
    }

    /// Adds each record of the interval, under its notice, to what is sent.
    pub(crate) fn send(&self, sent: &mut Vec<Sent>) -> Result<(), AllocError>
        ensures { OnOk result (sent.new.items ≡ sent.old.items ++ kept_closing_sent_interval self.now) }
    {
        self.interval.send(self.place, sent)
    }
}
