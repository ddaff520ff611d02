//! A processor's copy of a page, with the records that it lacks.
ghost use Rattle.std.specs.Prelude.{◌≡◌, ◌<◌, ◌≤◌, Some, None, Ok, IfOk, IfSome, IfNone, OnOk, [], ◌∷◌, ◌+◌};
ghost use Rattle.std.specs.Prelude.{length, map, slice_get};
ghost use Rattle.std.specs.Option.{option_map};
ghost use Rattle.base.specs.Prelude.{records_applied, most_words};
ghost use Rattle.journal.specs.Prelude.{MissingIntervalsInOrder};
ghost use Rattle.page.specs.Prelude.{IsCarriedHarvest, ContentsAreClean};
ghost use Rattle.page.specs.declared.page.Access.TheVariants.{Valid, Invalid};
ghost use Rattle.book.specs.Prelude.{page_news_of_notice};
ghost use Rattle.cluster.specs.Copies.Prelude.{AllFitPageReplica, may_use_page_replica, page_replica_words_if, page_replica_record_words, FitMissingRecordCounts};
ghost use Rattle.cluster.specs.Copies.Prelude.{page_replica_fetched, page_replica_written_at, zero_page_replica, IsAfterNews, IsSameCopyAfterNews, CopyMayLackNews, copy_cleaned_after_news};
ghost use Rattle.cluster.specs.Copies.Prelude.{AreMissingRecordCounts};

use crate::copies::backlog::Backlog;
use crate::copies::mark_set::MarkSet;
use interval::Sent;
use page::{Access, Page, Record};
use std::alloc::{AllocError, Global};
use std::marker::Model;

/// What a fetch applies: of how many owners, how many records, and how many words.
#[derive(Clone, Copy, Debug, PartialEq, Eq)]
pub struct MissingCounts {
    /// Owners of records.
    pub writers: u32,
    /// Records.
    pub records: u32,
    /// Words of all records, each as often as it is sent.
    pub words: u32,
}

/// A processor's copy of a page, and the records that came for it since it was last valid, in the
/// order in which their intervals were closed.
#[derive(Debug, Drop)]
pub struct Replica {
    page: Page,
    missing: Backlog,
}

impl Model for Replica {
    ghost use Rattle.cluster.specs.Copies.PageReplica.{PageReplica};

    ghost Value = { PageReplica };

    ghost view = { λ r. record {
      page = r.page;
      missing = r.missing.records;
      room = r.missing.room;
    } };
}

impl Replica {
    /// A valid copy of `words` zeros (1 to `MOST_WORDS`). Answers `AllocError` if memory for them is refused.
    pub fn zero(alloc: Global, words: usize) -> Result<Replica, AllocError>
        requires some { 0 < words }
        requires few { words ≤ most_words }
        ensures { IfOk result (λ r. r ≡ zero_page_replica words) }
    {
        Ok(Replica {
            page: Page::zero(alloc, words)?,
            missing: Backlog::new(alloc),
        })
    }

    /// Whether the copy lacks nothing.
    pub fn is_valid(&self) -> bool
        ensures { result ≡ may_use_page_replica self.now.page.access }
    {
        self.page.access() == Access::Valid
    }

    /// Its words, if it lacks nothing.
    pub fn words(&self) -> Option<&[u32]>
        ensures { option_map (λ words. words.now) result
            ≡ page_replica_words_if (may_use_page_replica self.now.page.access) self.now }
    {
        if !self.is_valid() {
            return None;
        }
        Some(self.page.words())
    }

    /// The word at `offset`.
    pub fn load(&self, offset: usize) -> u32
        requires valid { self.now.page.access ≡ Valid }
        requires in_range { offset < length self.now.page.words }
        ensures { slice_get self.now.page.words offset ≡ Some result }
    {
        self.page.load(offset)
    }

    /// Writes the word at `offset`, and marks it dirty.
    pub fn store(&mut self, offset: usize, value: u32)
        requires valid { self.old.page.access ≡ Valid }
        requires in_range { offset < length self.old.page.words }
        ensures { self.new ≡ page_replica_written_at self.old offset value }
    {
        self.page.store(offset, value);
    }

    /// The record of its dirty words, as words of page `page`, if there are some. Takes memory only then.
    pub(crate) fn harvest(&self, page: usize) -> Result<Option<Record>, AllocError>
        ensures clean { ContentsAreClean self.now.page → result ≡ Ok None }
        ensures none { IfOk result (λ r. IfNone r (ContentsAreClean self.now.page)) }
        ensures some { IfOk result (λ r. IfSome r (IsCarriedHarvest page self.now.page)) }
    {
        self.page.harvest(page)
    }

    /// Cleans its words.
    pub(crate) fn clean(&mut self)
        ensures { self.new ≡ copy_cleaned_after_news self.old }
    {
        self.page.clean();
    }

    /// Makes room for `count` more records. Answers `AllocError` if memory for them is refused.
    pub(crate) fn reserve(&mut self, count: usize) -> Result<(), AllocError>
        ensures same { IsSameCopyAfterNews self.old self.new }
        ensures ok { OnOk result (count ≤ self.new.room) }
    {
        self.missing.reserve(count)
    }

    /// Puts a record among those that are missing, at its place in closing order, and closes the copy to loads
    /// and stores. Takes no memory.
    pub(crate) fn learn(&mut self, sent: Sent)
        requires { CopyMayLackNews self.old (sent ∷ []) }
        ensures news { IsAfterNews self.old (sent ∷ []) self.new }
        ensures room { self.new.room + 1 ≡ self.old.room }
    {
        self.missing.put(sent);
        self.page.set_invalid();
    }

    /// Applies the missing records, in the order in which their intervals were closed, and makes the copy
    /// valid. What was missing is room again. Answers of how many owners, how many records and how many words that was.
    pub fn fetch(&mut self) -> MissingCounts
        requires invalid { self.old.page.access ≡ Invalid }
        requires few { FitMissingRecordCounts self.old.missing }
        requires fit { AllFitPageReplica (length self.old.page.words) self.old.missing }
        ensures copy { self.new ≡ page_replica_fetched self.old }
        ensures counts { AreMissingRecordCounts self.old.missing result }
    {
        let counts = apply_all_to_replica(&mut self.page, &self.missing);
        self.page.set_valid();
        self.missing.clear();
        counts
    }
}

/// Applies the records in their order, and counts them, their owners and their words.
fn apply_all_to_replica(page: &mut Page, missing: &Backlog) -> MissingCounts
    requires invalid { page.old.access ≡ Invalid }
    requires few { FitMissingRecordCounts missing.now.records }
    requires fit { AllFitPageReplica (length page.old.words) missing.now.records }
    ensures page { page.new ≡ record page.old
        { words = records_applied page.old.words (map page_replica_record_words missing.now.records) } }
    ensures counts { AreMissingRecordCounts missing.now.records result }
{
    let mut owners = MarkSet::none();
    let (mut writers, mut words) = (0, 0);
    for index in 0..missing.len() {
        let sent = missing.at(index);
        let content: &Record = &sent.content;
        page.apply(content);
        words += content.words().len() as u32;
        let owner = sent.notice.owner;
        if !owners.has(owner) {
            owners.add(owner);
            writers += 1;
        }
    }
    MissingCounts {
        writers,
        records: missing.len() as u32,
        words,
    }
}
