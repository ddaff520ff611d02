//! A processor's copy of a page: its words, and a dirty bit for each.
ghost use Rattle.std.specs.Prelude.{◌≡◌, ◌≤◌, ◌<◌, ◌^◌, ◌↔◌, IsTrue, IfOk, IfSome, IfNone, Some, None, Ok, true};
ghost use Rattle.std.specs.Prelude.{length, replicate, slice_get, slice_set};
ghost use Rattle.base.specs.Prelude.{record_applied, harvest, most_words};
ghost use Rattle.page.specs.Prelude.{page_marks_of, PageMarksBelow, ContentsAreClean, CarriedHarvestFits, IsCarriedHarvest, CarriesStores};

use crate::record::Record;
use std::alloc::{AllocError, Global};
use std::marker::Model;

/// Whether a processor may use its copy of a page.
#[derive(Clone, Copy, Debug, PartialEq, Eq)]
pub enum Access {
    /// Loads and stores may use the copy.
    Valid,
    /// The copy lacks records of other processors, which a fetch is to apply.
    Invalid,
}

/// A processor's copy of a page of 1 to `MOST_WORDS` words.
///
/// A word is dirty if it was stored to since the copy was made or last cleaned, also if the
/// store wrote the value that was there: dirty bits stand in the place of the twins and diffs of
/// Keleher, Cox and Zwaenepoel 1992, section 3. Bit i of `dirty` is that of word i.
#[derive(Debug, Drop)]
pub struct Page {
    words: Vec<u32>,
    dirty: u64,
    access: Access,
}

impl Model for Page {
    ghost use Rattle.std.specs.Prelude.{◌≤◌, length};
    ghost use Rattle.base.specs.Limits.{most_words};
    ghost use Rattle.page.specs.Contents.{Contents};
    ghost use Rattle.page.specs.PageMarks.{page_marks_of, PageMarksBelow};

    ghost Value = { Contents };

    ghost view = { λ p. record {
      words = p.words.items;
      dirty = page_marks_of (length p.words.items) p.dirty;
      access = p.access;
    } };

    ghost invariant = { λ p. (length p.words.items ≤ most_words) × PageMarksBelow (length p.words.items) p.dirty };
}

impl Page {
    /// A page of `words` words (1 to `MOST_WORDS`), valid and zero. Answers `AllocError` if memory for them
    /// is refused.
    pub fn zero(alloc: Global, words: usize) -> Result<Self, AllocError>
        requires some { 0 < words }
        requires few { words ≤ most_words }
        ensures words { IfOk result (λ p. p.words ≡ replicate words 0) }
        ensures clean { IfOk result (λ p. ContentsAreClean p) }
        ensures access { IfOk result (λ p. p.access ≡ Access.Valid) }
    {
        Ok(Page {
            words: vec![in alloc; 0; words]?,
            dirty: 0,
            access: Access::Valid,
        })
    }

    /// The word at `offset` of a valid copy.
    pub fn load(&self, offset: usize) -> u32
        requires valid { self.now.access ≡ Access.Valid }
        requires in_range { offset < length self.now.words }
        ensures { slice_get self.now.words offset ≡ Some result }
    {
        self.words[offset]
    }

    /// Writes the word at `offset` of a valid copy, and marks it dirty whatever was there.
    pub fn store(&mut self, offset: usize, value: u32)
        requires valid { self.old.access ≡ Access.Valid }
        requires in_range { offset < length self.old.words }
        ensures words { self.new.words ≡ slice_set self.old.words offset value }
        ensures dirty { self.new.dirty ≡ slice_set self.old.dirty offset true }
        ensures access { self.new.access ≡ self.old.access }
    {
        put_in_page(&mut self.words, &mut self.dirty, offset, value);
    }

    /// All words.
    pub fn words(&self) -> &[u32]
        ensures { result.now ≡ self.now.words }
    {
        &self.words
    }

    /// Whether the processor may use the copy.
    pub fn access(&self) -> Access
        ensures { result ≡ self.now.access }
    {
        self.access
    }

    /// Lets the processor load and store.
    pub fn set_valid(&mut self)
        ensures { self.new ≡ record self.old { access = Access.Valid } }
    {
        self.access = Access::Valid;
    }

    /// Closes a copy with no dirty word to loads and stores.
    pub fn set_invalid(&mut self)
        requires { ContentsAreClean self.old }
        ensures { self.new ≡ record self.old { access = Access.Invalid } }
    {
        self.access = Access::Invalid;
    }

    /// Clears all dirty bits.
    pub fn clean(&mut self)
        ensures words { self.new.words ≡ self.old.words }
        ensures clean { ContentsAreClean self.new }
        ensures access { self.new.access ≡ self.old.access }
    {
        self.dirty = 0;
    }

    /// Whether no word is dirty.
    pub fn is_clean(&self) -> bool
        ensures { IsTrue result ↔ ContentsAreClean self.now }
    {
        self.dirty == 0
    }

    /// Puts a record's words into an invalid copy. Which words are dirty stays as it was.
    pub fn apply(&mut self, changes: &Record)
        requires invalid { self.old.access ≡ Access.Invalid }
        requires in_range { CarriedHarvestFits (length self.old.words) changes.now.words }
        ensures words { self.new.words ≡ record_applied self.old.words changes.now.words }
        ensures dirty { self.new.dirty ≡ self.old.dirty }
        ensures access { self.new.access ≡ self.old.access }
    {
        overwrite_page(&mut self.words, changes.words());
    }

    /// The record of the dirty words, as words of page `page`: `None` if no word is dirty.
    /// Costs in the order of what is dirty. Takes memory only if some word is dirty, and answers
    /// `AllocError` if that is refused.
    pub fn harvest(&self, page: usize) -> Result<Option<Record>, AllocError>
        ensures clean { ContentsAreClean self.now → result ≡ Ok None }
        ensures none { IfOk result (λ r. IfNone r (ContentsAreClean self.now)) }
        ensures dirty_words { IfOk result (λ r. IfSome r (IsCarriedHarvest page self.now)) }

        // Whatever stores to a clean page led here, the record does what they did.
        ensures carries { IfOk result (λ r. CarriesStores self.now r) }
    {
        if self.is_clean() {
            return Ok(None);
        }
        let words = page_words_marked(*self.words.allocator(), &self.words, self.dirty)?;
        Ok(Some(Record::new(page, words)))
    }
}

/// Writes the word at this offset, and sets its bit.
fn put_in_page(words: &mut [u32], dirty: &mut u64, offset: usize, value: u32)
    requires in_range { offset < length words.old }
    requires few { length words.old ≤ most_words }
    ensures words { words.new ≡ slice_set words.old offset value }
    ensures dirty { page_marks_of (length words.old) dirty.new
        ≡ slice_set (page_marks_of (length words.old) dirty.old) offset true }
    ensures below { PageMarksBelow (length words.old) dirty.old → PageMarksBelow (length words.old) dirty.new }
{
    words[offset] = value;
    *dirty |= 1 << offset;
}

/// Writes a record's words.
fn overwrite_page(words: &mut [u32], changes: &[(usize, u32)])
    requires in_range { CarriedHarvestFits (length words.old) changes.now }
    requires few { length words.old ≤ most_words }
    ensures { words.new ≡ record_applied words.old changes.now }
{
    for (offset, value) in changes {
        words[*offset] = *value;
    }
}

/// The words whose bits are set, lowest first, each with its offset.
fn page_words_marked(
    alloc: Global,
    words: &[u32],
    dirty: u64,
) -> Result<Vec<(usize, u32)>, AllocError>
    requires { PageMarksBelow (length words.now) dirty }
    ensures { let marks = page_marks_of (length words.now) dirty in
        IfOk result (λ found. found.items ≡ harvest 0 words.now marks) }
{
    let mut found = Vec::with_capacity(alloc, dirty.count_ones() as usize)?;
    let mut rest = dirty;
    let mut offset = 0;
    while rest != 0 {
        let skipped = rest.trailing_zeros();
        offset += skipped as usize;
        found.push((offset, words[offset]))?;
        rest = rest >> skipped >> 1;
        offset += 1;
    }
    Ok(found)
}
