//! How often each page is fetched, and what these fetches bring.
ghost use Rattle.std.specs.Prelude.{◌≡◌, ◌+◌, ◌*◌, ◌<◌, ◌≤◌, ◌^◌, ℕ, [], ◌∷◌, ◌++◌, IfOk, List, length, slice_index, vec_len};
ghost use Rattle.journal.specs.declared.event.Event.{Event};
ghost use Rattle.journal.specs.Prelude.{Sizes};
ghost use Rattle.journal.specs.WellFormed.{WellFormedKindInRange};
ghost use Rattle.lrc_pages.specs.Prelude.{ArePageTallies, IsPageTallied};

use journal::{Event, Kind};
use std::alloc::{AllocError, Global};

/// Of each page how often it is fetched, and how many words these fetches bring. It takes 16 bytes for each page.
#[derive(Drop)]
pub(crate) struct PageTallies {
    fetches: Vec<u64>,
    words: Vec<u64>,
}

impl PageTallies {
    /// Before the first event. The only error is running out of memory.
    pub(crate) fn new(alloc: Global, pages: usize) -> Result<PageTallies, AllocError>
        ensures { IfOk result (λ t. (s : Sizes) → s.pages ≡ pages → ArePageTallies s [] t) }
    {
        Ok(PageTallies {
            fetches: vec![in alloc; 0; pages]?,
            words: vec![in alloc; 0; pages]?,
        })
    }

    /// How often each page is fetched.
    pub(crate) fn fetches(&self) -> &[u64]
        ensures { result.now ≡ self.now.fetches.items }
    {
        &self.fetches
    }

    /// How often the page is fetched.
    pub(crate) fn fetches_of(&self, page: usize) -> u64
        ensures { result ≡ slice_index self.now.fetches.items page }
    {
        if page < self.fetches.len() {
            self.fetches[page]
        } else {
            0
        }
    }

    /// How many words its fetches bring.
    pub(crate) fn words_of(&self, page: usize) -> u64
        ensures { result ≡ slice_index self.now.words.items page }
    {
        if page < self.words.len() {
            self.words[page]
        } else {
            0
        }
    }

    /// Counts a fetch of the page, which brings so many words.
    fn count(&mut self, page: usize, words: u32)
        requires fetches_room { page < vec_len self.old.fetches }
        requires words_room { page < vec_len self.old.words }
        requires few_fetches { slice_index self.old.fetches.items page < 2 ^ 31 }
        requires few_words { slice_index self.old.words.items page < 2 ^ 63 }
        ensures tallied { IsPageTallied self.old self.new page words }
        ensures few { words < 2 ^ 32 }
    {
        self.fetches[page] += 1;
        self.words[page] += u64::from(words);
    }

    /// Takes note of the event, which comes next.
    pub(crate) fn note(&mut self, event: Event)
        requires { (s : Sizes) × (h : List Event) × ArePageTallies s h self.old × (length h < 2 ^ 31) × WellFormedKindInRange s event.kind }
        ensures { (s : Sizes) (h : List Event) → ArePageTallies s h self.old → ArePageTallies s (h ++ event ∷ []) self.new }
    {
        if let Kind::Fetch { page, words, .. } = event.kind {
            self.count(page, words);
        }
    }
}
