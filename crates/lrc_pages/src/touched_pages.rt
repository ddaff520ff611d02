//! Which pages are accessed.
ghost use Rattle.std.specs.Prelude.{◌≡◌, ◌+◌, ◌*◌, ◌<◌, ◌^◌, ℕ, [], ◌∷◌, ◌++◌, IfOk, IfSome, List, MatchOption, length, vec_len};
ghost use Rattle.journal.specs.declared.event.Event.{Event};
ghost use Rattle.journal.specs.Prelude.{Sizes};
ghost use Rattle.journal.specs.WellFormed.{WellFormedKindInRange};
ghost use Rattle.lrc_pages.specs.Prelude.{AccessesPage, AreTouchedPages, IsPageMarked};

use journal::{Event, Kind};
use std::alloc::{AllocError, Global};

/// The pages that are accessed. It takes a byte for each page.
#[derive(Drop)]
pub(crate) struct TouchedPages {
    seen: Vec<bool>,
    count: usize,
}

/// The page of so many words that an event of this kind accesses, if it is an access.
pub(crate) fn page_accessed(kind: Kind, words: usize) -> Option<usize>
    requires { 0 < words }
    ensures { MatchOption result ((s : Sizes) (n : ℕ) → s.words ≡ words → ¬ AccessesPage s kind n)
        (λ n. (s : Sizes) → s.words ≡ words → AccessesPage s kind n) }
{
    match kind {
        Kind::Load(address, _) | Kind::Store(address, _) => Some(address / words),
        _ => None,
    }
}

impl TouchedPages {
    /// Before the first event. The only error is running out of memory.
    pub(crate) fn new(alloc: Global, pages: usize) -> Result<TouchedPages, AllocError>
        ensures { IfOk result (λ t. (s : Sizes) → s.pages ≡ pages → AreTouchedPages s [] t) }
    {
        Ok(TouchedPages {
            seen: vec![in alloc; false; pages]?,
            count: 0,
        })
    }

    /// How many pages are accessed.
    pub(crate) fn count(&self) -> usize
        ensures { result ≡ self.now.count }
    {
        self.count
    }

    /// Marks the page, and counts it if it wasn't marked.
    fn mark(&mut self, page: usize)
        requires within { page < vec_len self.old.seen }
        requires few { self.old.count < 2 ^ 31 }
        ensures { IsPageMarked self.old self.new page }
    {
        if !self.seen[page] {
            self.seen[page] = true;
            self.count += 1;
        }
    }

    /// Takes note of the event, which comes next, and which accesses this page, if any.
    pub(crate) fn note(&mut self, event: Event, page: Option<usize>)
        requires within { IfSome page (λ n. n < vec_len self.old.seen) }
        requires few { self.old.count < 2 ^ 31 }
        ensures { (s : Sizes) (h : List Event) → AreTouchedPages s h self.old
            → MatchOption page ((n : ℕ) → ¬ AccessesPage s event.kind n) (AccessesPage s event.kind)
            → AreTouchedPages s (h ++ event ∷ []) self.new }
    {
        if let Some(page) = page {
            self.mark(page);
        }
    }
}
