//! The pages that are fetched most.
ghost use Rattle.std.specs.Prelude.{◌≡◌, ◌+◌, ◌<◌, ◌↔◌, ⊤, ℕ, IfOk, IfSome, IsTrue, List, MatchOption, length, slice_index};
ghost use Rattle.journal.specs.declared.event.Event.{Event};
ghost use Rattle.journal.specs.Prelude.{Sizes};
ghost use Rattle.lrc_pages.specs.Prelude.{AreMostFetched, ArePageTallies, AreTopPages, IsFirstBelow, IsToldAfter, IsToldBefore, IsToldNext};

use crate::page_tallies::PageTallies;
use crate::page_uses::{PageUse, PageUses};
use std::alloc::{AllocError, Global};

/// What is told of a page that is fetched.
#[derive(Clone, Copy, Debug, PartialEq, Eq)]
pub struct TopPage {
    /// The page.
    pub page: usize,
    /// How often it is fetched.
    pub fetches: u64,
    /// The words that these fetches bring.
    pub words: u64,
    /// Who uses it, and how many of the fetches were of use.
    pub used: PageUse,
}

/// Whether the page is told before the other, where each is fetched so often.
fn is_told_before(fetches: &[u64], page: usize, other: usize) -> bool
    requires page { page < length fetches.now }
    requires other { other < length fetches.now }
    ensures { IsTrue result ↔ IsToldBefore (slice_index fetches.now) page other }
{
    if fetches[other] == fetches[page] {
        return page < other;
    }
    fetches[other] < fetches[page]
}

/// Whether the page is told after this one, if there is one.
fn is_told_after(fetches: &[u64], last: Option<usize>, page: usize) -> bool
    requires last { IfSome last (λ n. n < length fetches.now) }
    requires page { page < length fetches.now }
    ensures { IsTrue result ↔ IsToldAfter (slice_index fetches.now) last page }
{
    match last {
        None => true,
        Some(last) => is_told_before(fetches, last, page),
    }
}

/// The page that is told first after this one, among those up to `page`, where `best` is the first among those below it.
fn first_told(
    fetches: &[u64],
    last: Option<usize>,
    best: Option<usize>,
    page: usize,
) -> Option<usize>
    requires last { IfSome last (λ n. n < length fetches.now) }
    requires page { page < length fetches.now }
    requires best { IsFirstBelow (slice_index fetches.now) last page best }
    ensures { IsFirstBelow (slice_index fetches.now) last (page + 1) result }
{
    if fetches[page] == 0 || !is_told_after(fetches, last, page) {
        return best;
    }
    match best {
        Some(first) if is_told_before(fetches, first, page) => Some(first),
        _ => Some(page),
    }
}

/// The page that is told next after this one, if one is left that is fetched.
fn next_most_fetched(fetches: &[u64], last: Option<usize>) -> Option<usize>
    requires { IfSome last (λ n. n < length fetches.now) }
    ensures within { IfSome result (λ n. n < length fetches.now) }
    ensures next { MatchOption result ((m : ℕ) → 0 < slice_index fetches.now m → ¬ IsToldAfter (slice_index fetches.now) last m)
        (IsToldNext (slice_index fetches.now) last) }
{
    let mut best = None;
    for page in 0..fetches.len() {
        best = first_told(fetches, last, best, page);
    }
    best
}

/// The pages that are fetched most, where each is fetched so often: at most so many. The only error is running out of memory.
fn most_fetched(alloc: Global, fetches: &[u64], most: usize) -> Result<Vec<usize>, AllocError>
    ensures { IfOk result (λ pages. AreMostFetched (slice_index fetches.now) most pages.items) }
{
    let mut pages = Vec::new(alloc);
    let mut last = None;
    for _ in 0..most {
        let Some(page) = next_most_fetched(fetches, last) else {
            return Ok(pages);
        };
        pages.push(page)?;
        last = Some(page);
    }
    Ok(pages)
}

/// Who uses the page, which is fetched so often; nobody, if that wasn't watched.
fn page_use_of(uses: Option<&PageUses>, page: usize, fetches: u64) -> PageUse {
    match uses {
        Some(uses) => uses.of(page, fetches),
        None => PageUse::default(),
    }
}

/// What is told of the page.
fn top_page(tallies: &PageTallies, uses: Option<&PageUses>, page: usize) -> TopPage
    ensures page { result.page ≡ page }
    ensures fetches { result.fetches ≡ slice_index tallies.now.fetches.items page }
    ensures words { result.words ≡ slice_index tallies.now.words.items page }
{
    let fetches = tallies.fetches_of(page);
    TopPage {
        page,
        fetches,
        words: tallies.words_of(page),
        used: page_use_of(uses, page, fetches),
    }
}

/// What is told of the pages that are fetched most, at most so many. It takes time in the order of the pages for each. The only
/// error is running out of memory.
pub(crate) fn top_pages(
    alloc: Global,
    tallies: &PageTallies,
    uses: Option<&PageUses>,
    most: usize,
) -> Result<Vec<TopPage>, AllocError>
    ensures { IfOk result (λ tops. (s : Sizes) (h : List Event) → ArePageTallies s h tallies.now → AreTopPages h most tops.items) }
{
    let pages = most_fetched(alloc, tallies.fetches(), most)?;
    let mut tops = Vec::with_capacity(alloc, pages.len())?;
    for at in 0..pages.len() {
        tops.push(top_page(tallies, uses, pages[at]))?;
    }
    Ok(tops)
}
