//! The page sizes that a trace is told on: what the text of `--page-words` gives.
ghost use Rattle.std.specs.Prelude.{ℕ, ◌≡◌, [], ◌∷◌, IfOk, List, MatchOption};
ghost use Rattle.lrc_script.specs.Prelude.{parts_of_read_line};
ghost use Rattle.lrc_options.specs.PageWords.{ArePageWordsWritten, page_words_of};

use lrc_script::line::{number, split_script_line_at};
use std::alloc::{AllocError, Global};

/// The most words that a page may have.
pub const MOST_PAGE_WORDS: usize = 1 << 20;

/// The most page sizes that a trace is told on at once.
pub const MOST_PAGE_SIZES: usize = 8;

/// The number of words of a page that an item gives.
fn page_words(item: &[u8]) -> Option<usize>
    ensures { result ≡ page_words_of item.now }
{
    let words = number(item)? as usize;
    if words == 0 || words > MOST_PAGE_WORDS {
        return None;
    }
    Some(words)
}

/// The page sizes that a text gives: numbers of words with commas between. None where it gives none, or too many. The only error
/// is running out of memory.
pub(crate) fn page_sizes(alloc: Global, text: &str) -> Result<Option<Vec<usize>>, AllocError>
    ensures { IfOk result (λ o. MatchOption o
        ((words : List ℕ) → ¬ ArePageWordsWritten (parts_of_read_line 44 text.now) words)
        (λ v. ArePageWordsWritten (parts_of_read_line 44 text.now) v.items)) }
{
    let mut sizes = Vec::new(alloc);
    let mut rest = Some(text.as_bytes());
    while let Some(bytes) = rest {
        let (item, after) = split_script_line_at(bytes, b',');
        let Some(words) = page_words(item) else {
            return Ok(None);
        };
        sizes.push(words)?;
        rest = after;
    }
    if sizes.len() > MOST_PAGE_SIZES {
        return Ok(None);
    }
    Ok(Some(sizes))
}

/// The page sizes if none are given. The only error is running out of memory.
pub(crate) fn default_page_sizes(alloc: Global) -> Result<Vec<usize>, AllocError>
    ensures { IfOk result (λ v. v.items ≡ 128 ∷ 256 ∷ 1024 ∷ 4096 ∷ []) }
{
    let sizes: [usize; 4] = [128, 256, 1024, 4096];
    Ok(Vec::from_array(alloc, sizes)?)
}
