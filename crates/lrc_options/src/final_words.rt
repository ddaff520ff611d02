//! The words that a run is to end with: what the text of `--until` gives.
ghost use Rattle.std.specs.Prelude.{ℕ, ◌≡◌, ◌↔◌, IfOk, IsTrue, List, MatchOption};
ghost use Rattle.lrc_script.specs.Prelude.{parts_of_read_line};
ghost use Rattle.lrc_options.specs.FinalWords.{AreFinalWordsWritten, HasFinalWordAddress, final_word_of};

use lrc_script::line::{number, split_script_line_at};
use std::alloc::{AllocError, Global};

/// The address and the word that an item gives: `A=V`.
fn final_word(item: &[u8]) -> Option<(usize, u32)>
    ensures { result ≡ final_word_of (parts_of_read_line 61 item.now) }
{
    let (address, rest) = split_script_line_at(item, b'=');
    let (word, more) = split_script_line_at(rest?, b'=');
    if more.is_some() {
        return None;
    }
    let address = number(address)?;
    let word = number(word)?;
    Some((address as usize, word))
}

/// Whether one of the words is at this address.
fn final_words_have_address(words: &[(usize, u32)], address: usize) -> bool
    ensures { IsTrue result ↔ HasFinalWordAddress words.now address }
{
    for (other, _) in words {
        if *other == address {
            return true;
        }
    }
    false
}

/// The words that a text gives: items `A=V` with commas between, each address once. None where it gives none. The only error
/// is running out of memory.
pub(crate) fn final_words(
    alloc: Global,
    text: &str,
) -> Result<Option<Vec<(usize, u32)>>, AllocError>
    ensures { IfOk result (λ o. MatchOption o
        ((words : List (ℕ × ℕ)) → ¬ AreFinalWordsWritten (parts_of_read_line 44 text.now) words)
        (λ v. AreFinalWordsWritten (parts_of_read_line 44 text.now) v.items)) }
{
    let mut words = Vec::new(alloc);
    let mut rest = Some(text.as_bytes());
    while let Some(bytes) = rest {
        let (item, after) = split_script_line_at(bytes, b',');
        let Some((address, word)) = final_word(item) else {
            return Ok(None);
        };
        if final_words_have_address(&words, address) {
            return Ok(None);
        }
        words.push((address, word))?;
        rest = after;
    }
    Ok(Some(words))
}
