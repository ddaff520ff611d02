//! What a run shows: words at addresses, and what the loads of processors answered.
ghost use Rattle.lrc_json.specs.Prelude.{HasMembers, json_replies_by, json_word};

use crate::members::{Members, Values};
use std::alloc::Global;

/// A shown address with its word.
pub fn outcome_word_json(alloc: Global, address: usize, word: u32) -> Members
    ensures { HasMembers result (json_word (address, word)) }
{
    let mut members = Members::new(alloc);
    members.put_number("address", address);
    members.put_word("word", word);
    members
}

/// What the loads of a processor answered, in order.
pub fn outcome_replies_json(alloc: Global, processor: usize, words: &[u32]) -> Members
    ensures { HasMembers result (json_replies_by processor words.now) }
{
    let mut members = Members::new(alloc);
    members.put_number("processor", processor);
    members.put_list("words", Values::of_words(alloc, words));
    members
}
