//! What all layers share: the limits of the memory, and words on lists and on writes into lists, with their lemmas.
#![tactic(auto)]

mod limits;

pub use limits::{
    MOST_CUT, MOST_EVENTS, MOST_FLAGS, MOST_HELD, MOST_IN_BLOCK, MOST_LOCKS, MOST_PAGES,
    MOST_PROCESSORS, MOST_WORDS,
};
