//! What the text of a script shows, whatever the order of its events.
pub mod facts;
pub mod flag_orders;
pub mod guards;
pub mod lock_ranks;
pub mod text_accesses;
pub mod text_gaps;
pub mod unguarded_words;
pub mod unranked_locks;
pub mod walk;
pub mod walked_flags;
pub mod walked_rows;
pub mod walked_words;
