//! Happens-before and races of a list of events, straight from their definitions: for tests of what answers faster.
//!
//! **What is proved.** A `ReachTable` has a mark exactly where the event at one place happens before that at another
//! (`IsTable`), and `is_race` answers whether two events race.

mod reach_table;

pub use self::reach_table::ReachTable;
