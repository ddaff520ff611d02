//! Whether a history is one that a cluster could make, event by event, and where it is not, why; and whether its fetches
//! count what they bring.
//!
//! **What contracts see.** `WellFormedNext` and `WellFormed` of journal's specs/WellFormed: each event may follow what
//! stands before it. `WellFormedOrLax` of specs/LaxWellFormed is the same but for the order in which a lock's asks are granted,
//! and for asks and watches that aren't there.
//! `IsWhy` of specs/Why says of each reason what it means. What fetches count is `FetchesCountGaps` of journal's
//! specs/FetchesCountGaps. A `History` is a `SizedHistory` of specs/SizedHistory: sizes, and events whose numbers are within them.
//!
//! **What is proved.** A `Frontier` is told a history an event at a time, and answers of any event whether it may come next,
//! else the first reason that applies, in the order of `Why`. Nothing is asked of the numbers in that event. `DueCounts` and
//! `miscount` tell of a fetch that comes next whether it counts its gap, else the counts of its gap. `Gaps` tells what each
//! processor's copies of pages lack, also an event at a time.
//! There is a `History` of some events, or of a journal, exactly if they are within its sizes; so whoever is handed one need
//! not ask that.
//!
//! **What is only tested** (in `tests/texts` and `tests/checking`): that these definitions say what they are to say, by traces
//! worked by hand; and that long traces are judged in a test's time.
#![tactic(auto)]

mod asked_places;
mod cut_rows;
mod cuts;
mod due_counts;
mod flat_memory;
mod frontier;
mod gap_tally;
mod gaps;
mod history;
mod ill_formed;
mod kept_store;
mod kept_stores;
mod kinds;
mod known_cuts;
mod laws;
pub mod locksets;
mod miscounted;
mod models;
mod moved_cuts;
mod nearest_races;
mod numbered_cuts;
mod owed;
mod permitted;
mod sizes;
pub mod sources;
mod sparse_table;
mod stored_counts;
mod stored_steps;
mod why;

pub use cuts::Cuts;
pub use due_counts::DueCounts;
pub use flat_memory::{FlatMemory, FlatStore};
pub use frontier::Frontier;
pub use gaps::Gaps;
pub use history::History;
pub use ill_formed::IllFormed;
pub use kept_stores::KeptStores;
pub use laws::{
    history_range_law, lax_ask_law, lax_law, models_agree_law, owed_stays_law, why_law,
};
pub use miscounted::{Miscounted, miscount};
pub use models::MemoryModel;
pub use nearest_races::NearestRaces;
pub use owed::Owed;
pub use permitted::Permitted;
pub use sizes::{
    MOST_ADDRESSES, MOST_JUDGED_EVENTS, MOST_JUDGED_FLAGS, MOST_JUDGED_LOCKS,
    MOST_JUDGED_PROCESSORS, Sizes,
};
pub use why::Why;
