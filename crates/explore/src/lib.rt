//! All schedules of a script on one flat memory: whether it races, whether it can hang, and what it can show. What its runs may
//! show by the rules of the memory, and what this memory shows, if it races.
//!
//! **What contracts see.** `IsExplored` is what an answer says: no prefix races, or here is a race; this is a hang, or
//! there is none; these are outcomes of whole runs, each once, and all of them or some, told by a `Detail`
//! (`IsFlatOutcome`). `IsExploredUntil` says the same of whether a run ends with some words (`EndsWithWords`). An answer is
//! open only if there are more states than were to be looked at (`state_room_at_most`). Inside, a `FlatState` knows events
//! (`MachineKnows`), so two machines in the same state go on alike. A search keeps it as a `KeptState`, by the calls that were
//! made and the places of what these don't tell: its words, its replies and its order of asks, which stand once for all
//! states (`opened_state`). Who waits, who holds a lock and which flags are set is read off a table of the script's steps
//! (`call_waiting`). `FoundStates` has the states, each once, with where it comes from (`AreFoundStates`); `Search` has looked
//! at the first of them (`FlatSearchedUpTo`).
//!
//! Each search is for all that there is, or for a run that ends with some words (`Goal`). One that is given up makes *trials*, runs by
//! a few orders of turns (`AreTrials`). Module `search` goes through states on
//! the flat memory, `rules` through beginnings of runs by the rules, `memory` through orders of turns on this memory. Module `text`
//! has what the script's text shows, `state` what a state is, `outcomes` what is said of runs.
//!
//! `AreAllowedRunOutcomes` is what is said of what runs may show by the rules of the memory alone, whether the script races
//! or not: each load answers a latest store of its past (`IsAllowedRunOutcome`). `IsAllowedUntil` says the same of whether
//! such a run ends with some words (`IsAllowedUntilRun`).
//!
//! **What is proved.** `allowed_outcomes` answers what `AreAllowedRunOutcomes` says: exactly these outcomes, each once, or
//! some of them if there are more beginnings of runs than were to be looked at. `allowed_until` answers what
//! `IsAllowedUntil` says. `explore` answers what `IsExplored` says, and `explore_until` what `IsExploredUntil` says.
//! `guarded_words` says of a word only if it is so that no two accesses of it race. `never_gets_stuck_by_text` says that no
//! schedule hangs only if that is so. `free_choice` leaves out only what may as well come later (`proofs/Reduced`).
//! `what_memory_shows` tells outcomes of a script on this memory, each with a schedule: a whole run comes by its turns, and its
//! history shows the outcome (`IsMemoryShown`).
//! `Waiting` tells exactly whether an event may follow, also where it is put together of what the calls made tell.
//!
//! **What is only tested**: that no schedule shows an outcome which `what_memory_shows` says that none shows (module `memory`;
//! `tests/exploring`).
#![tactic(auto)]

mod goal;
mod memory;
mod outcomes;
pub mod prefixes;
mod progress;
mod rules;
mod search;
mod state;
mod text;

pub use memory::shown::{MemoryShowing, MemoryShown, MemoryUntil, what_memory_shows};
pub use outcomes::answer::{
    Explored, Hang, Hanging, RacyEvents, ScriptOutcome, ShownOutcome, Verdict,
    explored_outcome_parts,
};
pub use outcomes::of_run::outcome_of_run;
pub use outcomes::showing::{ExploredUntil, Showing, ShownRun};
pub use outcomes::telling::{Detail, full_outcome_telling_law};
pub use progress::{Progress, Silent};
pub use rules::search::allowed_outcomes;
pub use rules::showing::{AllowedOutcomes, AllowedShowing, AllowedUntil};
pub use rules::until::allowed_until;
pub use search::explore;
pub use search::until::explore_until;
pub use state::wait_code::ProcessorNumber;
pub use state::waits::Waiting;
pub use text::lock_ranks::ranked_locks_law;
pub use text::text_accesses::TextAccess;
pub use text::text_gaps::{TextGaps, text_gaps};
pub use text::unguarded_words::UnguardedWord;
pub use text::unranked_locks::{TextAsk, TextWait, UnrankedLocks};
