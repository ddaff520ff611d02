//! The journal of a cluster: its events in the order in which they were handed in, and what follows
//! from them alone.
//!
//! **What contracts see.** A `Journal` is a `Log` (specs/Log): sizes, events, room. What an event may be
//! is in specs/Events and WellFormed; order, pasts and timestamps in HappensBeforeEdges, Pasts and Times; what
//! copies of pages have and lack in PageImages, ValidAndStaleCopy and MissingWords.
//!
//! **What is proved.** `replay`, `first_race` and `traffic` answer exactly what FlatMemory, Races and
//! Traffic define, and up to its first race an explained journal replays. Lemmas for the crates above lie in proofs/, a
//! folder a topic. `EventClocks` has the timestamps of a journal that is taken an event at a time (`AreClocks`).
//!
//! **What is only tested** (in `tests/calls`): that memory isn't refused needlessly, and that a journal of 2^20 events is
//! checked in a test's time.
#![tactic(auto)]

mod base_laws;
mod base_state;
mod clock;
mod closing_and_awaited;
mod cut;
mod episodes;
mod event;
mod event_clocks;
mod event_kinds;
mod journal;
mod numbered_clocks;
mod race_epochs;
mod replay;
mod traffic;

pub use base_laws::{
    copy_base_law, cut_twice_base_law, deadlock_law, flat_base_law, history_base_law, no_base_law,
    same_base_law, well_formed_base_law,
};
pub use clock::Clock;
pub use closing_and_awaited::{Awaited, Closing};
pub use cut::CutFault;
pub use event::{Event, Kind};
pub use event_clocks::EventClocks;
pub use journal::Journal;
pub use race_epochs::first_race_of;
pub use traffic::{Traffic, traffic_of};

// Its limits, so that who reads a journal need not name the crate below.
pub use base::{MOST_CUT, MOST_EVENTS, MOST_HELD, MOST_IN_BLOCK, MOST_PROCESSORS};
