//! Why the events of a history went as they did: which store each load returns, and what keeps the accesses of its first
//! race apart. Which events let one through that waited, by which way one reaches another, and which records came with it. The
//! protocol's state at each event, and what each processor waits for at the end. A `Part` of a history has the events of some
//! processors from one place to another.
//!
//! **What contracts see.** All of these speak in journal's words of happens-before, latest stores, races, gaps of copies and
//! who holds a lock:
//!
//! - `IsSource` of specs/Source: what each source of a load means;
//! - `IsHeard` of specs/Heard: which event of another processor is the last one heard of;
//! - `EdgeFromOther` of specs/Edges: which events have an edge to one;
//! - `IsNews` of specs/News: which of these its processor had not heard of;
//! - `AreHandOvers` of specs/HandOvers: which of those are the last ones;
//! - `IsPathWay` of specs/Paths: what a way along edges is;
//! - `AreDues` of specs/Dues: which records an event tells of;
//! - `IsOrigin` of specs/Origins: from which store the word of a copy comes;
//! - `IsEventState` of specs/EventStates: what the protocol's state at an event is;
//! - `IsFinalWait` of specs/FinalWaits: what each thing that a processor waits for means.
//!
//! A history is a `judge::History`; it need not be one that a cluster can make. What copies have and lack is told of
//! one with at most 16 processors (`origins`, `dues`, `event_states`, `written_words`), all else of any.
//!
//! **What is proved.** `sources_of_loads` names for each load a latest store of its past whose value it returns. Or it says that its past
//! has no store and it returns 0, or that it may not return what it does. `race_apart` has, of a race, the last event
//! of the first access's processor that happens before the second access, and the locks held at both. `incoming_news` has, of
//! each event, exactly the events of other processors with an edge to it that its processor had not heard of, `hand_overs` the
//! last of these. `origins` has, of each load, the store from which its copy's word comes, and by
//! which event. `Ways::way` has, of two events, a way along edges from the one to the other, exactly where the one is the other
//! or happens before it. `dues` has, of each event that takes, exactly the records that its processor's
//! copies lack after it and did not lack before. Of each fetch it has those that its copy of the page lacked, by page and
//! writer. `event_states` has, of each event that is asked for, its processor's timestamp after it, and the interval that it lies
//! in, with that one's records if it closes it. It has exactly the write notices that the event brings, and exactly the pages of
//! which its processor's copy is stale after it, and dirty. `final_waits` has, of each processor, what it waits for at the end:
//! a lock, who holds it and whose asks of it are earlier; a flag, and whether it is set; or exactly the processors that have not
//! arrived. `wait_circles` has exactly the circles of processors that wait for each other.
//!
//! **What is only tested** (in `tests/memory`): that memory isn't refused needlessly, and that each refusal is answered.
#![tactic(auto)]

mod apart;
mod brought;
mod closed_records;
mod edge;
mod event_dues;
mod hand_over_lists;
mod heard;
mod index;
mod lock_holders;
mod news;
mod notices;
mod origin;
mod part;
mod reaching;
mod source;
mod span;
mod stale_and_dirty_pages;
mod states_of_events;
mod step;
mod store_rows;
mod taking_events;
mod waiting_circles;
mod waits_at_end;
mod ways;
mod written;

pub use apart::{RaceApart, race_accesses_apart, race_apart};
pub use closed_records::PageRecord;
pub use event_dues::{Due, dues};
pub use hand_over_lists::hand_overs;
pub use lock_holders::locks_of_holder;
pub use news::incoming_news;
pub use notices::WriteNotice;
pub use origin::{WordOrigin, origins};
pub use part::Part;
pub use source::{Source, sources_of_loads};
pub use states_of_events::{EventState, event_states};
pub use waiting_circles::{wait_circles, waits_for};
pub use waits_at_end::{Wait, final_waits};
pub use ways::Ways;
pub use written::{WrittenWord, written_words};
