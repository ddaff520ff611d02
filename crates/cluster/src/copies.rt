//! What a processor knows by itself: its copies of the pages, its open block, its timestamp, and what each call does to
//! them (Keleher, Cox and Zwaenepoel 1992, sections 3 and 4).
//!
//! - `Replica` is a copy of a page with the records that it lacks (`PageReplica`, specs/Copies/PageReplica), `MarkSet` a set
//!   of numbers below `MOST_PAGES` as the list of as many marks.
//! - `harvest` and `clean` are what a closing call does to the copies, `make_room_to_learn` and `learn` what a taking one does
//!   (specs/Copies/MarkedCopiesAndHarvests, specs/Copies/AfterNews). If memory is refused, nothing but room has changed.
//! - The laws of what calls do to a processor (`Local`, specs/Copies/Local) stand in proofs/copies.

mod backlog;
mod harvesting;
mod learning;
mod mark_set;
mod replica;

pub use self::harvesting::{clean, harvest};
pub use self::learning::{learn, make_room_to_learn};
pub use self::mark_set::MarkSet;
pub use self::replica::{MissingCounts, Replica};
