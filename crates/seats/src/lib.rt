//! Seats: processors on their threads, whose calls fetch, hand in and wait by themselves; and guards of words, by which a
//! program has no race.
//!
//! A [`Seat`] is seen by contracts as its processor. Which processor of which cluster that is, its type says
//! ([`Sitting`]), so no call has a premise. A thread's work is a [`Program`]. [`run`] makes a cluster and lets it work there,
//! with a thread for each processor; [`sit`] lets it work on one.
//!
//! A [`Guard`] says who may access a word in a phase, that is, between two departures from the barrier: who holds a lock,
//! one processor, or all, who then may only load it. Whether a processor keeps to the guards hangs on its own calls
//! alone: which locks it has acquired and released, and how often it has departed.
//!
//! **What is proved.** Each call of a seat adds just what it says to its processor's calls, and a fetch of the page
//! that it accesses. What a fault leaves is proved, and the faults that come at once, and what each other one tells. No clause
//! says when that comes: it is what the cluster returns.
//!
//! A seat keeps to a [`Layout`]: an access that it doesn't allow is barred. What [`run`] returns is the whole history of its
//! cluster, in which each processor kept to the layout and did what the program says of it. Nothing in it races if no word of
//! the layout is open to all. If it fails, it tells which fault it is to tell of several (`told_fault`).
//!
//! `guarded_law`: in a well formed history of processors of which each keeps to the guards, two
//! accesses race only if the word was open to all in some phase. A [`Layout`] has guards as plain data, by tables that are
//! used in turn; each of its calls does what it says. `table_law`: who keeps to a layout with no open word has no race.
//! `kept_law`: what each tenure of a lock, from the acquire to the release, preserves of the words under it holds at the end.
#![tactic(auto)]

mod fault;
mod grids;
mod guard;
pub mod laws;
mod layout;
mod program;
mod running;
mod seat;
mod seat_closings;
mod seat_words;
mod sitting;
mod stencil;
mod word;
mod word_access;

pub use fault::{ProcessorFault, SeatFault, told_fault};
pub use grids::Grids;
pub use guard::Guard;
pub use layout::Layout;
pub use program::{Program, sit};
pub use running::{GuardedRun, ProgramRun, run, run_guarded};
pub use seat::Seat;
pub use sitting::Sitting;
pub use stencil::Stencil;
pub use word::Word;
