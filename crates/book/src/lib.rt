//! The book: what the processors of a cluster share, as one value behind the book lock.
//!
//! It has the journal, the closed intervals, the distributed locks, the barrier and the flags. It has the timestamps,
//! what each processor waits for, and the messages on their way (Keleher, Cox and Zwaenepoel, Lazy Release Consistency for
//! Software Distributed Shared Memory, ISCA 1992, sections 3 and 4).
//!
//! **What contracts see**: a [`Book`] as its parts' own values in one record, `BookState`. Each call's new value is a
//! function of the old one (specs/Transitions). A call may be made if some history that the book represents allows it
//! (specs/AllowedCalls, specs/RepresentedHistory).
//!
//! **What is proved**: each call computes its function, or is refused and changes nothing. If a history represents the
//! book before a call, that history with the call's events represents it after ([`laws`]); after a cut the same history
//! does, and the journal holds what is left of it.
//!
//! **What is only tested**: the texts of [`Refused`] (in `test_lrc`), the rows of the book's calls (in `tests/calls`).
#![tactic(auto)]

mod book;
mod done_waiting;
mod empty;
mod journal_room;
pub mod laws;
mod mail;
mod protocol;
mod refused;
mod trims;
mod waiters;

pub use book::Book;
pub use refused::Refused;
pub use waiters::Waiters;
