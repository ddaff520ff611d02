//! Processors over one book. Each has copies of all pages, an open block of events that no journal has yet, and a
//! chair at the book's lock. The protocol is that of Keleher, Cox and Zwaenepoel, Lazy Release Consistency for Software
//! Distributed Shared Memory, ISCA 1992.
//!
//! **What contracts see.** A `Processor` is a `Local` (specs/Copies/Local): its lock and entries, number, sizes, what
//! it has seen of the journal, its open block, copies, marks, timestamp, locks held and what it waits for. A `Cluster`
//! is a `SharedCluster`: its lock and sizes. What the book's lock keeps is `KeptViewsInvariant`.
//!
//! **What is proved.** The accesses: the answer and each refusal exactly; `access`, with the fetch and the flush that it needs:
//! `IsReadyAccess`. The calls that enter: `IsProcessorCall`. After each, `HasCoverage`: what holds of the processor in every
//! journal that the lock allows; `cluster_allowed_law`: there is one. `audit` and `finish`: faithful histories with each
//! processor's calls. `wait`: it says that all are stuck exactly if the history that it finds is a deadlock.
//!
//! **What is only tested** (in `test_crews`): that no call is refused needlessly, that threads get on, and that nobody
//! sleeps for ever.
#![tactic(auto)]

mod bells;
mod cluster;
pub mod copies;
mod keeper;
pub mod laws;
mod processor;
mod shape;
mod waited;

pub use cluster::{Cluster, WordAccess};
pub use keeper::{BookLock, BookTurn, Rule, TicketBookLock, View};
pub use processor::Processor;
pub use shape::Shape;
pub use waited::Waited;

// What a program has to name beside these, so that it lists this crate alone.
pub use book::{Book, Refused};
pub use journal::{Event, Journal, Kind};
pub use turn::Turn;
