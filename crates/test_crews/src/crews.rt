//! A caller of the cluster who knows nothing of it but its contracts: a cluster with its processors, on one thread
//! or each on its own.
//!
//! **What contracts see**: the cluster and its processors (`Crewed`), each of which is covered at any time.
//!
//! **What is only tested**: processors on threads. The rows of the cluster's calls, its limits, and each refusal of each
//! call in its order are lists of tests/calls, which the program `calls` makes.

mod calls;
mod crew;
mod running;
#[cfg(test)]
mod tests;

pub use self::calls::{Call, CallAnswer};
pub use self::crew::Crew;
pub use self::running::{CrewEnd, Task, run, run_each};
