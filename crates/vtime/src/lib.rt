//! Vector timestamps: for each processor, how many of its intervals have been performed here.
//!
//! - Contracts see a `VTime` as the list of its entries, and speak of it by `tick`, `join` and `Covers`
//!   (specs/TicksAndJoins).
//! - Proved: each call is what these words say. No call has an error.
//! - Only tested: nothing. That no call takes memory is read off the code.
#![tactic(auto)]

mod vtime;

pub use vtime::VTime;
