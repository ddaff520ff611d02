//! A count that several threads add to under a lock, over any lock that meets the contract of `turn`: the proofs name
//! `Turn` alone. The tests run both locks.

mod counting;
mod tally;
#[cfg(test)]
mod tests;

pub use self::counting::{add_many, add_one, count_in_many, count_in_two};
pub use self::tally::{AddsOne, Counter};
