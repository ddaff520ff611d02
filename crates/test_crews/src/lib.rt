//! Clients on threads, over any lock and any memory that meets the contracts: counters, crews of processors, and programs on
//! seats.
#![tactic(auto)]

pub mod counters;
pub mod crews;
pub mod seated;
