//! What the memory is made of, called by code that knows nothing but contracts.
#![tactic(auto)]

pub mod histories;
pub mod reaching;
