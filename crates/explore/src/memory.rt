//! What this memory shows of a script, whether it races or not, by the orders of its turns.
mod orders;
mod reported_outcome;
pub mod shown;
mod uses;
