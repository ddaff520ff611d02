//! Programs on seats, of which nothing is known but their contracts: a layout of its own tables, used in turn; programs on
//! threads; what is made of a seat's calls.
//!
//! **What is only tested**: that a run comes to its end, with what its processors answered, or with the fault that is due.

#[cfg(test)]
mod tests;
