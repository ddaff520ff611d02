//! A caller of the book who knows nothing of it but its contracts, and keeps the history of what was
//! done: that it tells the book is what each call rests on, and each call keeps it.
//!
//! **What contracts see**: the sizes, the history and the book's value (`Telling`).
//!
//! **What is proved**: each call that is made may be made, by the history alone; after it the history goes
//! on by just the block and the event; after a refusal all is as before.
//!
//! **What is only tested** (lists of `tests/calls`): some rows of the book's calls, and when a call here is refused
//! before the book is asked.

mod history;
mod records;
mod told;

pub use self::told::Told;
