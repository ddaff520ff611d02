//! What runs of a script may show by the rules of the memory alone.
pub mod answers;
pub mod beginning;
pub mod calls;
pub mod choice;
pub mod room;
pub mod search;
pub mod showing;
pub mod until;
pub mod words;
