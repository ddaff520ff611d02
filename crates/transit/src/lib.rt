//! Messages on their way: at most one for each processor.
//!
//! - Contracts see a `Message` as a `Letter` (kind, timestamp, notices; specs/Letters), and `Transit` as a
//!   list with a letter or none for each processor, read by `mail` (specs/Mail).
//! - Proved: what is taken is what was posted, and each call is what these words say.
//! - Only tested: that `new` allocates only what it needs. That no other call allocates is read off the code.
#![tactic(auto)]

mod message;
mod transit;

pub use message::Message;
pub use transit::Transit;
