//! What the book and the processors are made of, a type for each part.

pub use barrier::{Barrier, Stage};
pub use interval::{Closed, Interval, Notice, Sent};
pub use lockq::Locks;
pub use page::{Page, Record};
pub use transit::{Message, Transit};
pub use turn::{ArrayLock, Chair, Held, Keeper, Lesson, Outcome, Spent, TicketLock};
pub use vtime::VTime;
