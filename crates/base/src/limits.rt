//! The limits of the memory. Contracts have each by its name in small letters (`most_processors`; specs/Limits).

/// Processors of a cluster.
pub const MOST_PROCESSORS: usize = 16;

/// Pages of a cluster.
pub const MOST_PAGES: usize = 64;

/// Words of a page.
pub const MOST_WORDS: usize = 64;

/// Locks of a cluster.
pub const MOST_LOCKS: usize = 32;

/// Flags of a cluster.
pub const MOST_FLAGS: usize = 32;

/// Events of a processor's open block.
pub const MOST_IN_BLOCK: usize = 256;

/// Events of a journal, except what a cluster's end hands in.
pub const MOST_EVENTS: usize = 1 << 20;

/// Events that a journal can hold: those, what a cluster's end hands in, and room to spare.
pub const MOST_HELD: usize = 1 << 21;

/// Events that all cuts of a journal together can cut off, few enough that what they cost fits a u64.
pub const MOST_CUT: u64 = 1 << 30;
