//! Words that need a lock and have none at times, or never, told from a history in which no race was met.
//!
//! A program that forgets a lock once is mostly ordered by accident. So order by locks is left out here: two accesses of a
//! word need a lock if they race in the history in which locks order nothing, from the first store to the word by a
//! second processor on. A word is told if some such accesses hold no lock in common. If others do, somebody forgot it; if none
//! do, the word is handed over.
//!
//! **What contracts see.** `IsPairToLock`, `IsGuardedPair`, `IsUnguardedPair`, `PairsLeaveUnprotected` and
//! `PairsTellUnprotected` of specs/Locksets/Pairs; `IsLocksetFinderOf` of specs/Locksets/KeptLocksets says by what events a
//! `LocksetFinder` is what it is.
//!
//! **What is proved.** A `LocksetFinder` takes a history an event at a time, and returns exactly its words of this sort. Each
//! comes with two accesses that hold no lock in common, and two that do, if there are such.
//!
//! **What is only tested**: that these definitions say what they are to say, by histories worked by hand.

mod held_locks;
mod lockset_finder;
mod unlocked;
mod watched_word;

pub use self::lockset_finder::{LocksetFinder, LocksetWords, Unprotected};
pub use self::watched_word::{Guarded, PairedAccess};
