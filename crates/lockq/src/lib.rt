//! Distributed locks: for each lock who holds it, who is queued for it, and the timestamp that its
//! last release left with it.
//!
//! - Contracts see `Locks` as a list of `LockQueue`s (holder, queue, time), and speak of one by `lock_queue_at`,
//!   `lock_queue_asked` and `lock_queue_released` (specs/LockQueues).
//! - Proved: each call is what these words say, and the line at a lock stays orderly (`IsOrderlyLockQueue`): nobody
//!   stands in it twice, and somebody is queued only if the lock is held.
//! - Only tested: that `new` allocates only what it needs. That no other call allocates is read off the code.
#![tactic(auto)]

mod lock_queues;

pub use lock_queues::Locks;
