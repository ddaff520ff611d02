//! The lines of processors at distributed locks.
ghost use Rattle.std.specs.Prelude.{◌≡◌, ◌≤◌, ◌<◌, ◌↔◌, IsTrue, IfOk, None, Some, [], length, replicate, slice_get};
ghost use Rattle.base.specs.Prelude.{most_processors, Has};
ghost use Rattle.lockq.specs.LockQueues.{lock_queue_unheld, lock_queue_at, with_lock_queue, lock_queue_line, lock_queue_asked, lock_queue_released, IsOrderlyLockQueue};

use std::alloc::{AllocError, Global};
use std::collections::VecDeque;
use std::marker::Model;
use vtime::VTime;

/// One lock. The queue has room for every processor.
#[derive(Drop)]
struct LockQueue {
    holder: Option<usize>,
    queue: VecDeque<usize>,
    time: VTime,
}

impl Model for LockQueue {
    ghost use Rattle.std.specs.Prelude.{◌≤◌, length};
    ghost use Rattle.std.specs.VecDeque.{deque_capacity};
    ghost use Rattle.lockq.specs.LockQueues.{LockQueue as State, IsOrderlyLockQueue};

    ghost Value = { State };

    ghost view = { λ k. record { holder = k.holder; queue = k.queue.items; time = k.time } };

    ghost invariant = { λ k.
        let state : State = record { holder = k.holder; queue = k.queue.items; time = k.time } in
        IsOrderlyLockQueue (length k.time) state × (length k.time ≤ deque_capacity k.queue) };
}

impl LockQueue {
    fn new(alloc: Global, processors: usize) -> Result<Self, AllocError>
        requires some { 1 ≤ processors }
        requires most { processors ≤ most_processors }
        ensures { IfOk result (λ k. k ≡ lock_queue_unheld processors) }
    {
        Ok(LockQueue {
            holder: None,
            queue: VecDeque::with_capacity(alloc, processors)?,
            time: VTime::zero(alloc, processors),
        })
    }

    fn ask(&mut self, processor: usize) -> bool
        requires processor { processor < length self.old.time }
        requires apart { ¬ Has (lock_queue_line self.old) processor }
        ensures lock { self.new ≡ lock_queue_asked self.old processor }
        ensures due { IsTrue result ↔ (self.old.holder ≡ None) }
        ensures orderly { IsOrderlyLockQueue (length self.new.time) self.new }
    {
        if self.holder.is_none() {
            self.holder = Some(processor);
            return true;
        }
        self.queue.push_back_reserved(processor);
        false
    }

    fn release(&mut self, time: VTime) -> Option<usize>
        requires long { length time ≡ length self.old.time }
        ensures lock { self.new ≡ lock_queue_released self.old time }
        ensures granted { result ≡ self.new.holder }
        ensures orderly { IsOrderlyLockQueue (length self.new.time) self.new }
    {
        self.time = time;
        self.holder = self.queue.pop_front();
        self.holder
    }

    fn holder(&self) -> Option<usize>
        ensures value { result ≡ self.now.holder }
        ensures orderly { IsOrderlyLockQueue (length self.now.time) self.now }
    {
        self.holder
    }
}

/// All distributed locks of a cluster.
///
/// Asks for a lock are granted in the order in which they were made, and a processor holds a lock
/// from the moment when its grant is due. With each lock stands the timestamp of its last release,
/// which its next grant carries (Keleher, Cox and Zwaenepoel 1992, section 3). Only `new` takes
/// memory.
#[derive(Drop)]
pub struct Locks {
    processors: usize,
    locks: Vec<LockQueue>,
}

impl Model for Locks {
    ghost use Rattle.std.specs.Prelude.{◌≡◌, ℕ, Some, slice_get, length};
    ghost use Rattle.lockq.specs.LockQueues.{LockQueue as State, Locks as States};

    ghost Value = { States };

    ghost view = { λ s. record { processors = s.processors; locks = s.locks.items } };

    ghost invariant = { λ s. (l : ℕ) (k : State) → slice_get s.locks.items l ≡ Some k
        → length k.time ≡ s.processors };
}

impl Locks {
    /// `locks` locks that nobody has asked for, among `processors` processors (1 to 16).
    /// Answers `AllocError` if memory for them is refused.
    pub fn new(alloc: Global, locks: usize, processors: usize) -> Result<Self, AllocError>
        requires some { 1 ≤ processors }
        requires most { processors ≤ most_processors }
        ensures processors { IfOk result (λ s. s.processors ≡ processors) }
        ensures locks { IfOk result (λ s. s.locks ≡ replicate locks (lock_queue_unheld processors)) }
    {
        let mut all = Vec::with_capacity(alloc, locks)?;
        for _ in 0..locks {
            all.push(LockQueue::new(alloc, processors)?)?;
        }
        Ok(Locks {
            processors,
            locks: all,
        })
    }

    /// Puts a processor into the line at a lock, and answers whether its grant is due now: it is
    /// if nobody holds the lock.
    pub fn ask(&mut self, lock: usize, processor: usize) -> bool
        requires lock { lock < length self.old.locks }
        requires processor { processor < self.old.processors }
        requires apart { ¬ Has (lock_queue_line (lock_queue_at self.old lock)) processor }
        ensures locks { self.new ≡ with_lock_queue self.old lock (lock_queue_asked (lock_queue_at self.old lock) processor) }
        ensures due { IsTrue result ↔ ((lock_queue_at self.old lock).holder ≡ None) }
        ensures orderly { IsOrderlyLockQueue self.new.processors (lock_queue_at self.new lock) }
    {
        let lock = &mut self.locks[lock];
        lock.ask(processor)
    }

    /// Takes a lock from the processor that holds it, keeps `time` with it, and answers who holds
    /// it next: the first of its queue, if there is one.
    pub fn release(&mut self, lock: usize, processor: usize, time: VTime) -> Option<usize>
        requires lock { lock < length self.old.locks }
        requires holder { (lock_queue_at self.old lock).holder ≡ Some processor }
        requires long { length time ≡ self.old.processors }
        ensures locks { self.new ≡ with_lock_queue self.old lock (lock_queue_released (lock_queue_at self.old lock) time) }
        ensures granted { result ≡ slice_get (lock_queue_at self.old lock).queue 0 }
        ensures orderly { IsOrderlyLockQueue self.new.processors (lock_queue_at self.new lock) }
    {
        let lock = &mut self.locks[lock];
        lock.release(time)
    }

    /// Who holds a lock, or is to take its grant.
    pub fn holder(&self, lock: usize) -> Option<usize>
        requires { lock < length self.now.locks }
        ensures value { result ≡ (lock_queue_at self.now lock).holder }
        ensures orderly { IsOrderlyLockQueue self.now.processors (lock_queue_at self.now lock) }
    {
        let lock = &self.locks[lock];
        lock.holder()
    }

    /// Who is granted a lock at its next release.
    pub fn next(&self, lock: usize) -> Option<usize>
        requires { lock < length self.now.locks }
        ensures { result ≡ slice_get (lock_queue_at self.now lock).queue 0 }
    {
        let lock = &self.locks[lock];
        lock.queue.front().copied()
    }

    /// The time of a lock's last release: zero if it was never released.
    pub fn time(&self, lock: usize) -> &VTime
        requires { lock < length self.now.locks }
        ensures value { result.now ≡ (lock_queue_at self.now lock).time }
        ensures long { length result.now ≡ self.now.processors }
    {
        let lock = &self.locks[lock];
        &lock.time
    }
}
