//! Sets of locks.
ghost use Rattle.std.specs.Prelude.{◌≡◌, ◌≢◌, ◌↔◌, ◌++◌, [], ◌∷◌, ℕ, IfNone, IfOk, IfSome, IsTrue, List, OnOk};
ghost use Rattle.journal.specs.declared.event.Event.{Event};
ghost use Rattle.journal.specs.Prelude.{did};
ghost use Rattle.judge.specs.Locksets.Prelude.{AreHeldLocks, HasHeldLock, HeldLocksShare};

use journal::Kind;
use std::alloc::{AllocError, Global};

/// The locks that a processor holds, rising.
#[derive(Drop)]
pub(crate) struct HeldLocks {
    pub(crate) locks: Vec<usize>,
}

impl HeldLocks {
    /// No lock.
    pub(crate) fn none(alloc: Global) -> HeldLocks
        ensures { (l : ℕ) → ¬ HasHeldLock result l }
    {
        HeldLocks {
            locks: Vec::new(alloc),
        }
    }

    /// The same locks once more. The only error is running out of memory.
    pub(crate) fn copied(&self) -> Result<HeldLocks, AllocError>
        ensures { IfOk result (λ h. h.locks.items ≡ self.now.locks.items) }
    {
        Ok(HeldLocks {
            locks: self.locks.clone()?,
        })
    }

    /// Whether the sets are the same.
    pub(crate) fn are_same(&self, other: &HeldLocks) -> bool
        ensures { IsTrue result ↔ (self.now.locks.items ≡ other.now.locks.items) }
    {
        self.locks == other.locks
    }

    /// Whether the set has the lock.
    fn has(&self, lock: usize) -> bool
        ensures { IsTrue result ↔ HasHeldLock self.now lock }
    {
        self.locks.contains(&lock)
    }

    /// Puts the lock into the set. The only error is running out of memory.
    fn add(&mut self, lock: usize) -> Result<(), AllocError>
        ensures same { OnOk result (HasHeldLock self.new lock) }
        ensures others { OnOk result ((l : ℕ) → l ≢ lock → HasHeldLock self.new l ↔ HasHeldLock self.old l) }
    {
        if self.has(lock) {
            return Ok(());
        }
        let place = self.locks.partition_point(|held| *held < lock);
        self.locks.insert(place, lock)?;
        Ok(())
    }

    /// Takes the lock out of the set.
    fn remove(&mut self, lock: usize)
        ensures same { ¬ HasHeldLock self.new lock }
        ensures others { (l : ℕ) → l ≢ lock → HasHeldLock self.new l ↔ HasHeldLock self.old l }
    {
        self.locks.retain(|held| *held != lock);
    }

    /// Takes note of what its processor does next. The only error is running out of memory.
    pub(crate) fn note(&mut self, kind: Kind) -> Result<(), AllocError>
        ensures { OnOk result ((j : List Event) (p : ℕ) → AreHeldLocks j p self.old → AreHeldLocks (did j p kind) p self.new) }
    {
        match kind {
            Kind::Acquire(lock) => self.add(lock),
            Kind::Release(lock) => {
                self.remove(lock);
                Ok(())
            }
            _ => Ok(()),
        }
    }

    /// The least lock that both sets have.
    pub(crate) fn common(&self, other: &HeldLocks) -> Option<usize>
        ensures some { IfSome result (λ l. HeldLocksShare self.now other.now l) }
        ensures none { IfNone result ((l : ℕ) → ¬ HeldLocksShare self.now other.now l) }
    {
        for lock in &self.locks {
            if other.has(*lock) {
                return Some(*lock);
            }
        }
        None
    }
}
