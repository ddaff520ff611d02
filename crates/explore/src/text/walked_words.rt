//! How processors use a word, as far as a walk through a script's text has come, and whether their accesses are apart.
ghost use Rattle.std.specs.Prelude.{◌≡◌, ◌≢◌, ℕ, ◌+◌, ◌<◌, ◌≤◌, ◌^◌, Bool, IfOk, IsTrue, OnOk, Some, None, cond, false, max, if◌then◌else◌, slice_index, slice_index_or, vec_len};
ghost use Rattle.std.specs.BTreeMap.{get};
ghost use Rattle.std.specs.Ordering.{nat_cmp};
ghost use Rattle.base.specs.Prelude.{most_locks, most_processors};
ghost use Rattle.explore.specs.declared.text.walked_words.WalkedUser.{WalkedUser as AUser};
ghost use Rattle.explore.specs.WalkedWords.{HasWalkedPhaseUser, HasWalkedUser, IsWalkedAccessNoted, IsWalkedApart, IsWalkedPhaseNoted, IsWalkedUser, walked_row_holds};

use crate::text::walked_rows::WalkedRow;
use base::MOST_LOCKS;
use std::alloc::{AllocError, Global};
use std::collections::BTreeMap;

/// How a processor uses a word in one phase. There may be many of these, and places are small.
#[derive(Clone, Copy)]
pub struct WalkedUser {
    /// One more than the place of its last access.
    until: u16,
    /// The same of its last store; 0 if it only loads.
    stored_until: u16,
    /// Of each lock the same of its last access without that lock.
    unlocked_until: [u16; MOST_LOCKS],
}

/// How a processor uses a word in each phase.
#[derive(Drop)]
pub struct WalkedUses {
    phases: BTreeMap<usize, WalkedUser>,
}

/// How processors use a word.
#[derive(Drop)]
pub struct WalkedWord {
    /// Of each processor how it does.
    pub uses: Vec<WalkedUses>,
    /// Whether all accesses so far are apart that come by different processors in one phase, if one of them stores.
    pub is_guarded: bool,
}

/// Where the access ends that stands there.
fn access_until(row: &WalkedRow) -> u16
    requires { row.now.place < 2 ^ 15 }
    ensures { result ≡ row.now.place + 1 }
{
    row.place as u16 + 1
}

/// Where the access ends that stands there, if it is without this lock; else 0.
fn unlocked_until_at(row: &WalkedRow, lock: usize) -> u16
    requires lock { lock < most_locks }
    requires place { row.now.place < 2 ^ 15 }
    ensures { result ≡ cond (walked_row_holds row.now lock) 0 (row.now.place + 1) }
{
    if row.held[lock] { 0 } else { access_until(row) }
}

impl WalkedUser {
    /// With no access.
    fn new() -> WalkedUser {
        WalkedUser {
            until: 0,
            stored_until: 0,
            unlocked_until: [0; MOST_LOCKS],
        }
    }

    /// Of each lock where the last access without it ends, if the one that stands there is added.
    fn unlocked_until_with(&self, row: &WalkedRow) -> [u16; MOST_LOCKS]
        requires { row.now.place < 2 ^ 15 }
        ensures { (l : ℕ) → l < most_locks → slice_index result l
            ≡ max (slice_index self.now.unlocked_until l) (cond (walked_row_holds row.now l) 0 (row.now.place + 1)) }
    {
        let mut all = self.unlocked_until;
        for lock in 0..MOST_LOCKS {
            all[lock] = all[lock].max(unlocked_until_at(row, lock));
        }
        all
    }

    /// Where the last store ends, if the access that stands there is added.
    fn stored_until_with(&self, row: &WalkedRow, stores: bool) -> u16
        requires { row.now.place < 2 ^ 15 }
        ensures old { self.now.stored_until ≤ result }
        ensures new { IsTrue stores → row.now.place < result }
    {
        if stores {
            self.stored_until.max(access_until(row))
        } else {
            self.stored_until
        }
    }

    /// The user, and the access that stands there.
    fn joined(&self, row: &WalkedRow, stores: bool) -> WalkedUser
        requires { row.now.place < 2 ^ 15 }
        ensures old { (i : ℕ) (store : Bool) (held : ℕ → Bool) → IsWalkedUser self.now i store held → IsWalkedUser result i store held }
        ensures new { IsWalkedUser result row.now.place stores (walked_row_holds row.now) }
    {
        WalkedUser {
            until: self.until.max(access_until(row)),
            stored_until: self.stored_until_with(row, stores),
            unlocked_until: self.unlocked_until_with(row),
        }
    }

    /// Whether one of the locks is held at all accesses but the first `made` steps'.
    fn is_locked_since(&self, held: &[bool; MOST_LOCKS], made: usize) -> bool
        ensures { IsTrue result → (l : ℕ) × (l < most_locks) × IsTrue (slice_index_or held.now l false)
            × (slice_index self.now.unlocked_until l ≤ made) }
    {
        for lock in 0..MOST_LOCKS {
            if held[lock] && self.unlocked_until[lock] as usize <= made {
                return true;
            }
        }
        false
    }

    /// Where the last access ends that conflicts with one that stores or not.
    fn conflicting_until(&self, stores: bool) -> usize
        ensures { result ≡ (if stores then self.now.until else self.now.stored_until) }
    {
        if stores {
            self.until as usize
        } else {
            self.stored_until as usize
        }
    }

    /// Whether this processor's accesses are apart from one that stands there: those that conflict with it were made, or a
    /// lock is held at all that weren't.
    fn is_apart(&self, processor: usize, row: &WalkedRow, stores: bool) -> bool
        requires { processor < most_processors }
        ensures { IsTrue result → (i : ℕ) (store : Bool) (held : ℕ → Bool) → IsWalkedUser self.now i store held
            → IsWalkedApart row.now stores processor i store held }
    {
        let made = row.made[processor];
        self.conflicting_until(stores) <= made || self.is_locked_since(&row.held, made)
    }
}

impl WalkedUses {
    /// None.
    fn new(alloc: Global) -> WalkedUses
        ensures { (phase : ℕ) → get nat_cmp result.phases phase ≡ None }
    {
        WalkedUses {
            phases: BTreeMap::new(alloc),
        }
    }

    /// Whether this processor's accesses in the phase are apart from one that stands there.
    fn are_apart(&self, processor: usize, row: &WalkedRow, stores: bool) -> bool
        requires { processor < most_processors }
        ensures { IsTrue result → (i : ℕ) (store : Bool) (held : ℕ → Bool) → HasWalkedPhaseUser self.now row.now.phase i store held
            → IsWalkedApart row.now stores processor i store held }
    {
        match self.phases.get(&row.phase).copied() {
            Some(user) => user.is_apart(processor, row, stores),
            None => true,
        }
    }

    /// The user in the phase, and the access that stands there.
    fn joined(&self, row: &WalkedRow, stores: bool) -> WalkedUser
        requires { row.now.place < 2 ^ 15 }
        ensures old { (u : AUser) → get nat_cmp self.now.phases row.now.phase ≡ Some u → (i : ℕ) (store : Bool) (held : ℕ → Bool)
            → IsWalkedUser u i store held → IsWalkedUser result i store held }
        ensures new { IsWalkedUser result row.now.place stores (walked_row_holds row.now) }
    {
        match self.phases.get(&row.phase).copied() {
            Some(user) => user.joined(row, stores),
            None => WalkedUser::new().joined(row, stores),
        }
    }

    /// Takes note of the access that stands there. The only error is running out of memory, after which this may be of no use.
    fn note(&mut self, row: &WalkedRow, stores: bool) -> Result<(), AllocError>
        requires { row.now.place < 2 ^ 15 }
        ensures { OnOk result (IsWalkedPhaseNoted self.old self.new row.now stores) }
    {
        let user = self.joined(row, stores);
        self.phases.insert(row.phase, user)?;
        Ok(())
    }
}

impl WalkedWord {
    /// Nobody uses it.
    pub fn new(alloc: Global, processors: usize) -> Result<WalkedWord, AllocError>
        ensures { IfOk result (λ word. vec_len word.uses ≡ processors) }
    {
        let mut uses = Vec::new(alloc);
        for _ in 0..processors {
            uses.push(WalkedUses::new(alloc))?;
        }
        Ok(WalkedWord {
            uses,
            is_guarded: true,
        })
    }

    /// Whether the others' accesses in the phase are apart from the processor's that stands there.
    fn are_apart(&self, processor: usize, row: &WalkedRow, stores: bool) -> bool
        requires { vec_len self.now.uses ≤ most_processors }
        ensures { IsTrue result → (q i : ℕ) (store : Bool) (held : ℕ → Bool) → q ≢ processor
            → HasWalkedUser self.now q row.now.phase i store held → IsWalkedApart row.now stores q i store held }
    {
        for other in 0..self.uses.len() {
            if other != processor && !self.uses[other].are_apart(other, row, stores) {
                return false;
            }
        }
        true
    }

    /// Takes note of the processor's access that stands there. The only error is running out of memory, after which this may
    /// be of no use.
    pub fn note(
        &mut self,
        processor: usize,
        row: &WalkedRow,
        stores: bool,
    ) -> Result<(), AllocError>
        requires few { vec_len self.old.uses ≤ most_processors }
        requires processor { processor < vec_len self.old.uses }
        requires place { row.now.place < 2 ^ 15 }
        ensures { OnOk result (IsWalkedAccessNoted self.old self.new processor row.now stores) }
    {
        self.is_guarded &= self.are_apart(processor, row, stores);
        self.uses[processor].note(row, stores)
    }
}
