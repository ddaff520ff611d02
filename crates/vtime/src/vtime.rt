//! `VTime`, the vector timestamp of a processor, a lock, a flag or a message.
ghost use Rattle.std.specs.Prelude.{◌≡◌, ℕ, ◌-◌, ◌^◌, ◌<◌, ◌≤◌, ◌↔◌, max, length, replicate, IsTrue, slice_get};
ghost use Rattle.std.specs.Prelude.{slice_index, nat_eq};
ghost use Rattle.std.specs.Cmp.{partial_equiv_from_equiv};
ghost use Rattle.std.specs.Cmp.Lexicographic.{pointwise, nat_list_eq_equiv};
ghost use Rattle.base.specs.Prelude.{most_processors};
ghost use Rattle.vtime.specs.TicksAndJoins.{tick, join, Covers};

use base::MOST_PROCESSORS;
use smallvec::SmallVec;
use std::alloc::Global;
use std::marker::Model;

/// A vector timestamp: entry q is how many of processor q's intervals have been performed here.
///
/// It has 1 to `MOST_PROCESSORS` entries in a `SmallVec` with room for all in the value, so no call takes memory. The order that
/// `covers` and `join` are about is that of Mattern (Virtual Time and Global States of Distributed
/// Systems, 1989). Its use for intervals is that of Keleher, Cox and Zwaenepoel (Lazy Release
/// Consistency for Software Distributed Shared Memory, ISCA 1992, section 3).
#[derive(Drop)]
pub struct VTime {
    entries: SmallVec<u64, MOST_PROCESSORS>,
}

impl Model for VTime {
    ghost use Rattle.std.specs.Prelude.{◌≡◌, ℕ, ◌≤◌, List, length};
    ghost use Rattle.base.specs.Limits.{most_processors};

    ghost Value = { List ℕ };

    ghost view = { λ time. time.entries.items };

    ghost invariant = { λ time. (time.entries.capacity ≡ most_processors)
        × (1 ≤ length time.entries.items) × (length time.entries.items ≤ most_processors) };
}

impl VTime {
    /// The timestamp of `processors` processors (1 to `MOST_PROCESSORS`) of which no interval has been performed.
    pub fn zero(alloc: Global, processors: usize) -> VTime
        requires some { 1 ≤ processors }
        requires most { processors ≤ most_processors }
        ensures { result ≡ replicate processors 0 }
    {
        VTime {
            entries: SmallVec::from_elem(alloc, 0, processors).unwrap(),
        }
    }

    /// How many intervals of processor `q` have been performed.
    pub fn entry(&self, q: usize) -> u64
        requires { q < length self.now }
        ensures { slice_get self.now q ≡ Some result }
    {
        self.entries()[q]
    }

    /// The entries, one a processor.
    pub fn entries(&self) -> &[u64]
        ensures { result.now ≡ self.now }
    {
        self.entries.as_slice()
    }

    /// Adds one interval of processor `q`, which it has just closed.
    pub fn tick(&mut self, q: usize)
        requires in_range { q < length self.old }
        requires fits { slice_index self.old q < 2 ^ 64 - 1 }
        ensures { self.new ≡ tick self.old q }
    {
        tick_vtime_entry(self.entries.as_mut_slice(), q);
    }

    /// Takes over what `other` has performed: each entry becomes the greater of the two.
    pub fn join(&mut self, other: &VTime)
        requires { length other.now ≡ length self.old }
        ensures value { self.new ≡ join self.old other.now }
        ensures greater { (q : ℕ) → slice_index self.new q ≡ max (slice_index self.old q) (slice_index other.now q) }
        ensures same_length { length self.new ≡ length self.old }
    {
        join_vtime_entries(self.entries.as_mut_slice(), other.entries());
    }

    /// Makes it that of the start again, of which no interval has been performed.
    pub fn clear(&mut self)
        ensures { self.new ≡ replicate (length self.old) 0 }
    {
        self.entries.as_mut_slice().fill(0);
    }

    /// The same timestamp once more.
    pub fn copy(&self) -> VTime
        ensures { result ≡ self.now }
    {
        VTime {
            entries: SmallVec::from_slice(*self.entries.allocator(), self.entries()).unwrap(),
        }
    }

    /// Whether the interval with this number, counted from 0, of processor `owner` has been performed.
    pub fn covers(&self, owner: usize, number: u64) -> bool
        requires { owner < length self.now }
        ensures { IsTrue result ↔ Covers self.now owner number }
    {
        number < self.entries()[owner]
    }
}

impl PartialEq for VTime {
    ghost eq = { pointwise nat_eq };

    ghost laws = { partial_equiv_from_equiv nat_list_eq_equiv };

    fn eq(&self, other: &VTime) -> bool
        ensures value { result ≡ pointwise nat_eq self.now other.now }
        ensures same { IsTrue result ↔ (self.now ≡ other.now) }
    {
        self.entries() == other.entries()
    }
}

impl Eq for VTime {
    ghost laws = { nat_list_eq_equiv };
}

/// Adds one to entry `q`.
fn tick_vtime_entry(entries: &mut [u64], q: usize)
    requires in_range { q < length entries.old }
    requires fits { slice_index entries.old q < 2 ^ 64 - 1 }
    ensures { entries.new ≡ tick entries.old q }
{
    entries[q] += 1;
}

/// Raises each entry of `mine` to that of `theirs` if that is greater.
fn join_vtime_entries(mine: &mut [u64], theirs: &[u64])
    requires { length theirs.now ≡ length mine.old }
    ensures value { mine.new ≡ join mine.old theirs.now }
    ensures greater { (q : ℕ) → slice_index mine.new q ≡ max (slice_index mine.old q) (slice_index theirs.now q) }
{
    for (q, entry) in mine.iter_mut().enumerate() {
        *entry = (*entry).max(theirs[q]);
    }
}
