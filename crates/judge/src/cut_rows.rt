//! Tables of cuts of as many processors.
ghost use Rattle.std.specs.Prelude.{◌≡◌, ℕ, ◌+◌, ◌*◌, ◌<◌, ◌≤◌, ◌^◌, IfOk, OnOk, length, max, slice_index, vec_len};
ghost use Rattle.judge.specs.JudgedSizes.{most_judged_processors};

use std::alloc::{AllocError, Global};

/// Cuts of as many processors, each in a row of as many entries. It takes 4 bytes an entry.
#[derive(Drop)]
pub(crate) struct CutRows {
    /// How many entries a row has.
    pub(crate) width: usize,
    /// How many rows there are.
    count: usize,
    /// The rows, one after the other.
    entries: Vec<u32>,
    ghost whole: { vec_len entries ≡ count * width },
    ghost narrow: { width ≤ most_judged_processors },
}

/// The place up to which the cut has the processor's events: its entry, 0 if it has none.
#[inline(always)]
pub(crate) fn known_in(cut: &[u32], processor: usize) -> u32
    ensures { result ≡ slice_index cut.now processor }
{
    cut.get(processor).copied().unwrap_or(0)
}

/// Raises the entries from this one on to the cut's, where those are greater.
#[inline(always)]
pub(crate) fn join_cut(entries: &mut [u32], first: usize, cut: &[u32])
    requires { first + length cut.now ≤ length entries.old }
    ensures long { length entries.new ≡ length entries.old }
    ensures joined { (q : ℕ) → q < length cut.now → slice_index entries.new (first + q)
        ≡ max (slice_index entries.old (first + q)) (slice_index cut.now q) }
    ensures before { (k : ℕ) → k < first → slice_index entries.new k ≡ slice_index entries.old k }
    ensures behind { (k : ℕ) → first + length cut.now ≤ k → slice_index entries.new k ≡ slice_index entries.old k }
{
    for q in 0..cut.len() {
        entries[first + q] = entries[first + q].max(cut[q]);
    }
}

impl CutRows {
    ghost use Rattle.judge.specs.Prelude.{CutEntriesJoinedAt, CutEntriesMarkedAt, cut_entry};

    /// No rows, of so many entries each.
    pub(crate) fn new(alloc: Global, width: usize) -> CutRows
        requires { width ≤ most_judged_processors }
        ensures width { result.width ≡ width }
        ensures count { result.count ≡ 0 }
        ensures zeros { (n q : ℕ) → cut_entry result n q ≡ 0 }
    {
        CutRows {
            width,
            count: 0,
            entries: Vec::new(alloc),
        }
    }

    /// So many rows of so many zeros each. The only error is running out of memory.
    pub(crate) fn zeros(alloc: Global, width: usize, count: usize) -> Result<CutRows, AllocError>
        requires width { width ≤ most_judged_processors }
        requires count { count ≤ most_judged_processors }
        ensures width { IfOk result (λ rows. rows.width ≡ width) }
        ensures count { IfOk result (λ rows. rows.count ≡ count) }
        ensures zeros { IfOk result (λ rows. (n q : ℕ) → cut_entry rows n q ≡ 0) }
    {
        Ok(CutRows {
            width,
            count,
            entries: vec![in alloc; 0; count * width]?,
        })
    }

    /// What it takes its memory from.
    pub(crate) fn allocator(&self) -> Global {
        *self.entries.allocator()
    }

    /// How many rows there are.
    pub(crate) fn len(&self) -> usize
        ensures { result ≡ self.now.count }
    {
        self.count
    }

    /// The row of this number; nothing if there is none.
    #[inline(always)]
    pub(crate) fn row(&self, number: usize) -> &[u32]
        ensures within { length result.now ≤ self.now.width }
        ensures long { number < self.now.count → length result.now ≡ self.now.width }
        ensures entries { (q : ℕ) → slice_index result.now q ≡ cut_entry self.now number q }
    {
        if number >= self.count {
            return &[];
        }
        let first = number * self.width;
        &self.entries[first..first + self.width]
    }

    /// Has the row of this number say up to which place the processor's events are known.
    #[inline(always)]
    pub(crate) fn mark(&mut self, number: usize, processor: usize, limit: u32)
        requires number { number < self.old.count }
        requires processor { processor < self.old.width }
        ensures width { self.new.width ≡ self.old.width }
        ensures count { self.new.count ≡ self.old.count }
        ensures marked { CutEntriesMarkedAt (cut_entry self.old) (cut_entry self.new) number processor limit }
    {
        self.entries[number * self.width + processor] = limit;
    }

    /// Raises each entry of the row of this number to the cut's, if that is greater.
    #[inline(always)]
    pub(crate) fn join(&mut self, number: usize, cut: &[u32])
        requires number { number < self.old.count }
        requires cut { length cut.now ≤ self.old.width }
        ensures width { self.new.width ≡ self.old.width }
        ensures count { self.new.count ≡ self.old.count }
        ensures joined { CutEntriesJoinedAt (cut_entry self.old) (cut_entry self.new) number (slice_index cut.now) }
    {
        join_cut(&mut self.entries, number * self.width, cut);
    }

    /// Adds a row, which is this cut. The only error is running out of memory.
    pub(crate) fn push(&mut self, cut: &[u32]) -> Result<(), AllocError>
        requires some { 0 < self.old.width }
        requires cut { length cut.now ≡ self.old.width }
        ensures width { self.new.width ≡ self.old.width }
        ensures more { self.old.count ≤ self.new.count }
        ensures count { OnOk result (self.new.count ≡ self.old.count + 1) }
        ensures same { (n q : ℕ) → n < self.old.count → cut_entry self.new n q ≡ cut_entry self.old n q }
        ensures last { OnOk result ((q : ℕ) → cut_entry self.new self.old.count q ≡ slice_index cut.now q) }
    {
        self.entries.extend_from_slice(cut)?;
        self.count += 1;
        Ok(())
    }

    /// Whether there is no room for one row more.
    pub(crate) fn is_full(&self) -> bool {
        self.entries.len() + self.width > self.entries.capacity()
    }

    /// Makes room for so many rows more. The only error is running out of memory.
    pub(crate) fn reserve(&mut self, rows: usize) -> Result<(), AllocError>
        requires { rows * self.old.width < 2 ^ 64 }
        ensures width { self.new.width ≡ self.old.width }
        ensures count { self.new.count ≡ self.old.count }
        ensures same { (n q : ℕ) → cut_entry self.new n q ≡ cut_entry self.old n q }
    {
        self.entries.reserve(rows * self.width)
    }

    /// Adds rows of zeros up to that of this number, which there is not yet. The only error is running out of memory.
    #[cold]
    #[inline(never)]
    fn grow(&mut self, number: usize) -> Result<(), AllocError>
        requires above { self.old.count ≤ number }
        requires number { number < 2 ^ 32 }
        ensures width { self.new.width ≡ self.old.width }
        ensures count { OnOk result (number < self.new.count) }
        ensures same { (n q : ℕ) → cut_entry self.new n q ≡ cut_entry self.old n q }
    {
        self.entries.resize((number + 1) * self.width, 0)?;
        self.count = number + 1;
        Ok(())
    }

    /// Raises each entry of the row of this number to the cut's, if that is greater; rows are added as far as it takes. The only
    /// error is running out of memory.
    #[inline(always)]
    pub(crate) fn join_in(&mut self, number: usize, cut: &[u32]) -> Result<(), AllocError>
        requires number { number < 2 ^ 32 }
        requires cut { length cut.now ≤ self.old.width }
        ensures width { self.new.width ≡ self.old.width }
        ensures joined { OnOk result
            (CutEntriesJoinedAt (cut_entry self.old) (cut_entry self.new) number (slice_index cut.now)) }
    {
        if self.count <= number {
            self.grow(number)?;
        }
        self.join(number, cut);
        Ok(())
    }

    /// Lets go of the first row, if there is one: each other one has the number before its own now.
    pub(crate) fn let_go_of_first(&mut self)
        ensures width { self.new.width ≡ self.old.width }
        ensures rows { (n q : ℕ) → cut_entry self.new n q ≡ cut_entry self.old (n + 1) q }
    {
        if self.count > 0 {
            self.entries.drain(..self.width);
            self.count -= 1;
        }
    }
}
