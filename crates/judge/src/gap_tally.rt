//! Tallies of what was stored, by intervals.
ghost use Rattle.std.specs.Prelude.{◌≡◌, ℕ, ◌<◌, ◌≤◌, ◌^◌, [], count_by, IfOk, OnOk, nat_lt, vec_len};
ghost use Rattle.base.specs.InOrderOnce.{InOrder};
ghost use Rattle.judge.specs.Prelude.{GapTallyAdds, IsGapTallyFor, is_gap_tally_between, most_sparse_values, gap_tally_mark, gap_tally_numbers};

use crate::sparse_table::{SparseTable, items_of_row, push_in_sparse_table_row};
use std::alloc::{AllocError, Global};

/// Rows of interval numbers. A row has a number once for each mark that it was added for.
#[derive(Drop)]
pub(crate) struct GapTally {
    /// The numbers in order, each as often as there are marks that it was added for.
    pub(crate) rows: SparseTable<Vec<u32>>,
    /// Of each mark, one more than the last number that was added for it; 0 where there is none.
    pub(crate) marks: SparseTable<u32>,
}

/// How many of these numbers, which do not fall, are below the limit, looked for by halving.
fn halve_gap_tally(row: &[u32], limit: u32) -> usize
    requires { InOrder (λ k m. k ≤ m) row.now }
    ensures { result ≡ count_by (λ k. nat_lt k limit) row.now }
{
    row.partition_point(|number| *number < limit)
}

/// How many of these numbers, which do not fall, are below the limit. Mostly all are, so the last is looked at first.
fn below(row: &[u32], limit: u32) -> usize
    requires { InOrder (λ k m. k ≤ m) row.now }
    ensures { result ≡ count_by (λ k. nat_lt k limit) row.now }
{
    let count = row.len();
    if count == 0 {
        return 0;
    }
    if row[count - 1] < limit {
        count
    } else {
        halve_gap_tally(row, limit)
    }
}

impl GapTally {
    /// So many rows and marks, without a number. The only error is running out of memory.
    pub(crate) fn new(alloc: Global, rows: usize, marks: usize) -> Result<GapTally, AllocError>
        ensures room { IfOk result (IsGapTallyFor rows marks) }
        ensures few_rows { IfOk result (λ t. vec_len t.rows.kept ≡ 0) }
        ensures few_marks { IfOk result (λ t. vec_len t.marks.kept ≡ 0) }
        ensures empty { IfOk result (λ t. (r : ℕ) → gap_tally_numbers t r ≡ []) }
        ensures unmarked { IfOk result (λ t. (m : ℕ) → gap_tally_mark t m ≡ 0) }
    {
        Ok(GapTally {
            rows: SparseTable::new(alloc, rows)?,
            marks: SparseTable::new(alloc, marks)?,
        })
    }

    /// Adds the number to the row, unless it was added for the mark. The only error is running out of memory.
    pub(crate) fn add(&mut self, row: usize, mark: usize, number: u32) -> Result<(), AllocError>
        requires tally { (rows : ℕ) × (marks : ℕ) × IsGapTallyFor rows marks self.old × (row < rows) × (mark < marks) }
        requires few_rows { vec_len self.old.rows.kept < most_sparse_values }
        requires few_marks { vec_len self.old.marks.kept < most_sparse_values }
        requires room { number < 2 ^ 22 }
        ensures tally { OnOk result ((rows marks : ℕ) → IsGapTallyFor rows marks self.old → IsGapTallyFor rows marks self.new) }
        ensures adds { OnOk result (GapTallyAdds self.old self.new row mark number) }
    {
        if self.marks.get(mark).unwrap_or(0) <= number {
            push_in_sparse_table_row(&mut self.rows, row, number)?;
            self.marks.set(mark, number + 1)?;
        }
        Ok(())
    }

    /// The row's numbers.
    fn numbers(&self, row: usize) -> &[u32]
        requires { (rows : ℕ) × (marks : ℕ) × IsGapTallyFor rows marks self.now }
        ensures { result.now ≡ gap_tally_numbers self.now row }
    {
        items_of_row(&self.rows, row)
    }

    /// How many of the row's numbers, which do not fall, are from `from` on and below `to`. They are found by halving.
    pub(crate) fn count(&self, row: usize, from: u32, to: u32) -> usize
        requires tally { (rows : ℕ) × (marks : ℕ) × IsGapTallyFor rows marks self.now }
        requires rising { InOrder (λ k m. k ≤ m) (gap_tally_numbers self.now row) }
        ensures { result ≡ count_by (is_gap_tally_between from to) (gap_tally_numbers self.now row) }
    {
        let numbers = self.numbers(row);
        below(numbers, to) - below(numbers, from.min(to))
    }
}
