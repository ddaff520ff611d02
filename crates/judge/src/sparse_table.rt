//! Tables of rows, of which few may have a value.
ghost use Rattle.std.specs.Prelude.{◌≡◌, ◌≢◌, ℕ, ◌+◌, ◌*◌, ◌<◌, ◌≤◌, suc, None, IfOk, MatchOption, OnOk, length, slice_index, vec_len};
ghost use Rattle.judge.specs.Prelude.{IsSparse, IsSparseFor, IsSparseRowFrom, IsSparseRowOf, IsSparseRowWith, IsSparseWith, most_sparse_values, sparse_at, sparse_chunk_rows, sparse_mark, sparse_room, sparse_row};

use std::alloc::{AllocError, Global};

/// How many rows' marks stand together.
const CHUNK: usize = 1024;

/// A row that was full has room for twice as many items at least.
const FEW: usize = 4;

/// Rows, numbered from 0, and a value for each of some of them. It takes memory for the values, four bytes at most for each row
/// of a chunk that has one, and 24 bytes a chunk: a chunk is 1,024 rows in a row.
#[derive(Drop)]
pub(crate) struct SparseTable<T> {
    /// By chunks of rows: one more than where the row's value stands, and 0 or nothing where it has none.
    pub(crate) marks: Vec<Vec<u32>>,
    /// The values, in the order in which their rows got one.
    pub(crate) kept: Vec<T>,
}

/// So many chunks without a mark. The only error is running out of memory.
fn sparse_table_without_marks(alloc: Global, chunks: usize) -> Result<Vec<Vec<u32>>, AllocError>
    ensures long { IfOk result (λ v. vec_len v ≡ chunks) }
    ensures none { IfOk result (λ v. (r : ℕ) → sparse_mark v.items r ≡ 0) }
{
    let mut marks = Vec::with_capacity(alloc, chunks)?;
    for _ in 0..chunks {
        marks.push(Vec::new(alloc))?;
    }
    Ok(marks)
}

/// The mark of the row.
fn sparse_mark_of(marks: &[Vec<u32>], row: usize) -> u32
    ensures { result ≡ sparse_mark marks.now row }
{
    let number = row / CHUNK;
    if number >= marks.len() {
        return 0;
    }
    let chunk = &marks[number];
    let place = row % CHUNK;
    if place < chunk.len() { chunk[place] } else { 0 }
}

/// Lengthens the chunk by zeros, so that it has the place. The only error is running out of memory.
fn lengthen_sparse_chunk(chunk: &mut Vec<u32>, place: usize) -> Result<(), AllocError>
    requires { place < sparse_chunk_rows }
    ensures long { OnOk result (place < vec_len chunk.new) }
    ensures same { (i : ℕ) → slice_index chunk.new.items i ≡ slice_index chunk.old.items i }
{
    if chunk.len() <= place {
        chunk.resize(place + 1, 0)?;
    }
    Ok(())
}

/// Marks the row. The only error is running out of memory.
fn mark_in_sparse_table(marks: &mut Vec<Vec<u32>>, row: usize, value: u32) -> Result<(), AllocError>
    requires { row < vec_len marks.old * sparse_chunk_rows }
    ensures long { vec_len marks.new ≡ vec_len marks.old }
    ensures marked { OnOk result (sparse_mark marks.new.items row ≡ value) }
    ensures others { OnOk result ((r : ℕ) → r ≢ row → sparse_mark marks.new.items r ≡ sparse_mark marks.old.items r) }
{
    let chunk = &mut marks[row / CHUNK];
    lengthen_sparse_chunk(chunk, row % CHUNK)?;
    chunk[row % CHUNK] = value;
    Ok(())
}

impl<T> SparseTable<T> {
    /// So many rows without a value. The only error is running out of memory.
    pub(crate) fn new(alloc: Global, rows: usize) -> Result<SparseTable<T>, AllocError>
        ensures sparse { IfOk result (IsSparseFor rows 0) }
        ensures none { IfOk result (λ t. (r : ℕ) → sparse_at t r ≡ None) }
    {
        Ok(SparseTable {
            marks: sparse_table_without_marks(alloc, rows / CHUNK + 1)?,
            kept: Vec::new(alloc),
        })
    }

    /// Where the row's value stands.
    pub(crate) fn place(&self, row: usize) -> Option<usize>
        ensures { MatchOption result (sparse_mark self.now.marks.items row ≡ 0)
            (λ k. sparse_mark self.now.marks.items row ≡ suc k) }
    {
        let mark = sparse_mark_of(&self.marks, row);
        if mark == 0 {
            None
        } else {
            Some(mark as usize - 1)
        }
    }
}

impl<T: Drop> SparseTable<T> {
    /// Gives a value to the row, which has none. The only error is running out of memory, after which nothing is said of the
    /// rows.
    pub(crate) fn add(&mut self, row: usize, value: T) -> Result<(), AllocError>
        requires sparse { IsSparse self.old }
        requires room { row < sparse_room self.old }
        requires few { vec_len self.old.kept < most_sparse_values }
        requires none { sparse_mark self.old.marks.items row ≡ 0 }
        ensures room { sparse_room self.new ≡ sparse_room self.old }
        ensures few { vec_len self.new.kept ≤ vec_len self.old.kept + 1 }
        ensures added { OnOk result (IsSparseWith self.old self.new row value) }
    {
        self.kept.push(value)?;
        mark_in_sparse_table(&mut self.marks, row, self.kept.len() as u32)
    }
}

impl<T: Copy + Drop> SparseTable<T> {
    /// The row's value, if it has one.
    pub(crate) fn get(&self, row: usize) -> Option<T>
        requires { IsSparse self.now }
        ensures { result ≡ sparse_at self.now row }
    {
        match self.place(row) {
            Some(place) => Some(self.kept[place]),
            None => None,
        }
    }

    /// Gives the value to the row, in the place of what it had. The only error is running out of memory, after which nothing is
    /// said of the rows.
    pub(crate) fn set(&mut self, row: usize, value: T) -> Result<(), AllocError>
        requires sparse { IsSparse self.old }
        requires room { row < sparse_room self.old }
        requires few { vec_len self.old.kept < most_sparse_values }
        ensures room { sparse_room self.new ≡ sparse_room self.old }
        ensures few { vec_len self.new.kept ≤ vec_len self.old.kept + 1 }
        ensures set { OnOk result (IsSparseWith self.old self.new row value) }
    {
        match self.place(row) {
            Some(place) => {
                self.kept[place] = value;
                Ok(())
            }
            None => self.add(row, value),
        }
    }
}

/// The row's items: none where it has no value.
pub(crate) fn items_of_row<T>(table: &SparseTable<Vec<T>>, row: usize) -> &[T]
    requires { IsSparse table.now }
    ensures { result.now ≡ sparse_row table.now row }
{
    match table.place(row) {
        Some(place) => table.kept[place].as_slice(),
        None => &[],
    }
}

/// Adds the item to the row. The only error is running out of memory, after which nothing is said of the rows.
pub(crate) fn push_in_sparse_table_row<T: Drop>(
    table: &mut SparseTable<Vec<T>>,
    row: usize,
    item: T,
) -> Result<(), AllocError>
    requires sparse { IsSparse table.old }
    requires room { row < sparse_room table.old }
    requires few { vec_len table.old.kept < most_sparse_values }
    ensures room { sparse_room table.new ≡ sparse_room table.old }
    ensures few { vec_len table.new.kept ≤ vec_len table.old.kept + 1 }
    ensures pushed { OnOk result (IsSparseRowWith table.old table.new row item) }
{
    match table.place(row) {
        Some(place) => {
            table.kept[place].push(item)?;
            Ok(())
        }
        None => {
            let mut items = Vec::new(*table.kept.allocator());
            items.push(item)?;
            table.add(row, items)
        }
    }
}

/// Gives the row these items, in the place of what it had. The only error is running out of memory, after which nothing is said of
/// the rows.
pub(crate) fn set_sparse_table_row<T: Copy + Drop>(
    table: &mut SparseTable<Vec<T>>,
    row: usize,
    items: &[T],
) -> Result<(), AllocError>
    requires sparse { IsSparse table.old }
    requires room { row < sparse_room table.old }
    requires few { vec_len table.old.kept < most_sparse_values }
    ensures room { sparse_room table.new ≡ sparse_room table.old }
    ensures few { vec_len table.new.kept ≤ vec_len table.old.kept + 1 }
    ensures set { OnOk result (IsSparseRowOf table.old table.new row items.now) }
{
    match table.place(row) {
        Some(place) => {
            table.kept[place].clear();
            table.kept[place].extend_from_slice(items)?;
            Ok(())
        }
        None => {
            let items = Vec::from_slice(*table.kept.allocator(), items)?;
            table.add(row, items)
        }
    }
}

/// Whether the row has no room for one item more.
pub(crate) fn is_sparse_table_row_full<T>(table: &SparseTable<Vec<T>>, row: usize) -> bool
    requires { IsSparse table.now }
{
    match table.place(row) {
        Some(place) => table.kept[place].len() == table.kept[place].capacity(),
        None => false,
    }
}

/// These items, with room for as many again, and for a few at least. The only error is running out of memory.
fn items_with_room<T: Copy + Drop>(alloc: Global, items: &[T]) -> Result<Vec<T>, AllocError>
    ensures { IfOk result (λ v. v.items ≡ items.now) }
{
    let room = items.len().max(FEW).saturating_mul(2);
    let mut roomy = Vec::with_capacity(alloc, room)?;
    roomy.extend_from_slice(items)?;
    Ok(roomy)
}

/// Lets go of the row's items before this one, and makes room for as many again as are left, and for a few at least. The only
/// error is running out of memory.
pub(crate) fn shorten_sparse_table_row<T: Copy + Drop>(
    table: &mut SparseTable<Vec<T>>,
    row: usize,
    from: usize,
) -> Result<(), AllocError>
    requires sparse { IsSparse table.old }
    requires from { from ≤ length (sparse_row table.old row) }
    ensures room { sparse_room table.new ≡ sparse_room table.old }
    ensures few { vec_len table.new.kept ≡ vec_len table.old.kept }
    ensures shortened { OnOk result (IsSparseRowFrom table.old table.new row from) }
{
    if let Some(place) = table.place(row) {
        let left = &table.kept[place][from..];
        table.kept[place] = items_with_room(*table.kept.allocator(), left)?;
    }
    Ok(())
}

/// Puts these items in the place of what the row has, which is as many at least, and makes room for as many again, and for a few
/// at least. The only error is running out of memory.
pub(crate) fn replace_sparse_table_row<T: Copy + Drop>(
    table: &mut SparseTable<Vec<T>>,
    row: usize,
    items: &[T],
) -> Result<(), AllocError>
    requires sparse { IsSparse table.old }
    requires fewer { length items.now ≤ length (sparse_row table.old row) }
    ensures room { sparse_room table.new ≡ sparse_room table.old }
    ensures few { vec_len table.new.kept ≡ vec_len table.old.kept }
    ensures replaced { OnOk result (IsSparseRowOf table.old table.new row items.now) }
{
    if let Some(place) = table.place(row) {
        table.kept[place] = items_with_room(*table.kept.allocator(), items)?;
    }
    Ok(())
}
