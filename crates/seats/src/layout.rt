//! Layouts: who may access which words in which phase.
ghost use Rattle.std.specs.Prelude.{◌≡◌, ◌≢◌, ◌+◌, ◌<◌, ◌∷◌, [], ℕ, IfOk, IfNone, IfSome, Some, length, max, replicate, slice_get};
ghost use Rattle.seats.specs.Prelude.{IsFirstOpenInTables, IsPutInTable, TablesOpenNothing, table_guard, table_guard_put, table_range_has, table_next};
ghost use Rattle.seats.specs.declared.guard.Guard.TheVariants.{Of, Open};

use crate::guard::Guard;
use std::alloc::{AllocError, Global};
use std::marker::Model;

/// Who may access which words in which phase: tables with a [`Guard`] for each address, one table for each phase in
/// turn. After the last table comes the first of the round again.
pub struct Layout {
    tables: Vec<Vec<Guard>>,
    round: usize,
}

impl Model for Layout {
    ghost use Rattle.std.specs.Prelude.{◌<◌, length, map};
    ghost use Rattle.std.specs.Vec.{vec_items};
    ghost use Rattle.seats.specs.Tables.{GuardTables};

    ghost Value = { GuardTables };

    ghost view = { λ l. record { tables = map vec_items l.tables.items; round = l.round } };

    ghost invariant = { λ l. l.round < length l.tables.items };
}

impl Drop for Layout {
    fn drop(self) {
        let Layout {
            tables: _tables,
            round: _,
        } = self;
    }
}

impl Layout {
    /// A layout for this many addresses, each of which processor 0 alone may access: `before` tables for the first phases,
    /// and then as many as a round has, at least one, which come again and again. The only error is running out of
    /// memory.
    pub fn new(
        alloc: Global,
        addresses: usize,
        before: usize,
        round: usize,
    ) -> Result<Layout, AllocError>
        ensures { IfOk result (λ l. l ≡ record {
          tables = replicate (before + max round 1) (replicate addresses (Of 0));
          round = before;
        }) }
    {
        let count = before.checked_add(round.max(1)).ok_or(AllocError)?;
        let mut tables = Vec::with_capacity(alloc, count)?;
        for _ in 0..count {
            tables.push(vec![in alloc; Guard::Of(0); addresses]?)?;
        }
        Ok(Layout {
            tables,
            round: before,
        })
    }

    /// A layout that lets all access each of this many addresses in each phase. The only error is running out of memory.
    pub fn open(alloc: Global, addresses: usize) -> Result<Layout, AllocError>
        ensures { IfOk result (λ l. l ≡ record { tables = replicate addresses Open ∷ []; round = 0 }) }
    {
        let mut tables = Vec::with_capacity(alloc, 1)?;
        tables.push(vec![in alloc; Guard::Open; addresses]?)?;
        Ok(Layout { tables, round: 0 })
    }

    /// Gives the addresses from `from` up to before `to` this guard in the table. It does nothing past the end of either.
    pub fn put(&mut self, table: usize, from: usize, to: usize, guard: Guard)
        ensures { IsPutInTable self.old table from to guard self.new }
    {
        if table < self.tables.len() {
            put_in(&mut self.tables[table], from, to, guard);
        }
    }

    /// The guard of the address in the table: None past the end of either.
    pub fn guard(&self, table: usize, address: usize) -> Option<Guard>
        ensures { result ≡ table_guard self.now table address }
    {
        let table = self.tables.get(table)?;
        table.get(address).copied()
    }

    /// The table of the phase that follows one with this table.
    pub fn next(&self, table: usize) -> usize
        ensures { result ≡ table_next self.now table }
    {
        if table < self.tables.len() - 1 {
            table + 1
        } else {
            self.round
        }
    }

    /// The first address that is open to all in the first table that has one: None if no table has.
    pub fn first_open(&self) -> Option<usize>
        ensures first { IfSome result (IsFirstOpenInTables self.now) }
        ensures none { IfNone result (TablesOpenNothing self.now) }
    {
        for table in 0..self.tables.len() {
            match first_open_in(self.tables[table].as_slice()) {
                Some(address) => return Some(address),
                None => (),
            }
        }
        None
    }
}

/// The first address of the table that is open to all.
fn first_open_in(table: &[Guard]) -> Option<usize>
    ensures found { IfSome result (λ a. slice_get table.now a ≡ Some Open) }
    ensures first { IfSome result (λ a. (b : ℕ) → b < a → slice_get table.now b ≢ Some Open) }
    ensures none { IfNone result ((a : ℕ) → slice_get table.now a ≢ Some Open) }
{
    for address in 0..table.len() {
        if table[address] == Guard::Open {
            return Some(address);
        }
    }
    None
}

/// Gives the addresses from `from` up to before `to` this guard.
fn put_in(table: &mut Vec<Guard>, from: usize, to: usize, guard: Guard)
    ensures long { length table.new.items ≡ length table.old.items }
    ensures each { (a : ℕ) → slice_get table.new.items a
        ≡ table_guard_put (table_range_has from to a) guard (slice_get table.old.items a) }
{
    for address in from..to.min(table.len()) {
        table[address] = guard;
    }
}
