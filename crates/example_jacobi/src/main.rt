//! `example_jacobi`: a plate that four processors cool, told in docs/EMBEDDING.md.
//!
//! The plate is hot at its upper border. A sweep makes each word inside the mean of the four round it, by Jacobi's method, and
//! behind each all meet at the barrier. The program prints the plate at the end.
//!
//! **What is proved**, by `run`: the plate that it answers is the start after ten sweeps of a pure function (`swept`). **What
//! is only tested**: that it answers.
#![tactic(auto)]

ghost use Rattle.std.specs.Prelude.{◌≡◌, IfOk};
ghost use Rattle.seats.specs.Prelude.{HasMadeRounds, stencil_after, stencil_rounds};
ghost use Rattle.example_jacobi.specs.Prelude.{is_border, plate};

use anyhow::Result;
use seats::{Grids, ProcessorFault, Program, Seat, SeatFault, Sitting, Stencil};
use std::alloc::Global;
use std::sync::Wait;
use std::thread::Threads;

const PROCESSORS: usize = 4;
/// Words of a row, which is a page.
const COLUMNS: usize = 8;
/// Words of the plate, in 14 rows.
const CELLS: usize = 112;
/// The plate before and after a sweep. Each processor makes three rows and a half.
const GRIDS: Grids = Grids {
    cells: CELLS,
    share: 28,
};

/// What each processor's thread does.
struct Plate;

impl Program for Plate {
    type Answer = ();

    // It has made its block in eleven rounds: the start, and ten sweeps.
    ghost did = { λ processor deeds answer. HasMadeRounds (stencil_rounds plate) processor 11 deeds };

    fn work<S: Sitting>(&self, seat: &mut Seat<'_, S>) -> Result<(), SeatFault> {
        for round in 0..11 {
            GRIDS.make(seat, round, self)?;
            seat.barrier()?;
        }
        Ok(())
    }
}

impl Stencil for Plate {
    ghost steps = { plate };

    fn first(&self, cell: usize) -> u32 {
        if cell < COLUMNS { 1_000_000 } else { 0 }
    }

    fn next<S: Sitting>(
        &self,
        seat: &mut Seat<'_, S>,
        round: usize,
        cell: usize,
    ) -> Result<u32, SeatFault> {
        if is_border(cell) {
            return GRIDS.load(seat, round, cell);
        }
        let above = u64::from(GRIDS.load(seat, round, cell - COLUMNS)?);
        let below = u64::from(GRIDS.load(seat, round, cell + COLUMNS)?);
        let left = u64::from(GRIDS.load(seat, round, cell - 1)?);
        let right = u64::from(GRIDS.load(seat, round, cell + 1)?);
        Ok(((above + below + left + right) / 4) as u32)
    }
}

/// Whether the cell is at the border.
fn is_border(cell: usize) -> bool
    ensures { result ≡ is_border cell }
{
    let column = cell % COLUMNS;
    cell < COLUMNS || CELLS - COLUMNS <= cell || column == 0 || column == COLUMNS - 1
}

/// Cools the plate with four processors on threads of their own.
fn run<R: Threads + Wait + Sync>(rt: &R, alloc: Global) -> Result<Vec<u32>, ProcessorFault>
    ensures { IfOk result (λ words. words.items ≡ stencil_after plate 10) }
{
    let layout = GRIDS.layout(alloc, PROCESSORS)?;
    // A page for each row of both grids, no locks, no flags.
    let rows = 2 * CELLS / COLUMNS;
    let mut ran = seats::run_guarded(rt, alloc, PROCESSORS, rows, COLUMNS, 0, 0, &layout, &Plate)?;
    // The tenth sweep has made the first grid.
    ran.memory.truncate(CELLS);
    Ok(ran.memory)
}

fn main(rt: HostRuntime) -> Result<()> {
    let plate = run(&rt, rt.alloc())?;
    println!(rt; "{plate:?}")?;
    Ok(())
}
