//! `example_counter`: threads that count under a lock, told in docs/EMBEDDING.md. `tools/new` makes a program of your own
//! of it.
//!
//! Each of four processors adds one to a shared word, again and again. At the end the program prints the word.
//!
//! **What is proved**: the word is `PROCESSORS` × `ROUNDS`, modulo 2^32 (`count`). A processor says how much it has added to the word
//! (`did`), and `Seat::add` says of itself how much that is; so the proof is a loop's invariant and a line for the end.
//! Besides, what `seats::run_guarded` promises: no two accesses race, since each processor keeps to the layout and no word
//! of it is open to all.
//!
//! **What is only tested**: that it answers.
#![tactic(auto)]

ghost use Rattle.std.specs.Prelude.{◌≡◌, ◌*◌, ◌%◌, ◌^◌, IfOk};
ghost use Rattle.seats.specs.Prelude.{AddsUpTo};

use anyhow::Result;
use seats::{Guard, Layout, ProcessorFault, Program, Seat, SeatFault, Sitting};
use std::alloc::Global;
use std::sync::Wait;
use std::thread::Threads;

/// Processors.
const PROCESSORS: usize = 4;
/// How often each adds one.
const ROUNDS: usize = 250;
/// The lock that guards the word.
const LOCK: usize = 0;
/// The word's address.
const COUNT: usize = 0;

/// What each processor's thread does.
struct Counter;

impl Program for Counter {
    ghost use Rattle.example_counter.specs.declared.TheConstants.{COUNT, LOCK, ROUNDS};

    type Answer = ();

    // To the word, under its lock, it has added one so often.
    ghost did = { λ processor deeds answer. AddsUpTo LOCK COUNT ROUNDS deeds };

    fn work<S: Sitting>(&self, seat: &mut Seat<'_, S>) -> Result<(), SeatFault> {
        for round in 0..ROUNDS {
            seat.add(LOCK, COUNT, 1)?;
        }
        Ok(())
    }
}

/// Counts by a thread for each processor, and answers the word at the end.
fn count<R: Threads + Wait + Sync>(rt: &R, alloc: Global) -> Result<u32, ProcessorFault>
    ensures { IfOk result (λ count. count % 2 ^ 32 ≡ (PROCESSORS * ROUNDS) % 2 ^ 32) }
{
    // Only who holds the lock may access the word.
    let mut layout = Layout::new(alloc, 1, 0, 1)?;
    layout.put(0, COUNT, COUNT + 1, Guard::Under(LOCK));
    // One page of one word, one lock, no flags.
    let ran = seats::run_guarded(rt, alloc, PROCESSORS, 1, 1, 1, 0, &layout, &Counter)?;
    Ok(ran.memory[COUNT])
}

fn main(rt: HostRuntime) -> Result<()> {
    let count = count(&rt, rt.alloc())?;
    println!(rt; "counted {count} of {}", PROCESSORS * ROUNDS)?;
    Ok(())
}
