//! `example_bank`: what a lock keeps, told in docs/EMBEDDING.md.
//!
//! A bank has two accounts, and a word that counts the coins paid in; one lock guards all three. Each of four processors pays
//! a coin into the first account, and moves one to the second, again and again. At the end it looks whether the accounts come
//! to what was paid in. The program prints the accounts.
//!
//! **What is proved**, by `run`: the accounts' sum is what all paid in, 4 × 250, modulo 2^32; and each processor found the bank
//! balanced, while others went on. Besides, what `seats::run_guarded` promises.
//!
//! **What is only tested**: that it answers.
#![tactic(auto)]

ghost use Rattle.std.specs.Prelude.{IfOk};
ghost use Rattle.example_bank.specs.Prelude.{HasBanked, IsBankRun};

use anyhow::Result;
use seats::{Guard, GuardedRun, Layout, ProcessorFault, Program, Seat, SeatFault, Sitting};
use std::alloc::Global;
use std::sync::Wait;
use std::thread::Threads;

/// Processors.
const PROCESSORS: usize = 4;
/// How many coins each pays in.
const ROUNDS: usize = 250;
/// The lock that guards all words.
const LOCK: usize = 0;
/// The first account's address.
const FIRST: usize = 0;
/// The second account's address.
const SECOND: usize = 1;
/// The address of how many coins were paid in.
const PAID: usize = 2;
/// Words.
const WORDS: usize = 3;
/// One coin less, modulo 2^32.
const ONE_LESS: u32 = u32::MAX;

/// What each processor's thread does.
struct Bank;

impl Program for Bank {
    /// Whether the bank balanced when it looked.
    type Answer = bool;

    // It has paid in 250 coins; and supposing that the others keep the bank balanced, too, it found it so.
    ghost did = { HasBanked };

    fn work<S: Sitting>(&self, seat: &mut Seat<'_, S>) -> Result<bool, SeatFault> {
        for round in 0..ROUNDS {
            // A coin into the first account, and then one from there to the second.
            seat.add_two(LOCK, (FIRST, 1), (PAID, 1))?;
            seat.add_two(LOCK, (FIRST, ONE_LESS), (SECOND, 1))?;
        }
        let balanced = seat.balances(LOCK, &[FIRST, SECOND], &[PAID])?;
        Ok(balanced)
    }
}

/// Runs the bank with four processors on threads of their own.
fn run<R: Threads + Wait + Sync>(rt: &R, alloc: Global) -> Result<GuardedRun<bool>, ProcessorFault>
    ensures { IfOk result (λ r. IsBankRun r.memory.items r.answers.items r.journal) }
{
    // Only who holds the lock may access the words.
    let mut layout = Layout::new(alloc, WORDS, 0, 1)?;
    layout.put(0, 0, WORDS, Guard::Under(LOCK));
    // One page, one lock, no flags.
    let ran = seats::run_guarded(rt, alloc, PROCESSORS, 1, WORDS, 1, 0, &layout, &Bank)?;
    Ok(ran)
}

fn main(rt: HostRuntime) -> Result<()> {
    let ran = run(&rt, rt.alloc())?;
    if let [first, second, _paid] = ran.memory.as_slice() {
        println!(rt; "accounts of {first} and {second}")?;
    }
    Ok(())
}
