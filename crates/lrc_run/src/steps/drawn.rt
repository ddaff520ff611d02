//! All processors by turns on one thread, by turns that are drawn.
ghost use Rattle.std.specs.Prelude.{◌≡◌, ◌≢◌, ◌<◌, ◌≤◌, ◌^◌, ◌++◌, ◌∷◌, [], All, IfErr, IfOk, IfSome, List, OnOk, false, length, slice_index_or, true, vec_len, ℕ};
ghost use Rattle.lrc_script.specs.Prelude.{IsLawful, plan_of};
ghost use Rattle.lrc_script.specs.declared.script.Instruction.{Instruction as AnInstruction};
ghost use Rattle.conformance.specs.declared.cause.Cause.TheVariants as cause;
ghost use Rattle.conformance.specs.Prelude.{HasArrivedAtDrawnEnd, IsEndByOrderedTurns, IsRunOfDraws, draws_turns_about, draws_walk, next_drawing, plan_sizes, schedule_orders};
ghost use Rattle.conformance.specs.declared.progress.TurnProgress.{TurnProgress as AProgress};
ghost use Rattle.cluster.specs.Copies.Prelude.{Local};
ghost use Rattle.lrc_run.specs.Prelude.{AreAtRunSteps, AreDrawnOrderProcessors, AreRunTurnsTaken, HasDrawnNoTurn, HasDrawnTurn, HaveArrivedAtRunSteps, HaveWandered, IsClusterEnd};
ghost use Rattle.lrc_run.specs.Prelude.{drawn_order_chosen, drawn_order_tried, lock_choice_width, pace_drawing};
ghost use Rattle.lrc_run.specs.Prelude.{HaveGoneOnAfterWandering, IsRunTurnDeadlockSeen};
ghost use Rattle.conformance.specs.declared.script_runner.LockChoice.TheVariants as lock;
ghost use Rattle.conformance.specs.declared.progress.TurnProgress.TheVariants as progress;

use super::pace::Pace;
use super::{go_round, outside, run_step_at, run_steps_result, run_steps_start};
use book::Refused;
use cluster::{BookLock, BookTurn, Cluster, Processor};
use conformance::{DrawnRun, RunFault, Schedule, TurnProgress};
use lrc_script::script::Script;
use std::alloc::{AllocError, Global};
use std::sync::Wait;

/// Runs the script on one thread by turns that the seed draws, so that processors go at different speeds. This ends when all
/// have arrived at the closing barrier or none gets on. Then rounds by rising number follow. Answers the turns that got on, as a
/// schedule: [`step_by`](crate::step_by) with it makes the same run.
///
/// The fault is a call's refusal, as [`step_as_far`](crate::step_as_far) tells it.
pub fn step_drawn<R: Wait>(
    rt: &R,
    alloc: Global,
    script: &Script,
    seed: u64,
) -> Result<DrawnRun, RunFault>
    requires { IsLawful (plan_of script.now) }
    ensures end { IfOk result (λ run. IsEndByOrderedTurns (plan_of script.now)
        (schedule_orders (plan_of script.now) run.schedule.turns.items) run.ended) }
    ensures draws { IfOk result (λ run. IsRunOfDraws (plan_of script.now) seed run.schedule.turns.items run.ended) }
    ensures cluster { IfOk result (λ run. IsClusterEnd (lock_choice_width lock.Array) (plan_of script.now) run.ended) }
    ensures err { IfErr result (λ fault. fault.cause ≢ cause.Stuck) }
{
    step_drawn_with::<BookLock, R>(rt, alloc, script, seed)
}

/// The same with a lock of the caller's choice round the book.
pub fn step_drawn_with<T: BookTurn + Drop, R: Wait>(
    rt: &R,
    alloc: Global,
    script: &Script,
    seed: u64,
) -> Result<DrawnRun, RunFault>
    requires entries { T.ENTRIES ≤ 2 ^ 40 }
    requires lawful { IsLawful (plan_of script.now) }
    ensures end { IfOk result (λ run. IsEndByOrderedTurns (plan_of script.now)
        (schedule_orders (plan_of script.now) run.schedule.turns.items) run.ended) }
    ensures draws { IfOk result (λ run. IsRunOfDraws (plan_of script.now) seed run.schedule.turns.items run.ended) }
    ensures cluster { IfOk result (λ run. IsClusterEnd T.width (plan_of script.now) run.ended) }
    ensures err { IfErr result (λ fault. fault.cause ≢ cause.Stuck) }
{
    let (cluster, mut processors, mut all) = run_steps_start::<T>(alloc, script)?;
    let (turns, passed) = go_as_drawn(
        rt,
        alloc,
        &cluster,
        &mut processors,
        &mut all,
        script,
        seed,
    )?;
    match run_steps_result(rt, alloc, cluster, processors, &all, script, passed) {
        Ok(ended) => Ok(DrawnRun {
            schedule: Schedule { turns },
            ended,
        }),
        Err(fault) => Err(fault),
    }
}

/// Turns that the seed draws, and then rounds by rising number. Answers the turns that got on, and whether all have passed
/// the closing barrier.
fn go_as_drawn<T: BookTurn, R: Wait>(
    rt: &R,
    alloc: Global,
    cluster: &Cluster<T>,
    processors: &mut Vec<Processor<T>>,
    all: &mut Vec<TurnProgress>,
    script: &Script,
    seed: u64,
) -> Result<(Vec<usize>, bool), RunFault>
    requires lawful { IsLawful (plan_of script.now) }
    requires sizes { cluster.now.sizes ≡ plan_sizes (plan_of script.now) }
    requires way { AreAtRunSteps cluster.now (plan_of script.now).sections processors.old.items
        all.old.items }
    ensures gone { IfOk result (λ r. HaveGoneOnAfterWandering cluster.now (plan_of script.now) seed r.0.items
        processors.old.items processors.new.items all.old.items all.new.items) }
    ensures whole { IfOk result (λ r. r.1 ≡ true → All (λ x. x ≡ progress.Passed) all.new.items) }
    ensures stuck { IfOk result (λ r. r.1 ≡ false → IsRunTurnDeadlockSeen processors.new.items) }
    ensures err { IfErr result (λ fault. fault.cause ≢ cause.Stuck) }
{
    let turns = wander(rt, alloc, cluster, processors, all, script, seed)?;
    match go_round(rt, alloc, cluster, processors, all, script, None) {
        Ok(passed) => Ok((turns, passed)),
        Err(fault) => Err(fault),
    }
}

/// Turns that the seed draws, until all have arrived at the closing barrier or none gets on. Answers those that got on.
fn wander<T: BookTurn, R: Wait>(
    rt: &R,
    alloc: Global,
    cluster: &Cluster<T>,
    processors: &mut Vec<Processor<T>>,
    all: &mut Vec<TurnProgress>,
    script: &Script,
    seed: u64,
) -> Result<Vec<usize>, RunFault>
    requires lawful { IsLawful (plan_of script.now) }
    requires sizes { cluster.now.sizes ≡ plan_sizes (plan_of script.now) }
    requires way { AreAtRunSteps cluster.now (plan_of script.now).sections processors.old.items
        all.old.items }
    ensures way { OnOk result (AreAtRunSteps cluster.now (plan_of script.now).sections processors.new.items
        all.new.items) }
    ensures taken { IfOk result (λ turns. AreRunTurnsTaken (plan_of script.now).sections turns.items
        processors.old.items processors.new.items all.old.items all.new.items) }
    ensures drawn { IfOk result (λ turns. HaveWandered (plan_of script.now) seed turns.items
        processors.old.items processors.new.items all.old.items all.new.items) }
    ensures err { IfErr result (λ fault. fault.cause ≢ cause.Stuck) }
{
    let mut pace = match Pace::new(alloc, processors.len(), turns_of(script), seed) {
        Ok(pace) => pace,
        Err(error) => return Err(outside(Refused::from(error))),
    };
    let mut turns = Vec::new(alloc);
    for _ in rt.forever() {
        let on = go_on(rt, cluster, processors, all, script, &mut pace, &mut turns)?;
        if !on {
            return Ok(turns);
        }
    }
    unreachable!()
}

/// The next turn, if some processor hasn't arrived at the closing barrier and gets on: whether there is one.
fn go_on<T: BookTurn, R: Wait>(
    rt: &R,
    cluster: &Cluster<T>,
    processors: &mut Vec<Processor<T>>,
    all: &mut Vec<TurnProgress>,
    script: &Script,
    pace: &mut Pace,
    turns: &mut Vec<usize>,
) -> Result<bool, RunFault>
    requires lawful { IsLawful (plan_of script.now) }
    requires sizes { cluster.now.sizes ≡ plan_sizes (plan_of script.now) }
    requires way { AreAtRunSteps cluster.now (plan_of script.now).sections processors.old.items
        all.old.items }
    requires some { 0 < pace.old.turns }
    requires below { AreDrawnOrderProcessors cluster.now.sizes.processors pace.old.order.items }
    ensures way { OnOk result (AreAtRunSteps cluster.now (plan_of script.now).sections processors.new.items
        all.new.items) }
    ensures taken { OnOk result ((first : List Local) (start : List AProgress)
        → AreRunTurnsTaken (plan_of script.now).sections turns.old.items first processors.old.items start all.old.items
        → AreRunTurnsTaken (plan_of script.now).sections turns.new.items first processors.new.items start all.new.items) }
    ensures on { IfOk result (λ on. on ≡ true → HasDrawnTurn (plan_of script.now).sections pace.old pace.new
        turns.old.items turns.new.items processors.old.items processors.new.items all.old.items all.new.items) }
    ensures off { IfOk result (λ on. on ≡ false → HasDrawnNoTurn (plan_of script.now).sections pace.old
        turns.old.items turns.new.items processors.old.items processors.new.items all.old.items all.new.items) }
    ensures below { OnOk result (AreDrawnOrderProcessors cluster.now.sizes.processors pace.new.order.items) }
    ensures fixed { OnOk result ((pace.new.turns ≡ pace.old.turns) × (pace.new.walks ≡ pace.old.walks)) }
    ensures err { IfErr result (λ fault. fault.cause ≢ cause.Stuck) }
{
    if have_arrived(script, all.as_slice()) {
        return Ok(false);
    }
    match first_on(rt, cluster, processors, all, script, &pace.order)? {
        Some(place) => {
            note_drawn_step(turns, pace, place)?;
            Ok(true)
        }
        None => Ok(false),
    }
}

/// Notes whose turn it was, by its place in the order, and goes on to the next order.
fn note_drawn_step(turns: &mut Vec<usize>, pace: &mut Pace, place: usize) -> Result<(), RunFault>
    requires place { place < vec_len pace.old.order }
    requires turns { 0 < pace.old.turns }
    ensures turns { OnOk result (turns.new.items ≡ turns.old.items ++ slice_index_or pace.old.order.items place 0 ∷ []) }
    ensures order { OnOk result (pace.new.order.items
        ≡ (next_drawing pace.old.walks pace.old.turns place (pace_drawing pace.old)).order) }
    ensures generator { OnOk result (pace.new.generator
        ≡ (next_drawing pace.old.walks pace.old.turns place (pace_drawing pace.old)).generator) }
    ensures below { OnOk result ((n : ℕ) → AreDrawnOrderProcessors n pace.old.order.items → AreDrawnOrderProcessors n pace.new.order.items) }
    ensures fixed { (pace.new.turns ≡ pace.old.turns) × (pace.new.walks ≡ pace.old.walks) }
    ensures err { IfErr result (λ fault. fault.cause ≢ cause.Stuck) }
{
    let noted = match turns.push(pace.order[place]) {
        Ok(()) => pace.go_on(place),
        Err(error) => Err(AllocError::from(error)),
    };
    match noted {
        Ok(()) => Ok(()),
        Err(error) => Err(outside(Refused::from(error))),
    }
}

/// About how many turns the script takes: one for each instruction, one for the closing barrier, and one more.
fn turns_of(script: &Script) -> usize
    requires { IsLawful (plan_of script.now) }
    ensures { result ≡ draws_turns_about (plan_of script.now).sections }
{
    let mut turns: usize = 1;
    for p in 0..script.sections.len() {
        turns += script.sections[p].len() + 1;
    }
    turns
}

/// Whether each processor has arrived at the closing barrier. How they depart makes no difference to what they show.
fn have_arrived(script: &Script, all: &[TurnProgress]) -> bool
    requires { length all.now ≤ vec_len script.now.sections }
    ensures { result ≡ true → HaveArrivedAtRunSteps (plan_of script.now).sections all.now }
{
    for p in 0..all.len() {
        if !has_arrived(script.sections[p].len(), all[p]) {
            return false;
        }
    }
    true
}

/// Whether a processor with so many instructions has.
fn has_arrived(instructions: usize, progress: TurnProgress) -> bool
    ensures { result ≡ true → (section : List AnInstruction) → length section ≡ instructions → HasArrivedAtDrawnEnd section progress }
{
    match progress {
        TurnProgress::Next(_) => false,
        TurnProgress::Waits(instruction) => instruction >= instructions,
        TurnProgress::Passed => true,
    }
}

/// The first of the order that gets on has its turn: its place; None if none gets on.
fn first_on<T: BookTurn, R: Wait>(
    rt: &R,
    cluster: &Cluster<T>,
    processors: &mut Vec<Processor<T>>,
    all: &mut Vec<TurnProgress>,
    script: &Script,
    order: &[usize],
) -> Result<Option<usize>, RunFault>
    requires lawful { IsLawful (plan_of script.now) }
    requires sizes { cluster.now.sizes ≡ plan_sizes (plan_of script.now) }
    requires way { AreAtRunSteps cluster.now (plan_of script.now).sections processors.old.items
        all.old.items }
    requires below { AreDrawnOrderProcessors cluster.now.sizes.processors order.now }
    ensures way { OnOk result (AreAtRunSteps cluster.now (plan_of script.now).sections processors.new.items
        all.new.items) }
    ensures tried { IfOk result (λ place. AreRunTurnsTaken (plan_of script.now).sections (drawn_order_tried order.now place)
        processors.old.items processors.new.items all.old.items all.new.items) }
    ensures taken { IfOk result (λ place. AreRunTurnsTaken (plan_of script.now).sections (drawn_order_chosen order.now place)
        processors.old.items processors.new.items all.old.items all.new.items) }
    ensures place { IfOk result (λ place. IfSome place (λ k. k < length order.now)) }
    ensures err { IfErr result (λ fault. fault.cause ≢ cause.Stuck) }
{
    for place in 0..order.len() {
        if run_step_at(rt, cluster, processors, all, script, order[place])? {
            return Ok(Some(place));
        }
    }
    Ok(None)
}
