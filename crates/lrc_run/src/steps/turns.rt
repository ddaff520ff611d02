//! A processor's turn.
ghost use Rattle.std.specs.Prelude.{◌≡◌, IfOk, false};
ghost use Rattle.cluster.specs.TakingCalls.{IsTakingCallLate};
ghost use Rattle.lrc_run.specs.Prelude.{IsRunCallUnderway, HasOnlySeenRunTurns, RunTurnMakes, script_turn_instruction, script_turn_progress_after};

use crate::walk::{begin_walk_instruction, end};
use book::Refused;
use cluster::{BookTurn, Cluster, Processor};
use conformance::TurnProgress;
use lrc_script::script::Instruction;
use std::sync::Wait;

/// The instruction at this place of the section, or the closing barrier after the last.
fn instruction_at_turn(section: &[Instruction], n: usize) -> Instruction
    ensures { result ≡ script_turn_instruction section.now n }
{
    match section.get(n) {
        Some(instruction) => *instruction,
        None => Instruction::Barrier,
    }
}

/// Where the processor is after its instruction `n` was done, or begun.
fn progress_after_turn(section: &[Instruction], n: usize, done: bool) -> TurnProgress
    ensures { result ≡ script_turn_progress_after section.now n done }
{
    if !done {
        TurnProgress::Waits(n)
    } else if n < section.len() {
        TurnProgress::Next(n + 1)
    } else {
        TurnProgress::Passed
    }
}

/// A turn: does the next instruction, or looks once for what the processor waits for. Answers where it is then,
/// and whether it did more than to look in vain. Refused as its calls are.
pub(crate) fn make_run_turn<T: BookTurn, R: Wait>(
    rt: &R,
    cluster: &Cluster<T>,
    processor: &mut Processor<T>,
    section: &[Instruction],
    progress: TurnProgress,
) -> Result<(TurnProgress, bool), Refused>
    requires own { processor.old.lock ≡ cluster.now.lock }
    ensures turn { IfOk result (λ r. RunTurnMakes section.now processor.old progress processor.new r.0) }
    ensures vain { IfOk result (λ r. r.1 ≡ false → HasOnlySeenRunTurns processor.old processor.new × (r.0 ≡ progress)) }
{
    match progress {
        TurnProgress::Next(n) => {
            let done = go_on_with_turn(rt, cluster, processor, instruction_at_turn(section, n))?;
            Ok((progress_after_turn(section, n, done), true))
        }
        TurnProgress::Waits(n) => {
            let done = end(rt, cluster, processor)?;
            Ok((progress_after_turn(section, n, done), done))
        }
        TurnProgress::Passed => Ok((TurnProgress::Passed, false)),
    }
}

/// Does the instruction, or begins it and looks once for what it waits for: whether it is done.
fn go_on_with_turn<T: BookTurn, R: Wait>(
    rt: &R,
    cluster: &Cluster<T>,
    processor: &mut Processor<T>,
    instruction: Instruction,
) -> Result<bool, Refused>
    requires own { processor.old.lock ≡ cluster.now.lock }
    ensures way { IfOk result (λ done. IsRunCallUnderway processor.old processor.new instruction done) }
    ensures late { IfOk result (λ done. done ≡ false → IsTakingCallLate processor.new) }
{
    if begin_walk_instruction(rt, cluster, processor, instruction)? {
        return Ok(true);
    }
    end(rt, cluster, processor)
}
