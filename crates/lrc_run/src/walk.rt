//! A processor's way through its section.
ghost use Rattle.std.specs.Prelude.{◌≡◌, IfErr, IfOk, OnOk, false};
ghost use Rattle.cluster.specs.Prelude.{IsSameProcessorOfCall};
ghost use Rattle.conformance.specs.declared.cause.Cause.TheVariants as cause;
ghost use Rattle.lrc_run.specs.Prelude.{HasGivenUpInstruction, HasGivenUpWalk, HasLookedAgain, HasRunCallsOfInstruction, HasRunCallsOfWalk, IsRunCallOfTake};
ghost use Rattle.lrc_run.specs.Prelude.{IsToldNoneComes};

mod walk_access;
mod walk_instruction;

pub(crate) use self::walk_access::load;
pub(crate) use self::walk_instruction::{begin_walk_instruction, end};
use crate::course::Course;
use crate::gate::Gate;
use cluster::{BookTurn, Cluster, Processor, Waited};
use conformance::Cause;
use lrc_script::script::Instruction;
use std::sync::Wait;

/// Does the section's instructions in order, each after its gate, and then passes the closing barrier, which
/// has no gate. What the processor waits for is taken as soon as it has come.
///
/// [`Gate`](Cause::Gate) if the gate stops it, [`Stuck`](Cause::Stuck) after `tries` answers in a row that
/// what it waits for hasn't come, or as soon as that can't come any more. Else [`Refused`](Cause::Refused) with a
/// call's refusal.
pub(crate) fn walk<T: BookTurn, R: Wait, G: Gate>(
    rt: &R,
    cluster: &Cluster<T>,
    processor: &mut Processor<T>,
    course: &Course<'_, G>,
    section: &[Instruction],
) -> Result<(), Cause>
    requires own { processor.old.lock ≡ cluster.now.lock }
    ensures same { IsSameProcessorOfCall processor.old processor.new }
    ensures ok { OnOk result (HasRunCallsOfWalk processor.old processor.new section.now) }
    ensures stuck { IfErr result (λ why. why ≡ cause.Stuck
        → HasGivenUpWalk course.now.tries processor.old processor.new section.now) }
{
    for (index, instruction) in section.iter().enumerate() {
        course.gate.pass(processor.number(), index + 1)?;
        match perform(rt, cluster, processor, *instruction, course.tries) {
            Ok(()) => {}
            Err(cause) => return Err(cause),
        }
    }
    perform(rt, cluster, processor, Instruction::Barrier, course.tries)
}

/// Does the instruction to its end. What it waits for is looked for `tries` times at most; between two looks the thread
/// sleeps until that may have come.
fn perform<T: BookTurn, R: Wait>(
    rt: &R,
    cluster: &Cluster<T>,
    processor: &mut Processor<T>,
    instruction: Instruction,
    tries: u64,
) -> Result<(), Cause>
    requires own { processor.old.lock ≡ cluster.now.lock }
    ensures same { IsSameProcessorOfCall processor.old processor.new }
    ensures ok { OnOk result (HasRunCallsOfInstruction processor.old processor.new instruction) }
    ensures stuck { IfErr result (λ why. why ≡ cause.Stuck
        → HasGivenUpInstruction tries processor.old processor.new instruction) }
{
    if begin_walk_instruction(rt, cluster, processor, instruction)? {
        return Ok(());
    }
    if end(rt, cluster, processor)? {
        return Ok(());
    }
    for looks in 1..tries {
        match look_again(rt, cluster, processor) {
            Ok(taken) => {
                if taken {
                    return Ok(());
                }
            }
            Err(cause) => return Err(cause),
        }
    }
    Err(Cause::Stuck)
}

/// Waits until what the processor awaits may have come, and looks for it: whether it took it. [`Stuck`](Cause::Stuck) if
/// that can't come any more, and else refused as the wait and the take are.
fn look_again<T: BookTurn, R: Wait>(
    rt: &R,
    cluster: &Cluster<T>,
    processor: &mut Processor<T>,
) -> Result<bool, Cause>
    requires own { processor.old.lock ≡ cluster.now.lock }
    ensures same { IsSameProcessorOfCall processor.old processor.new }
    ensures ok { IfOk result (λ taken. IsRunCallOfTake processor.old processor.new taken) }
    ensures looked { IfOk result (λ taken. taken ≡ false → HasLookedAgain processor.old processor.new) }
    ensures stuck { IfErr result (λ why. why ≡ cause.Stuck → IsToldNoneComes processor.old processor.new) }
{
    match cluster.wait(rt, processor)? {
        Waited::MayHaveCome => Ok(end(rt, cluster, processor)?),
        Waited::Stuck => Err(Cause::Stuck),
        Waited::Deserted => Err(Cause::Stuck),
    }
}
