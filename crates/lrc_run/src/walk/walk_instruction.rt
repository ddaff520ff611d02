//! The instructions of a script. One that waits is begun by one call, and ended by a take that finds what it
//! waits for.
ghost use Rattle.std.specs.Prelude.{◌≡◌, ◌+◌, IfOk, OnOk, [], not};
ghost use Rattle.cluster.specs.Prelude.{IsSameProcessorOfCall};
ghost use Rattle.lrc_run.specs.Prelude.{HasRunCallsOfInstruction, IsRunCallUnderway, IsRunCallOfTake};
ghost use Rattle.lrc_script.specs.declared.script.Instruction.TheVariants as instruction;
ghost use Rattle.lrc_run.specs.WaitingInstructions.{is_waiting_instruction};

use super::walk_access::{add, load, store};
use book::Refused;
use cluster::{BookTurn, Cluster, Processor};
use lrc_script::script::Instruction;
use std::sync::Wait;

/// Does the instruction, or begins it if it waits for something: answers whether it is done. Refused as its calls
/// are.
pub(crate) fn begin_walk_instruction<T: BookTurn, R: Wait>(
    rt: &R,
    cluster: &Cluster<T>,
    processor: &mut Processor<T>,
    instruction: Instruction,
) -> Result<bool, Refused>
    requires own { processor.old.lock ≡ cluster.now.lock }
    ensures same { IsSameProcessorOfCall processor.old processor.new }
    ensures ok { IfOk result (λ done. IsRunCallUnderway processor.old processor.new instruction done) }
{
    call(rt, cluster, processor, instruction)?;
    Ok(!waits(instruction))
}

/// Whether the instruction waits for something.
fn waits(instruction: Instruction) -> bool
    ensures { result ≡ is_waiting_instruction instruction }
{
    matches!(
        instruction,
        Instruction::Acquire(_) | Instruction::Barrier | Instruction::Await(_)
    )
}

/// Makes the calls that do the instruction, or the one that begins it if it waits for something. Refused as its
/// calls are.
fn call<T: BookTurn, R: Wait>(
    rt: &R,
    cluster: &Cluster<T>,
    processor: &mut Processor<T>,
    instruction: Instruction,
) -> Result<(), Refused>
    requires own { processor.old.lock ≡ cluster.now.lock }
    ensures same { IsSameProcessorOfCall processor.old processor.new }
    ensures ok { OnOk result (IsRunCallUnderway processor.old processor.new instruction
        (not (is_waiting_instruction instruction))) }
{
    match instruction {
        Instruction::Load(address) => match load(rt, cluster, processor, address) {
            Ok(_) => Ok(()),
            Err(refused) => Err(refused),
        },
        Instruction::Store(address, value) => store(rt, cluster, processor, address, value),
        Instruction::Add(address, value) => add(rt, cluster, processor, address, value),
        Instruction::Acquire(lock) => cluster.ask(rt, processor, lock),
        Instruction::Release(lock) => cluster.release(rt, processor, lock),
        Instruction::Barrier => cluster.arrive(rt, processor),
        Instruction::Set(flag) => cluster.set(rt, processor, flag),
        Instruction::Await(flag) => cluster.watch(rt, processor, flag),
        Instruction::Cut => cut(rt, cluster, processor),
    }
}

/// Cuts the journal off if it may be: one that has no complete episode of the barrier, or a race before its last
/// one, stays whole. Else refused as the cut is.
fn cut<T: BookTurn, R: Wait>(
    rt: &R,
    cluster: &Cluster<T>,
    processor: &mut Processor<T>,
) -> Result<(), Refused>
    requires own { processor.old.lock ≡ cluster.now.lock }
    ensures same { IsSameProcessorOfCall processor.old processor.new }
    ensures ok { OnOk result (HasRunCallsOfInstruction processor.old processor.new instruction.Cut) }
{
    match cluster.cut(rt, processor) {
        Err(Refused::NoEpisode | Refused::Racy(_, _)) => Ok(()),
        answer => answer,
    }
}

/// Takes what the processor waits for: answers whether it had come. Refused as the take is.
pub(crate) fn end<T: BookTurn, R: Wait>(
    rt: &R,
    cluster: &Cluster<T>,
    processor: &mut Processor<T>,
) -> Result<bool, Refused>
    requires own { processor.old.lock ≡ cluster.now.lock }
    ensures same { IsSameProcessorOfCall processor.old processor.new }
    ensures ok { IfOk result (λ taken. IsRunCallOfTake processor.old processor.new taken) }
    ensures entered { OnOk result (processor.new.entries ≡ processor.old.entries + 1) }
{
    match cluster.take(rt, processor) {
        Ok(()) => Ok(true),
        Err(Refused::NotYet) => Ok(false),
        Err(refused) => Err(refused),
    }
}
