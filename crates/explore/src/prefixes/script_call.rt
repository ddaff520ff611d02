//! What a script says of each call of a processor.
ghost use Rattle.std.specs.Prelude.{◌≡◌, ◌++◌, OnOk, IfOk, option_to_list};
ghost use Rattle.explore.specs.Prefixes.Prelude.{script_calls_of_one, script_calls_of_section, script_call_loads, script_calls_of_all, AreScriptCallRows};
ghost use Rattle.explore.specs.Prefixes.Prelude.{script_calls_shown_by};
ghost use Rattle.lrc_script.specs.Prelude.{plan_of};

use journal::Kind;
use lrc_script::script::{Instruction, Script};
use std::alloc::{AllocError, Global};

/// What a script says of one call of a processor.
#[derive(Clone, Copy)]
pub enum ScriptCall {
    /// It is this call; of a load with any reply.
    Call(Kind),
    /// It stores at this address the reply before it and this addend, modulo 2^32.
    Adds(usize, u32),
}

/// The steps of an instruction, of which it has two at most.
fn script_call_pair(instruction: Instruction) -> (Option<ScriptCall>, Option<ScriptCall>)
    ensures { option_to_list result.0 ++ option_to_list result.1 ≡ script_calls_of_one instruction }
{
    match instruction {
        Instruction::Load(address) => (Some(ScriptCall::Call(Kind::Load(address, 0))), None),
        Instruction::Store(address, value) => {
            (Some(ScriptCall::Call(Kind::Store(address, value))), None)
        }
        Instruction::Add(address, value) => (
            Some(ScriptCall::Call(Kind::Load(address, 0))),
            Some(ScriptCall::Adds(address, value)),
        ),
        Instruction::Acquire(lock) => (
            Some(ScriptCall::Call(Kind::Ask(lock))),
            Some(ScriptCall::Call(Kind::Acquire(lock))),
        ),
        Instruction::Release(lock) => (Some(ScriptCall::Call(Kind::Release(lock))), None),
        Instruction::Barrier => (
            Some(ScriptCall::Call(Kind::Arrive)),
            Some(ScriptCall::Call(Kind::Depart)),
        ),
        Instruction::Set(flag) => (Some(ScriptCall::Call(Kind::Set(flag))), None),
        Instruction::Await(flag) => (
            Some(ScriptCall::Call(Kind::Watch(flag))),
            Some(ScriptCall::Call(Kind::Await(flag))),
        ),
        Instruction::Cut => (None, None),
    }
}

/// Puts the step at the end, if there is one.
fn push_some_script_call(
    steps: &mut Vec<ScriptCall>,
    step: Option<ScriptCall>,
) -> Result<(), AllocError>
    ensures { OnOk result (steps.new.items ≡ steps.old.items ++ option_to_list step) }
{
    if let Some(step) = step {
        steps.push(step)?;
    }
    Ok(())
}

/// Puts the steps of an instruction at the end.
fn push_script_calls_of(
    steps: &mut Vec<ScriptCall>,
    instruction: Instruction,
) -> Result<(), AllocError>
    ensures { OnOk result (steps.new.items ≡ steps.old.items ++ script_calls_of_one instruction) }
{
    let (first, second) = script_call_pair(instruction);
    push_some_script_call(steps, first)?;
    push_some_script_call(steps, second)
}

/// The steps of these instructions.
fn script_call_own_steps(
    alloc: Global,
    section: &[Instruction],
) -> Result<Vec<ScriptCall>, AllocError>
    ensures { IfOk result (λ v. v.items ≡ script_calls_of_all section.now) }
{
    let mut steps = Vec::new(alloc);
    for instruction in section {
        push_script_calls_of(&mut steps, *instruction)?;
    }
    Ok(steps)
}

/// Puts a load of each of these addresses at the end.
fn push_script_call_loads(steps: &mut Vec<ScriptCall>, shown: &[usize]) -> Result<(), AllocError>
    ensures { OnOk result (steps.new.items ≡ steps.old.items ++ script_call_loads shown.now) }
{
    for address in shown {
        steps.push(ScriptCall::Call(Kind::Load(*address, 0)))?;
    }
    Ok(())
}

/// All that a processor calls which has this section, and shows these addresses.
fn script_calls_of_section(
    alloc: Global,
    section: &[Instruction],
    shown: &[usize],
) -> Result<Vec<ScriptCall>, AllocError>
    ensures { IfOk result (λ v. v.items ≡ script_calls_of_section section.now shown.now) }
{
    let mut steps = script_call_own_steps(alloc, section)?;
    push_script_calls_of(&mut steps, Instruction::Barrier)?;
    push_script_call_loads(&mut steps, shown)?;
    Ok(steps)
}

/// What the processor shows at the end.
fn script_calls_shown_by(script: &Script, processor: usize) -> &[usize]
    ensures { result.now ≡ script_calls_shown_by (plan_of script.now) processor }
{
    if processor == 0 { &script.shown } else { &[] }
}

/// Of each processor of a script, all that it calls. The only error is running out of memory.
pub fn script_calls_of_all(
    alloc: Global,
    script: &Script,
) -> Result<Vec<Vec<ScriptCall>>, AllocError>
    ensures { IfOk result (λ v. AreScriptCallRows (plan_of script.now) v.items) }
{
    let mut all = Vec::new(alloc);
    for (processor, section) in script.sections.iter().enumerate() {
        let steps = script_calls_of_section(
            alloc,
            section,
            script_calls_shown_by(script, processor),
        )?;
        all.push(steps)?;
    }
    Ok(all)
}
