//! All schedules of a script are looked at.
ghost use Rattle.std.specs.Prelude.{◌≡◌, ◌≢◌, IfErr, IfOk};
ghost use Rattle.lrc_script.specs.Prelude.{plan_of};
ghost use Rattle.c_library.specs.Prelude.{IsCallFaultCode, IsGivenTextTold, IsGivenTextCallFault, IsGivenTextFaultTold, IsGivenTextOfScript, IsGivenTextUnexplored, call_fault_code};

use crate::call_fault::CallFault;
use crate::told_exploration::{ToldExploration, told_exploration};
use crate::unexplored::{ToldScriptFault, Unexplored, unexplored_script_fault};
use explore::{Detail, Silent, explore};
use lrc_script::fault::ScriptFault;
use lrc_script::script::{Script, parse};
use std::alloc::Global;

/// The script that has these bytes as its text.
fn script_of_given_text(alloc: Global, bytes: &[u8]) -> Result<Script, Unexplored>
    ensures found { IfOk result (λ script. IsGivenTextOfScript bytes.now (plan_of script)) }
    ensures refused { IfErr result (IsGivenTextUnexplored bytes.now) }
{
    match parse(alloc, bytes) {
        Ok(script) => Ok(script),
        Err((_, ScriptFault::NoMemory)) => Err(Unexplored::NoMemory),
        Err((line, fault)) => Err(Unexplored::NoScript(line, fault)),
    }
}

/// Looks at the schedules of the script that has these bytes as its text.
fn explore_given_text(
    alloc: Global,
    bytes: &[u8],
    most: usize,
) -> Result<ToldExploration, Unexplored>
    ensures told { IfOk result (IsGivenTextTold bytes.now most) }
    ensures refused { IfErr result (IsGivenTextUnexplored bytes.now) }
{
    let script = script_of_given_text(alloc, bytes)?;
    let found = explore(alloc, &script, Detail::Words, most, &mut Silent)?;
    Ok(told_exploration(&found))
}

/// Looks at all schedules of the script with this text, at `most` states or as many as fit, and writes what was found; answers 0.
/// If the text is no lawful script's, writes the first fault of it to `fault` alone, and answers that code. Else it answers
/// the code of memory, and writes nothing.
#[unsafe(no_mangle)]
pub extern "C" fn cevandle_explore_nonnull(
    alloc: Global,
    script: &[u8],
    most: usize,
    told: &mut ToldExploration,
    fault: &mut ToldScriptFault,
) -> u32
    ensures told { result ≡ 0 → IsGivenTextTold script.now most told.new }
    ensures faulty { result ≡ call_fault_code CallFault.BadScript → IsGivenTextFaultTold script.now fault.new }
    ensures refused { result ≢ 0 → IsCallFaultCode (IsGivenTextCallFault script.now) result }
    ensures unwritten { result ≢ 0 → told.new ≡ told.old }
    ensures fault_unwritten { result ≢ call_fault_code CallFault.BadScript → fault.new ≡ fault.old }
{
    match explore_given_text(alloc, script, most) {
        Ok(found) => {
            *told = found;
            0
        }
        Err(Unexplored::NoScript(line, why)) => {
            *fault = unexplored_script_fault(line, why);
            CallFault::BadScript.code()
        }
        Err(Unexplored::NoMemory) => CallFault::NoMemory.code(),
    }
}
