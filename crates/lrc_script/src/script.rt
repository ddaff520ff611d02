//! A script: the sizes of a cluster, what each processor does, and the addresses to show.
ghost use Rattle.std.specs.Prelude.{◌≡◌, ◌≢◌, IfOk, IfErr};
ghost use Rattle.lrc_script.specs.Prelude.{Plan, plan_of, IsLawful, text, IsScriptFault, instruction_address, instruction_lock, instruction_flag};
ghost use Rattle.lrc_script.specs.Prelude.{AreLawfulSizes, IsScriptFrontHeaded, Nothing, ScriptFaultSays, script_cluster_line, script_line_bytes};
ghost use Rattle.lrc_script.specs.declared.fault.ScriptFault.TheVariants.{NoMemory};

use crate::fault::ScriptFault;
use crate::line::split_line;
use crate::read_so_far::ReadSoFar;
use crate::uneven_barriers::uneven_line;
use std::alloc::Global;

/// The bytes of the longest text of a script.
pub const MOST_BYTES: usize = 3_520_418;

/// The most instructions of a section.
pub const MOST_INSTRUCTIONS: usize = 10_000;

/// The most addresses of the `show` line.
pub const MOST_SHOWN: usize = 64;

/// What a processor does at one line of its section. Places are numbered from 0.
#[derive(Clone, Copy, Debug, PartialEq, Eq)]
pub enum Instruction {
    /// Reads the word at an address.
    Load(usize),
    /// Writes a value to the word at an address.
    Store(usize, u32),
    /// Reads the word at an address and writes it back with the value added, modulo 2^32.
    Add(usize, u32),
    /// Asks for a lock and waits for it.
    Acquire(usize),
    /// Gives a lock back.
    Release(usize),
    /// Waits until every processor has come here as often.
    Barrier,
    /// Sets a flag.
    Set(usize),
    /// Waits until a flag is set.
    Await(usize),
    /// Lets go of the events up to the last episode of the barrier that is complete.
    Cut,
}

impl Instruction {
    /// The address that the instruction reads or writes.
    pub fn address(self) -> Option<usize>
        ensures { result ≡ instruction_address self }
    {
        match self {
            Instruction::Load(address)
            | Instruction::Store(address, _)
            | Instruction::Add(address, _) => Some(address),
            _ => None,
        }
    }

    /// The lock that the instruction acquires or releases.
    pub fn lock(self) -> Option<usize>
        ensures { result ≡ instruction_lock self }
    {
        match self {
            Instruction::Acquire(lock) | Instruction::Release(lock) => Some(lock),
            _ => None,
        }
    }

    /// The flag that the instruction sets or awaits.
    pub fn flag(self) -> Option<usize>
        ensures { result ≡ instruction_flag self }
    {
        match self {
            Instruction::Set(flag) | Instruction::Await(flag) => Some(flag),
            _ => None,
        }
    }
}

/// A script for a cluster of `processors` processors that share `pages` pages of `words` words,
/// `locks` locks and `flags` flags. Section k has the instructions of processor k in order. At the end
/// processor 0 loads the addresses of `shown` in order.
#[derive(Debug, PartialEq, Eq, Drop)]
pub struct Script {
    pub processors: usize,
    pub pages: usize,
    pub words: usize,
    pub locks: usize,
    pub flags: usize,
    pub sections: Vec<Vec<Instruction>>,
    pub shown: Vec<usize>,
}

/// The sizes that a `cluster` line gives, which is handed in without its line feed: a script that has no section yet.
///
/// # Errors
///
/// `BadLine`, `BadNumber` and `BadSize` come only if the line gives no sizes that a script may have, and say
/// what is wrong with it. `NoMemory` comes if a growth was refused.
pub fn read_script_sizes(alloc: Global, line: &[u8]) -> Result<Script, ScriptFault>
    // What is read are sizes that a script may have, and the line is theirs.
    ensures found { IfOk result (λ s. IsScriptFrontHeaded (plan_of s)
        × (line.now ≡ script_line_bytes (script_cluster_line (plan_of s)))) }
    // No such sizes are refused, unless memory runs out.
    ensures only { IfErr result (λ e. e ≢ NoMemory → (s : Plan) → AreLawfulSizes s
        → line.now ≢ script_line_bytes (script_cluster_line s)) }
    // The fault says why.
    ensures fault { IfErr result (λ e. e ≢ NoMemory → ScriptFaultSays e Nothing line.now) }
{
    let mut progress = ReadSoFar::Start;
    match progress.after(alloc, line) {
        Ok(()) => {}
        Err(fault) => return Err(fault),
    }
    match progress.headed() {
        Some(script) => Ok(script),
        None => Err(ScriptFault::BadLine),
    }
}

/// The script that has these bytes as its text, or the first line with a fault, counted from 1. On one line
/// the faults are tested in the order of `ScriptFault`. Reading takes time in the order of the bytes.
///
/// # Errors
///
/// Each but `NoMemory` comes only if no lawful script has these bytes as its text, and says what is wrong
/// with its line. `NoMemory` comes if a growth was refused while that line was read.
pub fn parse(alloc: Global, bytes: &[u8]) -> Result<Script, (usize, ScriptFault)>
    // What is read is a lawful script, and the bytes are its text.
    ensures found { IfOk result (λ s. IsLawful (plan_of s) × (bytes.now ≡ text (plan_of s))) }
    // It is the one script with this text.
    ensures again { IfOk result (λ t. (s : Plan) → IsLawful s → bytes.now ≡ text s → plan_of t ≡ s) }
    // Nothing lawful is refused, unless memory runs out.
    ensures only { IfErr result (λ e. e.1 ≢ NoMemory → (s : Plan) → IsLawful s → bytes.now ≢ text s) }
    // The lines before the fault begin a script's text, that line doesn't, and the fault says why. Uneven
    // names the first section that differs from section 0.
    ensures fault { IfErr result (λ e. IsScriptFault bytes.now e.0 e.1) }
{
    let mut progress = ReadSoFar::Start;
    let mut rest = bytes;
    let mut number = 1;
    while let Some((line, after)) = split_line(rest) {
        match progress.after(alloc, line) {
            Ok(()) => {}
            Err(fault) => return Err((number, fault)),
        }
        rest = after;
        number += 1;
    }
    let Some(script) = progress.whole(rest) else {
        return Err((number, ScriptFault::Truncated));
    };
    match uneven_line(&script) {
        Some(line) => Err((line, ScriptFault::Uneven)),
        None => Ok(script),
    }
}
