//! Works on the script of a file: it is read, or run.
ghost use Rattle.std.specs.Prelude.{IfOk};
ghost use Rattle.lrc_script.specs.Prelude.{IsLawful, plan_of};

use anyhow::{Result, bail};
use lrc_run::{Open, run, step};
use lrc_script::script::{Script, parse};
use std::alloc::Global;
use std::fs;
use std::rt::Files;
use std::sync::Wait;
use std::thread::Threads;

/// How often a thread looks at most for what it waits for.
const TRIES: u64 = 1_000_000_000;

/// What is done to a script.
#[derive(Clone, Copy)]
pub enum OnScript {
    /// It is read from its text.
    Parse,
    /// It is run by turns on one thread.
    Step,
    /// It is run with a thread for each processor.
    Run,
}

/// The script of which these bytes are the text.
fn read_script(alloc: Global, bytes: &[u8]) -> Result<Script>
    ensures { IfOk result (λ s. IsLawful (plan_of s)) }
{
    match parse(alloc, bytes) {
        Ok(script) => Ok(script),
        Err((line, fault)) => bail!("line {line}: {fault}"),
    }
}

/// Does the work once, on a script and its text, and answers how many events the journal of turns has, else how many
/// shown addresses there are.
fn do_once<R: AllocGlobal + Threads + Wait + Sync>(
    rt: &R,
    work: OnScript,
    bytes: &[u8],
    script: &Script,
) -> Result<usize>
    requires { IsLawful (plan_of script.now) }
{
    let alloc = rt.alloc();
    Ok(match work {
        OnScript::Parse => read_script(alloc, bytes)?.shown.len(),
        OnScript::Step => step(rt, alloc, script, None)?.journal.len(),
        OnScript::Run => run(rt, alloc, script, &Open, TRIES)?.shown.len(),
    })
}

/// Does the work on the script of the file so many times, and gives the last answer.
pub fn do_on_script<R: Files + AllocGlobal + Threads + Wait + Sync>(
    rt: &R,
    work: OnScript,
    file: &str,
    times: usize,
) -> Result<u64> {
    let bytes = fs::read(rt, file)?;
    let script = read_script(rt.alloc(), &bytes)?;
    let mut count = 0;
    for _ in 0..times {
        count = do_once(rt, work, &bytes, &script)?;
    }
    Ok(count as u64)
}
