//! The program, with runs on a cluster handed in.
ghost use Rattle.std.specs.Prelude.{◌≡◌, ◌≢◌, ◌<◌};
ghost use Rattle.std.specs.Io.KnownBytes.{Keeps};
ghost use Rattle.lrc_program.specs.Prelude.{IsServedWithoutScript, IsServed, IsServedAsAsked};

use conformance::ScriptRunner;
use lrc_options::options::Options;
use lrc_run::OnCluster;
use std::alloc::Global;
use std::io::{Read, Write};
use std::sync::Wait;
use std::thread::Threads;

/// Runs the script of `source` on a cluster, by `run` or `step` as the options say: writes its report to `out`, or one line
/// to `err`, and answers the exit status (docs/SCRIPTS.md has them). The file that the options name isn't opened here.
pub fn program<R: Threads + Wait + Sync, S: Read, W: Write, E: Write>(
    rt: &R,
    alloc: Global,
    options: &Options,
    source: &mut S,
    out: &mut W,
    err: &mut E,
) -> u8
    requires tries { 0 < options.now.tries }
    // The script that was read was run, and the report of that run was written, whole.
    ensures served { result ≡ 0 → IsServed (IsServedAsAsked ⟦<OnCluster as ScriptRunner>⟧.ran ⟦<OnCluster as ScriptRunner>⟧.stepped
        ⟦<OnCluster as ScriptRunner>⟧.followed options.now)
        options.now.journal (S.remaining source.old) (W.contents out.old) (W.contents out.new) }
    // What is refused as a script is none.
    ensures refused { result ≡ 2 → IsServedWithoutScript (S.remaining source.old) }
    // Except at status 4, a report is written whole or not at all.
    ensures early { result ≢ 0 → result ≢ 4 → Keeps (W.contents out.old) (W.contents out.new) }
    // If it was written, no line goes to the error output.
    ensures quiet { result ≡ 0 → Keeps (E.contents err.old) (E.contents err.new) }
{
    lrc_program::program::program(&OnCluster, rt, alloc, options, source, out, err)
}
