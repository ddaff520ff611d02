//! A caller of searches, and of what writes texts, who knows nothing of them but their contracts.
//!
//! **What is only tested** here: that a search says how many states it has found; that a flush that fails is told, which
//! standard output's never does. What the texts are, and by how many writes they come: `tests/program`.
ghost use Rattle.std.specs.Prelude.{IfOk};
ghost use Rattle.lrc_script.specs.Prelude.{IsLawful, plan_of};

use explore::{Detail, Progress, Silent, explore};
use journal::Journal;
use lrc_explore::ExploreFault;
use lrc_report::Report;
use lrc_report::render::render;
use lrc_sample::sampling::Sampled;
use lrc_sample::text::TextFault;
use lrc_script::script::{Script, parse};
use std::alloc::{AllocError, Global};
use std::io;
use std::io::{ErrorKind, Write};
use std::test::Fail;

/// A script of two states: a store, the closing barrier and a load are one step.
fn script_of(alloc: Global) -> Result<Script, Fail>
    ensures { IfOk result (λ s. IsLawful (plan_of s)) }
{
    match parse(alloc, b"cluster 1 1 1 0\np 0\nstore 0 7\nshow 0\n") {
        Ok(script) => Ok(script),
        Err(_) => Err(Fail::from("no script")),
    }
}

/// Keeps what it was told last.
#[derive(Drop)]
struct Last(usize);

impl Progress for Last {
    fn found(&mut self, states: usize) {
        self.0 = states;
    }
}

/// The search says how many states it has found.
#[test]
fn says_states(rt: HostRuntime) -> Result<(), Fail> {
    let alloc = rt.alloc();
    let script = script_of(alloc)?;
    let mut last = Last(0);
    explore(alloc, &script, Detail::All, 1000, &mut last)?;
    assert_eq!(rt; last.0, 2);
    Ok(())
}

/// A writer that takes all bytes of a write or none, and whose flush succeeds or doesn't.
#[derive(Clone, Copy)]
struct Output {
    takes: bool,
    flushes: bool,
}

impl Output {
    /// Whether a write or the flush fails.
    fn fails(&self) -> bool {
        !self.takes || !self.flushes
    }
}

impl Write for Output {
    fn write(&mut self, bytes: &[u8]) -> io::Result<usize> {
        Ok(if self.takes { bytes.len() } else { 0 })
    }

    fn flush(&mut self) -> io::Result<()> {
        if self.flushes {
            Ok(())
        } else {
            Err(io::Error::from(ErrorKind::StorageFull))
        }
    }
}

/// Whether a failure of this output is told of the text of a search, just where there is one.
fn is_told_of_search(alloc: Global, out: Output) -> Result<bool, Fail> {
    let script = script_of(alloc)?;
    let explored = explore(alloc, &script, Detail::All, 1000, &mut Silent)?;
    let mut out = out;
    Ok(
        match lrc_explore::render(alloc, &script, &explored, &mut out) {
            Ok(()) => !out.fails(),
            Err(fault) => out.fails() && matches!(fault, ExploreFault::Output),
        },
    )
}

/// The same of the text of a sample.
fn is_told_of_sample(alloc: Global, out: Output) -> bool {
    let sampled = Sampled {
        lines: Vec::new(alloc),
    };
    let mut out = out;
    match lrc_sample::text::render(alloc, &sampled, &mut out) {
        Ok(()) => !out.fails(),
        Err(fault) => out.fails() && matches!(fault, TextFault::Output),
    }
}

/// The same of the text of a report.
fn is_told_of_report(alloc: Global, out: Output) -> Result<bool, AllocError> {
    let journal = Journal::new(alloc, 1, 1)?;
    let report = Report {
        shown: Vec::new(alloc),
        racy: false,
        traffic: journal.traffic(),
        journal,
    };
    let mut out = out;
    Ok(render(&report, true, &mut out).is_err() == out.fails())
}

/// Where a write or the flush fails, it is told.
#[test]
fn failures(rt: HostRuntime) -> Result<(), Fail> {
    let alloc = rt.alloc();
    for (takes, flushes) in [(true, true), (false, true), (true, false)] {
        let out = Output { takes, flushes };
        assert!(&rt; is_told_of_search(alloc, out)?);
        assert!(&rt; is_told_of_sample(alloc, out));
        assert!(&rt; is_told_of_report(alloc, out)?);
    }
    Ok(())
}
