//! How far a command is, said on standard error if that is a terminal: how many runs of a sample are done, how many
//! states a search has found, or beginnings it has looked at.

use explore::Progress;
use lrc_sample::sampling::SampleProgress;
use std::io::IsTerminal;
use std::time::Instant;

/// For how many seconds nothing is said.
const PAUSE: u64 = 2;

/// Says now and then how far a command is, if standard error is a terminal.
#[derive(Drop)]
pub(crate) struct TerminalProgress<'a> {
    rt: &'a HostRuntime,
    /// When something was said last, or when the command began. None if nothing is said at all.
    said: Option<Instant>,
    /// How many runs a sample has.
    runs: u64,
}

impl<'a> TerminalProgress<'a> {
    /// Begins with a pause. If standard error is no terminal, or there is no clock, it never ends. A sample has so many runs.
    pub(crate) fn new(rt: &'a HostRuntime, runs: u64) -> TerminalProgress<'a> {
        let said = if rt.stderr().is_terminal() {
            Instant::now(rt).ok()
        } else {
            None
        };
        TerminalProgress { rt, said, runs }
    }

    /// Whether the pause is over; then the next one begins.
    fn is_pause_over(&mut self) -> bool {
        let Some(said) = self.said else {
            return false;
        };
        let Ok(now) = Instant::now(self.rt) else {
            return false;
        };
        if now.saturating_duration_since(said).as_secs() < PAUSE {
            return false;
        }
        self.said = Some(now);
        true
    }
}

impl Progress for TerminalProgress<'_> {
    fn found(&mut self, states: usize) {
        if self.is_pause_over() {
            let _ = eprintln!(self.rt; "lrc: {states} states");
        }
    }

    fn looked_at(&mut self, beginnings: usize) {
        if self.is_pause_over() {
            let _ = eprintln!(self.rt; "lrc: {beginnings} beginnings");
        }
    }
}

impl SampleProgress for TerminalProgress<'_> {
    fn ran(&mut self, runs: u64) {
        if self.is_pause_over() {
            let total = self.runs;
            let _ = eprintln!(self.rt; "lrc: {runs} of {total} runs");
        }
    }
}
