//! Why the program ends without a report.
ghost use Rattle.std.specs.Prelude.{◌≡◌, ◌≢◌};
ghost use Rattle.lrc_script.specs.declared.fault.ScriptFault.TheVariants.{NoMemory};
ghost use Rattle.lrc_program.specs.Prelude.{IsProgramExitStatusOfScript, program_exit_status_of};
ghost use Rattle.lrc_program.specs.declared.fault.ProgramFault.TheVariants as program;

use crate::hints::hint::hint;
use book::Refused;
use conformance::{Cause, Misfit, RunFault, ScheduleFault};
use lrc_report::render::OutFault;
use lrc_script::fault::ScriptFault;
use std::alloc::{AllocError, Global};
use std::io;
use std::io::ErrorKind;
use thiserror::Error;

/// Why the program ends without a report. The text of a fault is what the program says of it on standard error, in one
/// line after `lrc: `.
#[derive(Clone, Copy, Debug, Error)]
pub enum ProgramFault {
    /// The words can't be read, for this reason.
    #[error("cannot read the words: {0}")]
    Words(io::Error),
    /// The script's file or standard input can't be read, for this reason.
    #[error("file cannot be read")]
    Unreadable(io::Error),
    /// The script has a fault, in this line.
    #[error("line {0}: {1}")]
    Script(usize, ScriptFault),
    /// The schedule that the words give doesn't fit the script at this turn, counted from 1.
    #[error("schedule: turn {0}: {1}")]
    Schedule(usize, Misfit),
    /// A processor went no further.
    #[error("{0}")]
    Run(RunFault),
    /// A write failed.
    #[error("output failed")]
    Output,
    /// A growth was refused.
    #[error("out of memory")]
    NoMemory,
}

impl ProgramFault {
    /// What standard error gets: a line with the fault's text. If the script can't be read, a second one says which file it
    /// is and the system's reason. The file is named as Rust writes a string, so that this is one line whatever the name
    /// has.
    pub fn line(self, alloc: Global, file: Option<&str>) -> Result<String, AllocError> {
        match (self, file) {
            (ProgramFault::Unreadable(reason), Some(file)) => format!(in alloc;
                "lrc: {self}\n  {file:?}: {reason}\n"
            ),
            (ProgramFault::Unreadable(reason), None) => format!(in alloc;
                "lrc: {self}\n  standard input: {reason}\n"
            ),
            _ => format!(in alloc; "lrc: {self}\n"),
        }
    }

    /// The same of a script that has these bytes. If the fault is its own, lines follow that say where it is, show the line,
    /// and say what may stand there and what the likely cause is.
    pub fn lines(
        self,
        alloc: Global,
        file: Option<&str>,
        script: &[u8],
    ) -> Result<String, AllocError> {
        let mut lines = self.line(alloc, file)?;
        if let ProgramFault::Script(line, fault) = self {
            let hint = hint(alloc, file, script, line, fault)?;
            lines.push_str(&hint)?;
        }
        Ok(lines)
    }

    /// The exit status: 5 for words or a script that can't be read and for a schedule that doesn't fit, 2 for a script that is refused, 3 for a run
    /// without progress, else 4.
    pub fn status(self) -> u8
        ensures { result ≡ program_exit_status_of self }
    {
        match self {
            ProgramFault::Words(_) | ProgramFault::Unreadable(_) | ProgramFault::Schedule(..) => 5,
            ProgramFault::Script(..) => 2,
            ProgramFault::Run(
                RunFault {
                    cause: Cause::Stuck,
                    ..
                },
            ) => 3,
            ProgramFault::Run(_) | ProgramFault::Output | ProgramFault::NoMemory => 4,
        }
    }
}

impl From<io::Error> for ProgramFault {
    ghost from_gives = { λ _ fault. IsProgramExitStatusOfScript fault → ⊥ };

    fn from(error: io::Error) -> ProgramFault {
        if error.kind() == ErrorKind::OutOfMemory {
            ProgramFault::NoMemory
        } else {
            ProgramFault::Unreadable(error)
        }
    }
}

impl From<AllocError> for ProgramFault {
    ghost from_gives = { λ _ fault. fault ≡ program.NoMemory };

    fn from(_error: AllocError) -> ProgramFault {
        ProgramFault::NoMemory
    }
}

impl From<(usize, ScriptFault)> for ProgramFault {
    ghost from_gives = { λ given fault. IsProgramExitStatusOfScript fault → given.1 ≢ NoMemory };

    fn from((line, fault): (usize, ScriptFault)) -> ProgramFault {
        match fault {
            ScriptFault::NoMemory => ProgramFault::NoMemory,
            _ => ProgramFault::Script(line, fault),
        }
    }
}

impl From<RunFault> for ProgramFault {
    ghost from_gives = { λ _ fault. IsProgramExitStatusOfScript fault → ⊥ };

    fn from(fault: RunFault) -> ProgramFault {
        match fault.cause {
            Cause::Refused(Refused::NoMemory) => ProgramFault::NoMemory,
            _ => ProgramFault::Run(fault),
        }
    }
}

impl From<ScheduleFault> for ProgramFault {
    ghost from_gives = { λ _ fault. IsProgramExitStatusOfScript fault → ⊥ };

    fn from(fault: ScheduleFault) -> ProgramFault {
        match fault {
            ScheduleFault::Run(fault) => ProgramFault::from(fault),
            ScheduleFault::Misfit(turn, misfit) => ProgramFault::Schedule(turn, misfit),
        }
    }
}

impl From<OutFault> for ProgramFault {
    ghost from_gives = { λ _ fault. fault ≡ program.Output };

    fn from(_fault: OutFault) -> ProgramFault {
        ProgramFault::Output
    }
}
