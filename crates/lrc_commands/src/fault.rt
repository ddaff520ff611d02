//! Why a command that studies a script or a trace ends without an answer.
ghost use Rattle.std.specs.Prelude.{◌≡◌, ◌≢◌};
ghost use Rattle.lrc_check.specs.Prelude.{IsFaultFoundInBytes};
ghost use Rattle.lrc_check.specs.Prelude.{IsFaultFoundBeforeBytesWritten as IsBeforeText};
ghost use Rattle.lrc_explain.specs.declared.fault.ExplainFault.TheVariants as explain;
ghost use Rattle.lrc_json.specs.declared.fault.JsonFault.TheVariants as json;
ghost use Rattle.lrc_picture.specs.declared.picture.PictureFault.TheVariants as picture;
ghost use Rattle.lrc_sample.specs.declared.text.TextFault.TheVariants as sample;
ghost use Rattle.lrc_commands.specs.declared.fault.CommandFault.TheVariants as study;
ghost use Rattle.lrc_program.specs.declared.fault.ProgramFault.TheVariants as program;
ghost use Rattle.lrc_commands.specs.Prelude.{IsCommandExitStatusBeforeAnswer, IsCommandExitStatusOfInput, IsCommandExitStatusOf, command_exit_status_of};

use crate::refused_line::RefusedLine;
use crate::trace_hint::trace_fault_lines;
use base::MOST_HELD;
use conformance::{RunFault, ScheduleFault};
use lrc_check::CheckFault;
use lrc_check::traces::fault::TraceFault;
use lrc_explain::ExplainFault;
use lrc_json::JsonFault;
use lrc_picture::picture::PictureFault;
use lrc_program::fault::ProgramFault;
use lrc_program::program::program_says_line;
use lrc_sample::text::TextFault;
use lrc_script::script::MOST_SHOWN;
use std::alloc::{AllocError, Global};
use std::io;
use std::io::Write;

/// The exit status if a run can't go on.
pub(crate) const HALTED: u8 = 3;

/// Why a script doesn't show the word at an address.
#[derive(Clone, Copy)]
pub enum WhyUnshown {
    /// Its last line leaves it out.
    LeftOut,
    /// Its last line leaves it out, and has as many addresses as it may have.
    Full,
    /// The script has only so many addresses, those from 0 on.
    Outside(usize),
}

impl WhyUnshown {
    /// What is said of the address, and what to do. A line that the script may not have isn't advised.
    fn lines(self, alloc: Global, address: usize) -> Result<String, AllocError> {
        match self {
            WhyUnshown::LeftOut => format!(in alloc;
                "lrc: until: address {address} isn't shown\n  add {address} to the last line of the script, show ADDRESS ..\n"
            ),
            WhyUnshown::Full => format!(in alloc;
                "lrc: until: address {address} isn't shown\n  the last line of the script has {MOST_SHOWN} addresses, the most: put {address} in the place of one\n"
            ),
            WhyUnshown::Outside(addresses) => {
                let last = addresses.saturating_sub(1);
                format!(in alloc;
                    "lrc: until: address {address} is outside the script's sizes\n  its addresses are those from 0 to {last}\n"
                )
            }
        }
    }
}

/// Why a command that studies a script or a trace ends without an answer.
#[derive(Clone, Copy)]
pub enum CommandFault {
    /// What keeps a run from its report, too.
    Program(ProgramFault),
    /// The trace has a fault, in this line.
    Trace(usize, TraceFault),
    /// There are more bytes than any trace has.
    Long,
    /// The trace has more events than one that is told with all its events at hand.
    Large,
    /// The word at this address is asked for, and the script doesn't show it, as this says.
    Unshown(usize, WhyUnshown),
    /// A run's journal isn't one of the script's sizes, or isn't there if the run can't go on. That doesn't come of runs on a
    /// cluster.
    Untold,
}

impl CommandFault {
    /// What standard error gets: a line, and behind that of a script with these bytes those that `ProgramFault::lines` adds.
    /// The file is named as `ProgramFault::line` names it.
    fn line(self, alloc: Global, file: Option<&str>, script: &[u8]) -> Result<String, AllocError> {
        match self {
            CommandFault::Program(fault) => fault.lines(alloc, file, script),
            CommandFault::Trace(line, fault) => {
                trace_fault_lines(alloc, file, line, fault, &RefusedLine::new(alloc))
            }
            CommandFault::Long => String::from_str(alloc, "lrc: trace too long\n"),
            CommandFault::Large => format!(in alloc;
                "lrc: trace too large to hold\n  at most {MOST_HELD} events; check takes more\n"
            ),
            CommandFault::Unshown(address, why) => why.lines(alloc, address),
            CommandFault::Untold => String::from_str(alloc, "lrc: no journal of the run\n"),
        }
    }

    /// The exit status: 2 for a trace that is refused. 4 for one that is too long or too large to hold, and for a run without its
    /// journal. 5 for a word that isn't shown. Else that of a run.
    fn status(self) -> u8
        ensures { result ≡ command_exit_status_of self }
    {
        match self {
            CommandFault::Program(fault) => fault.status(),
            CommandFault::Trace(..) => 2,
            CommandFault::Long | CommandFault::Large | CommandFault::Untold => 4,
            CommandFault::Unshown(..) => 5,
        }
    }

    /// The same of a run that is told as far as it goes: that it can't go on is no fault of it, so its journal is
    /// missing.
    pub(crate) fn of_told(self) -> CommandFault
        ensures status { command_exit_status_of result ≢ 3 }
        ensures inputs { IsCommandExitStatusOfInput result → IsCommandExitStatusOfInput self }
        ensures early { IsCommandExitStatusBeforeAnswer result → IsCommandExitStatusBeforeAnswer self }
    {
        if self.status() == HALTED {
            CommandFault::Untold
        } else {
            self
        }
    }

    /// Says on `err` in one write why there is no answer of the script with these bytes, and answers the exit status. If there is no memory for the
    /// line, it says that, with the status of that.
    pub fn say<E: Write>(self, alloc: Global, file: Option<&str>, script: &[u8], err: &mut E) -> u8
        ensures { IsCommandExitStatusOf self result }
    {
        program_says_line(self.line(alloc, file, script), self.status(), err)
    }

    /// The same of a trace, of which this line was refused if the fault is of one.
    pub fn say_of_trace<E: Write>(
        self,
        alloc: Global,
        file: Option<&str>,
        refused: &RefusedLine,
        err: &mut E,
    ) -> u8
        ensures { IsCommandExitStatusOf self result }
    {
        let line = match self {
            CommandFault::Trace(line, fault) => trace_fault_lines(
                alloc, file, line, fault, refused,
            ),
            _ => self.line(alloc, file, &[]),
        };
        program_says_line(line, self.status(), err)
    }
}

impl From<io::Error> for CommandFault {
    ghost from_gives = { λ _ fault. IsCommandExitStatusOfInput fault → ⊥ };

    fn from(error: io::Error) -> CommandFault {
        CommandFault::Program(ProgramFault::from(error))
    }
}

impl From<AllocError> for CommandFault {
    ghost from_gives = { λ _ fault. fault ≡ study.Program program.NoMemory };

    fn from(_error: AllocError) -> CommandFault {
        CommandFault::Program(ProgramFault::NoMemory)
    }
}

impl From<ProgramFault> for CommandFault {
    ghost from_gives = { λ given fault. fault ≡ study.Program given };

    fn from(fault: ProgramFault) -> CommandFault {
        CommandFault::Program(fault)
    }
}

impl From<RunFault> for CommandFault {
    ghost from_gives = { λ _ fault. IsCommandExitStatusOfInput fault → ⊥ };

    fn from(fault: RunFault) -> CommandFault {
        CommandFault::Program(ProgramFault::from(fault))
    }
}

impl From<ScheduleFault> for CommandFault {
    ghost from_gives = { λ _ fault. IsCommandExitStatusOfInput fault → ⊥ };

    fn from(fault: ScheduleFault) -> CommandFault {
        CommandFault::Program(ProgramFault::from(fault))
    }
}

impl From<TextFault> for CommandFault {
    ghost from_gives = { λ given fault. (IsCommandExitStatusOfInput fault → ⊥)
        × (IsCommandExitStatusBeforeAnswer fault → given ≡ sample.NoMemory) };

    fn from(fault: TextFault) -> CommandFault {
        match fault {
            TextFault::Output => CommandFault::Program(ProgramFault::Output),
            TextFault::NoMemory => CommandFault::Program(ProgramFault::NoMemory),
        }
    }
}

impl From<ExplainFault> for CommandFault {
    ghost from_gives = { λ given fault. (IsCommandExitStatusOfInput fault → ⊥)
        × (IsCommandExitStatusBeforeAnswer fault → given ≢ explain.Output) };

    fn from(fault: ExplainFault) -> CommandFault {
        match fault {
            ExplainFault::Output => CommandFault::Program(ProgramFault::Output),
            ExplainFault::NoMemory => CommandFault::Program(ProgramFault::NoMemory),
        }
    }
}

impl From<JsonFault> for CommandFault {
    ghost from_gives = { λ given fault. (IsCommandExitStatusOfInput fault → ⊥)
        × (IsCommandExitStatusBeforeAnswer fault → given ≡ json.NoMemory) };

    fn from(fault: JsonFault) -> CommandFault {
        match fault {
            JsonFault::Output => CommandFault::Program(ProgramFault::Output),
            JsonFault::NoMemory => CommandFault::Program(ProgramFault::NoMemory),
        }
    }
}

impl From<PictureFault> for CommandFault {
    ghost from_gives = { λ given fault. (IsCommandExitStatusOfInput fault → ⊥)
        × (IsCommandExitStatusBeforeAnswer fault → given ≡ picture.NoMemory) };

    fn from(fault: PictureFault) -> CommandFault {
        match fault {
            PictureFault::Output => CommandFault::Program(ProgramFault::Output),
            PictureFault::NoMemory => CommandFault::Program(ProgramFault::NoMemory),
        }
    }
}

impl From<CheckFault> for CommandFault {
    ghost from_gives = { λ given fault. (IsCommandExitStatusOfInput fault → IsFaultFoundInBytes given)
        × (IsCommandExitStatusBeforeAnswer fault → IsBeforeText given) };

    fn from(fault: CheckFault) -> CommandFault {
        match fault {
            CheckFault::Trace(line, fault) => CommandFault::Trace(line, fault),
            CheckFault::Output => CommandFault::Program(ProgramFault::Output),
            CheckFault::NoMemory => CommandFault::Program(ProgramFault::NoMemory),
        }
    }
}
