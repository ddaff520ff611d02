//! Why the schedules of a text weren't looked at.
ghost use Rattle.std.specs.Prelude.{◌≡◌};
ghost use Rattle.c_library.specs.declared.unexplored.Unexplored.TheVariants.{NoMemory};
ghost use Rattle.c_library.specs.Prelude.{given_text_fault_number, given_text_fault_told};

use lrc_script::fault::ScriptFault;
use std::alloc::AllocError;

/// Why the schedules of a text weren't looked at.
#[derive(Clone, Copy)]
pub enum Unexplored {
    /// The text is no lawful script's: this line of it, counted from 1, has this fault.
    NoScript(usize, ScriptFault),
    /// A growth was refused.
    NoMemory,
}

impl From<AllocError> for Unexplored {
    ghost from_gives = { λ _ fault. fault ≡ NoMemory };

    fn from(_error: AllocError) -> Unexplored {
        Unexplored::NoMemory
    }
}

/// The first line of a text that has a fault.
#[repr(C)]
#[derive(Clone, Copy)]
pub struct ToldScriptFault {
    /// Its number, from 1.
    pub line: u64,
    /// What is wrong with it: the fault's place among those of `ScriptFault`, from 1.
    pub kind: u64,
}

/// The number of a fault.
fn unexplored_script_fault_number(fault: ScriptFault) -> u64
    ensures { result ≡ given_text_fault_number fault }
{
    match fault {
        ScriptFault::Truncated => 1,
        ScriptFault::BadLine => 2,
        ScriptFault::BadNumber => 3,
        ScriptFault::BadSize => 4,
        ScriptFault::OutOfRange => 5,
        ScriptFault::BadLock => 6,
        ScriptFault::BadFlag => 7,
        ScriptFault::AlreadyHeld => 8,
        ScriptFault::NotHeld => 9,
        ScriptFault::TooLong => 10,
        ScriptFault::Uneven => 11,
        ScriptFault::NoMemory => 12,
    }
}

/// The fault of a line.
pub fn unexplored_script_fault(line: usize, fault: ScriptFault) -> ToldScriptFault
    ensures { result ≡ given_text_fault_told line fault }
{
    ToldScriptFault {
        line: line as u64,
        kind: unexplored_script_fault_number(fault),
    }
}
