//! A gate that each instruction of a script passes before it is done.
ghost use Rattle.std.specs.Prelude.{◌≡◌};

use conformance::Cause;

/// The gate's answer that a processor is to go no further.
#[derive(Clone, Copy)]
pub struct Stopped;

/// Is asked before each instruction of a section, and may stop its processor there.
pub trait Gate {
    /// Lets `processor` go on to its instruction number `instruction`, counted from 1 in its section.
    fn pass(&self, processor: usize, instruction: usize) -> Result<(), Stopped>;
}

/// The gate that never stops.
#[derive(Clone, Copy)]
pub struct Open;

impl Gate for Open {
    fn pass(&self, _processor: usize, _instruction: usize) -> Result<(), Stopped> {
        Ok(())
    }
}

impl From<Stopped> for Cause {
    ghost use Rattle.conformance.specs.declared.cause.Cause.TheVariants as cause;

    ghost from_gives = { λ _ r. r ≡ cause.Gate };

    fn from(_stopped: Stopped) -> Cause {
        Cause::Gate
    }
}
