//! Why a seat's call fails.
ghost use Rattle.std.specs.Prelude.{◌≡◌, ◌++◌, ◌∷◌, [], List, Result, length};
ghost use Rattle.seats.specs.declared.fault.SeatFault.{SeatFault as AFault};
ghost use Rattle.book.specs.declared.refused.Refused.TheVariants.{NoMemory};
ghost use Rattle.seats.specs.ToldFaults.{IsToldFault, is_vain_wait, told_fault_then};
ghost use Rattle.seats.specs.declared.fault.SeatFault.TheVariants as fault;

use cluster::Refused;
use std::alloc::AllocError;
use thiserror::Error;

/// Why a seat's call fails.
#[derive(Clone, Copy, Debug, PartialEq, Eq, Error)]
pub enum SeatFault {
    /// The cluster refused a call, and a seat can't help: a number is out of range, a lock is held or isn't, or there is no
    /// more memory, no room in the journal or no entry into the book.
    #[error("{0}")]
    Refused(Refused),
    /// The layout doesn't let the processor access this address in its phase, with the locks that it holds.
    #[error("the layout doesn't allow this access of address {0}")]
    NotAllowed(usize),
    /// The layout leaves this address open to all. Only [`run_guarded`](crate::run_guarded) answers this.
    #[error("the layout leaves address {0} open to all")]
    Open(usize),
    /// Each processor waits, and what it waits for has come for none.
    #[error("all processors wait for one another")]
    Stuck,
    /// Each other processor has ended, or waits for what hasn't come.
    #[error("nobody is left who could end the wait")]
    Deserted,
    /// The processor's thread couldn't be started. Only [`run`](crate::run) answers this.
    #[error("no thread could be started")]
    NoThread,
}

impl SeatFault {
    /// Whether it is that a wait was in vain: then the reason is mostly another processor's fault.
    pub fn is_of_waiting(self) -> bool
        ensures { result ≡ is_vain_wait self }
    {
        matches!(self, SeatFault::Stuck | SeatFault::Deserted)
    }
}

/// The fault of one processor.
#[derive(Clone, Copy, Debug, PartialEq, Eq, Error)]
#[error("processor {processor}: {fault}")]
pub struct ProcessorFault {
    /// Its number; 0 if the fault is of no processor alone, as refused memory before any thread was started.
    pub processor: usize,
    /// What it is.
    pub fault: SeatFault,
}

/// The fault to tell of processors that came to these ends, by rising number: that of the least that faulted otherwise than by
/// waiting in vain; if there is none, of the least that waited in vain. None if all came to their ends.
pub fn told_fault<X>(ends: &[Result<X, SeatFault>]) -> Option<ProcessorFault>
    ensures { IsToldFault ends.now result }
{
    let mut told = None;
    for processor in 0..ends.len() {
        told = told_with(told, processor, &ends[processor]);
    }
    told
}

/// The fault to tell when a further processor came to this end.
fn told_with<X>(
    told: Option<ProcessorFault>,
    processor: usize,
    end: &Result<X, SeatFault>,
) -> Option<ProcessorFault>
    ensures { (ends : List (Result X AFault)) → length ends ≡ processor → IsToldFault ends told
        → IsToldFault (ends ++ end.now ∷ []) result }
{
    match end {
        Ok(_) => told,
        Err(fault) => Some(told_of_two(
            told,
            ProcessorFault {
                processor,
                fault: *fault,
            },
        )),
    }
}

/// Which of two faults is told: the earlier one, unless that alone is of waiting.
fn told_of_two(earlier: Option<ProcessorFault>, later: ProcessorFault) -> ProcessorFault
    ensures { result ≡ told_fault_then earlier later }
{
    match earlier {
        Some(first) if !first.fault.is_of_waiting() || later.fault.is_of_waiting() => first,
        _ => later,
    }
}

impl From<Refused> for SeatFault {
    ghost from_gives = { λ e f. f ≡ fault.Refused e };

    fn from(refused: Refused) -> SeatFault {
        SeatFault::Refused(refused)
    }
}

impl From<AllocError> for SeatFault {
    ghost from_gives = { λ _ f. f ≡ fault.Refused NoMemory };

    fn from(error: AllocError) -> SeatFault {
        SeatFault::Refused(Refused::from(error))
    }
}

/// A fault of no processor alone.
impl From<Refused> for ProcessorFault {
    ghost from_gives = { λ e f. f ≡ record { processor = 0; fault = fault.Refused e } };

    fn from(refused: Refused) -> ProcessorFault {
        ProcessorFault {
            processor: 0,
            fault: SeatFault::Refused(refused),
        }
    }
}

impl From<AllocError> for ProcessorFault {
    ghost from_gives = { λ _ f. f ≡ record { processor = 0; fault = fault.Refused NoMemory } };

    fn from(error: AllocError) -> ProcessorFault {
        ProcessorFault::from(Refused::from(error))
    }
}
