//! What came of all processors of a run.
ghost use Rattle.std.specs.Prelude.{◌≡◌, ◌≢◌, ◌⊎◌, IfErr, IfNone, IfOk, IfSome, Ok, map};
ghost use Rattle.conformance.specs.declared.cause.Cause.TheVariants as cause;
ghost use Rattle.lrc_run.specs.Prelude.{is_failed_outcome_stuck, IsFaultOfFailedOutcome, IsFirstFailedOutcome, NoOutcomeFailed, NoOutcomeFailedSo};

use conformance::{Cause, RunFault};
use std::alloc::{AllocError, Global};

/// Whether the processor only waited too long.
fn is_stuck_run_fault(cause: Cause) -> bool
    ensures { result ≡ is_failed_outcome_stuck cause }
{
    matches!(cause, Cause::Stuck)
}

/// The fault of the least processor of those that are stuck, or of those that failed and aren't.
fn first_run_fault<X>(outcomes: &[Result<X, Cause>], stuck: bool) -> Option<RunFault>
    ensures some { IfSome result (λ fault. IsFirstFailedOutcome outcomes.now stuck fault) }
    ensures none { IfNone result (NoOutcomeFailedSo outcomes.now stuck) }
{
    for processor in 0..outcomes.len() {
        if let Err(cause) = &outcomes[processor] {
            if is_stuck_run_fault(*cause) == stuck {
                let cause = *cause;
                return Some(RunFault { processor, cause });
            }
        }
    }
    None
}

/// The fault of a run: that of the least processor whose cause isn't Stuck, and if there is none, that of
/// the least with Stuck; None if none failed.
fn run_fault_of<X>(outcomes: &[Result<X, Cause>]) -> Option<RunFault>
    ensures some { IfSome result (λ fault. IsFaultOfFailedOutcome outcomes.now fault) }
    ensures none { IfNone result (NoOutcomeFailed outcomes.now) }
{
    match first_run_fault(outcomes, false) {
        Some(fault) => Some(fault),
        None => first_run_fault(outcomes, true),
    }
}

/// What they all came to, if none failed.
fn all_without_run_fault<X: Drop>(
    alloc: Global,
    outcomes: Vec<Result<X, Cause>>,
) -> Result<Vec<X>, AllocError>
    requires { NoOutcomeFailed outcomes.items }
    ensures { IfOk result (λ all. map Ok all.items ≡ outcomes.items) }
{
    let mut all = Vec::with_capacity(alloc, outcomes.len())?;
    for outcome in outcomes {
        let Ok(x) = outcome else {
            unreachable!("none failed")
        };
        all.push(x)?;
    }
    Ok(all)
}

/// What all processors came to, by what came of them in the order of their numbers. An error is the fault of
/// the least processor whose cause isn't Stuck, and if there is none, of the least with Stuck; or
/// [`NoMemory`](book::Refused::NoMemory) with processor 0, if none failed.
pub(crate) fn all_or_run_fault<X: Drop>(
    alloc: Global,
    outcomes: Vec<Result<X, Cause>>,
) -> Result<Vec<X>, RunFault>
    ensures ok { IfOk result (λ all. map Ok all.items ≡ outcomes.items) }
    ensures err { IfErr result (λ fault. IsFaultOfFailedOutcome outcomes.items fault
        ⊎ (NoOutcomeFailed outcomes.items × (fault.cause ≢ cause.Stuck))) }
{
    if let Some(fault) = run_fault_of(outcomes.as_slice()) {
        return Err(fault);
    }
    match all_without_run_fault(alloc, outcomes) {
        Ok(all) => Ok(all),
        Err(error) => Err(RunFault {
            processor: 0,
            cause: Cause::from(error),
        }),
    }
}
