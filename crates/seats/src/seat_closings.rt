//! Calls that close the interval, and wait for what they begin to wait for.
ghost use Rattle.std.specs.Prelude.{◌≡◌, ◌≢◌, IfErr, OnErr, OnOk, Err, None, Some};
ghost use Rattle.book.specs.declared.refused.Refused.{Refused as ARefusal};
ghost use Rattle.book.specs.declared.refused.Refused.TheVariants.{NotYet};
ghost use Rattle.journal.specs.Prelude.{closing_kind};
ghost use Rattle.cluster.specs.Prelude.{HasCoverage, processor_refusal_of_closing};
ghost use Rattle.seats.specs.Prelude.{HasDone, IsSeatCallTaken, IsLeftUndone, IsSeatCallUndone, SeatCallWaitsStill, seat_call_and_answer};
ghost use Rattle.seats.specs.Prelude.{IsSeatCallFault, IsSeatCallWaitFault, IsSeatCallWaitTold, processor_refusal_or_spent};
ghost use Rattle.seats.specs.declared.fault.SeatFault.TheVariants as fault;

use crate::fault::SeatFault;
use cluster::{BookLock, Cluster, Processor, Refused, Waited};
use journal::Closing;
use std::sync::Wait;

/// Makes the call, and waits until what it begins to wait for has come.
///
/// Refused at once as the call is, with nothing done. Else it may fail as there is no more of what it needs, or as nothing
/// can come any more: then nothing was done, or the call alone was made and the processor waits still.
pub(crate) fn pass<R: Wait>(
    rt: &R,
    cluster: &Cluster<BookLock>,
    processor: &mut Processor<BookLock>,
    closing: Closing,
) -> Result<(), SeatFault>
    requires own { processor.old.lock ≡ cluster.now.lock }
    ensures ok { OnOk result (HasDone processor.old processor.new (seat_call_and_answer (closing_kind closing))) }
    ensures err { OnErr result (IsLeftUndone processor.old processor.new (closing_kind closing)) }
    ensures outside { (e : ARefusal)
        → processor_refusal_or_spent (processor_refusal_of_closing processor.old (closing_kind closing)) processor.old ≡ Some e
        → (result ≡ Err (fault.Refused e)) × (processor.new ≡ processor.old) }
    ensures fault { IfErr result (IsSeatCallFault processor.old processor.new (closing_kind closing)) }
{
    match cluster.close(rt, processor, closing) {
        Ok(()) => finish_seat_closing(rt, cluster, processor),
        Err(refused) => Err(SeatFault::Refused(refused)),
    }
}

/// Takes what the processor waits for, if it does, as soon as it has come.
fn finish_seat_closing<R: Wait>(
    rt: &R,
    cluster: &Cluster<BookLock>,
    processor: &mut Processor<BookLock>,
) -> Result<(), SeatFault>
    requires own { processor.old.lock ≡ cluster.now.lock }
    requires covers { HasCoverage processor.old }
    ensures ok { OnOk result (IsSeatCallTaken processor.old processor.new) }
    ensures err { OnErr result (SeatCallWaitsStill processor.old processor.new) }
    ensures fault { IfErr result (IsSeatCallWaitFault processor.new) }
{
    if processor.waiting() {
        take(rt, cluster, processor)
    } else {
        Ok(())
    }
}

/// Takes what the processor waits for as soon as it has come. Until then its thread sleeps.
fn take<R: Wait>(
    rt: &R,
    cluster: &Cluster<BookLock>,
    processor: &mut Processor<BookLock>,
) -> Result<(), SeatFault>
    requires own { processor.old.lock ≡ cluster.now.lock }
    requires covers { HasCoverage processor.old }
    requires waits { processor.old.awaits ≢ None }
    ensures ok { OnOk result (IsSeatCallTaken processor.old processor.new) }
    ensures err { OnErr result (IsSeatCallUndone processor.old processor.new) }
    ensures fault { IfErr result (IsSeatCallWaitFault processor.new) }
{
    for _ in rt.forever() {
        match cluster.take(rt, processor) {
            Ok(()) => return Ok(()),
            Err(refused) => {
                came_too_early(refused)?;
                rest(rt, cluster, processor)?;
            }
        }
    }
    unreachable!()
}

/// Whether a take was refused only as it came too early; else that it was.
fn came_too_early(refused: Refused) -> Result<(), Refused>
    ensures { IfErr result (λ e. (e ≡ refused) × (e ≢ NotYet)) }
{
    match refused {
        Refused::NotYet => Ok(()),
        other => Err(other),
    }
}

/// Sleeps until what the processor waits for may have come.
fn rest<R: Wait>(
    rt: &R,
    cluster: &Cluster<BookLock>,
    processor: &mut Processor<BookLock>,
) -> Result<(), SeatFault>
    requires own { processor.old.lock ≡ cluster.now.lock }
    ensures undone { IsSeatCallUndone processor.old processor.new }
    ensures fault { processor.old.awaits ≢ None → IfErr result (IsSeatCallWaitFault processor.new) }
{
    seat_closing_told(cluster.wait(rt, processor))
}

/// What a wait came to: whether there is something to look for.
fn seat_closing_told(waited: Result<Waited, Refused>) -> Result<(), SeatFault>
    ensures { IfErr result (IsSeatCallWaitTold waited) }
{
    match waited? {
        Waited::MayHaveCome => Ok(()),
        Waited::Stuck => Err(SeatFault::Stuck),
        Waited::Deserted => Err(SeatFault::Deserted),
    }
}
