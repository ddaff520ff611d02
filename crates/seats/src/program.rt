//! What a thread does on its seat.
ghost use Rattle.std.specs.Prelude.{◌≡◌, ℕ, List, IfOk};
ghost use Rattle.journal.specs.declared.event.Kind.{Kind};
ghost use Rattle.cluster.specs.Prelude.{HasCoverage};
ghost use Rattle.seats.specs.Prelude.{HasWorkedSitting, IsCoverAllowed, IsSitting, new_sitting_processor, seat_deeds};

use crate::fault::SeatFault;
use crate::layout::Layout;
use crate::seat::Seat;
use crate::sitting::{PlacedSitting, Placing, Sitting};
use cluster::{BookLock, Cluster, Processor};
use std::marker::Brand;
use std::sync::Wait;

/// What each processor's thread does. Its work is generic over the seat, so it gives back the seat that it was lent.
pub trait Program: Sync {
    /// What a thread answers.
    type Answer: Send + Drop;

    /// What the number of a processor, what it did, and its answer are to one another.
    ghost did: { ℕ → List Kind → Self.Answer → Type 0 };

    /// Does a processor's part, from its first call on.
    fn work<S: Sitting>(&self, seat: &mut Seat<'_, S>) -> Result<Self::Answer, SeatFault>
        requires { seat.old ≡ new_sitting_processor S.at }
        ensures { IfOk result (λ x. did S.at.number (seat_deeds seat.new) x) };
}

/// Lets the program work on the seat of this processor, which has made no call yet, under the layout, and gives the processor
/// back with the answer. Whoever waits for a processor whose work has ended is told.
pub fn sit<P: Program, R: Wait>(
    rt: &R,
    cluster: &Cluster<BookLock>,
    processor: Processor<BookLock>,
    layout: &Layout,
    program: &P,
) -> Result<(Processor<BookLock>, P::Answer), SeatFault>
    requires new { processor ≡ new_sitting_processor (record { cluster = cluster.now; number = processor.number; layout = layout.now }) }
    requires covers { HasCoverage processor }
    requires allowed { IsCoverAllowed processor }
    ensures { IfOk result (λ r. HasWorkedSitting P.did
        (record { cluster = cluster.now; number = processor.number; layout = layout.now }) r.0 r.1) }
{
    let number = processor.number();
    let worked = sit_program_on_seat::<Brand, P, R>(rt, cluster, processor, layout, program);
    cluster.end(number);
    worked
}

/// The same on the seat that `J` names.
fn sit_program_on_seat<J: Placing, P: Program, R: Wait>(
    rt: &R,
    cluster: &Cluster<BookLock>,
    processor: Processor<BookLock>,
    layout: &Layout,
    program: &P,
) -> Result<(Processor<BookLock>, P::Answer), SeatFault>
    requires at { J.at ≡ record { cluster = cluster.now; number = processor.number; layout = layout.now } }
    requires new { processor ≡ new_sitting_processor J.at }
    requires covers { HasCoverage processor }
    requires allowed { IsCoverAllowed processor }
    ensures { IfOk result (λ r. HasWorkedSitting P.did J.at r.0 r.1) }
{
    let handle = PlacedSitting::<J, R>::by(rt);
    work(&handle, cluster, processor, layout, program)
}

/// The same with the seat's own handle.
fn work<S: Sitting, P: Program>(
    rt: &S,
    cluster: &Cluster<BookLock>,
    processor: Processor<BookLock>,
    layout: &Layout,
    program: &P,
) -> Result<(Processor<BookLock>, P::Answer), SeatFault>
    requires sits { IsSitting S.at cluster.now processor }
    requires new { processor ≡ new_sitting_processor S.at }
    requires layout { layout.now ≡ S.at.layout }
    ensures { IfOk result (λ r. HasWorkedSitting P.did S.at r.0 r.1) }
{
    let mut seat = Seat::new(rt, cluster, processor, layout);
    let answer = program.work(&mut seat)?;
    Ok((seat.vacate(), answer))
}
