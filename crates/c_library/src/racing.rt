//! The first race of a history.
ghost use Rattle.std.specs.Prelude.{◌≡◌, ◌≢◌, ◌*◌, IfErr, IfOk};
ghost use Rattle.c_library.specs.Prelude.{IsCallFaultCode, IsGivenHistoryFault, IsGivenHistoryRaceTold};

use crate::call_fault::CallFault;
use crate::given::{GivenEvent, GivenSizes};
use crate::given_history::given_history;
use crate::told_verdict::{ToldRace, told_verdict_race};
use journal::first_race_of;
use std::alloc::Global;

/// How many addresses there are.
fn addresses(sizes: GivenSizes) -> usize
    ensures { result ≡ sizes.pages * sizes.words }
{
    sizes.pages as usize * sizes.words as usize
}

/// The first race of the events, if all that was handed in is in range.
fn first_race(
    alloc: Global,
    sizes: GivenSizes,
    events: &[GivenEvent],
) -> Result<ToldRace, CallFault>
    ensures told { IfOk result (IsGivenHistoryRaceTold sizes events.now) }
    ensures refused { IfErr result (IsGivenHistoryFault sizes (sizes.pages * sizes.words) events.now) }
{
    let addresses = addresses(sizes);
    let history = given_history(alloc, sizes, addresses, events)?;
    let found = first_race_of(alloc, sizes.processors as usize, addresses, &history)?;
    Ok(told_verdict_race(found))
}

/// Writes the first race of the events, which need not be ones that a cluster can make; answers 0. Else it answers the code
/// of a fault, and writes nothing.
#[unsafe(no_mangle)]
pub extern "C" fn cevandle_first_race_nonnull(
    alloc: Global,
    sizes: GivenSizes,
    events: &[GivenEvent],
    told: &mut ToldRace,
) -> u32
    ensures told { result ≡ 0 → IsGivenHistoryRaceTold sizes events.now told.new }
    ensures refused { result ≢ 0
        → IsCallFaultCode (IsGivenHistoryFault sizes (sizes.pages * sizes.words) events.now) result }
    ensures unwritten { result ≢ 0 → told.new ≡ told.old }
{
    match first_race(alloc, sizes, events) {
        Ok(found) => {
            *told = found;
            0
        }
        Err(fault) => fault.code(),
    }
}
