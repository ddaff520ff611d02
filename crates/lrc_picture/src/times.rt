//! The timestamps of a run's events.
ghost use Rattle.std.specs.Prelude.{◌≡◌, ◌≤◌, IfOk, length, vec_len};
ghost use Rattle.base.specs.Prelude.{most_processors};
ghost use Rattle.lrc_picture.specs.Prelude.{ArePictureTimestampsAfter};

use journal::{Clock, EventClocks};
use judge::History;
use std::alloc::{AllocError, Global};

/// Of each event of the history, which has at most 16 processors, its processor's vector timestamp after it. The only error is
/// running out of memory.
pub fn picture_times(alloc: Global, history: &History<'_>) -> Result<Vec<Clock>, AllocError>
    requires { history.now.sizes.processors ≤ most_processors }
    ensures long { IfOk result (λ v. vec_len v ≡ length history.now.events) }
    ensures times { IfOk result (λ v. ArePictureTimestampsAfter history.now.events v.items) }
{
    let events = history.events();
    let mut clocks = EventClocks::new(alloc, history.sizes().processors)?;
    let mut times = Vec::with_capacity(alloc, events.len())?;
    for place in 0..events.len() {
        clocks.note(events, place)?;
        times.push(*clocks.of(events[place].processor))?;
    }
    Ok(times)
}
