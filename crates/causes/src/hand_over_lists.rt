//! By which events each event's processor gets its news: of those that it had not heard of, the last ones.
ghost use Rattle.std.specs.Prelude.{◌≡◌, ◌↔◌, ℕ, ◌<◌, ◌≤◌, IsTrue, IfOk, length};
ghost use Rattle.base.specs.InOrderOnce.{Has, InOrder};
ghost use Rattle.journal.specs.Pasts.{UpTo};
ghost use Rattle.journal.specs.Prelude.{EventProcessorsInRange};
ghost use Rattle.judge.specs.Prelude.{most_in_sized_history};
ghost use Rattle.causes.specs.Prelude.{AreAllHandOvers, AreIncomingNews, AreHandOversFrom, IsPathLookup};

use crate::news::incoming_news;
use crate::reaching::Reach;
use journal::Event;
use judge::History;
use std::alloc::{AllocError, Global};

/// Whether the event at `from` is one of those at these places, or happens before one.
fn some_hand_over_reached(reach: &Reach, events: &[Event], from: usize, places: &[usize]) -> bool
    requires tells { IsPathLookup events.now reach.now }
    requires from { from < length events.now }
    requires places { (n : ℕ) → Has places.now n → n < length events.now }
    ensures { IsTrue result ↔ ((n : ℕ) × Has places.now n × UpTo events.now n from) }
{
    for place in places {
        if reach.reaches(events, from, *place) {
            return true;
        }
    }
    false
}

/// Of these news of an event, whose places rise, the last ones: those that happen before none of the others, falling.
fn last_hand_overs(
    alloc: Global,
    reach: &Reach,
    events: &[Event],
    news: &[usize],
) -> Result<Vec<usize>, AllocError>
    requires tells { IsPathLookup events.now reach.now }
    requires within { (n : ℕ) → Has news.now n → n < length events.now }
    requires rising { InOrder (λ i m. i < m) news.now }
    ensures { IfOk result (λ v. AreHandOversFrom events.now news.now 0 v.items) }
{
    let mut places = Vec::new(alloc);
    for index in 0..news.len() {
        let place = news[news.len() - 1 - index];
        if !some_hand_over_reached(reach, events, place, &places) {
            places.push(place)?;
        }
    }
    Ok(places)
}

/// Of the news of each event the last ones.
fn all_hand_overs(
    alloc: Global,
    reach: &Reach,
    events: &[Event],
    rows: &[Vec<usize>],
) -> Result<Vec<Vec<usize>>, AllocError>
    requires tells { IsPathLookup events.now reach.now }
    requires long { length rows.now ≡ length events.now }
    requires news { AreIncomingNews events.now rows.now }
    ensures { IfOk result (λ v. AreAllHandOvers events.now v.items) }
{
    let mut last = Vec::with_capacity(alloc, events.len())?;
    for place in 0..events.len() {
        last.push(last_hand_overs(alloc, reach, events, &rows[place])?)?;
    }
    Ok(last)
}

/// The same of the history's news.
pub(crate) fn hand_overs_by(
    alloc: Global,
    reach: &Reach,
    history: &History<'_>,
) -> Result<Vec<Vec<usize>>, AllocError>
    requires tells { IsPathLookup history.now.events reach.now }
    ensures { IfOk result (λ v. AreAllHandOvers history.now.events v.items) }
{
    let rows = incoming_news(alloc, history)?;
    all_hand_overs(alloc, reach, history.events(), &rows)
}

/// Of each event of the history: of its news, as `incoming_news` finds them, the last ones, falling. None of them happens before
/// another, and each of the others happens before one. So they are at most one of each other processor, and of an acquire the
/// last release alone. The only error is running out of memory.
///
/// It takes time as `incoming_news` does, and for each of the news that of the processors times the logarithm of the events.
pub fn hand_overs(alloc: Global, history: &History<'_>) -> Result<Vec<Vec<usize>>, AllocError>
    ensures { IfOk result (λ v. AreAllHandOvers history.now.events v.items) }
{
    let reach = Reach::new(alloc, history)?;
    hand_overs_by(alloc, &reach, history)
}
