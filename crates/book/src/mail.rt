//! Messages that are made before the interval is closed with which they come.
ghost use Rattle.std.specs.Prelude.{◌≡◌, ◌≢◌, ℕ, ◌<◌, ◌≤◌, IfOk, IfSome, IsSome, MatchOption, List, OnOk, OnErr, None, Some, true};
ghost use Rattle.std.specs.Prelude.{length, map, replicate, slice_get, slice_index, slice_set};
ghost use Rattle.std.specs.Option.{option_map};
ghost use Rattle.journal.specs.Prelude.{closing_awaits_kind};
ghost use Rattle.interval.specs.Prelude.{SentIntervalPagesRise, HasKeptClosingsBetween, kept_closings_pushed};
ghost use Rattle.transit.specs.Prelude.{letter};
ghost use Rattle.book.specs.Prelude.{transition_addressed, transition_addressed_grant, transition_departure_to, message_has_come, message_among};
ghost use Rattle.book.specs.Prelude.{signal_message, AllowsNoticesOfCall, AllowsSignalOfCall};

use interval::{Closed, Interval};
use journal::Awaited;
use std::alloc::{AllocError, Global};
use transit::{Message, Transit};
use vtime::VTime;

/// The grant of a lock that is released at this time, for the next holder: with what that one
/// has to learn once the interval is closed.
pub(crate) fn grant_mail_to(
    next: Option<usize>,
    closed: &Closed,
    times: &[VTime],
    interval: &Interval,
    time: &VTime,
) -> Result<Option<(usize, Message)>, AllocError>
    requires owner { interval.now.owner < length closed.now.next }
    requires pages { SentIntervalPagesRise interval.now.records }
    requires long { length time.now ≡ length closed.now.first }
    requires next { IfSome next (λ r. AllowsNoticesOfCall closed.now times.now r) }
    ensures { IfOk result (λ g. option_map transition_addressed g
        ≡ option_map (transition_addressed_grant (kept_closings_pushed closed.now interval.now) times.now time.now) next) }
{
    let Some(next) = next else {
        return Ok(None);
    };
    let notices = closed.between_after_interval(interval, &times[next], time)?;
    let time = time.copy();
    Ok(Some((next, Message::Grant { time, notices })))
}

/// The departures of all at this time, in the processors' order, once the interval is closed and its owner
/// has the timestamp `own`: each with what its processor has to learn.
pub(crate) fn departure_mail(
    alloc: Global,
    closed: &Closed,
    times: &[VTime],
    interval: &Interval,
    own: &VTime,
    time: &VTime,
) -> Result<Vec<Message>, AllocError>
    requires owner { interval.now.owner < length closed.now.next }
    requires processor { interval.now.owner < length times.now }
    requires pages { SentIntervalPagesRise interval.now.records }
    requires long { length time.now ≡ length closed.now.first }
    requires all { (r : ℕ) → r < length times.now
        → AllowsNoticesOfCall closed.now (slice_set times.now interval.now.owner own.now) r }
    ensures { IfOk result (λ ms. map letter ms.items
        ≡ map (transition_departure_to (kept_closings_pushed closed.now interval.now) time.now)
        (slice_set times.now interval.now.owner own.now)) }
{
    let mut departures = Vec::with_capacity(alloc, times.len())?;
    for (q, old) in times.iter().enumerate() {
        let old = mail_time_after(q, interval.owner, own, old);
        let notices = closed.between_after_interval(interval, old, time)?;
        let time = time.copy();
        departures.push(Message::Departure { time, notices })?;
    }
    Ok(departures)
}

/// The timestamp of `q`, who has this one, once the owner has the timestamp `own`.
fn mail_time_after<'a>(q: usize, owner: usize, own: &'a VTime, old: &'a VTime) -> &'a VTime
    ensures owner { q ≡ owner → result.now ≡ own.now }
    ensures others { q ≢ owner → result.now ≡ old.now }
{
    if q == owner { own } else { old }
}

/// Sends each processor its message; nobody has one.
pub(crate) fn post_all_mail(transit: &mut Transit, messages: Vec<Message>)
    requires { transit.old ≡ replicate (length messages.items) None }
    ensures { transit.new ≡ map Some (map letter messages.items) }
{
    let mut messages = messages;
    while let Some(message) = messages.pop() {
        transit.post(messages.len(), message);
    }
}

/// Sends the grant, if there is one, to whom it is for, who has no message.
pub(crate) fn post_grant_mail(transit: &mut Transit, grant: Option<(usize, Message)>)
    requires { IfSome grant (λ g. slice_get transit.old g.0 ≡ Some None) }
    ensures { MatchOption grant (transit.new ≡ transit.old) (λ g. transit.new ≡ slice_set transit.old g.0 (Some (letter g.1))) }
{
    if let Some((next, message)) = grant {
        transit.post(next, message);
    }
}

/// Whether what `processor` waits for has come: the flag is set, or there is mail.
pub(crate) fn mail_has_come(
    flags: &[Option<VTime>],
    mail: &Transit,
    processor: usize,
    awaited: Awaited,
) -> bool
    requires processor { processor < length mail.now }
    requires flag { (f : ℕ) → awaited ≡ Awaited.Signal f → f < length flags.now }
    ensures { result ≡ message_has_come flags.now mail.now processor (closing_awaits_kind awaited) }
{
    match awaited {
        Awaited::Grant(_) | Awaited::Departure => mail.ready(processor),
        Awaited::Signal(flag) => flags[flag].is_some(),
    }
}

/// The message for `processor`, who has the timestamp `own` and waits for this, which has come: a flag's signal is
/// made now, mail is taken as it was posted.
pub(crate) fn receive_mail(
    mail: &mut Transit,
    closed: &Closed,
    flags: &[Option<VTime>],
    own: &VTime,
    processor: usize,
    awaited: Awaited,
) -> Result<Message, AllocError>
    requires come { message_has_come flags.now mail.old processor (closing_awaits_kind awaited) ≡ true }
    requires processor { processor < length mail.old }
    requires flag { (f : ℕ) → awaited ≡ Awaited.Signal f
        → AllowsSignalOfCall closed.now flags.now own.now f }
    requires none { (f : ℕ) → awaited ≡ Awaited.Signal f → mail.old ≡ slice_set mail.old processor None }
    ensures ok { IfOk result (λ m.
        message_among closed.now flags.now mail.old own.now processor (closing_awaits_kind awaited) ≡ Some (letter m)) }
    ensures after { OnOk result (mail.new ≡ slice_set mail.old processor None) }
    ensures err { OnErr result (mail.new ≡ mail.old) }
{
    match awaited {
        Awaited::Grant(_) | Awaited::Departure => {
            let Some(message) = mail.take(processor) else {
                unreachable!("the mail is there")
            };
            Ok(message)
        }
        Awaited::Signal(flag) => signal_mail(closed, &flags[flag], own),
    }
}

/// The signal of a flag that is set, to one with the timestamp `own`.
fn signal_mail(closed: &Closed, flag: &Option<VTime>, own: &VTime) -> Result<Message, AllocError>
    requires set { IsSome flag.now }
    requires keeps { IfSome flag.now (λ t. HasKeptClosingsBetween closed.now own.now t) }
    ensures { IfOk result (λ m.
        option_map (λ (t : List ℕ). signal_message closed.now t own.now) flag.now ≡ Some (letter m)) }
{
    let Some(time) = flag else {
        unreachable!("the flag is set")
    };
    let notices = closed.between(own, time)?;
    let time = time.copy();
    Ok(Message::Signal { time, notices })
}
