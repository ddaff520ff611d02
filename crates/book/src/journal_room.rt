//! Room in the journal.
ghost use Rattle.std.specs.Prelude.{◌≡◌, ◌+◌, ◌-◌, ◌^◌, ◌≤◌, ◌<◌, ◌++◌, All, IfErr, OnOk, length, Err};
ghost use Rattle.base.specs.Prelude.{most_events};
ghost use Rattle.journal.specs.Prelude.{EventAddressInRange};
ghost use Rattle.book.specs.Prelude.{IsFullRefusal, IsRoomRefusal};

use crate::refused::Refused;
use base::MOST_EVENTS;
use journal::{Event, Journal};

/// Makes room for `additional` more events and those that are owing.
pub(crate) fn make_journal_room(
    journal: &mut Journal,
    owing: usize,
    additional: usize,
) -> Result<(), Refused>
    requires owing { owing ≤ 2 ^ 12 }
    requires additional { additional ≤ 2 ^ 9 }
    ensures ok { OnOk result ((owing + additional ≤ journal.new.room)
        × (length journal.old.events + additional ≤ most_events)) }
    ensures same { journal.new ≡ record journal.old { room = journal.new.room } }
    ensures grows { journal.old.room ≤ journal.new.room }
    ensures full { IsFullRefusal (length journal.old.events + additional) result }
    ensures only { IfErr result IsRoomRefusal }
{
    if journal.len() + additional > MOST_EVENTS {
        return Err(Refused::JournalFull);
    }
    journal.reserve(owing + additional)?;
    Ok(())
}

/// Puts the events at the journal's end.
pub(crate) fn append_in_journal_room(journal: &mut Journal, events: &[Event])
    requires room { length events.now ≤ journal.old.room }
    requires limit { length journal.old.events + length events.now ≤ 2 ^ 21 }
    requires processor { All (λ e. e.processor < journal.old.processors) events.now }
    requires address { All (λ e. EventAddressInRange journal.old.addresses e.kind) events.now }
    ensures { journal.new ≡ record journal.old {
      events = journal.old.events ++ events.now;
      room = journal.old.room - length events.now;
    } }
{
    for event in events {
        journal.append(*event);
    }
}
