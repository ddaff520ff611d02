//! The events of a schedule, a line each, as `lrc_report` prints a journal's.
ghost use Rattle.std.specs.Prelude.{◌≡◌, ◌++◌, OnOk};
ghost use Rattle.lrc_report.specs.Prelude.{report_event_text, report_events_text};
ghost use Rattle.lrc_explore.specs.Prelude.{explore_text_event_at};

use journal::Event;
use lrc_report::ReportLine;
use lrc_report::render::render_report_event;
use std::alloc::AllocError;

/// Adds the line of the event, as a journal has it at this place.
fn put_explored_event_line(
    text: &mut Vec<u8>,
    place: usize,
    event: &Event,
) -> Result<(), AllocError>
    ensures { OnOk result (text.new.items ≡ text.old.items ++ report_event_text place event.now) }
{
    let mut line = ReportLine::new();
    render_report_event(&mut line, place as u64, event);
    text.extend_from_slice(line.bytes())
}

/// Adds the words of the event, as a journal has them at this place, without a line feed.
pub fn put_explored_event_words(
    text: &mut Vec<u8>,
    place: usize,
    event: &Event,
) -> Result<(), AllocError> {
    let mut line = ReportLine::new();
    render_report_event(&mut line, place as u64, event);
    let bytes = line.bytes();
    text.extend_from_slice(&bytes[..bytes.len().saturating_sub(1)])
}

/// Adds a line for each event, in order.
pub fn put_explored_events(text: &mut Vec<u8>, events: &[Event]) -> Result<(), AllocError>
    ensures { OnOk result (text.new.items ≡ text.old.items ++ report_events_text 0 events.now) }
{
    for (place, event) in events.iter().enumerate() {
        put_explored_event_line(text, place, event)?;
    }
    Ok(())
}

/// Adds the line of the event at this place, if there is one.
pub fn put_explored_event_at(
    text: &mut Vec<u8>,
    events: &[Event],
    place: usize,
) -> Result<(), AllocError>
    ensures { OnOk result (text.new.items ≡ text.old.items ++ explore_text_event_at events.now place) }
{
    match events.get(place) {
        Some(event) => put_explored_event_line(text, place, event),
        None => Ok(()),
    }
}
