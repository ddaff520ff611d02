//! How wide the columns are, and what stands in them.

use causes::Part;
use journal::Event;
use lrc_prose::label::put_prose_label;
use lrc_prose::text::ProseText;
use std::alloc::{AllocError, Global};

/// How wide a lane is at most.
const MOST_WIDTH: usize = 16;

/// How wide the lanes are together at most, with the numbers: what is said of the events stands to the right of them.
const MOST_IN_LANES: usize = 66;

/// How many spaces stand in front of a column.
const APART: usize = 2;

/// How wide the columns are: one of the events' numbers, and a lane for each processor that is told, with two spaces in front
/// of each.
///
/// A lane is as wide as its longest label or its title, but at most 16. A label that is longer than its lane runs on, and
/// what stands to its right moves. Where the lanes are too wide together, there is a column of processors in their place,
/// and one of labels.
#[derive(Drop)]
pub struct Columns {
    /// The width of the column of numbers.
    number: usize,
    lanes: Vec<Lane>,
}

/// A processor's lane.
#[derive(Clone, Copy)]
struct Lane {
    processor: usize,
    width: usize,
}

/// How many digits a number has.
fn column_digits(number: u64) -> usize {
    let mut least: u64 = 10;
    for count in 1..20 {
        if number < least {
            return count;
        }
        least = least.saturating_mul(10);
    }
    20
}

/// How wide a processor's title is: `p0`.
fn column_title_width(processor: usize) -> usize {
    column_digits(processor as u64).saturating_add(1)
}

/// Makes the processor's lane as wide as this, as far as it may be so wide.
fn widen_column(lanes: &mut [usize], processor: usize, length: usize) {
    if let Some(width) = lanes.get_mut(processor) {
        *width = length.min(MOST_WIDTH).max(*width);
    }
}

/// Makes each lane as wide as its title.
fn fit_columns_to_titles(lanes: &mut [usize]) {
    for processor in 0..lanes.len() {
        widen_column(lanes, processor, column_title_width(processor));
    }
}

/// Makes each lane as wide as its processor's labels of events that are told, which are put into an empty text one after the
/// other.
fn fit_columns_to_labels(
    lanes: &mut [usize],
    label: &mut ProseText,
    events: &[Event],
    told: &[bool],
) {
    for (event, is_told) in events.iter().zip(told) {
        if *is_told {
            label.clear_line();
            put_prose_label(label, event.kind);
            widen_column(lanes, event.processor, label.len());
        }
    }
    label.clear_line();
}

/// The lanes of those processors that the part has, by the widths of all lanes. The only error is running out of memory.
fn column_lanes_of(alloc: Global, part: &Part, widths: &[usize]) -> Result<Vec<Lane>, AllocError> {
    let mut lanes = Vec::new(alloc);
    for (processor, width) in widths.iter().enumerate() {
        if part.processors.get(processor) == Some(&true) {
            lanes.push(Lane {
                processor,
                width: *width,
            })?;
        }
    }
    Ok(lanes)
}

/// The layout of this part of these events of so many processors, the last of which has this number; `told` says of each
/// event whether it is told. The only error is running out of memory.
pub fn columns_of(
    alloc: Global,
    processors: usize,
    part: &Part,
    events: &[Event],
    told: &[bool],
    last: u64,
) -> Result<Columns, AllocError> {
    let mut widths = vec![in alloc; 0; processors]?;
    let mut label = ProseText::new(alloc);
    fit_columns_to_titles(&mut widths);
    fit_columns_to_labels(&mut widths, &mut label, events, told);
    label.finish()?;
    Ok(Columns {
        number: column_digits(last),
        lanes: column_lanes_of(alloc, part, &widths)?,
    })
}

impl Columns {
    /// Whether the lanes fit beside each other.
    fn has_lanes(&self) -> bool {
        let mut width = self.number;
        for lane in &self.lanes {
            width = width.saturating_add(lane.width).saturating_add(APART);
        }
        width <= MOST_IN_LANES
    }

    /// The width of the widest lane.
    fn widest(&self) -> usize {
        let mut widest: usize = 0;
        for lane in &self.lanes {
            widest = widest.max(lane.width);
        }
        widest
    }

    /// The width of the widest title.
    fn widest_title(&self) -> usize {
        let mut widest: usize = 0;
        for lane in &self.lanes {
            widest = widest.max(column_title_width(lane.processor));
        }
        widest
    }

    /// Puts the line of the lanes' titles, where there are lanes.
    pub fn put_titles(&self, text: &mut ProseText) {
        if self.lanes.is_empty() || !self.has_lanes() {
            return;
        }
        text.leave(self.number);
        for lane in &self.lanes {
            text.leave(APART);
            let end = text.len().saturating_add(lane.width);
            text.put_number("p", lane.processor);
            text.leave_to(end);
        }
        text.end_line();
    }

    /// Puts what an event did in its processor's lane.
    fn put_lanes(&self, text: &mut ProseText, event: Event) {
        for lane in &self.lanes {
            text.leave(APART);
            let end = text.len().saturating_add(lane.width);
            if lane.processor == event.processor {
                put_prose_label(text, event.kind);
            }
            text.leave_to(end);
        }
    }

    /// Puts an event's processor, and what it did.
    fn put_column(&self, text: &mut ProseText, event: Event) {
        text.leave(APART);
        let end = text.len().saturating_add(self.widest_title());
        text.put_number("p", event.processor);
        text.leave_to(end);
        text.leave(APART);
        let end = text.len().saturating_add(self.widest());
        put_prose_label(text, event.kind);
        text.leave_to(end);
    }

    /// Puts the number of an event, its processor and what it did. What is put next on the line stands to the right of that.
    pub fn put_event(&self, text: &mut ProseText, number: u64, event: Event) {
        text.leave(self.number.saturating_sub(column_digits(number)));
        text.put_number("", number);
        if self.has_lanes() {
            self.put_lanes(text, event);
        } else {
            self.put_column(text, event);
        }
        text.leave(APART);
        text.break_from_here();
    }

    /// Begins a line below an event, which is indented further than the event's.
    pub fn begin_below(&self, text: &mut ProseText) {
        text.leave(self.number);
        text.leave(APART);
        text.leave(APART);
        text.break_from_here();
    }
}
