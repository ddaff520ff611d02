//! The protocol's state at an event, in words.

use causes::{EventState, PageRecord, WriteNotice};
use journal::{Event, Kind};
use lrc_prose::text::ProseText;

/// The protocol's state at an event, in a run of so many processors and of so many pages of so many words.
#[derive(Clone, Copy)]
pub struct ToldState<'a> {
    pub event: Event,
    pub processors: usize,
    pub pages: usize,
    pub words: usize,
    /// Whether something was cut off, so that nobody knows which other copies are valid.
    pub is_cut: bool,
    pub state: &'a EventState,
}

/// Whether an event of this kind closes its processor's interval.
fn told_state_closes(kind: Kind) -> bool {
    match kind {
        Kind::Ask(_) | Kind::Release(_) | Kind::Arrive | Kind::Set(_) | Kind::Watch(_) => true,
        _ => false,
    }
}

/// Puts these pages and behind them what they are, where they are any, with this in front.
fn put_told_state_pages(text: &mut ProseText, front: &str, pages: &[usize], what: &str) {
    text.put(front);
    text.put(if pages.len() == 1 { "page" } else { "pages" });
    for (index, page) in pages.iter().enumerate() {
        text.put_number(if index == 0 { " " } else { ", " }, *page);
    }
    text.put(what);
}

impl ToldState<'_> {
    /// Puts the vector timestamp.
    fn put_time(&self, text: &mut ProseText) {
        text.put("timestamp");
        for entry in self.state.time.iter().take(self.processors) {
            text.put_number(" ", *entry);
        }
    }

    /// Puts the words of a record, by their addresses, with their values.
    fn put_record(&self, text: &mut ProseText, record: &PageRecord) {
        let first = record.page.saturating_mul(self.words);
        text.put_number("page ", record.page);
        for (index, (offset, value)) in record.words.iter().enumerate() {
            text.put(if index == 0 { " (" } else { ", " });
            text.put_number("", first.saturating_add(*offset));
            text.put_number("=", *value);
        }
        text.put(")");
    }

    /// Puts the records of the interval that is closed.
    fn put_records(&self, text: &mut ProseText) {
        if self.state.records.is_empty() {
            text.put(", no records");
        }
        for (index, record) in self.state.records.iter().enumerate() {
            text.put(if index == 0 { ", records: " } else { ", " });
            self.put_record(text, record);
        }
    }

    /// Puts the interval that the event lies in, and what it has where the event closes it.
    fn put_own_interval(&self, text: &mut ProseText) {
        let closes = told_state_closes(self.event.kind);
        text.put(if closes {
            "; closes interval "
        } else {
            "; in interval "
        });
        put_told_state_interval(text, self.event.processor, self.state.interval);
        if closes {
            self.put_records(text);
        }
    }

    /// Puts the notices that a message brings.
    fn put_notices(&self, text: &mut ProseText) {
        let mut last = None;
        for notice in &self.state.notices {
            put_told_state_noticed_page(text, last, *notice);
            put_told_state_interval(text, notice.writer, notice.interval);
            last = Some(*notice);
        }
        text.put(if last.is_none() { "; no notices" } else { ")" });
    }

    /// Puts the intervals whose records a fetch applies.
    fn put_applied(&self, text: &mut ProseText) {
        let mut front = "; applies ";
        for notice in &self.state.notices {
            text.put(front);
            put_told_state_interval(text, notice.writer, notice.interval);
            front = ", ";
        }
    }

    /// Puts which copies are stale or dirty.
    fn put_copies(&self, text: &mut ProseText) {
        let stale = self.state.stale.as_slice();
        let dirty = self.state.dirty.as_slice();
        text.put("; copies: ");
        if !stale.is_empty() {
            put_told_state_pages(text, "", stale, " stale");
        }
        if !dirty.is_empty() {
            let front = if stale.is_empty() { "" } else { ", " };
            put_told_state_pages(text, front, dirty, " dirty");
        }
        let told = stale.len().saturating_add(dirty.len());
        text.put(match told {
            0 if self.is_cut => "none known to be stale",
            0 => "all valid",
            _ if self.is_cut || told >= self.pages => "",
            _ => ", others valid",
        });
    }

    /// Puts all of it.
    pub fn put(&self, text: &mut ProseText) {
        self.put_time(text);
        self.put_own_interval(text);
        match self.event.kind {
            Kind::Acquire(_) | Kind::Depart | Kind::Await(_) => self.put_notices(text),
            Kind::Fetch { .. } => self.put_applied(text),
            _ => {}
        }
        self.put_copies(text);
    }
}

/// Puts what stands in front of an interval that a notice names: its page, where the last notice names another one or there
/// is none.
fn put_told_state_noticed_page(
    text: &mut ProseText,
    last: Option<WriteNotice>,
    notice: WriteNotice,
) {
    match last {
        None => text.put_number("; notices: page ", notice.page),
        Some(last) if last.page != notice.page => text.put_number("), page ", notice.page),
        Some(_) => {
            text.put(", ");
            return;
        }
    }
    text.put(" (");
}

/// Puts the interval of this number of this processor.
fn put_told_state_interval(text: &mut ProseText, processor: usize, number: u32) {
    text.put_number("p", processor);
    text.put_number(":", number);
}
