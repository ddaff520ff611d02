//! The reader of a trace whose text comes in pieces.
ghost use Rattle.std.specs.Prelude.{◌≡◌, ◌≢◌, ℕ, ◌+◌, ◌<◌, List, [], ◌++◌, IfOk, IfErr, OnOk, length};
ghost use Rattle.journal.specs.declared.event.Event.{Event};
ghost use Rattle.lrc_script.specs.Prelude.{HasNoLineFeed};
ghost use Rattle.lrc_check.specs.declared.traces.fault.TraceFault.TheVariants.{NoMemory, Truncated};
ghost use Rattle.lrc_check.specs.Traces.Prelude.{FedTextBeginsTrace, IsNoOtherLawfulTrace, IsNoLawfulTrace, IsFedTextOf, IsFedTextWhole, IsLawfulTrace, IsUnfinishedTrace, IsNoUnfinishedTrace, IsTraceBegun, IsTraceLeft, IsTraceFault};
ghost use Rattle.lrc_check.specs.Traces.Prelude.{ArePassedOver, AreTraceLabelsBehind, AreTraceSizesKept, IsFedLineRefused, IsLineRefused, BeginsWithTraceBegun, FedTextFaultStays, HasReadFedText, IsTraceReadOn, without_trace_labels, fed_text_line_number, trace_begun_events, trace_begun_line_count, trace_begun_line_number, trace_begun_sizes, trace_begun_text, trace_labels_of, trace_sizes_of, trace_text};

use crate::traces::fault::TraceFault;
use crate::traces::labels::{TraceLabels, is_trace_line_passed_over, split_trace_label};
use crate::traces::trace::{LabelledTrace, Trace, TraceSizes};
use crate::traces::trace_lines::{end, end_trace_lines, next_trace_line_number, read_trace_lines};
use journal::Event;
use lrc_script::line::split_line;
use std::alloc::Global;
use std::marker::Model;

/// A trace whose text comes in pieces, cut anywhere. It keeps the events of the lines that are whole, the labels, and the
/// bytes of the line that isn't: so the text is never there as a whole. What was read can be taken piece by piece, and let
/// go of (`let_go`). Contracts see what was read of the bytes and not let go of.
#[derive(Drop)]
pub struct Reader {
    gone: usize,
    /// Whether the labels begin with that of the line of the sizes, or will.
    headed: bool,
    begun: Option<Trace>,
    labels: TraceLabels,
    /// How many lines were passed over.
    passed: usize,
    /// The bytes of the line that isn't whole; behind a fault those of the line that has it.
    unfinished: Vec<u8>,
}

impl Model for Reader {
    ghost use Rattle.lrc_script.specs.ScriptFaults.{HasNoLineFeed};
    ghost use Rattle.lrc_check.specs.Traces.Begun.{IsTraceLeft, trace_begun_events, trace_begun_sizes};
    ghost use Rattle.lrc_check.specs.Traces.FedText.{FedText};

    ghost Value = { FedText };

    ghost view = { λ r. record {
      gone = r.gone;
      headed = r.headed;
      sizes = trace_begun_sizes r.begun;
      events = trace_begun_events r.begun;
      labels = r.labels;
      unfinished = r.unfinished.items;
      passed = r.passed;
    } };

    ghost invariant = { λ r. IsTraceLeft r.gone r.begun × HasNoLineFeed r.unfinished.items };
}

/// Keeps more of the line that isn't whole.
fn keep(
    gone: usize,
    begun: &Option<Trace>,
    unfinished: &mut Vec<u8>,
    bytes: &[u8],
) -> Result<(), (usize, TraceFault)>
    requires { IsTraceLeft gone begun.now }
    ensures kept { OnOk result (unfinished.new.items ≡ unfinished.old.items ++ bytes.now) }
    ensures number { IfErr result (λ e. e.0 ≡ trace_begun_line_number gone begun.now) }
    ensures fault { IfErr result (λ e. e.1 ≡ NoMemory) }
{
    match unfinished.extend_from_slice(bytes) {
        Ok(()) => Ok(()),
        Err(_) => Err((next_trace_line_number(gone, begun), TraceFault::NoMemory)),
    }
}

/// Reads the line that the piece ends and the whole lines behind it, and keeps what stands behind those.
fn read_piece(
    alloc: Global,
    gone: usize,
    begun: &mut Option<Trace>,
    labels: &mut TraceLabels,
    passed: &mut usize,
    unfinished: &mut Vec<u8>,
    piece: &[u8],
) -> Result<(), (usize, TraceFault)>
    requires left { IsTraceLeft gone begun.old }
    requires unfinished { HasNoLineFeed unfinished.old.items }
    ensures on { IsTraceReadOn gone begun.old begun.new }
    ensures read { (front : List Event) → IsTraceBegun gone front begun.old → (more : List ℕ) → BeginsWithTraceBegun front begun.new
        (trace_begun_text front begun.old ++ without_trace_labels (unfinished.old.items ++ (piece.now ++ more))) }
    ensures unfinished { OnOk result (HasNoLineFeed unfinished.new.items) }
    ensures text { OnOk result ((front : List Event) → IsTraceBegun gone front begun.old → (more : List ℕ)
        → trace_begun_text front begun.new ++ without_trace_labels (unfinished.new.items ++ more)
        ≡ trace_begun_text front begun.old ++ without_trace_labels (unfinished.old.items ++ (piece.now ++ more))) }
    ensures labels { OnOk result ((more : List ℕ) → labels.new ++ trace_labels_of (unfinished.new.items ++ more)
        ≡ labels.old ++ trace_labels_of (unfinished.old.items ++ (piece.now ++ more))) }
    ensures lines { OnOk result ((n : ℕ) → AreTraceLabelsBehind n (trace_begun_line_count begun.old) labels.old
        → AreTraceLabelsBehind n (trace_begun_line_count begun.new) labels.new) }
    ensures passed { OnOk result (ArePassedOver passed.old (unfinished.old.items ++ piece.now) passed.new unfinished.new.items) }
    ensures refused { IfErr result (λ e. e.1 ≢ NoMemory
        → IsLineRefused gone begun.old begun.new (unfinished.old.items ++ piece.now) passed.old passed.new) }
    ensures number { IfErr result (λ e. e.0 ≡ trace_begun_line_number gone begun.new) }
    ensures fault { IfErr result (λ e. e.1 ≢ NoMemory → (front : List Event) → IsTraceBegun gone front begun.old → (more : List ℕ)
        → IsTraceFault (trace_begun_text front begun.old ++ without_trace_labels (unfinished.old.items ++ (piece.now ++ more))) e.0 e.1) }
{
    let Some((end, behind)) = split_line(piece) else {
        return keep(gone, begun, unfinished, piece);
    };
    keep(gone, begun, unfinished, end)?;
    keep(gone, begun, unfinished, b"\n")?;
    read_trace_lines(alloc, gone, begun, labels, passed, unfinished)?;
    let rest = read_trace_lines(alloc, gone, begun, labels, passed, behind)?;
    unfinished.clear();
    keep(gone, begun, unfinished, rest)
}

/// What stands behind the first line feed.
fn lines_behind_first(piece: &[u8]) -> &[u8] {
    match split_line(piece) {
        Some((_, behind)) => behind,
        None => b"",
    }
}

/// Of the lines of a piece behind its first line feed that aren't passed over, the one at this index; nothing if it isn't there.
fn told_line_behind_first(piece: &[u8], index: usize) -> &[u8]
    ensures { HasNoLineFeed result.now }
{
    let mut left = index;
    let mut rest = lines_behind_first(piece);
    while let Some((line, after)) = split_line(rest) {
        if !is_trace_line_passed_over(line) {
            if left == 0 {
                return line;
            }
            left -= 1;
        }
        rest = after;
    }
    b""
}

/// Lets go of what stands behind the first line, and of its line feed: whether it is a line that isn't passed over.
fn cut_to_first_line(unfinished: &mut Vec<u8>) -> bool
    ensures { HasNoLineFeed unfinished.new.items }
{
    let end = match split_line(unfinished) {
        Some((line, _)) => line.len(),
        None => unfinished.len(),
    };
    unfinished.truncate(end);
    !is_trace_line_passed_over(unfinished)
}

/// Keeps the line that was refused, which stands at this index among those that a piece ended and that aren't passed over. If
/// there is no memory for it, nothing is kept.
fn keep_refused_line(unfinished: &mut Vec<u8>, piece: &[u8], index: usize)
    ensures { HasNoLineFeed unfinished.new.items }
{
    let is_told = cut_to_first_line(unfinished);
    if is_told && index == 0 {
        return;
    }
    let line = told_line_behind_first(piece, index - usize::from(is_told));
    unfinished.clear();
    if unfinished.extend_from_slice(line).is_err() {
        unfinished.clear();
    }
}

/// The events that were read and not let go of.
fn events_of_trace_begun(begun: &Option<Trace>) -> &[Event]
    ensures { result.now ≡ trace_begun_events begun.now }
{
    match begun {
        None => &[],
        Some(trace) => &trace.events,
    }
}

/// Lets go of the events, and answers how many they were. Their memory is kept for the next ones.
fn let_go_of_trace_begun(begun: &mut Option<Trace>) -> usize
    ensures count { result ≡ length (trace_begun_events begun.old) }
    ensures sizes { trace_begun_sizes begun.new ≡ trace_begun_sizes begun.old }
    ensures events { trace_begun_events begun.new ≡ [] }
{
    match begun {
        None => 0,
        Some(trace) => {
            let count = trace.events.len();
            trace.events.clear();
            count
        }
    }
}

impl Reader {
    /// Before the first piece.
    pub fn new(alloc: Global) -> Reader
        ensures fed { IsFedTextOf [] [] [] result }
        ensures gone { result.gone ≡ 0 }
        ensures sizes { result.sizes ≡ None }
        ensures events { result.events ≡ [] }
    {
        Reader {
            gone: 0,
            headed: true,
            begun: None,
            labels: TraceLabels::new(alloc),
            passed: 0,
            unfinished: Vec::new(alloc),
        }
    }

    /// Takes the next piece. It takes time in the order of its bytes, and memory for the events and the labels of the lines
    /// that end in it and for the line that doesn't.
    ///
    /// # Errors
    ///
    /// The first line with a fault, counted from 1 among those that aren't passed over; on one line the faults are tested in the order that `TraceFault` tells.
    /// Each but `NoMemory` comes only where no trace has a text that begins with these bytes. `Truncated` never comes. The
    /// events of the lines before it are there, with their labels, and nothing of what comes behind them.
    pub fn feed(&mut self, alloc: Global, piece: &[u8]) -> Result<(), (usize, TraceFault)>
        // Whatever was let go of, this is read behind it.
        ensures fed { OnOk result ((bytes : List ℕ) (front : List Event) (told : List ℕ) → IsFedTextOf bytes front told self.old
            → IsFedTextOf (bytes ++ piece.now) front told self.new) }
        ensures gone { self.new.gone ≡ self.old.gone }
        ensures sizes { AreTraceSizesKept self.old.sizes self.new.sizes }
        ensures events { (more : List Event) × (self.new.events ≡ self.old.events ++ more) }
        // What was read is a beginning, also where a line is refused.
        ensures read { (bytes : List ℕ) (front : List Event) (told : List ℕ) → IsFedTextOf bytes front told self.old
            → HasReadFedText (bytes ++ piece.now) front self.new }
        // All lines before that one were read.
        ensures number { IfErr result (λ e. e.0 ≡ fed_text_line_number self.new) }
        // No beginning of a trace's text is refused, unless memory runs out.
        ensures only { IfErr result (λ e. e.1 ≢ NoMemory → (bytes : List ℕ) (front : List Event) (told : List ℕ)
            → IsFedTextOf bytes front told self.old → ¬ FedTextBeginsTrace (bytes ++ piece.now)) }
        // So many lines before it were passed over.
        ensures refused { IfErr result (λ e. e.1 ≢ NoMemory → (bytes : List ℕ) (front : List Event) (told : List ℕ)
            → IsFedTextOf bytes front told self.old → IsFedLineRefused (bytes ++ piece.now) front self.new) }
        // However the bytes go on, that line has that fault.
        ensures fault { IfErr result (λ e. e.1 ≢ NoMemory → (bytes : List ℕ) (front : List Event) (told : List ℕ)
            → IsFedTextOf bytes front told self.old → FedTextFaultStays (bytes ++ piece.now) e.0 e.1) }
    {
        let number = next_trace_line_number(self.gone, &self.begun);
        match read_piece(
            alloc,
            self.gone,
            &mut self.begun,
            &mut self.labels,
            &mut self.passed,
            &mut self.unfinished,
            piece,
        ) {
            Ok(()) => Ok(()),
            Err(fault) => {
                // What is left of the piece is no beginning of a line.
                let index = fault.0.saturating_sub(number);
                keep_refused_line(&mut self.unfinished, piece, index);
                Err(fault)
            }
        }
    }

    /// How many lines were passed over, behind a fault before the line that has it.
    pub fn passed(&self) -> usize
        ensures { result ≡ self.now.passed }
    {
        self.passed
    }

    /// The bytes of the line that isn't whole; behind a fault those of the line that has it, without its line feed, as far as there
    /// is memory for them.
    pub fn unfinished(&self) -> &[u8]
        ensures line { HasNoLineFeed result.now }
        ensures bytes { result.now ≡ self.now.unfinished }
    {
        &self.unfinished
    }

    /// The number of the line in whose midst the trace ends, counted from 1 with those that were passed over; None if it ends with
    /// a line feed, or before the line of the sizes.
    pub fn unfinished_line(&self) -> Option<usize> {
        if self.unfinished.is_empty() || self.begun.is_none() {
            return None;
        }
        let number = next_trace_line_number(self.gone, &self.begun);
        Some(number.saturating_add(self.passed))
    }

    /// How many events were let go of.
    pub fn gone(&self) -> usize
        ensures { result ≡ self.now.gone }
    {
        self.gone
    }

    /// The sizes, if their line was read.
    pub fn sizes(&self) -> Option<TraceSizes>
        ensures { result ≡ self.now.sizes }
    {
        match &self.begun {
            None => None,
            Some(trace) => Some(trace.sizes),
        }
    }

    /// The events that were read and not let go of. The first is at the place `gone`.
    pub fn events(&self) -> &[Event]
        ensures { result.now ≡ self.now.events }
    {
        events_of_trace_begun(&self.begun)
    }

    /// The labels of the lines that were read and not let go of, one for each. The first is that of the line of the sizes, until
    /// it is let go of.
    pub fn labels(&self) -> &TraceLabels
        ensures { result.now ≡ self.now.labels }
    {
        &self.labels
    }

    /// Whether the first of the labels is that of the line of the sizes, or will be.
    pub fn is_headed(&self) -> bool
        ensures { result ≡ self.now.headed }
    {
        self.headed
    }

    /// Lets go of the events that were read and of the labels, also of that of the line of the sizes if it was read. Their memory
    /// is kept for the next ones. Places and line numbers go on as if they were still there.
    pub fn let_go(&mut self)
        ensures fed { (bytes : List ℕ) (front : List Event) (told : List ℕ) → IsFedTextOf bytes front told self.old
            → IsFedTextOf bytes (front ++ self.old.events) (told ++ self.old.labels) self.new }
        // Also behind a line that was refused.
        ensures read { (bytes : List ℕ) (front : List Event) → HasReadFedText bytes front self.old
            → HasReadFedText bytes (front ++ self.old.events) self.new }
        ensures gone { self.new.gone ≡ self.old.gone + length self.old.events }
        ensures sizes { self.new.sizes ≡ self.old.sizes }
        ensures events { self.new.events ≡ [] }
        ensures labels { self.new.labels ≡ [] }
    {
        self.headed = self.headed && self.begun.is_none();
        self.gone += let_go_of_trace_begun(&mut self.begun);
        self.labels.clear();
    }

    /// Whether the trace ends here, after the last piece: whether the bytes, without their labels, are its text.
    ///
    /// # Errors
    ///
    /// `Truncated` alone, with the number of the line that has to be there or to end.
    pub fn end(&self) -> Result<(), (usize, TraceFault)>
        ensures whole { OnOk result ((bytes : List ℕ) (front : List Event) (told : List ℕ) → IsFedTextOf bytes front told self.now
            → IsFedTextWhole bytes front told self.now) }
        ensures only { IfErr result (λ _. (bytes : List ℕ) (front : List Event) (told : List ℕ) → IsFedTextOf bytes front told self.now
            → IsNoLawfulTrace (without_trace_labels bytes)) }
        ensures truncated { IfErr result (λ e. e.1 ≡ Truncated) }
        ensures fault { IfErr result (λ e. (bytes : List ℕ) (front : List Event) (told : List ℕ) → IsFedTextOf bytes front told self.now
            → IsTraceFault (without_trace_labels bytes) e.0 e.1) }
    {
        let (left, _) = split_trace_label(&self.unfinished);
        end_trace_lines(self.gone, &self.begun, left)?;
        Ok(())
    }

    /// The trace that has the bytes, without their labels, as its text, and the labels, after the last piece. It is for a reader
    /// that let go of nothing: of another it answers only what is left, and `end` says whether the trace ends.
    ///
    /// # Errors
    ///
    /// `Truncated` alone, with the number of the line that has to be there or to end.
    pub fn finish(self) -> Result<LabelledTrace, (usize, TraceFault)>
        ensures found { IfOk result (λ t. IsLawfulTrace (trace_sizes_of t.trace.sizes) t.trace.events.items
            × ((bytes : List ℕ) → IsFedTextOf bytes [] [] self
            → without_trace_labels bytes ≡ trace_text (trace_sizes_of t.trace.sizes) t.trace.events.items)) }
        ensures again { IfOk result (λ t. (bytes : List ℕ) → IsFedTextOf bytes [] [] self
            → IsNoOtherLawfulTrace (without_trace_labels bytes) (trace_sizes_of t.trace.sizes) t.trace.events.items) }
        ensures labels { IfOk result (λ t. (bytes : List ℕ) → IsFedTextOf bytes [] [] self → t.labels ≡ trace_labels_of bytes) }
        ensures only { IfErr result (λ _. (bytes : List ℕ) → IsFedTextOf bytes [] [] self → IsNoLawfulTrace (without_trace_labels bytes)) }
        ensures truncated { IfErr result (λ e. e.1 ≡ Truncated) }
        ensures fault { IfErr result (λ e. (bytes : List ℕ) → IsFedTextOf bytes [] [] self → IsTraceFault (without_trace_labels bytes) e.0 e.1) }
    {
        let Reader {
            gone: _,
            headed: _,
            begun,
            labels,
            passed: _,
            unfinished,
        } = self;
        let (left, _) = split_trace_label(&unfinished);
        let trace = end(begun, left)?;
        Ok(LabelledTrace {
            trace,
            labels,
            unfinished: None,
        })
    }

    /// The same if the text may end in the midst of a line, of which nothing is read then.
    ///
    /// # Errors
    ///
    /// `Truncated` alone, if the line of the sizes isn't there or doesn't end.
    pub fn finish_unfinished(self) -> Result<LabelledTrace, (usize, TraceFault)>
        ensures trace { IfOk result (λ t. IsLawfulTrace (trace_sizes_of t.trace.sizes) t.trace.events.items) }
        ensures found { IfOk result (λ t. (bytes : List ℕ) → IsFedTextOf bytes [] [] self
            → IsUnfinishedTrace bytes (trace_sizes_of t.trace.sizes) t.trace.events.items) }
        ensures only { IfErr result (λ _. (bytes : List ℕ) → IsFedTextOf bytes [] [] self → IsNoLawfulTrace (without_trace_labels bytes)) }
        ensures never { IfErr result (λ _. (bytes : List ℕ) → IsFedTextOf bytes [] [] self → IsNoUnfinishedTrace bytes) }
    {
        if self.begun.is_none() {
            return self.finish();
        }
        let unfinished = self.unfinished_line();
        let Reader {
            gone: _,
            headed: _,
            begun,
            labels,
            passed: _,
            unfinished: _,
        } = self;
        Ok(LabelledTrace {
            trace: begun.unwrap(),
            labels,
            unfinished,
        })
    }
}
