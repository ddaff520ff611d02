//! The lines of a trace's text, as they come: what those so far are, and what comes next.
ghost use Rattle.std.specs.Prelude.{◌≡◌, ◌≢◌, ℕ, ◌+◌, List, [], ◌∷◌, ◌++◌, None, IfOk, IfErr, IfSome, OnOk, OnErr};
ghost use Rattle.journal.specs.declared.event.Event.{Event};
ghost use Rattle.lrc_script.specs.Prelude.{HasNoLineFeed};
ghost use Rattle.lrc_check.specs.declared.traces.fault.TraceFault.TheVariants.{NoMemory, Truncated};
ghost use Rattle.lrc_check.specs.Traces.Prelude.{ArePassedOver, IsLineRefused, TraceFaultSaysNoSizes, TraceLineHasSizes, AreTraceLabelsBehind, BeginsWithTraceBegun, IsTraceBegun, IsTraceFault, IsTraceFaultLasting, IsTraceLeft, IsTraceReadOn, IsNoOtherLawfulTrace};
ghost use Rattle.lrc_check.specs.Traces.Prelude.{IsNoLawfulTrace, IsLawfulTrace, IsTraceLineOfEvent, without_trace_labels, trace_begun_line_count, trace_begun_text, trace_labels_of, trace_begun_line_number, trace_sizes_of, trace_text};

use crate::traces::fault::TraceFault;
use crate::traces::head::read_trace_head;
use crate::traces::labels::{
    TraceLabels, is_trace_line_passed_over, split_trace_label_unless_read,
};
use crate::traces::trace::Trace;
use crate::traces::trace_event::{add, quick_trace_event};
use journal::Event;
use lrc_script::line::split_line;
use std::alloc::Global;

/// The trace without an event that begins with this line.
fn begin_trace_lines(alloc: Global, line: &[u8]) -> Result<Trace, TraceFault>
    ensures sizes { IfOk result (λ t. TraceLineHasSizes line.now (trace_sizes_of t.sizes)) }
    ensures empty { IfOk result (λ t. t.events.items ≡ []) }
    ensures fault { IfErr result (λ e. TraceFaultSaysNoSizes e line.now) }
{
    Ok(Trace {
        sizes: read_trace_head(alloc, line)?,
        events: Vec::new(alloc),
    })
}

/// The number of the line that comes next behind `gone` events, counted from 1.
pub fn next_trace_line_number(gone: usize, begun: &Option<Trace>) -> usize
    requires { IsTraceLeft gone begun.now }
    ensures { result ≡ trace_begun_line_number gone begun.now }
{
    match begun {
        None => 1,
        Some(trace) => gone + trace.events.len() + 2,
    }
}

/// Reads the next line, of which the line feed isn't there, behind `gone` events. `read` is what was read of it already.
fn read_trace_line(
    alloc: Global,
    gone: usize,
    begun: &mut Option<Trace>,
    line: &[u8],
    read: Option<(usize, Event)>,
) -> Result<(), (usize, TraceFault)>
    requires left { IsTraceLeft gone begun.old }
    requires one_line { HasNoLineFeed line.now }
    requires read { IfSome read (λ x. IsTraceLineOfEvent line.now x.0 x.1) }
    ensures on { IsTraceReadOn gone begun.old begun.new }
    ensures text { OnOk result ((front : List Event) → IsTraceBegun gone front begun.old
        → trace_begun_text front begun.new ≡ trace_begun_text front begun.old ++ (line.now ++ 10 ∷ [])) }
    ensures count { OnOk result (trace_begun_line_count begun.new ≡ trace_begun_line_count begun.old + 1) }
    ensures unread { OnErr result ((front : List Event) → trace_begun_text front begun.new ≡ trace_begun_text front begun.old) }
    ensures number { IfErr result (λ e. e.0 ≡ trace_begun_line_number gone begun.new) }
    ensures fault { IfErr result (λ e. (front : List Event) → IsTraceBegun gone front begun.old
        → IsTraceFaultLasting (trace_begun_text front begun.old ++ (line.now ++ 10 ∷ [])) e.0 e.1) }
{
    match begun {
        None => match begin_trace_lines(alloc, line) {
            Ok(trace) => {
                *begun = Some(trace);
                Ok(())
            }
            Err(fault) => Err((1, fault)),
        },
        Some(trace) => {
            let number = gone + trace.events.len() + 2;
            match add(alloc, &trace.sizes, gone, &mut trace.events, line, read) {
                Ok(()) => Ok(()),
                Err(fault) => Err((number, fault)),
            }
        }
    }
}

/// Keeps the label of the next line.
fn keep_trace_line_label(
    gone: usize,
    begun: &Option<Trace>,
    labels: &mut TraceLabels,
    label: &[u8],
) -> Result<(), (usize, TraceFault)>
    requires { IsTraceLeft gone begun.now }
    ensures kept { OnOk result (labels.new ≡ labels.old ++ (label.now ++ 10 ∷ [])) }
    ensures number { IfErr result (λ e. e.0 ≡ trace_begun_line_number gone begun.now) }
    ensures fault { IfErr result (λ e. e.1 ≡ NoMemory) }
{
    match labels.push(label) {
        Ok(()) => Ok(()),
        Err(_) => Err((next_trace_line_number(gone, begun), TraceFault::NoMemory)),
    }
}

/// The event of a line, if it is looked for at once: not where the line before had a label, since this one has one, too, then.
fn read_trace_line_at_once(alloc: Global, line: &[u8], has_labels: bool) -> Option<(usize, Event)>
    ensures { IfSome result (λ x. IsTraceLineOfEvent line.now x.0 x.1) }
{
    if has_labels {
        None
    } else {
        quick_trace_event(alloc, line)
    }
}

/// Reads the lines that are whole, behind `gone` events, keeps their labels, and answers what stands behind them. Where a line
/// isn't read, those before it are there. Adds to `passed` how many lines were passed over.
pub fn read_trace_lines<'a>(
    alloc: Global,
    gone: usize,
    begun: &mut Option<Trace>,
    labels: &mut TraceLabels,
    passed: &mut usize,
    bytes: &'a [u8],
) -> Result<&'a [u8], (usize, TraceFault)>
    requires { IsTraceLeft gone begun.old }
    ensures on { IsTraceReadOn gone begun.old begun.new }
    ensures read { (front : List Event) → IsTraceBegun gone front begun.old → (more : List ℕ)
        → BeginsWithTraceBegun front begun.new (trace_begun_text front begun.old ++ without_trace_labels (bytes.now ++ more)) }
    ensures rest { IfOk result (λ rest. HasNoLineFeed rest.now) }
    ensures behind { IfOk result (λ rest. (before : List ℕ) × (bytes.now ≡ before ++ rest.now)) }
    ensures text { IfOk result (λ rest. (front : List Event) → IsTraceBegun gone front begun.old → (more : List ℕ)
        → trace_begun_text front begun.new ++ without_trace_labels (rest.now ++ more)
        ≡ trace_begun_text front begun.old ++ without_trace_labels (bytes.now ++ more)) }
    ensures labels { IfOk result (λ rest. (more : List ℕ)
        → labels.new ++ trace_labels_of (rest.now ++ more) ≡ labels.old ++ trace_labels_of (bytes.now ++ more)) }
    ensures lines { OnOk result ((n : ℕ) → AreTraceLabelsBehind n (trace_begun_line_count begun.old) labels.old
        → AreTraceLabelsBehind n (trace_begun_line_count begun.new) labels.new) }
    ensures passed { IfOk result (λ rest. ArePassedOver passed.old bytes.now passed.new rest.now) }
    ensures refused { IfErr result (λ _. IsLineRefused gone begun.old begun.new bytes.now passed.old passed.new) }
    ensures number { IfErr result (λ e. e.0 ≡ trace_begun_line_number gone begun.new) }
    ensures fault { IfErr result (λ e. (front : List Event) → IsTraceBegun gone front begun.old → (more : List ℕ)
        → IsTraceFault (trace_begun_text front begun.old ++ without_trace_labels (bytes.now ++ more)) e.0 e.1) }
{
    // This is the one call of `read_trace_line`: so the compiler puts all that reads a line into the loop.
    let mut rest = bytes;
    let mut has_labels = false;
    while let Some((line, after)) = split_line(rest) {
        if is_trace_line_passed_over(line) {
            *passed = passed.saturating_add(1);
        } else {
            let read = read_trace_line_at_once(alloc, line, has_labels);
            let (event, label) = split_trace_label_unless_read(line, read);
            has_labels = !label.is_empty();
            keep_trace_line_label(gone, begun, labels, label)?;
            read_trace_line(alloc, gone, begun, event, read)?;
        }
        rest = after;
    }
    Ok(rest)
}

/// Whether the lines behind `gone` events may end here: whether there are any, and nothing stands behind the last line feed.
pub fn end_trace_lines(
    gone: usize,
    begun: &Option<Trace>,
    rest: &[u8],
) -> Result<(), (usize, TraceFault)>
    requires left { IsTraceLeft gone begun.now }
    requires rest { HasNoLineFeed rest.now }
    ensures whole { OnOk result (rest.now ≡ []) }
    ensures some { OnOk result (begun.now ≢ None) }
    ensures truncated { IfErr result (λ e. e.1 ≡ Truncated) }
    ensures fault { IfErr result (λ e. (front : List Event) → IsTraceBegun gone front begun.now
        → IsTraceFault (trace_begun_text front begun.now ++ rest.now) e.0 e.1) }
{
    if begun.is_some() && rest.is_empty() {
        Ok(())
    } else {
        Err((next_trace_line_number(gone, begun), TraceFault::Truncated))
    }
}

/// The trace that the lines are, of which none was let go of, where nothing stands behind the last line feed.
pub fn end(begun: Option<Trace>, rest: &[u8]) -> Result<Trace, (usize, TraceFault)>
    requires begun { IsTraceBegun 0 [] begun }
    requires rest { HasNoLineFeed rest.now }
    ensures whole { IfOk result (λ _. rest.now ≡ []) }
    ensures found { IfOk result (λ t. IsLawfulTrace (trace_sizes_of t.sizes) t.events.items
        × (trace_begun_text [] begun ++ rest.now ≡ trace_text (trace_sizes_of t.sizes) t.events.items)) }
    ensures again { IfOk result (λ t. IsNoOtherLawfulTrace (trace_begun_text [] begun ++ rest.now) (trace_sizes_of t.sizes) t.events.items) }
    ensures only { IfErr result (λ _. IsNoLawfulTrace (trace_begun_text [] begun ++ rest.now)) }
    ensures truncated { IfErr result (λ e. e.1 ≡ Truncated) }
    ensures fault { IfErr result (λ e. IsTraceFault (trace_begun_text [] begun ++ rest.now) e.0 e.1) }
{
    end_trace_lines(0, &begun, rest)?;
    Ok(begun.unwrap())
}
