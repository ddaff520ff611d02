//! One line of a trace.
ghost use Rattle.std.specs.Prelude.{◌≡◌, ◌+◌, ◌≤◌, IsTrue, ◌↔◌, [], ◌∷◌, length, IfOk, IfErr, IfSome, OnOk, OnErr, MatchOption};
ghost use Rattle.lrc_script.specs.Prelude.{parts_behind_in_read_line, script_line_space};
ghost use Rattle.lrc_check.specs.Traces.Prelude.{TraceLineGivesKind, HasNoTraceLineShape, TraceLineRead, IsTraceLineOfCut, IsTraceLineOfEvent, IsTraceFaultOfNoEvent, IsTraceLineShaped};
ghost use Rattle.lrc_check.specs.Traces.Prelude.{AreTraceSizes, TraceFaultRefuses, most_traced_events, trace_sizes_of};

use crate::traces::event_name::EventName;
use crate::traces::fault::TraceFault;
use crate::traces::range::trace_range_fault_of_event;
use crate::traces::trace::TraceSizes;
use journal::{Event, Kind};
use lrc_script::line::{
    few_numbers, is_script_line_separated, number, number_count, read_numbers, split_script_line_at,
};
use std::alloc::Global;

/// The words of an event's line, behind the first.
#[derive(Clone, Copy)]
struct Words<'a> {
    place: &'a [u8],
    processor: &'a [u8],
    name: EventName,
    numbers: Option<&'a [u8]>,
}

/// The next of these words, and those behind it.
fn next_word(words: Option<&[u8]>) -> Option<(&[u8], Option<&[u8]>)>
    ensures { MatchOption result (parts_behind_in_read_line script_line_space words.entry ≡ [])
        (λ x. parts_behind_in_read_line script_line_space words.entry ≡ x.0.now ∷ parts_behind_in_read_line script_line_space x.1) }
{
    match words {
        Some(words) => Some(split_script_line_at(words, b' ')),
        None => None,
    }
}

/// The words of a line that has the shape of an event's.
fn trace_event_words(line: &[u8]) -> Option<Words<'_>>
    ensures { MatchOption result (HasNoTraceLineShape line.now)
        (λ w. IsTraceLineShaped line.now w.place.now w.processor.now w.name (parts_behind_in_read_line script_line_space w.numbers)) }
{
    if !is_script_line_separated(line) {
        return None;
    }
    let (first, rest) = split_script_line_at(line, b' ');
    if first != b"event".as_slice() {
        return None;
    }
    let (place, rest) = next_word(rest)?;
    let (processor, rest) = next_word(rest)?;
    let (word, numbers) = next_word(rest)?;
    let name = EventName::of(word)?;
    if number_count(numbers) != name.numbers() {
        return None;
    }
    Some(Words {
        place,
        processor,
        name,
        numbers,
    })
}

/// What an event of this name did, where the words are numbers, and as many as stand behind the name.
// Within the loop over lines its answer doesn't go through memory, which is some 20 instructions a line.
#[inline(always)]
fn trace_event_kind(alloc: Global, name: EventName, words: Option<&[u8]>) -> Option<Kind>
    ensures { IfSome result (TraceLineGivesKind name (parts_behind_in_read_line script_line_space words.entry)) }
{
    if let Some(few) = few_numbers(words) {
        return name.kind(few.as_slice());
    }
    match read_numbers(alloc, words) {
        Ok(numbers) => name.kind(numbers.as_slice()),
        Err(_) => None,
    }
}

/// The event of a line, and the place that the line gives it. It goes over each word twice at most, and doesn't say
/// what is wrong: it answers None for each fault, and where memory runs out.
pub(crate) fn quick_trace_event(alloc: Global, line: &[u8]) -> Option<(usize, Event)>
    ensures { IfSome result (λ x. IsTraceLineOfEvent line.now x.0 x.1) }
{
    let (first, rest) = split_script_line_at(line, b' ');
    if first != b"event".as_slice() {
        return None;
    }
    let (place, rest) = next_word(rest)?;
    let (processor, rest) = next_word(rest)?;
    let (word, numbers) = next_word(rest)?;
    let name = EventName::of(word)?;
    let at = number(place)?;
    let by = number(processor)?;
    let kind = trace_event_kind(alloc, name, numbers)?;
    let processor = by as usize;
    Some((at as usize, Event { processor, kind }))
}

/// The event of a line, and the place that the line gives it, or what is wrong with the line.
fn trace_event_or_fault(alloc: Global, line: &[u8]) -> Result<(usize, Event), TraceFault>
    ensures found { IfOk result (λ x. IsTraceLineOfEvent line.now x.0 x.1) }
    ensures fault { IfErr result (λ e. IsTraceFaultOfNoEvent e line.now) }
{
    let Some(words) = trace_event_words(line) else {
        return Err(TraceFault::BadLine);
    };
    let Some(place) = number(words.place) else {
        return Err(TraceFault::BadNumber);
    };
    let Some(processor) = number(words.processor) else {
        return Err(TraceFault::BadNumber);
    };
    let numbers = match read_numbers(alloc, words.numbers) {
        Ok(numbers) => numbers,
        Err(fault) => return Err(TraceFault::from(fault)),
    };
    let Some(kind) = words.name.kind(numbers.as_slice()) else {
        return Err(TraceFault::BadLine);
    };
    let processor = processor as usize;
    Ok((place as usize, Event { processor, kind }))
}

/// The event of a line, and the place that the line gives it. Only a line that isn't read quickly is looked at for its
/// fault.
fn read_trace_event(alloc: Global, line: &[u8]) -> Result<(usize, Event), TraceFault>
    ensures found { IfOk result (λ x. IsTraceLineOfEvent line.now x.0 x.1) }
    ensures fault { IfErr result (λ e. IsTraceFaultOfNoEvent e line.now) }
{
    match quick_trace_event(alloc, line) {
        Some(found) => Ok(found),
        None => trace_event_or_fault(alloc, line),
    }
}

/// Whether the line tells how many events were cut off.
fn tells_cut_trace_events(line: &[u8]) -> bool
    ensures { IsTrue result ↔ IsTraceLineOfCut line.now }
{
    let (word, rest) = split_script_line_at(line, b' ');
    if word != b"cut".as_slice() {
        return false;
    }
    let Some(rest) = rest else {
        return false;
    };
    match number(rest) {
        Some(count) => count > 0,
        None => false,
    }
}

/// Adds the event of a line to those before it, behind the `gone` first ones, which aren't there. `read` is what was read of
/// the line already.
pub fn add(
    alloc: Global,
    sizes: &TraceSizes,
    gone: usize,
    events: &mut Vec<Event>,
    line: &[u8],
    read: Option<(usize, Event)>,
) -> Result<(), TraceFault>
    requires sizes { AreTraceSizes (trace_sizes_of sizes.now) }
    requires few { gone + length events.old.items ≤ most_traced_events }
    requires read { IfSome read (λ x. IsTraceLineOfEvent line.now x.0 x.1) }
    ensures found { OnOk result (TraceLineRead (trace_sizes_of sizes.now) gone events.old.items line.now events.new.items) }
    ensures fault { IfErr result (λ e. TraceFaultRefuses e (trace_sizes_of sizes.now) (gone + length events.old.items) line.now) }
    ensures unchanged { OnErr result (events.new.items ≡ events.old.items) }
{
    let count = gone + events.len();
    let (place, event) = match read {
        Some(read) => read,
        None => {
            if count == 0 && tells_cut_trace_events(line) {
                return Err(TraceFault::Cut);
            }
            read_trace_event(alloc, line)?
        }
    };
    if let Some(fault) = trace_range_fault_of_event(sizes, count, place, &event) {
        return Err(fault);
    }
    events.push(event)?;
    Ok(())
}
