//! The text of what was found of a trace.
ghost use Rattle.std.specs.Prelude.{◌≡◌, ◌++◌, OnOk};
ghost use Rattle.lrc_report.specs.ReportText.{report_event_text};
ghost use Rattle.lrc_check.specs.Prelude.{told_line_label_mark, told_line_labelled, told_line};

use crate::checked::{Lie, Rules, TraceVerdict, Unexplained};
use crate::checking_traces::JudgedTrace;
use crate::told_events::{KnownEvent, ToldEvents};
use crate::told_races::ToldRace;
use crate::unprotected::put_unprotected_text;
use crate::waiting::put_waits_text;
use causes::RaceApart;
use journal::{Event, Kind, Traffic};
use judge::{FlatStore, MemoryModel, Miscounted, Permitted, Why};
use lrc_prose::numbers::ProseNumbers;
use lrc_prose::racing::RaceProse;
use lrc_prose::text::ProseText;
use lrc_report::{ReportLine, render};
use std::alloc::{AllocError, Global};

/// How many stores are told that a load may answer, at most.
const MOST_TOLD: usize = 64;

/// How far the sentences on a race are indented.
const INDENT: usize = 2;

/// Adds a label behind two spaces, if there is one.
fn put_verdict_label_text(text: &mut Vec<u8>, label: &[u8]) -> Result<(), AllocError>
    ensures { OnOk result (text.new.items ≡ text.old.items ++ told_line_label_mark label.now) }
{
    if label.is_empty() {
        return Ok(());
    }
    text.extend_from_slice(b"  ")?;
    text.extend_from_slice(label)?;
    Ok(())
}

/// Adds the line of this event, as the trace has it, with its label.
pub(crate) fn put_verdict_line_text(
    text: &mut Vec<u8>,
    place: usize,
    event: Event,
    label: &[u8],
) -> Result<(), AllocError>
    ensures { OnOk result (text.new.items ≡ text.old.items ++ told_line_labelled (report_event_text place event) label.now) }
{
    let mut line = ReportLine::new();
    render::render_report_event(&mut line, place as u64, &event);
    let bytes = line.bytes();
    text.extend_from_slice(&bytes[..bytes.len() - 1])?;
    put_verdict_label_text(text, label)?;
    text.push(b'\n')?;
    Ok(())
}

/// Adds the line of the event at this place, as the trace has it, with its label; nothing if the event isn't known.
fn put_verdict_event_text(
    text: &mut Vec<u8>,
    told: ToldEvents<'_>,
    place: usize,
) -> Result<(), AllocError>
    ensures { OnOk result (text.new.items ≡ text.old.items
        ++ told_line told.entry place) }
{
    let Some(event) = told.event(place) else {
        return Ok(());
    };
    put_verdict_line_text(text, place, event, told.label(place))
}

/// Adds the lines of these stores.
fn put_verdict_stores_text(
    text: &mut Vec<u8>,
    told: ToldEvents<'_>,
    stores: &[FlatStore],
) -> Result<(), AllocError> {
    for store in stores {
        put_verdict_event_text(text, told, store.place as usize)?;
    }
    Ok(())
}

/// What its processor waits for.
fn verdict_awaited_text(alloc: Global, kind: Kind) -> Result<String, AllocError> {
    match kind {
        Kind::Acquire(lock) => format!(in alloc; "its processor waits for lock {lock}"),
        Kind::Await(flag) => format!(in alloc; "its processor waits for flag {flag}"),
        _ => String::from_str(alloc, "its processor waits at the barrier"),
    }
}

/// A reason that names nobody.
fn verdict_plain_reason_text(why: Why) -> &'static str {
    match why {
        Why::NoSuchProcessor => "there is no such processor",
        Why::OutOfRange => "a number of it is out of range",
        Why::AsksWhatItHolds => "its processor holds the lock",
        Why::NotAsked => "its processor has not just asked, arrived or watched for it",
        Why::NotHeld => "its processor does not hold the lock",
        Why::NotSet => "nobody has set the flag",
        _ => "it may not stand there",
    }
}

/// Why an event may not follow what stands before it. The only error is running out of memory.
pub fn verdict_reason_text(alloc: Global, why: Why) -> Result<String, AllocError> {
    match why {
        Why::Waits(kind) => verdict_awaited_text(alloc, kind),
        Why::HeldBy(holder) => format!(in alloc; "processor {holder} holds the lock"),
        Why::AskedEarlier(asker, place) => format!(in alloc;
            "processor {asker} asked for the lock earlier, by event {place}"
        ),
        Why::NotArrived(other) => format!(in alloc; "processor {other} has not arrived"),
        _ => String::from_str(alloc, verdict_plain_reason_text(why)),
    }
}

/// Whether a store of the same value by the same processor is among these.
fn is_told(stores: &[FlatStore], store: FlatStore) -> bool {
    for told in stores {
        if told.by == store.by && told.value == store.value {
            return true;
        }
    }
    false
}

/// Adds the stores that aren't told yet, as long as there are few.
fn add_untold(stores: &mut Vec<FlatStore>, unordered: &[FlatStore]) -> Result<(), AllocError> {
    for store in unordered {
        if stores.len() < MOST_TOLD && !is_told(stores, *store) {
            stores.push(*store)?;
        }
    }
    Ok(())
}

/// What a load may answer, as it is told: 0, if it may, and the values of some stores.
#[derive(Drop)]
pub struct AnswersTold {
    pub zero: bool,
    /// Of those of one value by one processor the first, and `MOST_TOLD` in all at most, but for the latest ones.
    pub stores: Vec<FlatStore>,
}

/// What a load may answer, as it is told. The only error is running out of memory.
pub fn verdict_text_answers(
    alloc: Global,
    permitted: &Permitted,
) -> Result<AnswersTold, AllocError> {
    let mut stores = Vec::new(alloc);
    match permitted {
        Permitted::Latest(latest) | Permitted::Heard(latest, _) => {
            stores.extend_from_slice(latest)?;
        }
        Permitted::One(Some(store)) | Permitted::Last(Some(store)) => stores.push(*store)?,
        Permitted::One(None) | Permitted::Last(None) => {}
    }
    let zero = stores.is_empty();
    if let Permitted::Heard(_, unordered) = permitted {
        add_untold(&mut stores, unordered)?;
    }
    Ok(AnswersTold { zero, stores })
}

/// What the load may answer; if `are_told` says so, the stores follow that it may answer.
fn verdict_permitted_text(zero: bool, are_told: bool) -> &'static str {
    match (zero, are_told) {
        (_, false) => "it may answer 0 alone",
        (true, true) => "it may answer 0, or only what was stored by",
        (false, true) => "it may answer only what was stored by",
    }
}

/// What the load may answer, with the numbers of the stores.
fn verdict_unexplained_text(alloc: Global, load: &Unexplained) -> Result<String, AllocError> {
    let AnswersTold { zero, stores } = verdict_text_answers(alloc, &load.permitted)?;
    let mut text = String::from_str(alloc, verdict_permitted_text(zero, !stores.is_empty()))?;
    for (index, store) in stores.iter().enumerate() {
        let front = if index == 0 { " " } else { ", " };
        let place = store.place;
        let event = format!(in alloc; "{front}event {place}")?;
        text.push_str(&event)?;
    }
    Ok(text)
}

/// What the fetch has to count.
fn verdict_miscounted_text(alloc: Global, fetch: Miscounted) -> Result<String, AllocError> {
    let Miscounted {
        writers,
        records,
        words,
        ..
    } = fetch;
    format!(in alloc;
        "the fetch has to count {writers} writers, {records} records and {words} words"
    )
}

/// Why the event is a lie, in a line. The only error is running out of memory.
pub(crate) fn verdict_lie_text(alloc: Global, lie: &Lie) -> Result<String, AllocError> {
    match lie {
        Lie::IllFormed(fault) => verdict_reason_text(alloc, fault.why),
        Lie::Unexplained(load) => verdict_unexplained_text(alloc, load),
        Lie::Miscounted(fetch) => verdict_miscounted_text(alloc, *fetch),
    }
}

/// Adds a line that says why an event is a lie.
fn put_verdict_reason_text(text: &mut Vec<u8>, reason: &str) -> Result<(), AllocError> {
    text.extend_from_slice(b"because ")?;
    text.extend_from_slice(reason.as_bytes())?;
    text.push(b'\n')?;
    Ok(())
}

/// Adds what the load may answer: the stores have a line each.
fn put_verdict_unexplained_text(
    text: &mut Vec<u8>,
    alloc: Global,
    told: ToldEvents<'_>,
    load: &Unexplained,
) -> Result<(), AllocError> {
    let AnswersTold { zero, stores } = verdict_text_answers(alloc, &load.permitted)?;
    put_verdict_reason_text(text, verdict_permitted_text(zero, !stores.is_empty()))?;
    put_verdict_stores_text(text, told, &stores)
}

/// The sentences on the race: what keeps its accesses apart, and what would have ordered them.
fn verdict_reasons_text(
    alloc: Global,
    events: &[Event],
    apart: &RaceApart,
) -> Result<Vec<u8>, AllocError> {
    let race = RaceProse {
        numbers: ProseNumbers::whole(),
        events,
        apart,
    };
    let mut reasons = ProseText::new(alloc);
    race.put_reasons(&mut reasons, INDENT);
    reasons.finish()
}

/// Adds the race, if one was found: its two events, and the sentences on it, if what keeps the two apart is known.
fn put_verdict_race_text(
    text: &mut Vec<u8>,
    alloc: Global,
    told: ToldEvents<'_>,
    judged: &JudgedTrace,
) -> Result<(), AllocError> {
    let Some((first, second)) = judged.found.race else {
        return Ok(());
    };
    text.extend_from_slice(b"verdict racy\n")?;
    put_verdict_event_text(text, told, first)?;
    put_verdict_event_text(text, told, second)?;
    put_verdict_reasons_text(text, alloc, told, judged)
}

/// Adds the sentences on the first race, if what keeps its accesses apart is known.
fn put_verdict_reasons_text(
    text: &mut Vec<u8>,
    alloc: Global,
    told: ToldEvents<'_>,
    judged: &JudgedTrace,
) -> Result<(), AllocError> {
    if let Some(apart) = &judged.race {
        let reasons = verdict_reasons_text(alloc, told.events, apart)?;
        text.extend_from_slice(&reasons)?;
    }
    Ok(())
}

/// Adds the line of an access, if it is known.
fn put_verdict_access_text(
    text: &mut Vec<u8>,
    access: &Option<KnownEvent>,
) -> Result<(), AllocError> {
    match access {
        Some(known) => put_verdict_line_text(text, known.place, known.event, &known.label),
        None => Ok(()),
    }
}

/// Adds a race that is told with others: its word, how many others race between the same labels, and its two events.
fn put_verdict_told_race_text(
    text: &mut Vec<u8>,
    alloc: Global,
    race: &ToldRace,
) -> Result<(), AllocError> {
    let address = race.word.address;
    let others = race.words.saturating_sub(1);
    let line = match others {
        0 => format!(in alloc; "race of word {address}\n")?,
        1 => format!(in alloc; "race of word {address}, and of 1 more with these labels\n")?,
        _ => format!(in alloc; "race of word {address}, and of {others} more with these labels\n")?,
    };
    text.extend_from_slice(line.as_bytes())?;
    put_verdict_access_text(text, &race.first)?;
    put_verdict_access_text(text, &race.second)
}

/// Adds how many words race, and how many of them are left out, if any are.
fn put_verdict_racing_text(
    text: &mut Vec<u8>,
    alloc: Global,
    judged: &JudgedTrace,
) -> Result<(), AllocError> {
    let words = judged.racing.len();
    let left_out = judged.races.left_out;
    let line = format!(in alloc; "racing words {words}\n")?;
    text.extend_from_slice(line.as_bytes())?;
    if left_out > 0 {
        let line = format!(in alloc; "left out {left_out} words\n")?;
        text.extend_from_slice(line.as_bytes())?;
    }
    Ok(())
}

/// Adds all races of a faithful trace, those that are told: with the sentences on the first one, if that is told.
fn put_verdict_all_races_text(
    text: &mut Vec<u8>,
    alloc: Global,
    told: ToldEvents<'_>,
    judged: &JudgedTrace,
) -> Result<(), AllocError> {
    let Some((_, second)) = judged.found.race else {
        return Ok(());
    };
    text.extend_from_slice(b"verdict racy\n")?;
    for race in &judged.races.races {
        put_verdict_told_race_text(text, alloc, race)?;
        if race.word.second == second {
            put_verdict_reasons_text(text, alloc, told, judged)?;
        }
    }
    put_verdict_racing_text(text, alloc, judged)
}

/// The place of the lie.
fn verdict_text_place(lie: &Lie) -> usize {
    match lie {
        Lie::IllFormed(fault) => fault.place,
        Lie::Unexplained(load) => load.place,
        Lie::Miscounted(fetch) => fetch.place,
    }
}

/// Adds the lie: its place, its line, and why it is one.
fn put_verdict_lie_text(
    text: &mut Vec<u8>,
    alloc: Global,
    told: ToldEvents<'_>,
    lie: &Lie,
) -> Result<(), AllocError> {
    let place = verdict_text_place(lie);
    let line = format!(in alloc; "unfaithful {place}\n")?;
    text.extend_from_slice(line.as_bytes())?;
    put_verdict_event_text(text, told, place)?;
    match lie {
        Lie::Unexplained(load) => put_verdict_unexplained_text(text, alloc, told, load),
        _ => put_verdict_reason_text(text, &verdict_lie_text(alloc, lie)?),
    }
}

/// Adds the traffic.
fn put_verdict_traffic_text(
    text: &mut Vec<u8>,
    alloc: Global,
    traffic: Traffic,
) -> Result<(), AllocError> {
    let Traffic {
        messages,
        records,
        words,
    } = traffic;
    let line = format!(in alloc; "traffic {messages} {records} {words}\n")?;
    text.extend_from_slice(line.as_bytes())?;
    Ok(())
}

/// Adds the number of the line in whose midst the trace ends, if it does.
fn put_verdict_unfinished_text(
    text: &mut Vec<u8>,
    alloc: Global,
    unfinished: Option<usize>,
) -> Result<(), AllocError> {
    if let Some(number) = unfinished {
        let line = format!(in alloc; "unfinished line {number}\n")?;
        text.extend_from_slice(line.as_bytes())?;
    }
    Ok(())
}

/// Adds how many loads weren't judged, if that is told: under the race-free model after a race.
fn put_verdict_unjudged_loads_text(
    text: &mut Vec<u8>,
    alloc: Global,
    rules: Rules,
    is_racy: bool,
    unjudged: usize,
) -> Result<(), AllocError> {
    match rules.model {
        MemoryModel::RaceFree if is_racy => {
            let line = format!(in alloc; "unjudged {unjudged} loads\n")?;
            text.extend_from_slice(line.as_bytes())?;
        }
        _ => {}
    }
    Ok(())
}

/// Adds what isn't judged under lax rules, if it is judged unless these are asked for: under this memory's own model.
fn put_verdict_unjudged_text(text: &mut Vec<u8>, rules: Rules) -> Result<(), AllocError> {
    match rules.model {
        MemoryModel::LazyRelease if rules.lax => {
            text.extend_from_slice(b"unjudged counts order\n")?;
        }
        _ => {}
    }
    Ok(())
}

/// The name of a model other than the memory's own, which isn't told.
fn verdict_text_model_name(model: MemoryModel) -> Option<&'static str> {
    match model {
        MemoryModel::RaceFree => Some("race-free"),
        MemoryModel::HappensBefore => Some("happens-before"),
        MemoryModel::LazyRelease => None,
        MemoryModel::Sequential => Some("sequential"),
    }
}

/// The lines that say how many events were judged and under which model.
fn verdict_text_opening(
    alloc: Global,
    count: usize,
    model: MemoryModel,
) -> Result<Vec<u8>, AllocError> {
    let mut text = Vec::new(alloc);
    let line = format!(in alloc; "events {count}\n")?;
    text.extend_from_slice(line.as_bytes())?;
    if let Some(name) = verdict_text_model_name(model) {
        text.extend_from_slice(b"model ")?;
        text.extend_from_slice(name.as_bytes())?;
        text.push(b'\n')?;
    }
    Ok(text)
}

/// Adds what was found of a faithful trace: what isn't judged, its race, its words without a lock, who waits, and its traffic.
fn put_verdict_faithful_text(
    text: &mut Vec<u8>,
    alloc: Global,
    told: ToldEvents<'_>,
    judged: &JudgedTrace,
    rules: Rules,
    traffic: Traffic,
    unjudged: usize,
) -> Result<(), AllocError> {
    let is_racy = judged.found.race.is_some();
    text.extend_from_slice(b"faithful\n")?;
    put_verdict_unjudged_text(text, rules)?;
    put_verdict_unjudged_loads_text(text, alloc, rules, is_racy, unjudged)?;
    if !is_racy {
        text.extend_from_slice(b"verdict race-free\n")?;
    }
    if rules.all_races {
        put_verdict_all_races_text(text, alloc, told, judged)?;
    } else {
        put_verdict_race_text(text, alloc, told, judged)?;
    }
    put_unprotected_text(text, alloc, told, &judged.unprotected)?;
    put_waits_text(text, alloc, &judged.waits, &judged.circles)?;
    put_verdict_traffic_text(text, alloc, traffic)?;
    put_verdict_unfinished_text(text, alloc, judged.unfinished)
}

/// Adds what was found of the trace.
fn put_verdict_found_text(
    text: &mut Vec<u8>,
    alloc: Global,
    told: ToldEvents<'_>,
    judged: &JudgedTrace,
    rules: Rules,
) -> Result<(), AllocError> {
    match &judged.found.verdict {
        TraceVerdict::Faithful { traffic, unjudged } => {
            put_verdict_faithful_text(text, alloc, told, judged, rules, *traffic, *unjudged)
        }
        TraceVerdict::Lie(lie) => {
            put_verdict_race_text(text, alloc, told, judged)?;
            put_verdict_lie_text(text, alloc, told, lie)
        }
        TraceVerdict::Racy => put_verdict_race_text(text, alloc, told, judged),
    }
}

/// The text of what was found of this trace. The only error is running out of memory.
pub(crate) fn verdict_text_of(
    alloc: Global,
    told: ToldEvents<'_>,
    judged: &JudgedTrace,
    rules: Rules,
) -> Result<Vec<u8>, AllocError> {
    let mut text = verdict_text_opening(alloc, judged.found.count, rules.model)?;
    put_verdict_found_text(&mut text, alloc, told, judged, rules)?;
    Ok(text)
}
