//! What was found of a trace: its race, its lie, and at the end what was judged.
ghost use Rattle.std.specs.Prelude.{◌≡◌, [], ◌∷◌, ℕ, Err, IfOk, IfSome, List, None, OnOk, Some, codes, length, map};
ghost use Rattle.std.specs.Io.KnownBytes.{Appends};
ghost use Rattle.serde_json.specs.Data as tree;
ghost use Rattle.lrc_check.specs.declared.checked.Lie.TheVariants as lie;
ghost use Rattle.lrc_json.specs.declared.fault.JsonFault.TheVariants.{NoMemory};
ghost use Rattle.lrc_json.specs.Prelude.{AddedItems, AreLinesPut, BecameMembers, HasItems, HasLieMembers, HasMembers, IsCheckedJson, IsLieLine, json_access, json_checked_end, json_circles, json_first_race, json_lie_at, json_model, json_number, json_race, json_races, json_stores, json_told_event, json_told_race, json_traffic, json_unprotected, json_unprotected_lines, json_wait, json_waits, with_apart, with_guarded, with_known_event, with_number_if, with_racing, with_racing_access, with_verdict, with_waits};

use crate::events::event_json;
use crate::fault::JsonFault;
use crate::members::{Members, Values};
use crate::output::JsonLines;
use causes::{RaceApart, Wait};
use journal::Traffic;
use judge::locksets::{Guarded, PairedAccess, Unprotected};
use judge::{FlatStore, IllFormed, MemoryModel, Miscounted};
use lrc_check::{
    AnswersTold, JudgedTrace, KnownEvent, Lie, Rules, ToldEvents, ToldRace, TraceVerdict,
    Unexplained, verdict_reason_text, verdict_text_answers,
};
use std::alloc::{AllocError, Global};
use std::io::Write;

/// Adds the event of the trace at this place, with its label; null where none is known.
fn put_checked_place_json(
    members: &mut Members,
    alloc: Global,
    key: &str,
    told: ToldEvents<'_>,
    place: usize,
)
    ensures { BecameMembers members.old members.new (tree.put key.now (json_told_event told.entry place)) }
{
    match told.event(place) {
        Some(event) => members.put_object(key, event_json(alloc, place, event, told.label(place))),
        None => members.put_null(key),
    }
}

/// Adds the event of the trace at this place, if it is known.
fn put_checked_known_json(
    members: &mut Members,
    alloc: Global,
    key: &str,
    told: ToldEvents<'_>,
    place: usize,
)
    ensures { BecameMembers members.old members.new (with_known_event told.entry key.now place) }
{
    if told.event(place).is_some() {
        put_checked_place_json(members, alloc, key, told, place);
    }
}

/// Adds the event of this store.
fn put_checked_store_json(list: &mut Values, alloc: Global, told: ToldEvents<'_>, place: usize)
    ensures { AddedItems list.old list.new (json_told_event told.entry place ∷ []) }
{
    match told.event(place) {
        Some(event) => list.put_object(event_json(alloc, place, event, told.label(place))),
        None => list.put_null(),
    }
}

/// The events of these stores.
fn checked_stores_json(alloc: Global, told: ToldEvents<'_>, stores: &[FlatStore]) -> Values
    ensures { HasItems result (json_stores told.entry stores.now) }
{
    let mut list = Values::new(alloc);
    for store in stores {
        put_checked_store_json(&mut list, alloc, told, store.place as usize);
    }
    list
}

/// Adds what keeps the accesses of a race apart.
fn put_checked_apart_json(members: &mut Members, alloc: Global, apart: &RaceApart)
    ensures { BecameMembers members.old members.new (with_apart apart.now) }
{
    if let Some(heard) = apart.heard {
        members.put_number("heard", heard);
    }
    members.put_list("first_locks", Values::of_numbers(alloc, &apart.first_locks));
    members.put_list(
        "second_locks",
        Values::of_numbers(alloc, &apart.second_locks),
    );
}

/// The race by the places of its accesses, and what keeps them apart, if that is known.
fn checked_race_json(
    alloc: Global,
    told: ToldEvents<'_>,
    race: (usize, usize),
    apart: &Option<RaceApart>,
) -> Members
    ensures { HasMembers result (json_race told.entry race apart.now) }
{
    let mut members = Members::telling(alloc, "race");
    put_checked_known_json(&mut members, alloc, "first", told, race.0);
    put_checked_known_json(&mut members, alloc, "second", told, race.1);
    if let Some(apart) = apart {
        put_checked_apart_json(&mut members, alloc, apart);
    }
    members
}

/// A lie at this place, for a reason of this name.
fn checked_lie_at_json(alloc: Global, told: ToldEvents<'_>, place: usize, reason: &str) -> Members
    ensures { HasMembers result (json_lie_at told.entry place reason.now) }
{
    let mut members = Members::telling(alloc, "lie");
    put_checked_place_json(&mut members, alloc, "event", told, place);
    members.put_text("reason", reason);
    members
}

/// An event that may not follow.
fn checked_ill_formed_json(alloc: Global, told: ToldEvents<'_>, fault: IllFormed) -> Members
    ensures { HasLieMembers told.entry (lie.IllFormed fault) result }
{
    let mut members = checked_lie_at_json(alloc, told, fault.place, "form");
    members.put_string("because", verdict_reason_text(alloc, fault.why));
    members
}

/// A load that answers what it may not.
fn checked_unexplained_json(
    alloc: Global,
    told: ToldEvents<'_>,
    load: &Unexplained,
) -> Result<Members, AllocError>
    ensures { IfOk result (HasLieMembers told.entry (lie.Unexplained load.now)) }
{
    let AnswersTold { zero, stores } = verdict_text_answers(alloc, &load.permitted)?;
    let mut members = checked_lie_at_json(alloc, told, load.place, "answer");
    members.put_flag("zero", zero);
    members.put_list("stores", checked_stores_json(alloc, told, &stores));
    Ok(members)
}

/// A fetch that counts what it should not.
fn checked_miscount_json(alloc: Global, told: ToldEvents<'_>, fetch: Miscounted) -> Members
    ensures { HasLieMembers told.entry (lie.Miscounted fetch) result }
{
    let mut members = checked_lie_at_json(alloc, told, fetch.place, "count");
    members.put_number("writers", fetch.writers);
    members.put_number("records", fetch.records);
    members.put_number("words", fetch.words);
    members
}

/// The lie, and why it is one.
fn checked_lie_json(alloc: Global, told: ToldEvents<'_>, found: &Lie) -> Result<Members, AllocError>
    ensures { IfOk result (HasLieMembers told.entry found.now) }
{
    match found {
        Lie::IllFormed(fault) => Ok(checked_ill_formed_json(alloc, told, *fault)),
        Lie::Unexplained(load) => checked_unexplained_json(alloc, told, load),
        Lie::Miscounted(fetch) => Ok(checked_miscount_json(alloc, told, *fetch)),
    }
}

/// The name of a model.
fn checked_model_json(model: MemoryModel) -> &'static str
    ensures { result.now ≡ json_model model }
{
    match model {
        MemoryModel::RaceFree => "race-free",
        MemoryModel::HappensBefore => "happens-before",
        MemoryModel::LazyRelease => "lazy-release",
        MemoryModel::Sequential => "sequential",
    }
}

/// Adds the traffic.
fn put_checked_traffic_json(members: &mut Members, alloc: Global, traffic: Traffic)
    ensures { BecameMembers members.old members.new (tree.put (codes "traffic") (tree.object (json_traffic traffic))) }
{
    let Traffic {
        messages,
        records,
        words,
    } = traffic;
    let mut costs = Members::new(alloc);
    costs.put_count("messages", messages);
    costs.put_count("records", records);
    costs.put_count("words", words);
    members.put_object("traffic", costs);
}

/// Adds how the judging ended: of a faithful trace what wasn't judged of it, and its traffic.
fn put_checked_verdict_json(members: &mut Members, alloc: Global, verdict: &TraceVerdict)
    ensures { BecameMembers members.old members.new (with_verdict verdict.now) }
{
    match verdict {
        TraceVerdict::Faithful { traffic, unjudged } => {
            members.put_flag("faithful", true);
            members.put_number("unjudged", *unjudged);
            put_checked_traffic_json(members, alloc, *traffic);
        }
        TraceVerdict::Lie(_) => members.put_flag("faithful", false),
        TraceVerdict::Racy => {}
    }
}

/// Adds a lock that is waited for, and who holds it, if somebody does.
fn put_checked_lock_json(members: &mut Members, lock: usize, holder: Option<usize>)
    ensures { BecameMembers members.old members.new (λ ms. with_number_if (codes "holder") holder (tree.put (codes "lock") (json_number lock) ms)) }
{
    members.put_number("lock", lock);
    if let Some(holder) = holder {
        members.put_number("holder", holder);
    }
}

/// For what the processor waits.
fn checked_wait_json(alloc: Global, processor: usize, wait: &Wait) -> Members
    ensures { HasMembers result (json_wait processor wait.now) }
{
    let mut members = Members::new(alloc);
    members.put_number("processor", processor);
    match wait {
        Wait::Nothing => {}
        Wait::Lock { lock, holder, .. } => put_checked_lock_json(&mut members, *lock, *holder),
        Wait::Flag { flag, .. } => members.put_number("flag", *flag),
        Wait::Barrier { absent } => {
            members.put_flag("barrier", true);
            members.put_list("absent", Values::of_numbers(alloc, absent));
        }
    }
    members
}

/// For what each processor waits that does.
fn checked_each_wait_json(alloc: Global, waits: &[Wait]) -> Values
    ensures { HasItems result (json_waits 0 waits.now) }
{
    let mut list = Values::new(alloc);
    for (processor, wait) in waits.iter().enumerate() {
        if !matches!(wait, Wait::Nothing) {
            list.put_object(checked_wait_json(alloc, processor, wait));
        }
    }
    list
}

/// The circles of processors that wait for each other.
fn checked_circles_json(alloc: Global, circles: &[Vec<usize>]) -> Values
    ensures { HasItems result (json_circles circles.now) }
{
    let mut list = Values::new(alloc);
    for circle in circles {
        list.put_list(Values::of_numbers(alloc, circle));
    }
    list
}

/// Adds who waits at the end, and who wait for each other, if any do.
fn put_checked_waits_json(
    members: &mut Members,
    alloc: Global,
    waits: &[Wait],
    circles: &[Vec<usize>],
)
    ensures { BecameMembers members.old members.new (with_waits (json_waits 0 waits.now) circles.now) }
{
    let list = checked_each_wait_json(alloc, waits);
    if !list.is_empty() {
        members.put_list("waits", list);
        if !circles.is_empty() {
            members.put_list("circles", checked_circles_json(alloc, circles));
        }
    }
}

/// Adds how many words of a faithful trace race, if all are told, and how many of them are left out.
fn put_checked_racing_json(members: &mut Members, rules: Rules, judged: &JudgedTrace)
    ensures { BecameMembers members.old members.new (with_racing rules judged.now) }
{
    if rules.all_races && matches!(judged.found.verdict, TraceVerdict::Faithful { .. }) {
        members.put_number("racing", judged.racing.len());
        members.put_number("left_out", judged.races.left_out);
    }
}

/// What was judged, and how that ended.
fn checked_summary_json(alloc: Global, rules: Rules, judged: &JudgedTrace) -> Members
    ensures { HasMembers result (json_checked_end rules judged.now) }
{
    let mut members = Members::telling(alloc, "end");
    members.put_number("events", judged.found.count);
    members.put_text("model", checked_model_json(rules.model));
    members.put_flag("lax", rules.lax);
    members.put_flag("racy", judged.found.race.is_some());
    put_checked_verdict_json(&mut members, alloc, &judged.found.verdict);
    put_checked_racing_json(&mut members, rules, judged);
    put_checked_waits_json(&mut members, alloc, &judged.waits, &judged.circles);
    if let Some(line) = judged.unfinished {
        members.put_number("unfinished", line);
    }
    members
}

/// The access of the trace: as its event, or if that isn't at hand any more by its place and its processor alone.
fn checked_access_json(alloc: Global, told: ToldEvents<'_>, access: PairedAccess) -> Members
    ensures { HasMembers result (json_access told.entry access) }
{
    let PairedAccess { place, processor } = access;
    if let Some(event) = told.event(place) {
        return event_json(alloc, place, event, told.label(place));
    }
    let mut members = Members::new(alloc);
    members.put_number("place", place);
    members.put_number("processor", processor);
    members
}

/// Adds which accesses of a word hold a lock in common, and which one.
fn put_checked_guarded_json(
    members: &mut Members,
    alloc: Global,
    told: ToldEvents<'_>,
    guarded: Guarded,
)
    ensures { BecameMembers members.old members.new (with_guarded told.entry guarded) }
{
    let Guarded { accesses, lock } = guarded;
    let mut list = Values::new(alloc);
    list.put_object(checked_access_json(alloc, told, accesses.0));
    list.put_object(checked_access_json(alloc, told, accesses.1));
    members.put_list("guarded", list);
    members.put_number("lock", lock);
}

/// The word that needs a lock and has none: at times, or never, and then it is handed over. With two accesses of it that hold no
/// lock in common, and which hold one, if any do.
fn checked_unprotected_json(alloc: Global, told: ToldEvents<'_>, word: Unprotected) -> Members
    ensures { HasMembers result (json_unprotected told.entry word) }
{
    let name = match word.guarded {
        Some(_) => "unprotected",
        None => "handed",
    };
    let mut members = Members::telling(alloc, name);
    members.put_number("address", word.address);
    members.put_object("first", checked_access_json(alloc, told, word.unguarded.0));
    members.put_object("second", checked_access_json(alloc, told, word.unguarded.1));
    if let Some(guarded) = word.guarded {
        put_checked_guarded_json(&mut members, alloc, told, guarded);
    }
    members
}

/// Adds an access of a race, if it is known.
fn put_checked_racing_access_json(
    members: &mut Members,
    alloc: Global,
    key: &str,
    access: &Option<KnownEvent>,
)
    ensures { BecameMembers members.old members.new (with_racing_access key.now access.now) }
{
    if let Some(known) = access {
        members.put_object(
            key,
            event_json(alloc, known.place, known.event, &known.label),
        );
    }
}

/// A race that is told with others; of the first one of the trace what keeps its accesses apart, too, if that is known.
fn checked_told_race_json(alloc: Global, judged: &JudgedTrace, race: &ToldRace) -> Members
    ensures { HasMembers result (json_told_race judged.now race.now) }
{
    let mut members = Members::telling(alloc, "race");
    members.put_number("address", race.word.address);
    members.put_number("words", race.words);
    put_checked_racing_access_json(&mut members, alloc, "first", &race.first);
    put_checked_racing_access_json(&mut members, alloc, "second", &race.second);
    if let (Some((_, second)), Some(apart)) = (judged.found.race, &judged.race)
        && second == race.word.second
    {
        put_checked_apart_json(&mut members, alloc, apart);
    }
    members
}

/// Adds the lines of all races that are told.
fn put_checked_told_races_json(lines: &mut JsonLines, alloc: Global, judged: &JudgedTrace)
    ensures { AreLinesPut lines.old lines.new (json_races judged.now judged.now.races.races.items) }
{
    for race in &judged.races.races {
        lines.put(checked_told_race_json(alloc, judged, race));
    }
}

/// Adds the line of the first race, if not all words that race were asked for.
fn put_checked_first_race_json(
    lines: &mut JsonLines,
    alloc: Global,
    told: ToldEvents<'_>,
    judged: &JudgedTrace,
)
    ensures { AreLinesPut lines.old lines.new (json_first_race told.entry judged.now.found.race judged.now.race (length judged.now.racing.items)) }
{
    if let Some(race) = judged.found.race
        && judged.racing.is_empty()
    {
        lines.put(checked_race_json(alloc, told, race, &judged.race));
    }
}

/// Adds the line of the lie, if it is one.
fn put_checked_lie_json(
    lines: &mut JsonLines,
    alloc: Global,
    told: ToldEvents<'_>,
    verdict: &TraceVerdict,
)
    ensures { lines.new.fault ≡ None → (bytes : List ℕ) × IsLieLine told.entry verdict.now bytes × AreLinesPut lines.old lines.new bytes }
{
    if let TraceVerdict::Lie(lie) = verdict {
        lines.put_made(checked_lie_json(alloc, told, lie));
    }
}

/// Adds the lines of words that need a lock and have none.
fn put_checked_unprotected_json(
    lines: &mut JsonLines,
    alloc: Global,
    told: ToldEvents<'_>,
    words: &[Unprotected],
)
    ensures { AreLinesPut lines.old lines.new (json_unprotected_lines told.entry words.now) }
{
    for word in words {
        lines.put(checked_unprotected_json(alloc, told, *word));
    }
}

/// Adds the lines of what was found.
fn put_checked_lines_json(
    lines: &mut JsonLines,
    alloc: Global,
    told: ToldEvents<'_>,
    rules: Rules,
    judged: &JudgedTrace,
)
    ensures { lines.new.fault ≡ None → (bytes : List ℕ) × IsCheckedJson told.entry rules judged.now bytes × AreLinesPut lines.old lines.new bytes }
{
    put_checked_told_races_json(lines, alloc, judged);
    put_checked_first_race_json(lines, alloc, told, judged);
    put_checked_lie_json(lines, alloc, told, &judged.found.verdict);
    put_checked_unprotected_json(lines, alloc, told, &judged.unprotected);
    lines.put(checked_summary_json(alloc, rules, judged));
}

/// Writes what was found of a trace of which these events can be told, and flushes the writer: an object a line. First comes
/// `race`, if there is one, or one for each race that is told if all are. Then comes `lie`, if there is one. Then comes
/// `unprotected` for each word of which somebody forgot the lock, and `handed` for each that never has one. At the end stands
/// `end`.
///
/// # Errors
///
/// NoMemory, after which nothing was written. After Output a beginning of the lines may be.
pub fn write_checked_json<W: Write>(
    alloc: Global,
    told: ToldEvents<'_>,
    rules: Rules,
    judged: &JudgedTrace,
    out: &mut W,
) -> Result<(), JsonFault>
    ensures written { OnOk result ((text : List ℕ) × IsCheckedJson told.entry rules judged.now text × Appends (W.contents out.old) (W.contents out.new) text) }
    ensures unwritten { result ≡ Err NoMemory → W.contents out.new ≡ W.contents out.old }
{
    let mut lines = JsonLines::new(alloc);
    put_checked_lines_json(&mut lines, alloc, told, rules, judged);
    lines.write(out)
}
