//! The program that judges traces, over its reader and its writers.
ghost use Rattle.std.specs.Prelude.{◌≡◌, ◌≢◌, ◌⊎◌, ℕ, ◌<◌, ◌≤◌, List, [], Option, IfErr, IfOk, IfSome, length, option_map, take};
ghost use Rattle.std.specs.Io.KnownBytes.{Consumes, IsAtEnd, Keeps};
ghost use Rattle.lrc_check.specs.Traces.Prelude.{IsFedTextOf, IsLawfulTrace, trace_sizes_of};
ghost use Rattle.journal.specs.declared.event.Event.{Event};
ghost use Rattle.lrc_check.specs.Prelude.{IsFaultFoundInBytes, IsFoundInStream, IsTraceStream};
ghost use Rattle.lrc_commands.specs.declared.checking.Judgement.TheVariants as judgement;
ghost use Rattle.lrc_commands.specs.Prelude.{HasTraceCommandText, IsTraceCommandEnding, IsTraceCommandFound, IsTraceCommandText, IsCommandExitStatusBeforeAnswer, IsTraceCommandOnFaithful, IsCommandExitStatusOfInput, IsTraceCommandJudgedAs, IsTraceCommandNoText, IsTraceCommandOnNone};
ghost use Rattle.lrc_commands.specs.Prelude.{IsTraceCommandOnLie, IsTraceCommandOnRacy, IsTraceCommandReadSoFar, trace_command_ending, trace_command_locksets, trace_command_model, trace_command_judgement};

use crate::fault::CommandFault;
use crate::refused_line::RefusedLine;
use judge::MemoryModel;
use judge::locksets::LocksetWords;
use lrc_check::traces::fault::TraceFault;
use lrc_check::traces::reader::Reader;
use lrc_check::traces::trace::LabelledTrace;
use lrc_check::{
    CheckFault, Checked, JudgedTrace, RacesAsked, Rules, ToldEvents, TraceStream, TraceVerdict,
    write_verdict,
};
use lrc_json::write_checked_json;
use lrc_options::options::{TraceLocksets, TraceModel, TraceOptions};
use lrc_program::program_file_named;
use std::alloc::{AllocError, Global};
use std::io;
use std::io::{ErrorKind, Read, Write};

/// More bytes than are read of a trace. The longest one without labels has less: its 2^21 events take less than 64 bytes each.
const MOST_READ: usize = (1 << 27) + 128;

/// How many bytes are read at once, at most.
pub(crate) const PIECE: usize = 1 << 16;

/// The exit status of a trace that isn't faithful.
pub(crate) const UNFAITHFUL: u8 = 6;

/// How many races of a program's trace are told at most if no number is given.
const DEFAULT_RACES: u64 = 100;

/// The exit status of a trace whose judging ended with its race.
const RACY: u8 = 8;

/// The exit status of a program's trace at whose end processors wait for each other in a circle.
const HUNG: u8 = 9;

/// How judging a trace ended.
#[derive(Clone, Copy)]
pub enum Judgement {
    /// The trace is faithful.
    Faithful,
    /// It isn't.
    Unfaithful,
    /// It races, which was to end the judging.
    Racy,
    /// It is faithful, and a program's that hangs: at its end processors wait for each other in a circle.
    Hung,
}

/// What is read of a trace so far, or its first line with a fault.
type Reading = Result<Reader, (usize, TraceFault)>;

/// Reads some bytes, and none at the end alone. A read that a signal broke off is made again.
pub fn check_command_reads_some<S: Read>(source: &mut S, piece: &mut [u8]) -> io::Result<usize>
    requires { 0 < length piece.old }
    ensures bound { IfOk result (λ n. n ≤ length piece.new) }
    ensures bytes { IfOk result (λ n. Consumes (S.remaining source.old) (S.remaining source.new) (take n piece.new)) }
    ensures end { IfOk result (λ n. n ≡ 0 → IsAtEnd (S.remaining source.new)) }
{
    for _ in 0..u64::MAX {
        match source.read(piece) {
            Ok(count) => return Ok(count),
            Err(error) => {
                if error.kind() != ErrorKind::Interrupted {
                    return Err(error);
                }
            }
        }
    }
    Err(io::Error::from(ErrorKind::Interrupted))
}

/// Takes the next piece of a trace, and keeps the line that is refused. What comes behind a line with a fault changes nothing.
fn check_command_feeds(
    alloc: Global,
    reading: Reading,
    piece: &[u8],
    refused: &mut RefusedLine,
) -> Reading
    ensures { (source left after : Option (List ℕ)) → IsTraceCommandReadSoFar source left reading
        → Consumes left after piece.now → IsTraceCommandReadSoFar source after result }
{
    let mut reader = reading?;
    match reader.feed(alloc, piece) {
        Ok(()) => Ok(reader),
        Err(fault) => {
            refused.keep(reader.unfinished(), reader.passed(), reader.sizes());
            Err(fault)
        }
    }
}

/// The trace that was read, which may end in the midst of a line or not.
fn check_command_reader_ends(
    reader: Reader,
    unfinished: bool,
) -> Result<LabelledTrace, (usize, TraceFault)>
    ensures trace { IfOk result (λ t. IsLawfulTrace (trace_sizes_of t.trace.sizes) t.trace.events.items) }
    ensures text { IfOk result (λ t. (bytes : List ℕ) → IsFedTextOf bytes [] [] reader
        → IsTraceCommandText unfinished bytes (trace_sizes_of t.trace.sizes) t.trace.events.items) }
    ensures only { IfErr result (λ _. (bytes : List ℕ) → IsFedTextOf bytes [] [] reader → IsTraceCommandNoText unfinished bytes) }
{
    if unfinished {
        reader.finish_unfinished()
    } else {
        reader.finish()
    }
}

/// What was read after the last piece, of a trace that may end in the midst of a line or not.
fn finish(
    reading: Reading,
    unfinished: bool,
    refused: &mut RefusedLine,
) -> Result<LabelledTrace, CheckFault>
    ensures trace { IfOk result (λ t. IsLawfulTrace (trace_sizes_of t.trace.sizes) t.trace.events.items) }
    ensures text { IfOk result (λ t. (source left : Option (List ℕ)) → IsTraceCommandReadSoFar source left reading
        → IsAtEnd left → HasTraceCommandText unfinished source (trace_sizes_of t.trace.sizes) t.trace.events.items) }
    ensures refused { IfErr result (λ fault. IsFaultFoundInBytes fault → (source left : Option (List ℕ))
        → IsTraceCommandReadSoFar source left reading → IsAtEnd left → IsTraceCommandOnNone unfinished source) }
{
    let reader = reading?;
    refused.keep(reader.unfinished(), reader.passed(), reader.sizes());
    let labelled = check_command_reader_ends(reader, unfinished)?;
    Ok(labelled)
}

/// Reads a trace, all that the source has, a piece at a time. What is longer than any trace is refused without its rest.
fn check_command_reads_pieces<S: Read>(
    alloc: Global,
    source: &mut S,
    piece: &mut [u8],
    unfinished: bool,
    refused: &mut RefusedLine,
) -> Result<LabelledTrace, CommandFault>
    requires { 0 < length piece.old }
    ensures trace { IfOk result (λ t. IsLawfulTrace (trace_sizes_of t.trace.sizes) t.trace.events.items) }
    ensures text { IfOk result (λ t. HasTraceCommandText unfinished (S.remaining source.old) (trace_sizes_of t.trace.sizes) t.trace.events.items) }
    ensures refused { IfErr result (λ fault. IsCommandExitStatusOfInput fault → IsTraceCommandOnNone unfinished (S.remaining source.old)) }
{
    let mut reading = Ok(Reader::new(alloc));
    let mut total = 0;
    while total < MOST_READ {
        let count = check_command_reads_some(source, piece)?;
        if count == 0 {
            return Ok(finish(reading, unfinished, refused)?);
        }
        reading = check_command_feeds(alloc, reading, &piece[..count], refused);
        total += count;
    }
    Err(CommandFault::Long)
}

/// What is found if the text ends here, of a trace that may end in the midst of a line or not.
fn check_command_ends(stream: &TraceStream, unfinished: bool) -> Result<Checked, CheckFault>
    requires stream { (bytes : List ℕ) × IsTraceStream bytes stream.now }
    ensures found { IfOk result (λ x. (bytes : List ℕ) → IsTraceStream bytes stream.now
        → IsTraceCommandFound unfinished stream.now.rules bytes x) }
    ensures at_hand { IfOk result (λ x. (front : List Event) × IsFoundInStream front x stream.now) }
    ensures refused { IfErr result (λ fault. IsFaultFoundInBytes fault → (bytes : List ℕ) → IsTraceStream bytes stream.now
        → IsTraceCommandNoText unfinished bytes) }
{
    if unfinished {
        stream.finish_unfinished()
    } else {
        stream.finish()
    }
}

/// Reads a trace, a piece at a time, and judges it as it is read: what was found. Nothing behind a lie, or behind a race that
/// ends the judging, is read.
fn check_command_streams<S: Read>(
    alloc: Global,
    source: &mut S,
    piece: &mut [u8],
    stream: &mut TraceStream,
    unfinished: bool,
) -> Result<Checked, CommandFault>
    requires piece { 0 < length piece.old }
    requires stream { IsTraceStream [] stream.old }
    ensures judged { IfOk result (λ x. IsTraceCommandJudgedAs stream.old.rules.model stream.old.rules.lax unfinished (S.remaining source.old)
        (trace_command_judgement x.verdict)) }
    ensures racy { IfOk result (λ x. IfSome x.race (λ _. IsTraceCommandOnRacy (S.remaining source.old))) }
    ensures at_hand { IfOk result (λ x. (front : List Event) × IsFoundInStream front x stream.new) }
    ensures refused { IfErr result (λ fault. IsCommandExitStatusOfInput fault → IsTraceCommandOnNone unfinished (S.remaining source.old)) }
{
    for _ in 0..u64::MAX {
        let count = check_command_reads_some(source, piece)?;
        if count == 0 {
            return Ok(check_command_ends(stream, unfinished)?);
        }
        if let Some(found) = stream.feed(alloc, &piece[..count])? {
            return Ok(found);
        }
    }
    Err(CommandFault::Long)
}

/// Room for so many bytes.
pub(crate) fn room(alloc: Global, size: usize) -> Result<Vec<u8>, AllocError>
    ensures { IfOk result (λ v. length v.items ≡ size) }
{
    vec![in alloc; 0; size]
}

/// Reads a trace, so that its text is never there as a whole.
pub fn check_command_reads_all<S: Read>(
    alloc: Global,
    source: &mut S,
    unfinished: bool,
    refused: &mut RefusedLine,
) -> Result<LabelledTrace, CommandFault>
    ensures trace { IfOk result (λ t. IsLawfulTrace (trace_sizes_of t.trace.sizes) t.trace.events.items) }
    ensures text { IfOk result (λ t. HasTraceCommandText unfinished (S.remaining source.old) (trace_sizes_of t.trace.sizes) t.trace.events.items) }
    ensures refused { IfErr result (λ fault. IsCommandExitStatusOfInput fault → IsTraceCommandOnNone unfinished (S.remaining source.old)) }
{
    let mut piece = room(alloc, PIECE)?;
    check_command_reads_pieces(alloc, source, &mut piece, unfinished, refused)
}

/// How judging ended, by what was found. A faithful trace hangs if this says so.
fn check_command_judgement_of(verdict: &TraceVerdict, is_hung: bool) -> Judgement
    ensures { result ≡ trace_command_ending is_hung (trace_command_judgement verdict.now) }
{
    match verdict {
        TraceVerdict::Faithful { .. } if is_hung => Judgement::Hung,
        TraceVerdict::Faithful { .. } => Judgement::Faithful,
        TraceVerdict::Lie(_) => Judgement::Unfaithful,
        TraceVerdict::Racy => Judgement::Racy,
    }
}

/// How judging ended, by what was found. If a race is an error, a trace of which all races are told ends so as soon as one is told.
/// If not, a program's hangs if processors wait for each other in a circle.
fn check_command_judgement(options: &TraceOptions, judged: &JudgedTrace) -> Judgement
    ensures ending { IsTraceCommandEnding judged.now.found result }
    ensures hung { result ≡ judgement.Hung → judged.now.circles.items ≢ [] }
{
    let is_racy = judged.found.race.is_some();
    if options.race_is_error && is_racy && !judged.races.races.is_empty() {
        return Judgement::Racy;
    }
    let is_hung = options.program && !judged.circles.is_empty();
    check_command_judgement_of(&judged.found.verdict, is_hung)
}

/// The model that is asked for.
pub(crate) fn check_command_model(model: TraceModel) -> MemoryModel
    ensures { result ≡ trace_command_model model }
{
    match model {
        TraceModel::RaceFree => MemoryModel::RaceFree,
        TraceModel::HappensBefore => MemoryModel::HappensBefore,
        TraceModel::LazyRelease => MemoryModel::LazyRelease,
        TraceModel::Sequential => MemoryModel::Sequential,
    }
}

/// The words without a lock that are asked for.
fn check_command_locksets(words: TraceLocksets) -> LocksetWords
    ensures { result ≡ trace_command_locksets words }
{
    match words {
        TraceLocksets::Forgotten => LocksetWords::Forgotten,
        TraceLocksets::All => LocksetWords::All,
    }
}

/// The rules that are asked for.
fn check_command_rules(options: &TraceOptions) -> Rules
    ensures model { result.model ≡ trace_command_model options.now.model }
    ensures lax { result.lax ≡ options.now.lax }
    ensures locksets { result.locksets ≡ option_map trace_command_locksets options.now.locksets }
{
    Rules {
        model: check_command_model(options.model),
        lax: options.lax,
        ends_at_race: options.race_is_error && !options.program,
        locksets: options.locksets.map(check_command_locksets),
        all_races: options.program,
    }
}

/// Writes what was found of a trace as it is read, as text or as JSON.
fn check_command_writes<W: Write>(
    alloc: Global,
    json: bool,
    told: ToldEvents<'_>,
    rules: Rules,
    judged: &JudgedTrace,
    out: &mut W,
) -> Result<(), CommandFault>
    ensures refused { IfErr result (λ fault. IsCommandExitStatusOfInput fault → ⊥) }
    ensures early { IfErr result
        (λ fault. IsCommandExitStatusBeforeAnswer fault → Keeps (W.contents out.old) (W.contents out.new)) }
{
    if json {
        write_checked_json(alloc, told, rules, judged, out)?;
    } else {
        write_verdict(alloc, told, judged, rules, out)?;
    }
    Ok(())
}

/// Judges a trace as it is read, and keeps the line that is refused.
fn check_command_judges<S: Read>(
    alloc: Global,
    source: &mut S,
    stream: &mut TraceStream,
    unfinished: bool,
    refused: &mut RefusedLine,
) -> Result<Checked, CommandFault>
    requires { IsTraceStream [] stream.old }
    ensures judged { IfOk result (λ x. IsTraceCommandJudgedAs stream.old.rules.model stream.old.rules.lax unfinished (S.remaining source.old)
        (trace_command_judgement x.verdict)) }
    ensures racy { IfOk result (λ x. IfSome x.race (λ _. IsTraceCommandOnRacy (S.remaining source.old))) }
    ensures at_hand { IfOk result (λ x. (front : List Event) × IsFoundInStream front x stream.new) }
    ensures refused { IfErr result (λ fault. IsCommandExitStatusOfInput fault → IsTraceCommandOnNone unfinished (S.remaining source.old)) }
{
    let mut piece = room(alloc, PIECE)?;
    let found = check_command_streams(alloc, source, &mut piece, stream, unfinished);
    if found.is_err() {
        let (line, passed) = stream.refused_line();
        refused.keep(line, passed, stream.sizes());
    }
    found
}

/// Writes what was found of a trace of which these events can be told: how judging ended.
fn check_command_tells_judged<W: Write>(
    alloc: Global,
    options: &TraceOptions,
    told: ToldEvents<'_>,
    rules: Rules,
    judged: &JudgedTrace,
    out: &mut W,
) -> Result<Judgement, CommandFault>
    ensures judgement { IfOk result (IsTraceCommandEnding judged.now.found) }
    ensures refused { IfErr result (λ fault. IsCommandExitStatusOfInput fault → ⊥) }
    ensures early { IfErr result
        (λ fault. IsCommandExitStatusBeforeAnswer fault → Keeps (W.contents out.old) (W.contents out.new)) }
{
    check_command_writes(alloc, options.json, told, rules, judged, out)?;
    Ok(check_command_judgement(options, judged))
}

/// Writes what was found of a trace that was judged as it was read: how that ended.
// What was judged is large and wants a drop: so it stands beside one call alone, which borrows it.
fn check_command_tells<W: Write>(
    alloc: Global,
    options: &TraceOptions,
    rules: Rules,
    stream: &mut TraceStream,
    found: Checked,
    out: &mut W,
) -> Result<Judgement, CommandFault>
    requires { (front : List Event) × IsFoundInStream front found stream.old }
    ensures judgement { IfOk result (IsTraceCommandEnding found) }
    ensures refused { IfErr result (λ fault. IsCommandExitStatusOfInput fault → ⊥) }
    ensures early { IfErr result
        (λ fault. IsCommandExitStatusBeforeAnswer fault → Keeps (W.contents out.old) (W.contents out.new)) }
{
    let judged = stream.judged(alloc, found)?;
    let told = stream.told();
    let judgement = check_command_tells_judged(alloc, options, told, rules, &judged, out);
    drop(judged);
    judgement
}

/// Judges a trace as it is read, and writes what was found: how judging ended.
fn check_command_judges_and_tells<S: Read, W: Write>(
    alloc: Global,
    options: &TraceOptions,
    source: &mut S,
    stream: &mut TraceStream,
    refused: &mut RefusedLine,
    out: &mut W,
) -> Result<Judgement, CommandFault>
    requires { IsTraceStream [] stream.old }
    ensures judged { IfOk result
        (IsTraceCommandJudgedAs stream.old.rules.model stream.old.rules.lax options.now.unfinished (S.remaining source.old)) }
    ensures refused { IfErr result (λ fault. IsCommandExitStatusOfInput fault → IsTraceCommandOnNone options.now.unfinished (S.remaining source.old)) }
    ensures early { IfErr result
        (λ fault. IsCommandExitStatusBeforeAnswer fault → Keeps (W.contents out.old) (W.contents out.new)) }
{
    let found = check_command_judges(alloc, source, stream, options.unfinished, refused)?;
    let rules = check_command_rules(options);
    check_command_tells(alloc, options, rules, stream, found, out)
}

/// Reads a trace, judges it as it is read, and writes what was found: how judging ended.
// What is judged is large and wants a drop: so it stands beside one call alone, which borrows it, and its drop is a call.
fn check_command_on_source<S: Read, W: Write>(
    alloc: Global,
    options: &TraceOptions,
    left_out: Vec<Vec<u8>>,
    source: &mut S,
    refused: &mut RefusedLine,
    out: &mut W,
) -> Result<Judgement, CommandFault>
    ensures judged { IfOk result
        (IsTraceCommandJudgedAs (trace_command_model options.now.model) options.now.lax options.now.unfinished (S.remaining source.old)) }
    ensures refused { IfErr result (λ fault. IsCommandExitStatusOfInput fault → IsTraceCommandOnNone options.now.unfinished (S.remaining source.old)) }
    ensures early { IfErr result
        (λ fault. IsCommandExitStatusBeforeAnswer fault → Keeps (W.contents out.old) (W.contents out.new)) }
{
    let races = RacesAsked {
        most: options.most.unwrap_or(DEFAULT_RACES) as usize,
        left_out,
    };
    let mut stream = TraceStream::new(alloc, check_command_rules(options), races);
    let judged = check_command_judges_and_tells(alloc, options, source, &mut stream, refused, out);
    drop(stream);
    judged
}

/// Judges the trace of `source` as the options say: writes what was found to `out`, or one line to `err`, and answers
/// the exit status. The files that the options name aren't opened here. Of a program's trace the races are left out that have one of
/// the texts of `left_out` in a label.
pub fn run_check_command<S: Read, W: Write, E: Write>(
    alloc: Global,
    options: &TraceOptions,
    left_out: Vec<Vec<u8>>,
    source: &mut S,
    out: &mut W,
    err: &mut E,
) -> u8
    // The source had a trace, and it is faithful; it ends with a line, unless it was said that it may not.
    ensures faithful { result ≡ 0
        → IsTraceCommandOnFaithful (trace_command_model options.now.model) options.now.lax options.now.unfinished (S.remaining source.old) }
    // What the source had begins with a trace, and no trace that begins so is faithful.
    ensures unfaithful { result ≡ 6
        → IsTraceCommandOnLie (trace_command_model options.now.model) options.now.lax (S.remaining source.old) }
    // What the source had begins with a trace that races.
    ensures racy { result ≡ 8 → IsTraceCommandOnRacy (S.remaining source.old) }
    // The source had a faithful trace, as at status 0. That it hangs is tested.
    ensures hung { result ≡ 9
        → IsTraceCommandOnFaithful (trace_command_model options.now.model) options.now.lax options.now.unfinished (S.remaining source.old) }
    // What is refused as a trace is none.
    ensures refused { result ≡ 2 → IsTraceCommandOnNone options.now.unfinished (S.remaining source.old) }
    // At any status but 4, what was found is written whole or not at all.
    ensures early { result ≢ 0 → result ≢ 6 → result ≢ 8 → result ≢ 9 → result ≢ 4
        → Keeps (W.contents out.old) (W.contents out.new) }
    // If a trace was judged, no line goes to the error output.
    ensures quiet { (result ≡ 0) ⊎ ((result ≡ 6) ⊎ ((result ≡ 8) ⊎ (result ≡ 9))) → Keeps (E.contents err.old) (E.contents err.new) }
{
    let mut refused = RefusedLine::new(alloc);
    match check_command_on_source(alloc, options, left_out, source, &mut refused, out) {
        Ok(Judgement::Faithful) => 0,
        Ok(Judgement::Unfaithful) => UNFAITHFUL,
        Ok(Judgement::Racy) => RACY,
        Ok(Judgement::Hung) => HUNG,
        Err(fault) => {
            fault.say_of_trace(alloc, program_file_named(&options.file), &refused, err)
        }
    }
}
