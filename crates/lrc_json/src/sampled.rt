//! What a script's runs came to: an object for each result, and at the end how many runs there were.
ghost use Rattle.std.specs.Prelude.{◌≡◌, [], ◌∷◌, Err, IfOk, None, OnOk, map, string_bytes};
ghost use Rattle.std.specs.Io.KnownBytes.{Appends};
ghost use Rattle.serde_json.specs.Data as tree;
ghost use Rattle.conformance.specs.Prelude.{schedule_text};
ghost use Rattle.lrc_json.specs.declared.fault.JsonFault.TheVariants.{NoMemory};
ghost use Rattle.lrc_json.specs.Prelude.{AddedItems, AreItemsAdded, BecameMembers, HasItems, HasMembers, json_of_sample, json_owner, json_replies, json_sampled_result, json_sampled_summary, json_word, sampled_words_by, with_sampled_answers, with_sampled_outcome};

use crate::fault::JsonFault;
use crate::members::{Members, Values};
use crate::outcomes::{outcome_replies_json, outcome_word_json};
use crate::output::JsonLines;
use lrc_sample::TallyLine;
use lrc_sample::outcome::{Reply, SampleOutcome, SampleOutcomeAnswers, SampleVerdict};
use lrc_sample::sampling::Sampled;
use lrc_sample::text::{runs_of_sample, runs_of_sample_verdict};
use std::alloc::{AllocError, Global};
use std::io::Write;

/// The shown addresses with their words.
fn sampled_words_json(alloc: Global, words: &[(usize, u32)]) -> Values
    ensures { HasItems result (map (λ x. tree.object (json_word x)) words.now) }
{
    let mut list = Values::new(alloc);
    for (address, word) in words {
        list.put_object(outcome_word_json(alloc, *address, *word));
    }
    list
}

/// The words that the loads of the processor answered.
fn sampled_words_by_json(
    alloc: Global,
    processor: usize,
    replies: &[Reply],
) -> Result<Vec<u32>, AllocError>
    ensures { IfOk result (λ v. v.items ≡ sampled_words_by processor replies.now) }
{
    let mut words = Vec::new(alloc);
    for reply in replies {
        if reply.processor == processor {
            words.push(reply.word)?;
        }
    }
    Ok(words)
}

/// Adds what the loads of the processor answered.
fn put_sampled_replies_by_json(
    list: &mut Values,
    alloc: Global,
    processor: usize,
    replies: &[Reply],
) -> Result<(), AllocError>
    ensures { OnOk result (list.new.fault ≡ None → AreItemsAdded list.old list.new (json_owner replies.now processor ∷ [])) }
{
    let words = sampled_words_by_json(alloc, processor, replies)?;
    list.put_object(outcome_replies_json(alloc, processor, &words));
    Ok(())
}

/// Adds what the loads answered, of each processor that loads.
fn put_sampled_replies_json(
    list: &mut Values,
    alloc: Global,
    replies: &[Reply],
) -> Result<(), AllocError>
    ensures { OnOk result (AddedItems list.old list.new (json_replies replies.now)) }
{
    let mut last = None;
    for reply in replies {
        let processor = reply.processor;
        if last != Some(processor) {
            put_sampled_replies_by_json(list, alloc, processor, replies)?;
            last = Some(processor);
        }
    }
    Ok(())
}

/// Adds what a run that ended answered, as far as it is told.
fn put_sampled_answers_json(
    members: &mut Members,
    alloc: Global,
    answers: &SampleOutcomeAnswers,
) -> Result<(), AllocError>
    ensures { OnOk result (BecameMembers members.old members.new (with_sampled_answers answers.now)) }
{
    let verdict = if answers.is_racy() {
        "racy"
    } else {
        "race-free"
    };
    let mut replies = Values::new(alloc);
    put_sampled_replies_json(&mut replies, alloc, answers.replies())?;
    members.put_text("verdict", verdict);
    members.put_list("words", sampled_words_json(alloc, answers.words()));
    members.put_list("replies", replies);
    Ok(())
}

/// Adds what a run came to.
fn put_sampled_outcome_json(
    members: &mut Members,
    alloc: Global,
    outcome: &SampleOutcome,
) -> Result<(), AllocError>
    ensures { OnOk result (BecameMembers members.old members.new (with_sampled_outcome outcome.now)) }
{
    match outcome {
        SampleOutcome::Ended(answers) => put_sampled_answers_json(members, alloc, answers),
        SampleOutcome::Stuck(processor) => {
            members.put_text("verdict", "stuck");
            members.put_number("processor", *processor);
            Ok(())
        }
    }
}

/// The text of a schedule.
fn sampled_schedule_json(alloc: Global, line: &TallyLine) -> Result<String, AllocError>
    ensures { IfOk result (λ s. string_bytes s ≡ schedule_text line.now.schedule.turns.items) }
{
    let mut schedule = String::new(alloc);
    line.schedule.put(&mut schedule)?;
    Ok(schedule)
}

/// A result: how often it came, and a schedule that shows it.
fn sampled_result_json(alloc: Global, line: &TallyLine) -> Result<Members, AllocError>
    ensures { IfOk result (λ m. HasMembers m (json_sampled_result line.now)) }
{
    let mut members = Members::telling(alloc, "result");
    members.put_exact("runs", line.times);
    put_sampled_outcome_json(&mut members, alloc, &line.outcome)?;
    members.put_string("schedule", sampled_schedule_json(alloc, line));
    Ok(members)
}

/// How many runs and results there were, and how many runs had each verdict.
fn sampled_summary_json(alloc: Global, lines: &[TallyLine]) -> Members
    ensures { HasMembers result (json_sampled_summary lines.now) }
{
    let race_free = runs_of_sample_verdict(lines, SampleVerdict::RaceFree);
    let racy = runs_of_sample_verdict(lines, SampleVerdict::Racy);
    let stuck = runs_of_sample_verdict(lines, SampleVerdict::Stuck);
    let mut members = Members::telling(alloc, "end");
    members.put_exact("runs", runs_of_sample(lines));
    members.put_number("results", lines.len());
    members.put_exact("race_free", race_free);
    members.put_exact("racy", racy);
    members.put_exact("stuck", stuck);
    members
}

/// Writes what a script's runs came to, and flushes the writer: an object a line. First `result` for each result, in the order
/// of `lrc_sample::text::render`, and at the end `end`.
///
/// # Errors
///
/// NoMemory, after which nothing was written. After Output a beginning of the lines may be.
pub fn write_sampled_json<W: Write>(
    alloc: Global,
    sampled: &Sampled,
    out: &mut W,
) -> Result<(), JsonFault>
    ensures written { OnOk result (Appends (W.contents out.old) (W.contents out.new) (json_of_sample sampled.now)) }
    ensures unwritten { result ≡ Err NoMemory → W.contents out.new ≡ W.contents out.old }
{
    let mut lines = JsonLines::new(alloc);
    for line in &sampled.lines {
        lines.put_made(sampled_result_json(alloc, line));
    }
    lines.put(sampled_summary_json(alloc, &sampled.lines));
    lines.write(out)
}
