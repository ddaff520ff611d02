//! The text of what a script's runs came to.
ghost use Rattle.std.specs.Prelude.{◌≡◌, ◌++◌, Err, IfErr, IfOk, None, OnOk, codes, string_bytes};
ghost use Rattle.std.specs.Fmt.{decimal};
ghost use Rattle.std.specs.Io.KnownBytes.{Appends};
ghost use Rattle.std.specs.List.{flat_map};
ghost use Rattle.lrc_sample.specs.declared.text.TextFault.TheVariants.{NoMemory, Output};
ghost use Rattle.lrc_sample.specs.Prelude.{sample_text_of_all_replies, sample_text_of_answers, sample_text_of_line, sample_text_of_outcome, sample_text_of_owner, sample_text_of_replies, sample_text_runs};
ghost use Rattle.lrc_sample.specs.Prelude.{sample_runs_of_verdict, sample_text, sample_text_of_verdicts, sample_text_of_word};

use crate::outcome::{Reply, SampleOutcome, SampleOutcomeAnswers, SampleVerdict};
use crate::sampling::Sampled;
use crate::tally::TallyLine;
use std::alloc::{AllocError, Global};
use std::io::Write;
use thiserror::Error;

/// Why the text wasn't written whole.
#[derive(Clone, Copy, Debug, Error)]
pub enum TextFault {
    /// A write failed or took no byte, or the flush failed.
    #[error("output failed")]
    Output,
    /// A growth was refused. Nothing was written.
    #[error("out of memory")]
    NoMemory,
}

/// Adds a shown address with its last word.
fn put_sample_word_text(text: &mut String, address: usize, word: u32) -> Result<(), AllocError>
    ensures { OnOk result (string_bytes text.new ≡ string_bytes text.old ++ sample_text_of_word (address, word)) }
{
    write!(text, " {address} {word}")
}

/// Adds the shown addresses with their last words.
fn put_sample_words_text(text: &mut String, words: &[(usize, u32)]) -> Result<(), AllocError>
    ensures { OnOk result (string_bytes text.new ≡ string_bytes text.old ++ flat_map sample_text_of_word words.now) }
{
    for (address, word) in words {
        put_sample_word_text(text, *address, *word)?;
    }
    Ok(())
}

/// Adds a processor, where the reply before is another's.
fn put_sample_owner_text(
    text: &mut String,
    last: Option<usize>,
    processor: usize,
) -> Result<(), AllocError>
    ensures { OnOk result (string_bytes text.new ≡ string_bytes text.old ++ sample_text_of_owner last processor) }
{
    match last {
        Some(last) if last == processor => Ok(()),
        _ => write!(text, " p{processor}"),
    }
}

/// Adds a word that a load answered.
fn put_sample_answer_text(text: &mut String, word: u32) -> Result<(), AllocError>
    ensures { OnOk result (string_bytes text.new ≡ string_bytes text.old ++ (codes " " ++ decimal word)) }
{
    write!(text, " {word}")
}

/// Adds what the loads answered: `p1` before the replies of processor 1.
fn put_sample_replies_text(text: &mut String, replies: &[Reply]) -> Result<(), AllocError>
    ensures { OnOk result (string_bytes text.new
        ≡ string_bytes text.old ++ sample_text_of_replies None replies.now) }
{
    let mut last = None;
    for reply in replies {
        let Reply { processor, word } = *reply;
        put_sample_owner_text(text, last, processor)?;
        put_sample_answer_text(text, word)?;
        last = Some(processor);
    }
    Ok(())
}

/// The same behind `replies`, if there are some.
fn put_all_sample_replies_text(text: &mut String, replies: &[Reply]) -> Result<(), AllocError>
    ensures { OnOk result (string_bytes text.new ≡ string_bytes text.old ++ sample_text_of_all_replies replies.now) }
{
    match replies {
        [] => Ok(()),
        [_, ..] => {
            text.push_str(" replies")?;
            put_sample_replies_text(text, replies)
        }
    }
}

/// Adds the verdict, the words and the replies.
fn put_sample_answers_text(
    text: &mut String,
    answers: &SampleOutcomeAnswers,
) -> Result<(), AllocError>
    ensures { OnOk result (string_bytes text.new ≡ string_bytes text.old ++ sample_text_of_answers answers.now) }
{
    text.push_str(if answers.is_racy() {
        "racy words"
    } else {
        "race-free words"
    })?;
    put_sample_words_text(text, answers.words())?;
    put_all_sample_replies_text(text, answers.replies())
}

/// Adds what a run came to.
fn put_sample_outcome_text(text: &mut String, outcome: &SampleOutcome) -> Result<(), AllocError>
    ensures { OnOk result (string_bytes text.new ≡ string_bytes text.old ++ sample_text_of_outcome outcome.now) }
{
    match outcome {
        SampleOutcome::Ended(answers) => put_sample_answers_text(text, answers),
        SampleOutcome::Stuck(processor) => write!(text, "stuck {processor}"),
    }
}

/// Adds how often an outcome came.
fn put_sample_times_text(text: &mut String, times: u64) -> Result<(), AllocError>
    ensures { OnOk result (string_bytes text.new
        ≡ string_bytes text.old ++ (codes "result " ++ (decimal times ++ codes " "))) }
{
    write!(text, "result {times} ")
}

/// Adds a line.
fn put_sample_line_text(text: &mut String, line: &TallyLine) -> Result<(), AllocError>
    ensures { OnOk result (string_bytes text.new ≡ string_bytes text.old ++ sample_text_of_line line.now) }
{
    put_sample_times_text(text, line.times)?;
    put_sample_outcome_text(text, &line.outcome)?;
    text.push_str(" schedule ")?;
    line.schedule.put(text)?;
    text.push_str("\n")
}

/// Adds all lines.
fn put_sample_lines_text(text: &mut String, lines: &[TallyLine]) -> Result<(), AllocError>
    ensures { OnOk result (string_bytes text.new ≡ string_bytes text.old ++ flat_map sample_text_of_line lines.now) }
{
    for line in lines {
        put_sample_line_text(text, line)?;
    }
    Ok(())
}

/// How many runs the lines count.
pub fn runs_of_sample(lines: &[TallyLine]) -> u64
    ensures { result ≡ sample_text_runs lines.now }
{
    let mut runs: u64 = 0;
    for line in lines {
        runs = runs.saturating_add(line.times);
    }
    runs
}

/// How many runs had this verdict.
pub fn runs_of_sample_verdict(lines: &[TallyLine], verdict: SampleVerdict) -> u64
    ensures { result ≡ sample_runs_of_verdict verdict lines.now }
{
    let mut runs: u64 = 0;
    for line in lines {
        if line.outcome.has(verdict) {
            runs = runs.saturating_add(line.times);
        }
    }
    runs
}

/// Adds how many runs had each verdict.
fn put_sample_verdicts_text(text: &mut String, lines: &[TallyLine]) -> Result<(), AllocError>
    ensures { OnOk result (string_bytes text.new ≡ string_bytes text.old ++ sample_text_of_verdicts lines.now) }
{
    let race_free = runs_of_sample_verdict(lines, SampleVerdict::RaceFree);
    let racy = runs_of_sample_verdict(lines, SampleVerdict::Racy);
    let stuck = runs_of_sample_verdict(lines, SampleVerdict::Stuck);
    write!(
        text,
        "verdicts race-free {race_free} racy {racy} stuck {stuck}\n"
    )
}

/// The whole text. The only error is running out of memory.
fn sample_text_of(alloc: Global, sampled: &Sampled) -> Result<String, AllocError>
    ensures { IfOk result (λ s. string_bytes s ≡ sample_text sampled.now) }
{
    let runs = runs_of_sample(&sampled.lines);
    let mut text = format!(in alloc; "runs {runs}\n")?;
    put_sample_verdicts_text(&mut text, &sampled.lines)?;
    put_sample_lines_text(&mut text, &sampled.lines)?;
    Ok(text)
}

/// Writes the text and flushes the writer.
fn write_sample_text<W: Write>(text: &str, out: &mut W) -> Result<(), TextFault>
    ensures written { OnOk result (Appends (W.contents out.old) (W.contents out.new) text.now) }
    ensures fault { IfErr result (λ e. e ≡ Output) }
{
    match out.write_all(text.as_bytes()) {
        Ok(()) => match out.flush() {
            Ok(()) => Ok(()),
            Err(_) => Err(TextFault::Output),
        },
        Err(_) => Err(TextFault::Output),
    }
}

/// Writes what a script's runs came to, and flushes the writer. The text is made whole first and then written: after
/// NoMemory nothing was written, after Output a beginning of it.
///
/// First comes how many runs there were, then how many of them had each verdict, then each outcome in a line of its own:
///
/// ```text
/// runs 1001
/// verdicts race-free 999 racy 1 stuck 1
/// result 999 race-free words 0 7 1 8 replies p1 0 7 p2 5 schedule -
/// result 1 racy words 0 7 1 8 replies p1 0 0 p2 5 schedule 1:3,0,2
/// result 1 stuck 0 schedule 2:2,1
/// ```
///
/// After `result` stands how many runs came to it. After `schedule` stands one that shows it, as `Schedule::parse` reads it.
/// After `words` stands each shown address with its last word. After `replies` stands for each processor whose loads are told
/// its number and the words that they answered, in order: those of the journal, so none from before a cut, and not those
/// that show the last words. If no load is told, `replies` isn't there. `stuck` has the processor that waits for what doesn't come.
pub fn render<W: Write>(alloc: Global, sampled: &Sampled, out: &mut W) -> Result<(), TextFault>
    ensures written { OnOk result (Appends (W.contents out.old) (W.contents out.new) (sample_text sampled.now)) }
    ensures unwritten { result ≡ Err NoMemory → W.contents out.new ≡ W.contents out.old }
{
    let Ok(text) = sample_text_of(alloc, sampled) else {
        return Err(TextFault::NoMemory);
    };
    write_sample_text(text.as_str(), out)
}
