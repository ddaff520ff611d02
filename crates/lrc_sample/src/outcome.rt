//! What a run came to.
ghost use Rattle.std.specs.Prelude.{ℕ, ◌≡◌, ◌↔◌, ◌++◌, IsTrue, IfOk, OnOk};
ghost use Rattle.lrc_script.specs.Prelude.{plan_of};
ghost use Rattle.lrc_sample.specs.Prelude.{has_sample_verdict, sample_outcome_answers, sample_replies_but_shown, sample_replies_in_event, sample_replies_by, sample_replies_of, sample_replies_told};

use crate::detail::{SampleDetail, sample_section};
use journal::{Event, Kind};
use lrc_report::Report;
use lrc_script::script::Script;
use std::alloc::{AllocError, Global};
use std::marker::Model;

/// What a load answered: the processor that made it, and the word.
#[derive(Clone, Copy, PartialEq, Eq)]
pub struct Reply {
    pub processor: usize,
    pub word: u32,
}

/// What a run that ended has answered. Contracts see its words, its replies and its verdict.
#[derive(Drop)]
pub struct SampleOutcomeAnswers {
    words: Vec<(usize, u32)>,
    replies: Vec<Reply>,
    racy: bool,
}

impl Model for SampleOutcomeAnswers {
    ghost use Rattle.lrc_sample.specs.SampleAnswers.{SampleAnswers};

    ghost Value = { SampleAnswers };

    ghost view = { λ a. record { words = a.words.items; replies = a.replies.items; racy = a.racy } };
}

/// What a run came to.
#[derive(Drop)]
pub enum SampleOutcome {
    /// It ended, with these answers.
    Ended(SampleOutcomeAnswers),
    /// It is stuck: what this processor waits for doesn't come.
    Stuck(usize),
}

/// How a run ended.
#[derive(Clone, Copy, Debug, PartialEq, Eq)]
pub enum SampleVerdict {
    /// It ended, and no two accesses raced.
    RaceFree,
    /// It ended, and two accesses raced.
    Racy,
    /// It got stuck.
    Stuck,
}

/// Adds what the event answered, if it is a load of this processor.
fn add_sample_outcome_reply(
    replies: &mut Vec<Reply>,
    processor: usize,
    event: Event,
) -> Result<(), AllocError>
    ensures { OnOk result (replies.new.items ≡ replies.old.items ++ sample_replies_in_event processor event) }
{
    match event.kind {
        Kind::Load(_, word) if event.processor == processor => {
            replies.push(Reply { processor, word })?;
        }
        _ => {}
    }
    Ok(())
}

/// Adds the replies of the processor's loads, in order.
fn add_sample_outcome_replies(
    replies: &mut Vec<Reply>,
    processor: usize,
    events: &[Event],
) -> Result<(), AllocError>
    ensures { OnOk result (replies.new.items ≡ replies.old.items ++ sample_replies_by processor events.now) }
{
    for event in events {
        add_sample_outcome_reply(replies, processor, *event)?;
    }
    Ok(())
}

/// The replies of the processor's own loads: of processor 0's without the last `shown`, which the closing barrier comes
/// before.
fn own_sample_outcome_replies(
    alloc: Global,
    processor: usize,
    shown: usize,
    events: &[Event],
) -> Result<Vec<Reply>, AllocError>
    ensures { IfOk result (λ v. v.items ≡ sample_replies_but_shown shown processor events.now) }
{
    let mut replies = Vec::new(alloc);
    add_sample_outcome_replies(&mut replies, processor, events)?;
    if processor == 0 {
        let loads = replies.len();
        replies.truncate(loads.saturating_sub(shown));
    }
    Ok(replies)
}

/// Adds those of a processor's own replies that are told. The marks say so of each of its loads; the first replies may have
/// been cut off.
fn add_told_sample_outcome_replies(
    replies: &mut Vec<Reply>,
    marks: &[bool],
    own: &[Reply],
) -> Result<(), AllocError>
    ensures { OnOk result (replies.new.items ≡ replies.old.items ++ sample_replies_told marks.now own.now) }
{
    let cut = marks.len().saturating_sub(own.len());
    for place in cut..marks.len() {
        if marks[place] {
            replies.push(own[place - cut])?;
        }
    }
    Ok(())
}

/// The replies of the script's loads, as far as they are told, by rising processor. It takes time in the order of the events
/// times the processors.
fn sample_outcome_replies(
    alloc: Global,
    detail: SampleDetail,
    script: &Script,
    shown: usize,
    events: &[Event],
) -> Result<Vec<Reply>, AllocError>
    ensures { IfOk result (λ v. v.items ≡ sample_replies_of detail (plan_of script.now) shown script.now.processors events.now) }
{
    let mut replies = Vec::new(alloc);
    for processor in 0..script.processors {
        let marks = detail.marks(alloc, sample_section(script, processor))?;
        let own = own_sample_outcome_replies(alloc, processor, shown, events)?;
        add_told_sample_outcome_replies(&mut replies, &marks, &own)?;
    }
    Ok(replies)
}

/// Whether they are the same words at the same addresses.
fn are_same_sample_outcome_words(words: &[(usize, u32)], others: &[(usize, u32)]) -> bool
    ensures { IsTrue result ↔ (words.now ≡ others.now) }
{
    words == others
}

/// Whether they are the same replies.
fn are_same_sample_outcome_replies(replies: &[Reply], others: &[Reply]) -> bool
    ensures { IsTrue result ↔ (replies.now ≡ others.now) }
{
    replies == others
}

impl SampleOutcomeAnswers {
    /// The answers of a report of the script, told in this detail. The only error is running out of memory.
    pub fn of(
        alloc: Global,
        detail: SampleDetail,
        script: &Script,
        report: Report,
    ) -> Result<SampleOutcomeAnswers, AllocError>
        ensures { IfOk result (λ a. a ≡ sample_outcome_answers detail (plan_of script.now) report) }
    {
        let shown = report.shown.len();
        let events = report.journal.events();
        let replies = sample_outcome_replies(alloc, detail, script, shown, events)?;
        Ok(SampleOutcomeAnswers {
            words: report.shown,
            replies,
            racy: report.racy,
        })
    }

    /// The shown addresses in order with their last words.
    pub fn words(&self) -> &[(usize, u32)]
        ensures { result.now ≡ self.now.words }
    {
        &self.words
    }

    /// What the loads answered, as far as it is told, by rising processor, and of a processor in their order.
    pub fn replies(&self) -> &[Reply]
        ensures { result.now ≡ self.now.replies }
    {
        &self.replies
    }

    /// Whether two accesses raced.
    pub fn is_racy(&self) -> bool
        ensures { result ≡ self.now.racy }
    {
        self.racy
    }

    /// Whether they are the same answers.
    fn is_same(&self, other: &SampleOutcomeAnswers) -> bool
        ensures { IsTrue result ↔ (self.now ≡ other.now) }
    {
        if self.racy != other.racy || !are_same_sample_outcome_words(&self.words, &other.words) {
            return false;
        }
        are_same_sample_outcome_replies(&self.replies, &other.replies)
    }
}

impl SampleOutcome {
    /// Whether it has this verdict.
    pub fn has(&self, verdict: SampleVerdict) -> bool
        ensures { result ≡ has_sample_verdict verdict self.now }
    {
        match (self, verdict) {
            (SampleOutcome::Ended(answers), SampleVerdict::RaceFree) => !answers.is_racy(),
            (SampleOutcome::Ended(answers), SampleVerdict::Racy) => answers.is_racy(),
            (SampleOutcome::Stuck(_), SampleVerdict::Stuck) => true,
            _ => false,
        }
    }

    /// Whether it is the same outcome. It stops at the first word or reply that differs.
    pub fn is_same(&self, other: &SampleOutcome) -> bool
        ensures { IsTrue result ↔ (self.now ≡ other.now) }
    {
        match (self, other) {
            (SampleOutcome::Ended(answers), SampleOutcome::Ended(others)) => answers.is_same(
                others,
            ),
            (SampleOutcome::Stuck(processor), SampleOutcome::Stuck(others)) => processor == others,
            _ => false,
        }
    }
}
