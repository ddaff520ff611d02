//! Which words a script's flags keep apart: a walk through the steps of all processors, in an order in which an await comes
//! behind the sets of its flag wherever that can be.
//!
//! Of each processor it is known how many steps the others have made whenever it makes its next one. An await adds what is
//! known at each set of its flag. So an access is apart from those that the walk came through if they were made by then.
ghost use Rattle.std.specs.Prelude.{◌≡◌, ℕ, ◌<◌, ◌≤◌, ◌^◌, IfOk, IfSome, IsTrue, MatchOption, OnOk, length, map, vec_len};
ghost use Rattle.base.specs.Prelude.{most_processors};
ghost use Rattle.explore.specs.declared.prefixes.script_call.ScriptCall.{ScriptCall as AStep};
ghost use Rattle.explore.specs.declared.text.walked_words.WalkedWord.{WalkedWord as AWord};
ghost use Rattle.explore.specs.TextGuards.{AreGuardedByText};
ghost use Rattle.explore.specs.TextWalks.{AreFlagSettersKept, AreFlagSettersNoted, AreRowSettersNoted, AreStepSettersNoted, AreTextWalkRowsThrough, AreTextWalkWordsSized, HasTextWalkStep, IsTextWalk, IsTextWalkFlagMet, IsTextWalkRowThrough, IsTextWalkStepNoted, IsTextWalkable, IsTextWalkFurther, AreTextWalkRowsNew};
ghost use Rattle.explore.specs.Users.{AreUserRowsWithin, AreUserStepsWithin, IsUserStepWithin};

use crate::prefixes::ScriptCall;
use crate::text::guards::{guarded_address_of, guarded_step_stores};
use crate::text::walked_flags::WalkedFlag;
use crate::text::walked_rows::{StepsMade, WalkedRow, add_steps_made};
use crate::text::walked_words::WalkedWord;
use base::{MOST_FLAGS, MOST_PROCESSORS};
use journal::Kind;
use std::alloc::{AllocError, Global};

/// Of each flag what the walk knows of it.
type WalkedFlags = [WalkedFlag; MOST_FLAGS];

/// A walk through the steps of all processors.
#[derive(Drop)]
pub struct TextWalk {
    rows: Vec<WalkedRow>,
    flags: WalkedFlags,
    words: Vec<WalkedWord>,
}

/// Takes note of who sets a flag, if the step sets one.
fn note_step_setter(flags: &mut WalkedFlags, processor: usize, step: ScriptCall)
    requires within { (size : ℕ) × IsUserStepWithin size step }
    requires processor { processor < most_processors }
    ensures keeps { AreFlagSettersKept flags.old flags.new }
    ensures notes { AreStepSettersNoted flags.new processor step }
{
    if let ScriptCall::Call(Kind::Set(flag)) = step {
        flags[flag].expect(processor);
    }
}

/// Takes note of the flags that the processor's steps set.
fn note_row_setters(flags: &mut WalkedFlags, processor: usize, row: &[ScriptCall])
    requires within { (size : ℕ) × AreUserStepsWithin size row.now }
    requires processor { processor < most_processors }
    ensures keeps { AreFlagSettersKept flags.old flags.new }
    ensures notes { AreRowSettersNoted flags.new processor row.now (length row.now) }
{
    for step in row {
        note_step_setter(flags, processor, *step);
    }
}

/// Of each flag who sets it, before the walk.
fn flag_setters_of(steps: &[Vec<ScriptCall>]) -> WalkedFlags
    requires within { (size : ℕ) × AreUserRowsWithin size steps.now }
    requires few { length steps.now ≤ most_processors }
    ensures { AreFlagSettersNoted result steps.now (length steps.now) }
{
    let mut flags = [WalkedFlag::new(); MOST_FLAGS];
    for processor in 0..steps.len() {
        note_row_setters(&mut flags, processor, &steps[processor]);
    }
    flags
}

/// Takes note of the step at the row's place, if it accesses a word. The only error is running out of memory, after which
/// the words may be of no use.
fn note_walked_step(
    words: &mut Vec<WalkedWord>,
    processor: usize,
    row: &WalkedRow,
    step: ScriptCall,
) -> Result<(), AllocError>
    requires within { IsUserStepWithin (vec_len words.old) step }
    requires sized { (n : ℕ) × (n ≤ most_processors) × (processor < n) × AreTextWalkWordsSized n words.old.items }
    requires place { row.now.place < 2 ^ 15 }
    ensures { OnOk result (IsTextWalkStepNoted words.old.items words.new.items processor row.now step) }
{
    if let Some(address) = guarded_address_of(step) {
        words[address].note(processor, row, guarded_step_stores(step))?;
    }
    Ok(())
}

/// What is learnt where the processor sets a flag or awaits one, if these steps were made then.
fn meet_flag(flags: &mut WalkedFlags, made: &mut StepsMade, processor: usize, step: ScriptCall)
    requires within { (size : ℕ) × IsUserStepWithin size step }
    requires processor { processor < most_processors }
    ensures { IsTextWalkFlagMet flags.old flags.new made.old made.new processor step }
{
    match step {
        ScriptCall::Call(Kind::Set(flag)) => flags[flag].pass(processor, made),
        ScriptCall::Call(Kind::Await(flag)) => {
            if flags[flag].is_passed() {
                add_steps_made(made, &flags[flag].made);
            }
        }
        _ => {}
    }
}

/// Whether the step awaits a flag of which the walk hasn't come to all sets.
fn awaits_due_set(flags: &WalkedFlags, step: ScriptCall) -> bool
    requires { (size : ℕ) × IsUserStepWithin size step }
{
    match step {
        ScriptCall::Call(Kind::Await(flag)) => !flags[flag].is_passed(),
        _ => false,
    }
}

/// So many rows at their beginning. The only error is running out of memory.
fn new_walked_rows(alloc: Global, processors: usize) -> Result<Vec<WalkedRow>, AllocError>
    ensures { IfOk result (λ v. AreTextWalkRowsNew processors v.items) }
{
    let mut rows = Vec::new(alloc);
    for _ in 0..processors {
        rows.push(WalkedRow::new())?;
    }
    Ok(rows)
}

/// So many words that nobody uses. The only error is running out of memory.
fn unused_walked_words(
    alloc: Global,
    size: usize,
    processors: usize,
) -> Result<Vec<WalkedWord>, AllocError>
    ensures long { IfOk result (λ v. vec_len v ≡ size) }
    ensures sized { IfOk result (λ v. AreTextWalkWordsSized processors v.items) }
{
    let mut words = Vec::new(alloc);
    for _ in 0..size {
        words.push(WalkedWord::new(alloc, processors)?)?;
    }
    Ok(words)
}

impl TextWalk {
    /// Before the first step. The only error is running out of memory.
    pub fn new(
        alloc: Global,
        size: usize,
        steps: &[Vec<ScriptCall>],
    ) -> Result<TextWalk, AllocError>
        requires { IsTextWalkable size steps.now }
        ensures long { IfOk result (λ walk. vec_len walk.words ≡ size) }
        ensures begins { IfOk result (IsTextWalk steps.now) }
    {
        Ok(TextWalk {
            rows: new_walked_rows(alloc, steps.len())?,
            flags: flag_setters_of(steps),
            words: unused_walked_words(alloc, size, steps.len())?,
        })
    }

    /// Where it stands in the processor's steps.
    pub fn row(&self, processor: usize) -> Option<WalkedRow> {
        self.rows.get(processor).copied()
    }

    /// The processor's next step, if it has one left.
    fn next_step(&self, steps: &[Vec<ScriptCall>], processor: usize) -> Option<ScriptCall>
        requires walks { IsTextWalk steps.now self.now }
        requires processor { processor < length steps.now }
        ensures { MatchOption result (IsTextWalkRowThrough steps.now self.now.rows.items processor)
            (λ step. HasTextWalkStep steps.now self.now.rows.items processor step) }
    {
        steps[processor].get(self.rows[processor].place).copied()
    }

    /// Whether the processor has a step left, and no set is due that it awaits next.
    fn is_ready(&self, steps: &[Vec<ScriptCall>], processor: usize) -> bool
        requires walks { IsTextWalk steps.now self.now }
        requires processor { processor < length steps.now }
        ensures { IsTrue result → (step : AStep) × HasTextWalkStep steps.now self.now.rows.items processor step }
    {
        match self.next_step(steps, processor) {
            Some(step) => !awaits_due_set(&self.flags, step),
            None => false,
        }
    }

    /// The first processor that is ready.
    fn first_ready(&self, steps: &[Vec<ScriptCall>]) -> Option<usize>
        requires { IsTextWalk steps.now self.now }
        ensures { IfSome result (λ p. (step : AStep) × HasTextWalkStep steps.now self.now.rows.items p step) }
    {
        for processor in 0..steps.len() {
            if self.is_ready(steps, processor) {
                return Some(processor);
            }
        }
        None
    }

    /// The first processor that has a step left.
    fn first_unfinished(&self, steps: &[Vec<ScriptCall>]) -> Option<usize>
        requires { IsTextWalk steps.now self.now }
        ensures { MatchOption result (AreTextWalkRowsThrough steps.now self.now.rows.items)
            (λ p. (step : AStep) × HasTextWalkStep steps.now self.now.rows.items p step) }
    {
        for processor in 0..steps.len() {
            if self.next_step(steps, processor).is_some() {
                return Some(processor);
            }
        }
        None
    }

    /// Whose step comes next: the same processor's as long as it is ready, or else that of another one that is. If none is,
    /// what the awaits wait for isn't known to come, and the first goes on that has a step left.
    pub fn next(&self, steps: &[Vec<ScriptCall>], present: usize) -> Option<usize>
        requires walks { IsTextWalk steps.now self.now }
        requires present { present < length steps.now }
        ensures { MatchOption result (AreTextWalkRowsThrough steps.now self.now.rows.items)
            (λ p. (step : AStep) × HasTextWalkStep steps.now self.now.rows.items p step) }
    {
        if self.is_ready(steps, present) {
            return Some(present);
        }
        match self.first_ready(steps) {
            Some(processor) => Some(processor),
            None => self.first_unfinished(steps),
        }
    }

    /// Comes through the processor's next step. The only error is running out of memory, after which this may be of no use.
    pub fn pass(&mut self, steps: &[Vec<ScriptCall>], processor: usize) -> Result<(), AllocError>
        requires walks { IsTextWalk steps.now self.old }
        requires left { (step : AStep) × HasTextWalkStep steps.now self.old.rows.items processor step }
        ensures walks { OnOk result (IsTextWalk steps.now self.new) }
        ensures long { OnOk result (vec_len self.new.words ≡ vec_len self.old.words) }
        ensures further { OnOk result (IsTextWalkFurther self.old.rows.items self.new.rows.items processor) }
    {
        let mut row = self.rows[processor];
        let step = steps[processor][row.place];
        note_walked_step(&mut self.words, processor, &row, step)?;
        meet_flag(&mut self.flags, &mut row.made, processor, step);
        row.pass(processor, step);
        self.rows[processor] = row;
        Ok(())
    }

    /// Comes through all steps. The only error is running out of memory, after which this may be of no use.
    fn finish(&mut self, steps: &[Vec<ScriptCall>]) -> Result<(), AllocError>
        requires walks { IsTextWalk steps.now self.old }
        requires some { 0 < length steps.now }
        ensures walks { OnOk result (IsTextWalk steps.now self.new) }
        ensures long { OnOk result (vec_len self.new.words ≡ vec_len self.old.words) }
        ensures through { OnOk result (AreTextWalkRowsThrough steps.now self.new.rows.items) }
    {
        let mut present = 0;
        while let Some(processor) = self.next(steps, present) {
            self.pass(steps, processor)?;
            present = processor;
        }
        Ok(())
    }
}

/// Of each word whether it is guarded. The only error is running out of memory.
fn walked_words_guarded(alloc: Global, words: &[WalkedWord]) -> Result<Vec<bool>, AllocError>
    ensures { IfOk result (λ v. v.items ≡ map (λ (x : AWord). x.is_guarded) words.now) }
{
    let mut guarded = Vec::new(alloc);
    for word in words {
        guarded.push(word.is_guarded)?;
    }
    Ok(guarded)
}

/// Of so many words whether a walk through these steps shows them to be guarded. The only error is running out of memory.
pub fn words_guarded_by_walk(
    alloc: Global,
    size: usize,
    steps: &[Vec<ScriptCall>],
) -> Result<Vec<bool>, AllocError>
    requires walkable { IsTextWalkable size steps.now }
    requires some { 0 < length steps.now }
    ensures long { IfOk result (λ v. vec_len v ≡ size) }
    ensures guarded { IfOk result (λ v. AreGuardedByText steps.now v.items) }
{
    let mut walk = TextWalk::new(alloc, size, steps)?;
    walk.finish(steps)?;
    walked_words_guarded(alloc, &walk.words)
}
