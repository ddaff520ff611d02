//! A script's run on one flat memory, an event at a time.
ghost use Rattle.std.specs.Prelude.{◌≡◌, ◌↔◌, ℕ, ◌+◌, ◌<◌, ◌≤◌, ◌++◌, [], ◌∷◌, List, Some, None, IfOk, OnOk, IsTrue, MatchOption, cond};
ghost use Rattle.std.specs.Prelude.{length, replicate, slice_get, slice_index, slice_index_or};
ghost use Rattle.base.specs.Prelude.{most_processors, wrote};
ghost use Rattle.journal.specs.declared.event.Event.{Event as AnEvent};
ghost use Rattle.journal.specs.declared.event.Kind.{Kind as AKind};
ghost use Rattle.journal.specs.Prelude.{EventAddressInRange, AnswersReplayMemory, did, replay_memory_write};
ghost use Rattle.lrc_script.specs.Prelude.{IsLawful, Plan, plan_of};
ghost use Rattle.conformance.specs.Follows.{Follows, calls_of};
ghost use Rattle.explore.specs.Prefixes.ScriptCalls.{FitsScriptCall, last_reply_of_script_calls};
ghost use Rattle.explore.specs.Prefixes.Prelude.{IsFlatBeginning};
ghost use Rattle.explore.specs.Machines.{AreLawfulMachineSteps, MachineReadsWithin, MachinesInSameState, HasMachineNoNextCall, IsMachineNextCall, IsMachineRunning, MachineMayDo, MachineKnows};
ghost use Rattle.explore.specs.Machines.{machine_rows, machine_last_or};
ghost use Rattle.explore.specs.OutcomeTelling.{is_sum_for_outcome_telling, outcome_telling_steps, outcome_telling_of_script};
ghost use Rattle.explore.specs.EndingWords.{HasEndingWords};
ghost use Rattle.explore.specs.KeptWaiting.{AreKeptWaitingKinds};

use crate::outcomes::telling::{
    Detail, OutcomeTelling, is_sum_for_outcome_telling, outcome_telling_step,
};
use crate::outcomes::told_replies::keep_told_reply;
use crate::prefixes::ScriptCall;
use crate::state::waits::Waiting;
use base::MOST_PROCESSORS;
use journal::Kind;
use lrc_script::script::Script;
use std::alloc::{AllocError, Global};

/// A script's run on one flat memory, after some events. Machines in the same state go on alike.
#[derive(Drop)]
pub struct FlatState {
    /// What outcomes tell. It is one for all states of a search.
    pub(crate) telling: OutcomeTelling,
    /// How many calls each processor has made.
    pub(crate) done: [u16; MOST_PROCESSORS],
    /// The replies of each that outcomes tell, in order, and then the one that its next step adds to.
    pub(crate) replies: Vec<Vec<u32>>,
    /// The words of the memory.
    pub(crate) memory: Vec<u32>,
    pub(crate) waiting: Waiting,
}

/// The call that the step says, after this reply, with the word of the memory if it loads.
fn flat_state_call_of(step: ScriptCall, reply: u32, memory: &[u32]) -> Kind
    requires { MachineReadsWithin (length memory.now) step }
    ensures { (k : AKind) → (result ≡ k) ↔ (FitsScriptCall reply step k × AnswersReplayMemory memory.now k) }
{
    match step {
        ScriptCall::Call(Kind::Load(address, _)) => Kind::Load(address, memory[address]),
        ScriptCall::Call(kind) => kind,
        ScriptCall::Adds(address, addend) => Kind::Store(address, reply.wrapping_add(addend)),
    }
}

/// The last of these words, 0 if there is none.
fn flat_state_last_of(words: &[u32]) -> u32
    ensures { result ≡ machine_last_or 0 words.now }
{
    match words.last() {
        Some(word) => *word,
        None => 0,
    }
}

/// Lets go of the last reply, if the step added to it.
fn flat_state_let_go(replies: &mut Vec<u32>, is_sum: bool)
    ensures { (front : List ℕ) (reply : ℕ) → replies.old.items ≡ front ++ cond is_sum (reply ∷ []) []
        → replies.new.items ≡ front }
{
    if is_sum {
        replies.pop();
    }
}

/// Writes a store's word.
fn flat_state_write(memory: &mut [u32], kind: Kind)
    requires { EventAddressInRange (length memory.old) kind }
    ensures { memory.new ≡ wrote memory.old (replay_memory_write kind) }
{
    if let Kind::Store(address, value) = kind {
        memory[address] = value;
    }
}

/// Whether the memory has this word at the address.
fn flat_state_has_word(memory: &[u32], address: usize, word: u32) -> bool
    ensures { IsTrue result ↔ (slice_get memory.now address ≡ Some word) }
{
    address < memory.len() && memory[address] == word
}

/// No replies, of so many processors.
fn flat_state_no_replies(alloc: Global, processors: usize) -> Result<Vec<Vec<u32>>, AllocError>
    ensures { IfOk result (λ v. machine_rows v.items ≡ replicate processors []) }
{
    let mut all = Vec::new(alloc);
    for _ in 0..processors {
        all.push(Vec::new(alloc))?;
    }
    Ok(all)
}

impl FlatState {
    /// Before the first event of the script. The only error is running out of memory.
    pub fn new(alloc: Global, script: &Script, detail: Detail) -> Result<FlatState, AllocError>
        requires { IsLawful (plan_of script.now) }
        ensures knows { IfOk result (MachineKnows (plan_of script.now) []) }
        ensures telling { IfOk result (λ m. m.telling ≡ outcome_telling_of_script (plan_of script.now) detail) }
    {
        Ok(FlatState {
            telling: OutcomeTelling::of_script(script, detail),
            done: [0; MOST_PROCESSORS],
            replies: flat_state_no_replies(alloc, script.processors)?,
            memory: vec![in alloc; 0; script.pages * script.words]?,
            waiting: Waiting::new(alloc),
        })
    }

    /// Another one in the same state. The only error is running out of memory.
    pub fn copy(&self) -> Result<FlatState, AllocError>
        ensures { IfOk result (MachinesInSameState self.now) }
    {
        Ok(FlatState {
            telling: self.telling,
            done: self.done,
            replies: self.replies()?,
            memory: self.memory.clone()?,
            waiting: self.waiting.copy()?,
        })
    }

    /// How many calls the processor has made.
    pub fn steps_done(&self, processor: usize) -> usize
        requires { processor < most_processors }
        ensures { result ≡ slice_index self.now.done processor }
    {
        self.done[processor] as usize
    }

    /// What the processor's last load answered, if its next step adds to that.
    fn reply_before(&self, processor: usize) -> u32
        requires { processor < length self.now.replies.items }
        ensures { (s : Plan) (g : List AnEvent) → MachineKnows s g self.now
            → IsTrue (is_sum_for_outcome_telling (slice_get (outcome_telling_steps s processor) (length (calls_of g processor))))
            → result ≡ last_reply_of_script_calls (calls_of g processor) }
    {
        flat_state_last_of(&self.replies[processor])
    }

    /// The next call that the processor's steps say, whether it may be made yet or not. Its steps are one of these rows.
    pub fn next_call(&self, steps: &[Vec<ScriptCall>], processor: usize) -> Option<Kind>
        requires processor { processor < length steps.now }
        requires running { IsMachineRunning self.now steps.now }
        ensures { MatchOption result ((s : Plan) → AreLawfulMachineSteps s steps.now → HasMachineNoNextCall s self.now processor)
            (λ k. (s : Plan) → AreLawfulMachineSteps s steps.now → IsMachineNextCall s self.now processor k) }
    {
        let row = &steps[processor];
        let done = self.done[processor] as usize;
        if done >= row.len() {
            return None;
        }
        Some(flat_state_call_of(row[done], self.reply_before(processor), &self.memory))
    }

    /// Whether the processor may make its next call, which this is. Its steps are one of these rows.
    pub fn may_make(&self, steps: &[Vec<ScriptCall>], processor: usize, kind: Kind) -> bool
        requires processor { processor < length steps.now }
        requires running { IsMachineRunning self.now steps.now }
        requires next { (s : Plan) → AreLawfulMachineSteps s steps.now → IsMachineNextCall s self.now processor kind }
        ensures { (s : Plan) (g : List AnEvent) → AreLawfulMachineSteps s steps.now → MachineKnows s g self.now
            → IsTrue result ↔ IsFlatBeginning s (did g processor kind) }
    {
        self.waiting.may_follow(steps.len(), processor, kind)
    }

    /// What the processor may do next. Its steps are one of these rows.
    pub fn next(&self, steps: &[Vec<ScriptCall>], processor: usize) -> Option<Kind>
        requires processor { processor < length steps.now }
        requires running { IsMachineRunning self.now steps.now }
        ensures { (s : Plan) (g : List AnEvent) → AreLawfulMachineSteps s steps.now → MachineKnows s g self.now
            → (k : AKind) → (result ≡ Some k) ↔ IsFlatBeginning s (did g processor k) }
    {
        match self.next_call(steps, processor) {
            Some(kind) if self.may_make(steps, processor, kind) => Some(kind),
            _ => None,
        }
    }

    /// Does what the processor may do next. Its steps are one of these rows. The only error is running out of memory, after
    /// which the machine may be of no use.
    pub fn step(
        &mut self,
        steps: &[Vec<ScriptCall>],
        processor: usize,
        kind: Kind,
    ) -> Result<(), AllocError>
        requires { MachineMayDo self.old steps.now processor kind }
        ensures knows { OnOk result ((s : Plan) (g : List AnEvent) → AreLawfulMachineSteps s steps.now → MachineKnows s g self.old
            → IsFlatBeginning s (did g processor kind) → MachineKnows s (did g processor kind) self.new) }
        ensures telling { OnOk result (self.new.telling ≡ self.old.telling) }
    {
        let row = &steps[processor];
        let place = self.done[processor] as usize;
        let is_told = self.telling.is_told(processor, row, place);
        self.waiting.note(processor, kind)?;
        let replies = &mut self.replies[processor];
        flat_state_let_go(
            replies,
            is_sum_for_outcome_telling(outcome_telling_step(row, place)),
        );
        keep_told_reply(replies, is_told, kind)?;
        keep_told_reply(
            replies,
            is_sum_for_outcome_telling(outcome_telling_step(row, place + 1)),
            kind,
        )?;
        flat_state_write(&mut self.memory, kind);
        self.done[processor] += 1;
        Ok(())
    }

    /// Whether each processor has made all its calls.
    pub fn is_whole(&self, steps: &[Vec<ScriptCall>]) -> bool
        requires { IsMachineRunning self.now steps.now }
        ensures { (s : Plan) (g : List AnEvent) → AreLawfulMachineSteps s steps.now → MachineKnows s g self.now
            → IsTrue result ↔ Follows s g }
    {
        for processor in 0..steps.len() {
            if (self.done[processor] as usize) < steps[processor].len() {
                return false;
            }
        }
        true
    }

    /// Whether the memory has each of these words at its address.
    pub fn has_words(&self, words: &[(usize, u32)]) -> bool
        ensures { IsTrue result ↔ HasEndingWords self.now.memory.items words.now }
    {
        for (address, word) in words {
            if !flat_state_has_word(&self.memory, *address, *word) {
                return false;
            }
        }
        true
    }

    /// What is kept of the replies of each processor.
    pub fn replies(&self) -> Result<Vec<Vec<u32>>, AllocError>
        ensures { IfOk result (λ v. machine_rows v.items ≡ machine_rows self.now.replies.items) }
    {
        self.replies.clone()
    }

    /// What each of so many processors waits for.
    pub fn waits(&self, alloc: Global, processors: usize) -> Result<Vec<Option<Kind>>, AllocError>
        requires { processors ≤ most_processors }
        ensures long { IfOk result (λ v. length v.items ≡ processors) }
        ensures waits { IfOk result (λ v. (s : Plan) (g : List AnEvent) → s.processors ≡ processors
            → MachineKnows s g self.now → AreKeptWaitingKinds g v.items) }
    {
        let mut waits = Vec::new(alloc);
        for processor in 0..processors {
            waits.push(self.waiting.of(processor))?;
        }
        Ok(waits)
    }
}
