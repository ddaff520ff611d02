//! A beginning of a run that the rules of the memory allow, an event at a time.
ghost use Rattle.std.specs.Prelude.{◌≡◌, ◌↔◌, ℕ, ◌<◌, ◌≤◌, List, [], None, Some, IfOk, OnOk, IsTrue, length, slice_index_or};
ghost use Rattle.base.specs.Prelude.{most_processors};
ghost use Rattle.journal.specs.declared.event.Kind.{Kind as AKind};
ghost use Rattle.journal.specs.declared.event.Kind.TheVariants.{Load};
ghost use Rattle.journal.specs.Prelude.{did};
ghost use Rattle.judge.specs.Prelude.{AreKeptStoresOf};
ghost use Rattle.lrc_script.specs.Prelude.{IsLawful, Plan};
ghost use Rattle.lrc_script.specs.Lawful.{plan_addresses};
ghost use Rattle.conformance.specs.Follows.{Follows};
ghost use Rattle.explore.specs.AllowedRuns.{IsAllowedRunBeginning};
ghost use Rattle.explore.specs.AllowedBeginnings.{AreAllowedBeginningCallsFollowed, AreAllowedBeginningCalls, AreAllowedBeginningCallsPlain, IsAllowedBeginningCallFollowed, AllowedBeginningMayGoOn};
ghost use Rattle.explore.specs.AllowedBeginnings.{AllowedBeginningMayCall, MayFollowAllowedBeginningCall, MayFollowAllowedBeginningCalls, TellsAllowedBeginning, allowed_beginning_events};
ghost use Rattle.explore.specs.Machines.{AreLawfulMachineSteps, machine_rows};
ghost use Rattle.explore.specs.Prefixes.ScriptCalls.{replyless_script_call};
ghost use Rattle.explore.specs.OutcomeTelling.{AreOutcomeTellingReplies};
ghost use Rattle.explore.specs.KeptWaiting.{IsLikeKeptWaiting};

use crate::outcomes::telling::OutcomeTelling;
use crate::prefixes::ScriptCall;
use crate::rules::answers::answers_of_load;
use crate::rules::calls::{call_of, calls_made, replies_of_all, reply_before};
use crate::state::waits::Waiting;
use base::MOST_PROCESSORS;
use journal::{Event, Kind};
use judge::KeptStores;
use std::alloc::{AllocError, Global};

/// A beginning of a run that the rules of the memory allow: each load answers a latest store of its past.
#[derive(Drop)]
pub struct AllowedBeginning {
    events: Vec<Event>,
    waiting: Waiting,
}

impl AllowedBeginning {
    /// Before the first event.
    pub fn new(alloc: Global) -> AllowedBeginning
        ensures told { (s : Plan) → TellsAllowedBeginning s result }
        ensures empty { allowed_beginning_events result ≡ [] }
    {
        AllowedBeginning {
            events: Vec::new(alloc),
            waiting: Waiting::new(alloc),
        }
    }

    /// The events, in order.
    pub fn events(&self) -> &[Event]
        ensures { result.now ≡ allowed_beginning_events self.now }
    {
        &self.events
    }

    /// The events themselves, in order.
    pub fn into_events(self) -> Vec<Event>
        ensures { result.items ≡ allowed_beginning_events self }
    {
        self.events
    }

    /// Another one of the same events. The only error is running out of memory.
    fn copy(&self) -> Result<AllowedBeginning, AllocError>
        ensures events { IfOk result (λ b. allowed_beginning_events b ≡ allowed_beginning_events self.now) }
        ensures waiting { IfOk result (λ b. IsLikeKeptWaiting self.now.waiting b.waiting) }
    {
        Ok(AllowedBeginning {
            events: self.events.clone()?,
            waiting: self.waiting.copy()?,
        })
    }

    /// The beginning with one event more, which may come next. The only error is running out of memory.
    fn lengthened(&self, processor: usize, kind: Kind) -> Result<AllowedBeginning, AllocError>
        requires { (s : Plan) × AllowedBeginningMayGoOn s self.now processor kind }
        ensures events { IfOk result (λ b. allowed_beginning_events b ≡ did (allowed_beginning_events self.now) processor kind) }
        ensures told { IfOk result (λ b. (s : Plan) → AllowedBeginningMayGoOn s self.now processor kind → TellsAllowedBeginning s b) }
    {
        let mut longer = self.copy()?;
        longer.waiting.note(processor, kind)?;
        longer.events.push(Event { processor, kind })?;
        Ok(longer)
    }

    /// What the processor calls next, a load without a reply; None if it has made all its calls, or has to wait. Its steps are one of
    /// these rows.
    fn next_call(&self, steps: &[Vec<ScriptCall>], processor: usize) -> Option<Kind>
        requires processor { processor < length steps.now }
        requires told { (s : Plan) × AreLawfulMachineSteps s steps.now × TellsAllowedBeginning s self.now }
        ensures call { (s : Plan) → AreLawfulMachineSteps s steps.now → TellsAllowedBeginning s self.now → (k : AKind)
            → (result ≡ Some (replyless_script_call k)) ↔ AllowedBeginningMayCall s (allowed_beginning_events self.now) processor k }
        ensures plain { (c : AKind) → result ≡ Some c → replyless_script_call c ≡ c }
    {
        let row = &steps[processor];
        let made = calls_made(&self.events, processor);
        if made >= row.len() {
            return None;
        }
        let call = call_of(row[made], reply_before(&self.events, processor));
        if self.waiting.may_follow(steps.len(), processor, call) {
            Some(call)
        } else {
            None
        }
    }

    /// What each processor calls next, as `next_call` says.
    pub fn next_calls(&self, steps: &[Vec<ScriptCall>]) -> [Option<Kind>; MOST_PROCESSORS]
        requires told { (s : Plan) × AreLawfulMachineSteps s steps.now × TellsAllowedBeginning s self.now }
        ensures calls { (s : Plan) → AreLawfulMachineSteps s steps.now → TellsAllowedBeginning s self.now
            → AreAllowedBeginningCalls s (allowed_beginning_events self.now) result }
        ensures plain { AreAllowedBeginningCallsPlain result }
        ensures long { length result ≡ most_processors }
    {
        let mut calls = [None; MOST_PROCESSORS];
        for processor in 0..steps.len() {
            calls[processor] = self.next_call(steps, processor);
        }
        calls
    }

    /// Whether each processor has made all its calls.
    pub fn is_whole(&self, steps: &[Vec<ScriptCall>]) -> bool
        ensures { (s : Plan) → AreLawfulMachineSteps s steps.now → TellsAllowedBeginning s self.now
            → IsTrue result ↔ Follows s (allowed_beginning_events self.now) }
    {
        for processor in 0..steps.len() {
            if calls_made(&self.events, processor) < steps[processor].len() {
                return false;
            }
        }
        true
    }

    /// What is told of the loads of each processor. The only error is running out of memory.
    pub fn replies(
        &self,
        alloc: Global,
        telling: OutcomeTelling,
        steps: &[Vec<ScriptCall>],
    ) -> Result<Vec<Vec<u32>>, AllocError>
        requires told { (s : Plan) × AreLawfulMachineSteps s steps.now × TellsAllowedBeginning s self.now }
        ensures { IfOk result (λ v. (s : Plan) → AreLawfulMachineSteps s steps.now → TellsAllowedBeginning s self.now
            → AreOutcomeTellingReplies s telling (allowed_beginning_events self.now) (machine_rows v.items)) }
    {
        let replies = replies_of_all(alloc, telling, &self.events, steps)?;
        Ok(replies)
    }

    /// Adds the beginning with the processor's load of this address, by each reply that it may have.
    fn follow_load(
        &self,
        alloc: Global,
        sources: &KeptStores,
        processor: usize,
        address: usize,
        pending: &mut Vec<AllowedBeginning>,
    ) -> Result<(), AllocError>
        requires { (s : Plan) × MayFollowAllowedBeginningCall s self.now sources.now processor (Load address 0) }
        ensures { OnOk result ((s : Plan) → MayFollowAllowedBeginningCall s self.now sources.now processor (Load address 0)
            → IsAllowedBeginningCallFollowed s (allowed_beginning_events self.now) processor (Load address 0) pending.old.items pending.new.items) }
    {
        let answers = answers_of_load(alloc, sources, processor, address)?;
        for word in &answers {
            pending.push(self.lengthened(processor, Kind::Load(address, *word))?)?;
        }
        Ok(())
    }

    /// Adds the beginning with the processor's next call, which is this; a load by each reply that it may have.
    fn follow(
        &self,
        alloc: Global,
        sources: &KeptStores,
        processor: usize,
        call: Kind,
        pending: &mut Vec<AllowedBeginning>,
    ) -> Result<(), AllocError>
        requires { (s : Plan) × MayFollowAllowedBeginningCall s self.now sources.now processor call }
        ensures { OnOk result ((s : Plan) → MayFollowAllowedBeginningCall s self.now sources.now processor call
            → IsAllowedBeginningCallFollowed s (allowed_beginning_events self.now) processor call pending.old.items pending.new.items) }
    {
        match call {
            Kind::Load(address, _) => self.follow_load(alloc, sources, processor, address, pending),
            _ => {
                pending.push(self.lengthened(processor, call)?)?;
                Ok(())
            }
        }
    }

    /// Adds the beginning with each of these calls, one of each processor; a load by each reply that it may have. The only error
    /// is running out of memory.
    pub fn follow_all(
        &self,
        alloc: Global,
        sources: &KeptStores,
        calls: &[Option<Kind>; MOST_PROCESSORS],
        pending: &mut Vec<AllowedBeginning>,
    ) -> Result<(), AllocError>
        requires { (s : Plan) × MayFollowAllowedBeginningCalls s self.now sources.now calls.now }
        ensures { OnOk result ((s : Plan) → MayFollowAllowedBeginningCalls s self.now sources.now calls.now
            → AreAllowedBeginningCallsFollowed s (allowed_beginning_events self.now) calls.now pending.old.items pending.new.items) }
    {
        for processor in 0..MOST_PROCESSORS {
            if let Some(call) = calls[processor] {
                self.follow(alloc, sources, processor, call, pending)?;
            }
        }
        Ok(())
    }
}
