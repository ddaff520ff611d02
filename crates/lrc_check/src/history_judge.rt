//! Judges a history by some rules, a part at a time.
ghost use Rattle.std.specs.Prelude.{◌≡◌, ◌+◌, ◌<◌, ◌≤◌, [], ◌∷◌, ◌++◌, ℕ, IfOk, IfSome, List, IsTrue, MatchOption, None, Ok, OnOk, Option, cond, false, is_some, length};
ghost use Rattle.journal.specs.Prelude.{AreKeptBaseStateCosts};
ghost use Rattle.journal.specs.declared.event.Event.{Event};
ghost use Rattle.journal.specs.Sizes.{addresses};
ghost use Rattle.judge.specs.declared.locksets.lockset_finder.LocksetWords.{LocksetWords as Words};
ghost use Rattle.judge.specs.declared.locksets.lockset_finder.LocksetWords.TheVariants.{All};
ghost use Rattle.judge.specs.Locksets.Prelude.{IsGuardedPair, PairsTellUnprotected, TellsGuardedPair};
ghost use Rattle.judge.specs.declared.sizes.Sizes.{Sizes as JudgedSizes};
ghost use Rattle.judge.specs.Prelude.{AreStreamedSizes, judged_sizes_of, most_judged_events};
ghost use Rattle.lrc_check.specs.Prelude.{AreRacingWordsAsked, AreUnprotectedTold, ComesNextInHistory, ComesNextToHistoryLocksets, ComesNextToTally, HasHistoryLocksets, HasJudgedNext, HasJudgedToEnd, IsHistoryLocksets, IsCheckVerdictTraffic, IsHistoryEnd, IsHistoryEndWithin, IsHistoryJudgeOf, IsHistoryTallied, IsNextPartOfHistory, IsTrueCheckVerdict};
ghost use Rattle.lrc_check.specs.Prelude.{is_load_in_check_verdict as is_a_load, is_unjudged_next, unprotected_looked_for};
ghost use Rattle.lrc_check.specs.declared.trace_judge.TraceJudge.{TraceJudge as Judge};

use crate::checked::{Checked, Lie, Rules, TraceVerdict};
use crate::racing_words::RacingWord;
use crate::trace_judge::TraceJudge;
use crate::unprotected::unprotected_asked_for;
use journal::{Event, Kind, Traffic, traffic_of};
use judge::locksets::{Guarded, LocksetFinder, LocksetWords, Unprotected};
use judge::{MemoryModel, Sizes};
use std::alloc::{AllocError, Global};

/// A history that is judged by some rules, a part at a time, and is faithful so far.
///
/// It takes time in the order of the events times the processors times (the processors and the logarithm of the events). Under
/// `MemoryModel::RaceFree` and `MemoryModel::Sequential` it takes memory in the order of the addresses that are accessed
/// times the processors, and of the locks and flags, however long the history is. Under the other two it takes memory besides for
/// the stores that a load may still answer. Under `MemoryModel::LazyRelease`, unless lax, it takes memory for each interval and page that it
/// stores in. If words without a lock are asked for, it takes the memory and time of a `LocksetFinder` besides, up to the first
/// race.
#[derive(Drop)]
pub struct HistoryJudge {
    judge: TraceJudge,
    /// What finds the words without a lock that are asked for; None if none are, and from the first race on.
    locksets: Option<LocksetFinder>,
    rules: Rules,
    /// How many events were judged.
    count: usize,
    /// What they cost, by the counts that their own fetches tell.
    traffic: Traffic,
    /// How many of their loads weren't judged.
    unjudged: usize,
}

/// What finds the words without a lock that are asked for, if any are. The only error is running out of memory.
fn history_locksets(
    alloc: Global,
    sizes: Sizes,
    asked: Option<LocksetWords>,
) -> Result<Option<LocksetFinder>, AllocError>
    requires { AreStreamedSizes (judged_sizes_of sizes) }
    ensures { IfOk result (HasHistoryLocksets asked None sizes []) }
{
    if asked.is_none() {
        return Ok(None);
    }
    let finder = LocksetFinder::new(alloc, sizes.processors, sizes.pages * sizes.words)?;
    Ok(Some(finder))
}

/// Takes note of the event, which was judged last, for its word; from the first race on no words are looked for. The only
/// error is running out of memory.
fn note_history_locksets(
    alloc: Global,
    locksets: &mut Option<LocksetFinder>,
    event: Event,
    race: Option<(usize, usize)>,
) -> Result<(), AllocError>
    requires { (s : JudgedSizes) × (j : List Event) × ComesNextToHistoryLocksets j event s × IfSome locksets.old (IsHistoryLocksets s j) }
    ensures { OnOk result ((asked : Option Words) (before : Option (ℕ × ℕ)) (s : JudgedSizes) (j : List Event)
        → ComesNextToHistoryLocksets j event s → (race ≡ None → before ≡ None) → HasHistoryLocksets asked before s j locksets.old
        → HasHistoryLocksets asked race s (j ++ event ∷ []) locksets.new) }
{
    if race.is_some() {
        *locksets = None;
        return Ok(());
    }
    match locksets {
        Some(finder) => finder.note(alloc, event),
        None => Ok(()),
    }
}

/// Whether it is a load.
fn is_load(kind: Kind) -> bool
    ensures { result ≡ is_a_load kind }
{
    match kind {
        Kind::Load(..) => true,
        _ => false,
    }
}

/// What the event costs.
fn traffic_of_next(event: Event) -> Traffic
    ensures traffic { IsCheckVerdictTraffic (event ∷ []) result }
    ensures few { AreKeptBaseStateCosts 1 result }
{
    match event.kind {
        Kind::Load(..) | Kind::Store(..) => Traffic::default(),
        _ => traffic_of(&[event]),
    }
}

/// Whether the event isn't judged, whose front with it has a race or not.
fn is_unjudged(model: MemoryModel, is_racy: bool, kind: Kind) -> bool
    ensures { result ≡ is_unjudged_next model is_racy kind }
{
    match model {
        MemoryModel::RaceFree => is_racy && is_load(kind),
        _ => false,
    }
}

impl HistoryJudge {
    /// Before the first event of a history of these sizes. The only error is running out of memory.
    pub fn new(alloc: Global, sizes: Sizes, rules: Rules) -> Result<HistoryJudge, AllocError>
        requires { AreStreamedSizes (judged_sizes_of sizes) }
        ensures judged { IfOk result (IsHistoryJudgeOf []) }
        ensures rules { IfOk result (λ x. x.rules ≡ rules) }
        ensures sizes { IfOk result (λ x. x.judge.sizes ≡ sizes) }
    {
        // The judge is the larger part: so it is made last, and no failure drops it.
        Ok(HistoryJudge {
            locksets: history_locksets(alloc, sizes, rules.locksets)?,
            judge: TraceJudge::new(alloc, sizes, rules.model, rules.lax, rules.all_races)?,
            rules,
            count: 0,
            traffic: Traffic::default(),
            unjudged: 0,
        })
    }

    /// The first race of the events so far, the nearest one: the places of the two accesses.
    pub fn race(&self) -> Option<(usize, usize)>
        ensures { result ≡ self.now.judge.race }
    {
        self.judge.race()
    }

    /// The words so far that race, each with its first race, if that is asked for; none otherwise.
    pub(crate) fn racing(&self) -> &[RacingWord]
        ensures { (j : List Event) → IsHistoryJudgeOf j self.now → AreRacingWordsAsked self.now.rules.all_races j result.now }
    {
        self.judge.racing()
    }

    /// Counts the event, which was judged last.
    fn tally(&mut self, event: Event)
        requires next { (j : List Event) × ComesNextToTally j self.old }
        ensures judge { self.new.judge ≡ self.old.judge }
        ensures locksets { self.new.locksets ≡ self.old.locksets }
        ensures rules { self.new.rules ≡ self.old.rules }
        ensures tallied { (j : List Event) → ComesNextToTally j self.old → IsHistoryTallied (j ++ event ∷ []) self.new }
        ensures unjudged { self.new.unjudged ≡ self.old.unjudged + cond (is_unjudged_next self.old.rules.model
            (is_some self.old.judge.race) event.kind) 1 0 }
    {
        let cost = traffic_of_next(event);
        self.count += 1;
        self.traffic.messages += cost.messages;
        self.traffic.records += cost.records;
        self.traffic.words += cost.words;
        if is_unjudged(self.rules.model, self.judge.race().is_some(), event.kind) {
            self.unjudged += 1;
        }
    }

    /// Takes note of the event, which the judge has judged, and which judging doesn't end with. The only error is running out of
    /// memory, after which it judges no history.
    #[inline(always)]
    fn keep(&mut self, alloc: Global, event: Event) -> Result<(), AllocError>
        requires next { (j : List Event) × (x : Judge) × HasJudgedNext j event x self.old }
        ensures judged { OnOk result ((j : List Event) (x : Judge) → HasJudgedNext j event x self.old
            → IsHistoryJudgeOf (j ++ event ∷ []) self.new) }
        ensures rules { self.new.rules ≡ self.old.rules }
        ensures judge { self.new.judge ≡ self.old.judge }
    {
        let race = self.judge.race();
        note_history_locksets(alloc, &mut self.locksets, event, race)?;
        self.tally(event);
        Ok(())
    }

    /// Judges the event, which comes next, as `read` does, if judging goes on: whether it was judged. If not, it may be read. The
    /// only error is running out of memory, after which it judges no history.
    #[inline(always)]
    fn goes_on(&mut self, alloc: Global, event: Event) -> Result<bool, AllocError>
        requires next { (j : List Event) × ComesNextInHistory j self.old }
        ensures judged { IfOk result (λ goes. IsTrue goes → (j : List Event) → ComesNextInHistory j self.old
            → IsHistoryJudgeOf (j ++ event ∷ []) self.new) }
        ensures still { result ≡ Ok false → self.new ≡ self.old }
        ensures rules { self.new.rules ≡ self.old.rules }
        ensures sizes { self.new.judge.sizes ≡ self.old.judge.sizes }
    {
        if !self.judge.goes_on(event, self.rules.ends_at_race)? {
            return Ok(false);
        }
        self.keep(alloc, event)?;
        Ok(true)
    }

    /// Judges the event, which comes next: what is found if judging ends with it; None if it goes on. The only error is running
    /// out of memory, after which it judges no history.
    pub fn read(&mut self, alloc: Global, event: Event) -> Result<Option<Checked>, AllocError>
        requires next { (j : List Event) × ComesNextInHistory j self.old }
        ensures judged { IfOk result (λ o. (j : List Event) → ComesNextInHistory j self.old → MatchOption o
            (IsHistoryJudgeOf (j ++ event ∷ []) self.new)
            (IsHistoryEnd self.old.rules (judged_sizes_of self.old.judge.sizes) (j ++ event ∷ []))) }
        ensures rules { self.new.rules ≡ self.old.rules }
        ensures sizes { self.new.judge.sizes ≡ self.old.judge.sizes }
    {
        let lie = self.judge.read(alloc, event)?;
        let count = self.count + 1;
        let race = self.judge.race();
        if self.rules.ends_at_race && race.is_some() {
            let verdict = TraceVerdict::Racy;
            return Ok(Some(Checked {
                count,
                race,
                verdict,
            }));
        }
        match lie {
            Some(lie) => {
                let verdict = TraceVerdict::Lie(lie);
                Ok(Some(Checked {
                    count,
                    race,
                    verdict,
                }))
            }
            None => {
                self.keep(alloc, event)?;
                Ok(None)
            }
        }
    }

    /// Judges these events, the next ones: what is found if judging ends with one of them; None if it goes on. The only error is
    /// running out of memory, after which it judges no history.
    pub fn read_all(
        &mut self,
        alloc: Global,
        events: &[Event],
    ) -> Result<Option<Checked>, AllocError>
        requires { (j : List Event) × IsNextPartOfHistory j events.now self.old }
        ensures judged { IfOk result (λ o. (j : List Event) → IsNextPartOfHistory j events.now self.old → MatchOption o
            (IsHistoryJudgeOf (j ++ events.now) self.new)
            (IsHistoryEndWithin self.old.rules (judged_sizes_of self.old.judge.sizes) (j ++ events.now))) }
        ensures rules { self.new.rules ≡ self.old.rules }
        ensures sizes { self.new.judge.sizes ≡ self.old.judge.sizes }
    {
        for at in 0..events.len() {
            if !self.goes_on(alloc, events[at])? {
                if let Some(found) = self.read(alloc, events[at])? {
                    return Ok(Some(found));
                }
            }
        }
        Ok(None)
    }

    /// What is found if the history ends here.
    pub fn finish(&self) -> Checked
        requires { (j : List Event) × IsHistoryJudgeOf j self.now }
        ensures says { (j : List Event) → IsHistoryJudgeOf j self.now
            → IsTrueCheckVerdict self.now.rules (judged_sizes_of self.now.judge.sizes) j result × (result.count ≡ length j) }
        ensures race { result.race ≡ self.now.judge.race }
    {
        Checked {
            count: self.count,
            race: self.judge.race(),
            verdict: TraceVerdict::Faithful {
                traffic: self.traffic,
                unjudged: self.unjudged,
            },
        }
    }

    /// Judges these events, which are the whole history: what is found of it, and the words that need a lock and have none, those
    /// that are asked for, if it is faithful and has no race. The only error is running out of memory.
    // Who owns a judge makes this one call of it, which borrows it: so its drop is looked at once.
    fn read_whole(
        &mut self,
        alloc: Global,
        events: &[Event],
    ) -> Result<(Checked, Vec<Unprotected>), AllocError>
        requires { IsNextPartOfHistory [] events.now self.old }
        ensures found { IfOk result (λ x. IsTrueCheckVerdict self.old.rules (judged_sizes_of self.old.judge.sizes) events.now x.0) }
        ensures unprotected { IfOk result (λ x. AreUnprotectedTold (unprotected_looked_for self.old.rules.locksets x.0)
            (judged_sizes_of self.old.judge.sizes) events.now x.1.items) }
    {
        match self.read_all(alloc, events)? {
            Some(found) => Ok((found, Vec::new(alloc))),
            None => {
                let found = self.finish();
                let unprotected = self.unprotected(alloc, &found)?;
                Ok((found, unprotected))
            }
        }
    }

    /// The words that need a lock and have none, those that are asked for, if the history, of which this was found, is faithful
    /// and has no race; none otherwise. The only error is running out of memory.
    pub fn unprotected(
        &self,
        alloc: Global,
        found: &Checked,
    ) -> Result<Vec<Unprotected>, AllocError>
        requires { (j : List Event) × HasJudgedToEnd j found.now self.now }
        ensures { IfOk result (λ v. (j : List Event) → HasJudgedToEnd j found.now self.now
            → AreUnprotectedTold (unprotected_looked_for self.now.rules.locksets found.now)
            (judged_sizes_of self.now.judge.sizes) j v.items) }
    {
        let Some(words) = unprotected_asked_for(self.rules.locksets, found) else {
            return Ok(Vec::new(alloc));
        };
        match &self.locksets {
            Some(finder) => finder.found(alloc, words),
            None => Ok(Vec::new(alloc)),
        }
    }

    /// All words so far that need a lock and have none, at times or never, if such words are looked for and no race was met; none
    /// otherwise. The only error is running out of memory.
    pub(crate) fn unprotected_so_far(&self, alloc: Global) -> Result<Vec<Unprotected>, AllocError>
        requires { (j : List Event) × IsHistoryJudgeOf j self.now }
        ensures { IfOk result (λ v. (j : List Event) → IsHistoryJudgeOf j self.now → MatchOption self.now.locksets (v.items ≡ [])
            (λ _. PairsTellUnprotected All j (addresses (judged_sizes_of self.now.judge.sizes)) v.items)) }
    {
        match &self.locksets {
            Some(finder) => finder.found(alloc, LocksetWords::All),
            None => Ok(Vec::new(alloc)),
        }
    }

    /// Two accesses so far of the word at this address that only a lock keeps apart, and that hold one in common. None if there are
    /// none, if no words without a lock are looked for, or from the first race on.
    pub(crate) fn guarded_so_far(&self, address: usize) -> Option<Guarded>
        requires { (j : List Event) × IsHistoryJudgeOf j self.now }
        ensures { (j : List Event) → IsHistoryJudgeOf j self.now → MatchOption self.now.locksets (result ≡ None)
            (λ _. MatchOption result ((i k l : ℕ) → ¬ IsGuardedPair j address i k l) (TellsGuardedPair j address)) }
    {
        match &self.locksets {
            Some(finder) => finder.guarded(address),
            None => None,
        }
    }
}

/// What is found of a history: whether a memory of the model can make it, and if not, which event is the first that none
/// makes, and why. If it is faithful and has no race, also the words that need a lock and have none, if these are asked for.
///
/// Nothing is asked of the events' own numbers, which may be out of range. Time and memory are those of `HistoryJudge`. The
/// only error is running out of memory.
pub fn judge_history(
    alloc: Global,
    sizes: Sizes,
    events: &[Event],
    rules: Rules,
) -> Result<(Checked, Vec<Unprotected>), AllocError>
    requires sizes { AreStreamedSizes (judged_sizes_of sizes) }
    requires few { length events.now ≤ most_judged_events }
    ensures found { IfOk result (λ x. IsTrueCheckVerdict rules (judged_sizes_of sizes) events.now x.0) }
    ensures unprotected { IfOk result (λ x. AreUnprotectedTold (unprotected_looked_for rules.locksets x.0)
        (judged_sizes_of sizes) events.now x.1.items) }
{
    let mut judge = HistoryJudge::new(alloc, sizes, rules)?;
    let judged = judge.read_whole(alloc, events);
    drop(judge);
    judged
}
