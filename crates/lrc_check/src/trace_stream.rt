//! A trace that is judged as it is read.
ghost use Rattle.std.specs.Prelude.{◌≡◌, ◌≤◌, ℕ, ◌++◌, [], IfErr, IfOk, IfSome, List, MatchOption, OnOk, length};
ghost use Rattle.journal.specs.declared.event.Event.{Event as AnEvent};
ghost use Rattle.journal.specs.Prelude.{Race};
ghost use Rattle.lrc_script.specs.Prelude.{HasNoLineFeed};
ghost use Rattle.lrc_check.specs.Traces.Prelude.{FedTextBeginsTrace, IsNoLawfulTrace, IsFedLineRefused, IsNoUnfinishedTrace, IsTraceSoFar, trace_sizes_of, without_trace_labels};
ghost use Rattle.causes.specs.Prelude.{AreWaitCircles};
ghost use Rattle.lrc_check.specs.Prelude.{AreRacingWordsAsked, AreUnprotectedTold, HasStreamReadOn, IsFaultFoundInBytes, IsFoundInBytes, IsFoundInStream, IsFoundInUnfinished, IsHistoryJudgeOf, IsStreamEnd, IsStreamEndOf, IsStreamJudge, IsTraceStream, racing_looked_for, unprotected_looked_for};

use crate::check_fault::CheckFault;
use crate::checked::{Checked, Lie, Rules, TraceVerdict};
use crate::checking_traces::{JudgedTrace, trace_race_apart};
use crate::history_judge::HistoryJudge;
use crate::labelled_accesses::LabelledAccesses;
use crate::racing_words::RacingWord;
use crate::told_events::{KnownEvent, ToldEvents};
use crate::told_races::{RacesAsked, ToldRaces};
use crate::trace_history::trace_history_sizes;
use crate::traces::fault::TraceFault;
use crate::traces::reader::Reader;
use crate::traces::trace::TraceSizes;
use crate::unprotected::is_faithful;
use crate::verdict_text::{AnswersTold, verdict_text_answers};
use crate::waiting::waits_at_end_of_trace;
use causes::{RaceApart, Wait, wait_circles};
use journal::{Event, Kind};
use judge::FlatStore;
use judge::locksets::Unprotected;
use std::alloc::{AllocError, Global};

/// How many events are kept at hand, but for those of one piece more.
const MOST_AT_HAND: usize = 1 << 19;

/// A trace that is judged as it is read. It takes the memory of a `HistoryJudge`, of the events of the last pieces with their
/// labels, and of a `LabelledAccesses`, however long the trace is.
#[derive(Drop)]
pub struct TraceStream {
    reader: Reader,
    rules: Rules,
    /// None before the line of the sizes.
    judge: Option<HistoryJudge>,
    /// Accesses that have a label and may still be told, though they were let go of.
    earlier: LabelledAccesses,
    /// What is told of the events that were let go of: the accesses of the race, the stores that a lie may answer, and accesses of
    /// words without a lock.
    kept: Vec<KnownEvent>,
    /// The races that are told, if all are.
    races: ToldRaces,
}

/// Keeps the event at this place with its label, if it is at hand. The only error is running out of memory.
fn keep_known_event(
    alloc: Global,
    kept: &mut Vec<KnownEvent>,
    reader: &Reader,
    place: usize,
) -> Result<(), AllocError> {
    let told = ToldEvents::of_reader(reader, &[]);
    if let Some(event) = told.event(place) {
        kept.push(KnownEvent::of(alloc, place, event, told.label(place))?)?;
    }
    Ok(())
}

/// Keeps the first access of the race with its label, if it isn't at hand any more but is kept. The only error is running out of
/// memory.
fn keep_earlier_access(
    alloc: Global,
    kept: &mut Vec<KnownEvent>,
    reader: &Reader,
    earlier: &LabelledAccesses,
    race: (usize, usize),
) -> Result<(), AllocError> {
    let (first, second) = race;
    let (Some(event), Some(sizes)) = (
        ToldEvents::of_reader(reader, &[]).event(second),
        reader.sizes(),
    ) else {
        return Ok(());
    };
    let (Kind::Load(address, _) | Kind::Store(address, _)) = event.kind else {
        return Ok(());
    };
    if first < reader.gone()
        && let Some(known) = earlier.at(alloc, sizes.processors, address, first)?
    {
        kept.push(known)?;
    }
    Ok(())
}

/// Keeps of each of so many words two accesses that have a label and hold a lock in common, if the judge has found such. `gone`
/// events aren't at hand any more. The only error is running out of memory.
fn keep_guarded_accesses(
    alloc: Global,
    earlier: &mut LabelledAccesses,
    judge: &HistoryJudge,
    gone: usize,
    words: usize,
) -> Result<(), AllocError>
    requires { (j : List AnEvent) × IsHistoryJudgeOf j judge.now }
{
    for address in 0..words {
        if let Some(pair) = judge.guarded_so_far(address) {
            earlier.keep_guarded(alloc, gone, address, pair)?;
        }
    }
    Ok(())
}

/// Keeps these stores to the address, without labels. The only error is running out of memory.
fn keep_owed_stores(
    alloc: Global,
    kept: &mut Vec<KnownEvent>,
    stores: &[FlatStore],
    address: usize,
) -> Result<(), AllocError> {
    for store in stores {
        let FlatStore { by, place, value } = *store;
        kept.push(KnownEvent {
            place: place as usize,
            event: Event {
                processor: by,
                kind: Kind::Store(address, value),
            },
            label: Vec::new(alloc),
        })?;
    }
    Ok(())
}

impl TraceStream {
    /// Before the first piece. If all races are told by the rules, those that are `asked` for are.
    pub fn new(alloc: Global, rules: Rules, asked: RacesAsked) -> TraceStream
        ensures stream { IsTraceStream [] result }
        ensures rules { result.rules ≡ rules }
    {
        TraceStream {
            reader: Reader::new(alloc),
            rules,
            judge: None,
            earlier: LabelledAccesses::new(alloc, rules.locksets.is_some()),
            kept: Vec::new(alloc),
            races: ToldRaces::new(alloc, asked),
        }
    }

    /// Keeps the accesses of the race, if there is one and they aren't kept yet. The only error is running out of memory.
    fn keep_race(&mut self, alloc: Global) -> Result<(), AllocError>
        ensures { self.new ≡ record self.old { kept = self.new.kept } }
    {
        let race = match &self.judge {
            Some(judge) if self.kept.is_empty() => judge.race(),
            _ => None,
        };
        if let Some(race) = race {
            keep_earlier_access(alloc, &mut self.kept, &self.reader, &self.earlier, race)?;
            keep_known_event(alloc, &mut self.kept, &self.reader, race.0)?;
            keep_known_event(alloc, &mut self.kept, &self.reader, race.1)?;
        }
        Ok(())
    }

    /// Takes note of the races whose second accesses are at hand, if all races are told. The only error is running out of memory.
    fn note_races(&mut self, alloc: Global) -> Result<(), AllocError>
        ensures { self.new ≡ record self.old { races = self.new.races } }
    {
        if let Some(judge) = &self.judge {
            self.races
                .note(alloc, &self.reader, &self.earlier, judge.racing())?;
        }
        Ok(())
    }

    /// Keeps the accesses that have a label and may still be told, before the events at hand are let go of. Behind a race no other
    /// ones are told, unless all races are. The only error is running out of memory.
    fn keep_labelled(&mut self, alloc: Global) -> Result<(), AllocError>
        requires { (bytes : List ℕ) × IsTraceStream bytes self.old }
        ensures { self.new ≡ record self.old { earlier = self.new.earlier } }
    {
        let (Some(judge), Some(sizes)) = (&self.judge, self.reader.sizes()) else {
            return Ok(());
        };
        if judge.race().is_some() && !self.rules.all_races {
            return Ok(());
        }
        let gone = self.reader.gone();
        let words = judge.unprotected_so_far(alloc)?;
        self.earlier.keep_found(alloc, gone, &words)?;
        let addresses = sizes.pages.saturating_mul(sizes.words);
        keep_guarded_accesses(alloc, &mut self.earlier, judge, gone, addresses)?;
        self.earlier.note(alloc, &self.reader)
    }

    /// Lets go of the events at hand, if there are many. The only error is running out of memory.
    fn make_room(&mut self, alloc: Global) -> Result<(), AllocError>
        requires { (bytes : List ℕ) × IsTraceStream bytes self.old }
        ensures stream { OnOk result ((bytes : List ℕ) → IsTraceStream bytes self.old → IsTraceStream bytes self.new) }
        ensures rules { self.new.rules ≡ self.old.rules }
    {
        if self.reader.events().len() >= MOST_AT_HAND {
            self.keep_race(alloc)?;
            self.note_races(alloc)?;
            self.keep_labelled(alloc)?;
            self.reader.let_go();
        }
        Ok(())
    }

    /// Makes the judge, if the sizes are known and there is none. The only error is running out of memory.
    fn begin_judge(&mut self, alloc: Global) -> Result<(), AllocError>
        requires read { (front : List AnEvent) × (seen : ℕ) × HasStreamReadOn front seen self.old }
        ensures reader { self.new.reader ≡ self.old.reader }
        ensures rules { self.new.rules ≡ self.old.rules }
        ensures begun { OnOk result ((front : List AnEvent) (seen : ℕ) → HasStreamReadOn front seen self.old
            → HasStreamReadOn front seen self.new) }
        ensures known { OnOk result (self.new.judge ≡ None → self.old.reader.sizes ≡ None) }
    {
        if self.judge.is_none() {
            if let Some(sizes) = self.reader.sizes() {
                let judge = HistoryJudge::new(alloc, trace_history_sizes(sizes), self.rules)?;
                // The judge that isn't there is large, too: so it goes by one call.
                drop(self.judge.replace(judge));
            }
        }
        Ok(())
    }

    /// Judges the events at hand behind the first `seen` ones: what is found if judging ends with one of them. The only error is
    /// running out of memory.
    fn judge_behind(&mut self, alloc: Global, seen: usize) -> Result<Option<Checked>, AllocError>
        requires read { (front : List AnEvent) × HasStreamReadOn front seen self.old }
        ensures reader { self.new.reader ≡ self.old.reader }
        ensures rules { self.new.rules ≡ self.old.rules }
        ensures judged { IfOk result (λ o. (front : List AnEvent) → HasStreamReadOn front seen self.old → MatchOption o
            (IsStreamJudge self.old.rules self.old.reader.sizes (front ++ self.old.reader.events) self.new.judge)
            (IsStreamEndOf self.old.rules self.old.reader.sizes (front ++ self.old.reader.events))) }
    {
        self.begin_judge(alloc)?;
        match &mut self.judge {
            None => Ok(None),
            Some(judge) => judge.read_all(alloc, &self.reader.events()[seen..]),
        }
    }

    /// Takes the next piece of the trace's text, and judges the events of the lines that end in it: what is found if judging ends
    /// with one of them; None if it goes on.
    ///
    /// # Errors
    ///
    /// `Trace`, with the first line that has a fault, comes only where no trace has a text that begins so, and if judging didn't
    /// end before that line. `NoMemory` comes where a growth was refused. After an error the stream judges no trace.
    pub fn feed(&mut self, alloc: Global, piece: &[u8]) -> Result<Option<Checked>, CheckFault>
        requires stream { (bytes : List ℕ) × IsTraceStream bytes self.old }
        ensures rules { self.new.rules ≡ self.old.rules }
        ensures judged { IfOk result (λ o. (bytes : List ℕ) → IsTraceStream bytes self.old → MatchOption o
            (IsTraceStream (bytes ++ piece.now) self.new) (IsStreamEnd self.old.rules (bytes ++ piece.now))) }
        ensures found { IfOk result (λ o. IfSome o (λ x. (front : List AnEvent) × IsFoundInStream front x self.new)) }
        ensures refused { IfErr result (λ fault. IsFaultFoundInBytes fault → (bytes : List ℕ) → IsTraceStream bytes self.old
            → ¬ FedTextBeginsTrace (bytes ++ piece.now)) }
        ensures line { IfErr result (λ fault. IsFaultFoundInBytes fault → (bytes : List ℕ) → IsTraceStream bytes self.old
            → (front : List AnEvent) × IsFedLineRefused (bytes ++ piece.now) front self.new.reader) }
    {
        self.make_room(alloc)?;
        let seen = self.reader.events().len();
        let fed = self.reader.feed(alloc, piece);
        if let Some(found) = self.judge_behind(alloc, seen)? {
            return Ok(Some(found));
        }
        fed?;
        Ok(None)
    }

    /// What is found if the text ends here.
    ///
    /// # Errors
    ///
    /// `Trace` alone, with the number of the line that has to be there or to end: then the text is no trace's.
    pub fn finish(&self) -> Result<Checked, CheckFault>
        requires stream { (bytes : List ℕ) × IsTraceStream bytes self.now }
        ensures found { IfOk result (λ x. (bytes : List ℕ) → IsTraceStream bytes self.now → IsFoundInBytes self.now.rules bytes x) }
        ensures at_hand { IfOk result (λ x. (front : List AnEvent) × IsFoundInStream front x self.now) }
        ensures refused { IfErr result (λ fault. IsFaultFoundInBytes fault → (bytes : List ℕ) → IsTraceStream bytes self.now
            → IsNoLawfulTrace (without_trace_labels bytes)) }
    {
        self.reader.end()?;
        match &self.judge {
            None => Err(CheckFault::Trace(1, TraceFault::Truncated)),
            Some(judge) => Ok(judge.finish()),
        }
    }

    /// What is found if the text ends here, or in the midst of a line, of which nothing is read then.
    ///
    /// # Errors
    ///
    /// `Trace` alone, if the line of the sizes isn't there or doesn't end: then the text is no trace's.
    pub fn finish_unfinished(&self) -> Result<Checked, CheckFault>
        requires stream { (bytes : List ℕ) × IsTraceStream bytes self.now }
        ensures found { IfOk result (λ x. (bytes : List ℕ) → IsTraceStream bytes self.now
            → IsFoundInUnfinished self.now.rules bytes x) }
        ensures at_hand { IfOk result (λ x. (front : List Event) × IsFoundInStream front x self.now) }
        ensures refused { IfErr result (λ fault. IsFaultFoundInBytes fault → (bytes : List ℕ) → IsTraceStream bytes self.now
            → IsNoLawfulTrace (without_trace_labels bytes)) }
        ensures never { IfErr result (λ _. (bytes : List ℕ) → IsTraceStream bytes self.now → IsNoUnfinishedTrace bytes) }
    {
        let _line = self.reader.unfinished();
        match &self.judge {
            None => self.finish(),
            Some(judge) => Ok(judge.finish()),
        }
    }

    /// The bytes of the line that a fault is told of, without its line feed, and how many lines before it were passed over.
    pub fn refused_line(&self) -> (&[u8], usize)
        ensures line { result.0.now ≡ self.now.reader.unfinished }
        ensures one_line { HasNoLineFeed result.0.now }
        ensures passed { result.1 ≡ self.now.reader.passed }
    {
        (self.reader.unfinished(), self.reader.passed())
    }

    /// The trace's sizes, if their line was read.
    pub fn sizes(&self) -> Option<TraceSizes>
        ensures { result ≡ self.now.reader.sizes }
    {
        self.reader.sizes()
    }

    /// What each processor waits for in vain at the end of the trace, of which this was found. It is empty unless the trace is
    /// faithful, somebody waits, and all events are at hand and no more than `MOST_HELD`. The only error is running out of memory.
    fn waits(&self, alloc: Global, found: &Checked) -> Result<Vec<Wait>, AllocError> {
        match self.reader.sizes() {
            Some(sizes) if self.reader.gone() == 0 => {
                waits_at_end_of_trace(alloc, sizes, self.reader.events(), &found.verdict)
            }
            _ => Ok(Vec::new(alloc)),
        }
    }

    /// What keeps the accesses of this race apart, if all events are at hand and no more than `MOST_HELD`. The only error is running
    /// out of memory.
    fn race_apart(
        &self,
        alloc: Global,
        race: Option<(usize, usize)>,
    ) -> Result<Option<RaceApart>, AllocError>
        requires { (front : List AnEvent)
            × IsTraceSoFar self.now.reader.sizes self.now.reader.gone front self.now.reader.events
            × IfSome race (λ r. Race (front ++ self.now.reader.events) r.0 r.1) }
        ensures none { IfOk result (λ o. race ≡ None → o ≡ None) }
    {
        match self.reader.sizes() {
            Some(sizes) if self.reader.gone() == 0 => {
                trace_race_apart(alloc, sizes, self.reader.events(), race)
            }
            _ => Ok(None),
        }
    }

    /// Keeps the stores that the load of this lie may answer, those that are told: they may have been let go of. The only error is
    /// running out of memory.
    fn keep_owed(&mut self, alloc: Global, verdict: &TraceVerdict) -> Result<(), AllocError>
        ensures { self.new ≡ record self.old { kept = self.new.kept } }
    {
        let TraceVerdict::Lie(Lie::Unexplained(load)) = verdict else {
            return Ok(());
        };
        let Some(event) = ToldEvents::of_reader(&self.reader, &[]).event(load.place) else {
            return Ok(());
        };
        let Kind::Load(address, _) = event.kind else {
            return Ok(());
        };
        let AnswersTold { stores, .. } = verdict_text_answers(alloc, &load.permitted)?;
        keep_owed_stores(alloc, &mut self.kept, &stores, address)
    }

    /// The words that need a lock and have none, those that are asked for, if the trace, of which this was found, is faithful and
    /// has no race; none otherwise. The only error is running out of memory.
    fn unprotected(&self, alloc: Global, found: &Checked) -> Result<Vec<Unprotected>, AllocError>
        requires { (front : List AnEvent) × IsFoundInStream front found.now self.now }
        ensures { IfOk result (λ v. (front : List AnEvent) (is : IsFoundInStream front found.now self.now)
            → AreUnprotectedTold (unprotected_looked_for self.now.rules.locksets found.now) (trace_sizes_of is.known)
            (front ++ self.now.reader.events) v.items) }
    {
        match &self.judge {
            Some(judge) => judge.unprotected(alloc, found),
            None => Ok(Vec::new(alloc)),
        }
    }

    /// The words that race, each with its first race, if all are asked for and the trace, of which this was found, is faithful; none
    /// otherwise. The only error is running out of memory.
    fn racing(&self, alloc: Global, found: &Checked) -> Result<Vec<RacingWord>, AllocError>
        ensures { IfOk result (λ v. (front : List AnEvent) → IsFoundInStream front found.now self.now
            → AreRacingWordsAsked (racing_looked_for self.now.rules.all_races found.now) (front ++ self.now.reader.events) v.items) }
    {
        let mut words = Vec::new(alloc);
        if is_faithful(&found.verdict)
            && let Some(judge) = &self.judge
        {
            words.extend_from_slice(judge.racing())?;
        }
        Ok(words)
    }

    /// Keeps what is told of the accesses that aren't at hand any more: of the race, of this verdict's lie, and of these words without
    /// a lock. The only error is running out of memory.
    fn keep_told(
        &mut self,
        alloc: Global,
        verdict: &TraceVerdict,
        words: &[Unprotected],
    ) -> Result<(), AllocError>
        ensures { self.new ≡ record self.old { kept = self.new.kept } }
    {
        self.keep_race(alloc)?;
        self.keep_owed(alloc, verdict)?;
        self.earlier
            .tell(alloc, self.reader.gone(), words, &mut self.kept)
    }

    /// Adds to what was found what else is told, as `judged` says. The only error is running out of memory.
    // What is told is large and wants a drop: so it is filled in where it is only borrowed.
    fn complete(&mut self, alloc: Global, judged: &mut JudgedTrace) -> Result<(), AllocError>
        requires { (front : List AnEvent) × IsFoundInStream front judged.old.found self.old }
        ensures found { judged.new.found ≡ judged.old.found }
        ensures unprotected { OnOk result ((front : List AnEvent) (is : IsFoundInStream front judged.old.found self.old)
            → AreUnprotectedTold (unprotected_looked_for self.old.rules.locksets judged.old.found) (trace_sizes_of is.known)
            (front ++ self.old.reader.events) judged.new.unprotected.items) }
        ensures racing { OnOk result ((front : List AnEvent) → IsFoundInStream front judged.old.found self.old
            → AreRacingWordsAsked (racing_looked_for self.old.rules.all_races judged.old.found) (front ++ self.old.reader.events)
            judged.new.racing.items) }
        ensures circles { OnOk result (AreWaitCircles judged.new.waits.items (length judged.new.waits.items) judged.new.circles.items) }
    {
        judged.race = self.race_apart(alloc, judged.found.race)?;
        judged.unprotected = self.unprotected(alloc, &judged.found)?;
        judged.racing = self.racing(alloc, &judged.found)?;
        self.note_races(alloc)?;
        judged.races = self.races.taken(alloc);
        self.keep_told(alloc, &judged.found.verdict, &judged.unprotected)?;
        judged.waits = self.waits(alloc, &judged.found)?;
        judged.circles = wait_circles(alloc, &judged.waits)?;
        Ok(())
    }

    /// What was found, as it is told. It has what keeps the race's accesses apart, and who waits at the end, if all events are at
    /// hand and no more than `MOST_HELD`. It has the words that need a lock and have none, if these are asked for and it is
    /// faithful without a race. The only error is running out of memory.
    pub fn judged(&mut self, alloc: Global, found: Checked) -> Result<JudgedTrace, AllocError>
        requires { (front : List AnEvent) × IsFoundInStream front found self.old }
        ensures found { IfOk result (λ x. x.found ≡ found) }
        ensures unprotected { IfOk result (λ x. (front : List AnEvent) (is : IsFoundInStream front found self.old)
            → AreUnprotectedTold (unprotected_looked_for self.old.rules.locksets found) (trace_sizes_of is.known)
            (front ++ self.old.reader.events) x.unprotected.items) }
        ensures racing { IfOk result (λ x. (front : List AnEvent) → IsFoundInStream front found self.old
            → AreRacingWordsAsked (racing_looked_for self.old.rules.all_races found) (front ++ self.old.reader.events) x.racing.items) }
        ensures circles { IfOk result (λ x. AreWaitCircles x.waits.items (length x.waits.items) x.circles.items) }
    {
        let mut judged = JudgedTrace {
            found,
            race: None,
            unprotected: Vec::new(alloc),
            racing: Vec::new(alloc),
            races: ToldRaces::none(alloc),
            waits: Vec::new(alloc),
            circles: Vec::new(alloc),
            unfinished: self.reader.unfinished_line(),
        };
        match self.complete(alloc, &mut judged) {
            Ok(()) => Ok(judged),
            Err(fault) => {
                drop(judged);
                Err(fault)
            }
        }
    }

    /// The events that can be told: those at hand, with their labels, and of those before the accesses of the race, the stores that a
    /// lie may answer, and accesses of words without a lock.
    pub fn told(&self) -> ToldEvents<'_> {
        ToldEvents::of_reader(&self.reader, &self.kept)
    }
}
