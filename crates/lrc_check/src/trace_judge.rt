//! Judges the next event of a history.
ghost use Rattle.std.specs.Prelude.{◌≡◌, ◌↔◌, ℕ, [], ◌∷◌, ◌++◌, IfOk, IfSome, IsTrue, List, MatchOption, None, Ok, OnOk, true};
ghost use Rattle.std.specs.Prelude.{false, is_some, length};
ghost use Rattle.journal.specs.Sizes.{addresses};
ghost use Rattle.journal.specs.declared.event.Event.{Event};
ghost use Rattle.journal.specs.declared.event.Kind.TheVariants.{Load};
ghost use Rattle.judge.specs.declared.models.MemoryModel.TheVariants.{LazyRelease};
ghost use Rattle.judge.specs.Prelude.{AreStreamedSizes, IsEventInSizes, IsModelAnswer, IsNearestRaceTo, IsNotMiscounted, Miscounts, judged_sizes_of};
ghost use Rattle.lrc_check.specs.Prelude.{AreRacingWordsAsked, IsRacingWordsOf, TraceJudgeHasCounts, IsFaithfulAndCounted, IsTraceJudgeOf, ComesNextToExplain, ComesNextToJudge, ComesNextToKeep, ComesNextToRead, IsCheckVerdictLie, IsCheckVerdictUnexplainedNext, IsCheckVerdictRace, check_verdict_race_events};

use crate::checked::{Lie, Unexplained, are_counts_judged};
use crate::racing_words::{RacingWord, RacingWords};
use journal::{Event, Kind};
use judge::{
    DueCounts, Frontier, IllFormed, MemoryModel, Miscounted, NearestRaces, Owed, Sizes, miscount,
};
use std::alloc::{AllocError, Global};

/// A history that is judged, an event at a time, and is faithful so far: each of its events is one that a memory of the
/// model can make.
///
/// `lax` leaves out that a lock's asks are granted in their order, and that fetches count their gaps. It takes time in the
/// order of the events times the processors times (the processors and the logarithm of the events). It takes memory in the
/// order of the stores that a load may still return, of the addresses times the processors, and of the locks and flags.
#[derive(Drop)]
pub struct TraceJudge {
    model: MemoryModel,
    lax: bool,
    sizes: Sizes,
    front: Frontier,
    races: NearestRaces,
    /// The first race so far, the nearest one: the places of the two accesses.
    race: Option<(usize, usize)>,
    owed: Owed,
    /// What fetches have to count, if that is judged.
    counts: Option<DueCounts>,
    /// The words that race, if they are told.
    racing: Option<RacingWords>,
}

/// What fetches have to count, if that is judged. The only error is running out of memory.
fn trace_judge_counts(
    alloc: Global,
    sizes: Sizes,
    model: MemoryModel,
    lax: bool,
) -> Result<Option<DueCounts>, AllocError>
    requires { AreStreamedSizes (judged_sizes_of sizes) }
    ensures { IfOk result (TraceJudgeHasCounts model lax sizes []) }
{
    if are_counts_judged(model, lax) {
        let counts = DueCounts::new(alloc, sizes)?;
        Ok(Some(counts))
    } else {
        Ok(None)
    }
}

/// The words that race, before the first event, if they are told.
fn trace_judge_racing(alloc: Global, all_races: bool) -> Option<RacingWords>
    ensures racing { IfSome result (IsRacingWordsOf []) }
    ensures told { is_some result ≡ all_races }
{
    if all_races {
        Some(RacingWords::new(alloc))
    } else {
        None
    }
}

/// Takes note of the event, which comes next, at this place, for the words that race, if they are told; `nearest` is the last event
/// that races with it. The only error is running out of memory.
fn note_trace_race(
    racing: &mut Option<RacingWords>,
    event: Event,
    place: usize,
    nearest: Option<usize>,
) -> Result<(), AllocError>
    ensures told { is_some racing.new ≡ is_some racing.old }
    ensures racing { OnOk result ((j : List Event) → length j ≡ place → (IsTrue (is_some racing.old) → IsNearestRaceTo j event nearest)
        → IfSome racing.old (IsRacingWordsOf j) → IfSome racing.new (IsRacingWordsOf (j ++ event ∷ []))) }
{
    match racing {
        Some(words) => words.note(event, place, nearest),
        None => Ok(()),
    }
}

impl TraceJudge {
    /// Before the first event of a history of these sizes. With `all_races` the words that race are told. The only error is running
    /// out of memory.
    pub fn new(
        alloc: Global,
        sizes: Sizes,
        model: MemoryModel,
        lax: bool,
        all_races: bool,
    ) -> Result<TraceJudge, AllocError>
        requires { AreStreamedSizes (judged_sizes_of sizes) }
        ensures judged { IfOk result (IsTraceJudgeOf []) }
        ensures model { IfOk result (λ x. x.model ≡ model) }
        ensures lax { IfOk result (λ x. x.lax ≡ lax) }
        ensures sizes { IfOk result (λ x. x.sizes ≡ sizes) }
        ensures race { IfOk result (λ x. x.race ≡ None) }
        ensures racing { IfOk result (λ x. is_some x.racing ≡ all_races) }
    {
        let addresses = sizes.pages * sizes.words;
        Ok(TraceJudge {
            model,
            lax,
            sizes,
            front: Frontier::new(alloc, sizes)?,
            races: NearestRaces::new(alloc, sizes.processors, addresses)?,
            race: None,
            owed: Owed::new(alloc, model, sizes)?,
            counts: trace_judge_counts(alloc, sizes, model, lax)?,
            racing: trace_judge_racing(alloc, all_races),
        })
    }

    /// The first race with the event, which comes next, at this place.
    #[inline(always)]
    fn race_with(&self, event: Event, place: usize) -> Option<(usize, usize)>
        requires judged { (j : List Event) × IsTraceJudgeOf j self.now }
        requires within { IsEventInSizes (judged_sizes_of self.now.sizes) event }
        ensures { (j : List Event) → IsTraceJudgeOf j self.now → length j ≡ place
            → IsCheckVerdictRace (j ++ event ∷ []) result }
    {
        if self.race.is_some() {
            return self.race;
        }
        match self.races.nearest(event) {
            Some(first) => Some((first, place)),
            None => None,
        }
    }

    /// What the event, which comes next, at this place, may answer instead, if it is a load that answers what it may not.
    /// `is_racy` says whether there is a race with it. The only error is running out of memory.
    fn unexplained(
        &self,
        alloc: Global,
        event: Event,
        place: usize,
        is_racy: bool,
    ) -> Result<Option<Unexplained>, AllocError>
        requires { (j : List Event) × ComesNextToExplain j event place is_racy self.now }
        ensures { IfOk result (λ o. (j : List Event) → ComesNextToExplain j event place is_racy self.now → MatchOption o
            ((a v : ℕ) → event.kind ≡ Load a v
            → IsModelAnswer self.now.model (judged_sizes_of self.now.sizes) (j ++ event ∷ []) (length j) a v)
            (IsCheckVerdictUnexplainedNext self.now.model (judged_sizes_of self.now.sizes) j event)) }
    {
        if self.owed.is_paid(event, is_racy) {
            return Ok(None);
        }
        let Kind::Load(address, _) = event.kind else {
            return Ok(None);
        };
        let permitted = self.owed.permitted(alloc, event.processor, address)?;
        Ok(Some(Unexplained { place, permitted }))
    }

    /// What the event, which comes next, at this place, has to count instead, if it is a fetch that counts something else.
    fn miscounted(&self, event: Event, place: usize) -> Option<Miscounted>
        requires judged { (j : List Event) × IsTraceJudgeOf j self.now }
        requires within { IsEventInSizes (judged_sizes_of self.now.sizes) event }
        ensures { (j : List Event) → IsTraceJudgeOf j self.now
            → MatchOption result
            (self.now.model ≡ LazyRelease → self.now.lax ≡ false → IsNotMiscounted (judged_sizes_of self.now.sizes) j event)
            (λ x. (self.now.model ≡ LazyRelease) × (self.now.lax ≡ false) × (x.place ≡ place)
            × Miscounts (judged_sizes_of self.now.sizes) j event x) }
    {
        match &self.counts {
            Some(counts) => miscount(counts, event, place),
            None => None,
        }
    }

    /// Why no memory of the model makes the event next, at this place, which may follow. `is_racy` says whether there is a race
    /// with it. The only error is running out of memory.
    fn lie(
        &self,
        alloc: Global,
        event: Event,
        place: usize,
        is_racy: bool,
    ) -> Result<Option<Lie>, AllocError>
        requires { (j : List Event) × ComesNextToJudge j event place is_racy self.now }
        ensures { IfOk result (λ o. (j : List Event) → ComesNextToJudge j event place is_racy self.now → MatchOption o
            (IsFaithfulAndCounted self.now.model self.now.lax (judged_sizes_of self.now.sizes) (j ++ event ∷ []))
            (λ x. IsCheckVerdictLie self.now.model self.now.lax (judged_sizes_of self.now.sizes) (j ++ event ∷ []) x
            × (check_verdict_race_events x (j ++ event ∷ []) ≡ j ++ event ∷ []))) }
    {
        if let Some(load) = self.unexplained(alloc, event, place, is_racy)? {
            return Ok(Some(Lie::Unexplained(load)));
        }
        match self.miscounted(event, place) {
            Some(fetch) => Ok(Some(Lie::Miscounted(fetch))),
            None => Ok(None),
        }
    }

    /// Whether a memory of the model makes the event next, at this place, which may follow; if not, `lie` says why. `is_racy`
    /// says whether there is a race with it.
    #[inline(always)]
    fn is_made(&self, event: Event, place: usize, is_racy: bool) -> bool
        requires { (j : List Event) × ComesNextToJudge j event place is_racy self.now }
        ensures { IsTrue result → (j : List Event) → ComesNextToJudge j event place is_racy self.now
            → IsFaithfulAndCounted self.now.model self.now.lax (judged_sizes_of self.now.sizes) (j ++ event ∷ []) }
    {
        if !self.owed.is_paid(event, is_racy) {
            return false;
        }
        if self.counts.is_none() {
            return true;
        }
        match self.miscounted(event, place) {
            Some(_) => false,
            None => true,
        }
    }

    /// The last event that races with the event, which comes next, at this place, with this first race; it is looked for if the words
    /// that race are told.
    #[inline(always)]
    fn nearest_to(&self, event: Event, place: usize, race: Option<(usize, usize)>) -> Option<usize>
        requires { (j : List Event) × ComesNextToKeep j event place race self.now }
        ensures { (j : List Event) → ComesNextToKeep j event place race self.now → IsTrue (is_some self.now.racing)
            → IsNearestRaceTo j event result }
    {
        if self.racing.is_none() {
            return None;
        }
        if self.race.is_some() {
            return self.races.nearest(event);
        }
        match race {
            Some((first, _)) => Some(first),
            None => None,
        }
    }

    /// Keeps the event, at this place, which with those before it is faithful and has this race. The only error is running out of
    /// memory.
    #[inline(always)]
    fn keep(
        &mut self,
        event: Event,
        place: usize,
        race: Option<(usize, usize)>,
    ) -> Result<(), AllocError>
        requires { (j : List Event) × ComesNextToKeep j event place race self.old }
        ensures judged { OnOk result ((j : List Event) → ComesNextToKeep j event place race self.old
            → IsTraceJudgeOf (j ++ event ∷ []) self.new) }
        ensures race { self.new.race ≡ race }
        ensures model { self.new.model ≡ self.old.model }
        ensures lax { self.new.lax ≡ self.old.lax }
        ensures sizes { self.new.sizes ≡ self.old.sizes }
        ensures racing { is_some self.new.racing ≡ is_some self.old.racing }
    {
        let nearest = self.nearest_to(event, place, race);
        self.race = race;
        note_trace_race(&mut self.racing, event, place, nearest)?;
        self.front.note(event);
        self.races.note(event)?;
        self.owed.note(event, place)?;
        if let Some(counts) = &mut self.counts {
            counts.note(event)?;
        }
        Ok(())
    }

    /// Judges the event, which comes next: None if a memory of the model can make it, and then the judge goes on. The only error
    /// is running out of memory, after which it judges no history.
    ///
    /// A race is told by `race` as soon as its second event was read, also if that is a lie.
    pub fn read(&mut self, alloc: Global, event: Event) -> Result<Option<Lie>, AllocError>
        requires next { (j : List Event) × ComesNextToRead j self.old }
        ensures judged { IfOk result (λ o. (j : List Event) → ComesNextToRead j self.old → MatchOption o
            (IsTraceJudgeOf (j ++ event ∷ []) self.new)
            (λ x. IsCheckVerdictLie self.old.model self.old.lax (judged_sizes_of self.old.sizes) (j ++ event ∷ []) x
            × IsCheckVerdictRace (check_verdict_race_events x (j ++ event ∷ [])) self.new.race)) }
        ensures model { self.new.model ≡ self.old.model }
        ensures lax { self.new.lax ≡ self.old.lax }
        ensures sizes { self.new.sizes ≡ self.old.sizes }
        ensures racing { is_some self.new.racing ≡ is_some self.old.racing }
    {
        let place = self.front.count();
        if let Some(why) = self.front.may_follow(event, self.lax) {
            return Ok(Some(Lie::IllFormed(IllFormed { place, why })));
        }
        let race = self.race_with(event, place);
        let lie = self.lie(alloc, event, place, race.is_some())?;
        match lie {
            Some(lie) => {
                self.race = race;
                Ok(Some(lie))
            }
            None => {
                self.keep(event, place, race)?;
                Ok(None)
            }
        }
    }

    /// Judges the event, which comes next, as `read` does, if a memory of the model can make it: whether it was judged. If not,
    /// it may be read. With `unraced` no event is judged that races. The only error is running out of memory, after which it
    /// judges no history.
    ///
    /// Most events go on so, and nothing is moved for them but that.
    #[inline(always)]
    pub(crate) fn goes_on(&mut self, event: Event, unraced: bool) -> Result<bool, AllocError>
        requires next { (j : List Event) × ComesNextToRead j self.old }
        ensures judged { IfOk result (λ goes. IsTrue goes → (j : List Event) → ComesNextToRead j self.old
            → IsTraceJudgeOf (j ++ event ∷ []) self.new) }
        ensures unraced { IfOk result (λ goes. IsTrue goes → unraced ≡ true → self.new.race ≡ None) }
        ensures still { result ≡ Ok false → self.new ≡ self.old }
        ensures model { self.new.model ≡ self.old.model }
        ensures lax { self.new.lax ≡ self.old.lax }
        ensures sizes { self.new.sizes ≡ self.old.sizes }
        ensures racing { is_some self.new.racing ≡ is_some self.old.racing }
    {
        let place = self.front.count();
        if self.front.may_follow(event, self.lax).is_some() {
            return Ok(false);
        }
        let race = self.race_with(event, place);
        if unraced && race.is_some() {
            return Ok(false);
        }
        if !self.is_made(event, place, race.is_some()) {
            return Ok(false);
        }
        self.keep(event, place, race)?;
        Ok(true)
    }

    /// The first race of the events so far, the nearest one: the places of the two accesses.
    pub fn race(&self) -> Option<(usize, usize)>
        ensures { result ≡ self.now.race }
    {
        self.race
    }

    /// The words so far that race, if they are told; none otherwise.
    pub(crate) fn racing(&self) -> &[RacingWord]
        ensures { (j : List Event) → IsTraceJudgeOf j self.now → AreRacingWordsAsked (is_some self.now.racing) j result.now }
    {
        match &self.racing {
            Some(words) => words.so_far(),
            None => &[],
        }
    }
}
