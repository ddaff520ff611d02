//! What this memory shows of a script, whether it races or not: outcomes, each with a schedule of `step`.
ghost use Rattle.std.specs.Prelude.{◌≡◌, ◌≢◌, ◌↔◌, [], false, IfOk, IfSome, IsTrue, OnOk};
ghost use Rattle.conformance.specs.declared.script_runner.LockChoice.TheVariants.{Ticket};
ghost use Rattle.conformance.specs.CutInstructions.{HasCutInstruction, HasNoCutInstruction};
ghost use Rattle.lrc_script.specs.declared.script.Instruction.TheVariants.{Cut};
ghost use Rattle.lrc_script.specs.Prelude.{IsLawful, plan_of};
ghost use Rattle.base.specs.InOrderOnce.{Has};
ghost use Rattle.explore.specs.declared.outcomes.telling.Detail.TheVariants as told;
ghost use Rattle.explore.specs.Explored.{explored_outcome};
ghost use Rattle.explore.specs.MemoryShown.{IsMemoryShowing, IsMemoryShown, IsMemoryShownMore, IsMemoryUntil, IsShownBySchedule};

use crate::memory::orders::Order;
use crate::memory::reported_outcome::outcome_of_report;
use crate::memory::uses::ScriptUses;
use crate::outcomes::answer::{ScriptOutcome, explored_outcome_parts};
use crate::outcomes::telling::Detail;
use book::Refused;
use conformance::{Cause, Ended, LockChoice, RunFault, Schedule, ScheduleFault, ScriptRunner};
use indexmap::IndexMap;
use lrc_script::script::{Instruction, Script};
use std::alloc::{AllocError, Global};
use std::sync::Wait;

/// How many orders of turns are looked at, at most.
const MOST_ORDERS: usize = 10_000;

/// How many turns these have together, at most.
const MOST_ORDERED_TURNS: usize = 1 << 22;

/// What this memory shows of a script.
#[derive(Drop)]
pub struct MemoryShown {
    /// Each outcome with a schedule by which `step` shows it.
    outcomes: IndexMap<ScriptOutcome, Schedule>,
    /// Whether no schedule of `step` shows another one.
    are_all: bool,
}

/// Whether this memory shows an outcome.
#[derive(Clone, Copy)]
pub enum MemoryShowing<'a> {
    /// By this schedule `step` shows it.
    Shown(&'a Schedule),
    /// By no schedule.
    Never,
    /// No such schedule was found, and the search was given up.
    Undecided,
}

/// Whether this memory shows an outcome that ends with words that were asked for.
#[derive(Clone, Copy)]
pub enum MemoryUntil<'a> {
    /// It shows this one, by this schedule of `step`.
    Shown(&'a ScriptOutcome, &'a Schedule),
    /// No schedule does.
    Never,
    /// No such schedule was found, and the search was given up.
    Undecided,
}

/// Whether this word, and no other one, stands at the address among those that are shown there.
fn has_shown_word(shown: &[usize], words: &[u32], address: usize, word: u32) -> bool {
    shown
        .iter()
        .zip(words)
        .all(|(at, other)| *at != address || *other == word)
}

/// Whether the outcome, of runs that show these addresses, ends with these words.
fn ends_with_words(shown: &[usize], outcome: &ScriptOutcome, words: &[(usize, u32)]) -> bool {
    let (_, last) = explored_outcome_parts(&outcome.replies, 0, shown.len());
    words.iter().all(|(address, word)| has_shown_word(shown, last, *address, *word))
}

/// Whether the instruction cuts.
fn is_cut(instruction: Instruction) -> bool
    ensures { IsTrue result ↔ (instruction ≡ Cut) }
{
    match instruction {
        Instruction::Cut => true,
        _ => false,
    }
}

/// Whether one of these instructions cuts.
fn has_cut(section: &[Instruction]) -> bool
    ensures { IsTrue result ↔ HasCutInstruction section.now }
{
    for instruction in section {
        if is_cut(*instruction) {
            return true;
        }
    }
    false
}

/// Whether the script cuts.
fn has_cut_script(script: &Script) -> bool
    ensures { result ≡ false → HasNoCutInstruction (plan_of script.now) }
{
    for section in &script.sections {
        if has_cut(section) {
            return true;
        }
    }
    false
}

/// Whether the fault is that memory ran out.
fn is_out_of_memory(fault: ScheduleFault) -> bool {
    match fault {
        ScheduleFault::Run(
            RunFault {
                cause: Cause::Refused(Refused::NoMemory),
                ..
            },
        ) => true,
        _ => false,
    }
}

/// What the run by the schedule shows, if the script can be run by it to its end. The only error is running out of memory.
fn shown_by_schedule<T: ScriptRunner, R: Wait>(
    runs: &T,
    rt: &R,
    alloc: Global,
    script: &Script,
    detail: Detail,
    schedule: &Schedule,
) -> Result<Option<ScriptOutcome>, AllocError>
    requires lawful { IsLawful (plan_of script.now) }
    requires uncut { detail ≢ told.Words → HasNoCutInstruction (plan_of script.now) }
    ensures { IfOk result (λ o. IfSome o (λ outcome. IsShownBySchedule (λ s turns end. T.followed s Ticket turns end)
        (plan_of script.now) detail schedule.now.turns.items (explored_outcome outcome))) }
{
    match runs.step_by(rt, alloc, script, LockChoice::Ticket, schedule) {
        Ok(Ended::Whole(report)) => {
            let outcome = outcome_of_report(alloc, script, detail, &report)?;
            Ok(Some(outcome))
        }
        Ok(Ended::Halted(_)) => Ok(None),
        Err(fault) => if is_out_of_memory(fault) {
            Err(AllocError)
        } else {
            Ok(None)
        },
    }
}

impl MemoryShown {
    /// Nothing so far.
    fn none(alloc: Global) -> MemoryShown
        ensures { result.outcomes.entries ≡ [] }
    {
        MemoryShown {
            outcomes: IndexMap::new(alloc),
            are_all: false,
        }
    }

    /// Whether this memory shows the outcome.
    pub fn of(&self, outcome: &ScriptOutcome) -> MemoryShowing<'_>
        ensures { IsMemoryShowing self.now (explored_outcome outcome.now) result }
    {
        match self.outcomes.get(outcome) {
            Some(schedule) => MemoryShowing::Shown(schedule),
            None if self.are_all => MemoryShowing::Never,
            None => MemoryShowing::Undecided,
        }
    }

    /// An outcome that this memory shows, and that ends with these words, of runs that show these addresses.
    fn ending(&self, shown: &[usize], words: &[(usize, u32)]) -> Option<(&ScriptOutcome, &Schedule)>
        ensures { IfSome result (λ x. Has self.now.outcomes.entries (x.0.now, x.1.now)) }
    {
        for place in 0..self.outcomes.len() {
            let (outcome, schedule) = self.outcomes.get_index(place)?;
            if ends_with_words(shown, outcome, words) {
                return Some((outcome, schedule));
            }
        }
        None
    }

    /// Whether this memory shows an outcome that ends with these words, of runs that show these addresses.
    pub fn until(&self, shown: &[usize], words: &[(usize, u32)]) -> MemoryUntil<'_>
        ensures { IsMemoryUntil self.now result }
    {
        match self.ending(shown, words) {
            Some((outcome, schedule)) => MemoryUntil::Shown(outcome, schedule),
            None if self.are_all => MemoryUntil::Never,
            None => MemoryUntil::Undecided,
        }
    }

    /// Adds an outcome with a schedule that shows it, if it is a new one. The only error is running out of memory.
    fn add(&mut self, outcome: ScriptOutcome, schedule: Schedule) -> Result<(), AllocError>
        ensures { OnOk result (IsMemoryShownMore self.old self.new outcome schedule) }
    {
        if !self.outcomes.contains_key(&outcome) {
            self.outcomes.insert(outcome, schedule)?;
        }
        Ok(())
    }
}

/// A search for what this memory shows of a script.
#[derive(Drop)]
struct MemorySearch {
    /// The orders that are still to be looked at, the next one last.
    pending: Vec<Order>,
    shown: MemoryShown,
    /// Whether each whole order was one that `step` runs to its end.
    are_run: bool,
}

impl MemorySearch {
    /// Before the first turn. The only error is running out of memory.
    fn new(alloc: Global) -> Result<MemorySearch, AllocError>
        ensures { IfOk result (λ x. x.shown.outcomes.entries ≡ []) }
    {
        let mut pending = Vec::new(alloc);
        pending.push(Order::new(alloc))?;
        Ok(MemorySearch {
            pending,
            shown: MemoryShown::none(alloc),
            are_run: true,
        })
    }

    /// Runs the script by an order that is whole, and notes what this shows.
    fn run<T: ScriptRunner, R: Wait>(
        &mut self,
        runs: &T,
        rt: &R,
        alloc: Global,
        script: &Script,
        detail: Detail,
        schedule: Schedule,
    ) -> Result<(), AllocError>
        requires lawful { IsLawful (plan_of script.now) }
        requires uncut { detail ≢ told.Words → HasNoCutInstruction (plan_of script.now) }
        ensures { OnOk result (IsMemoryShown (λ s turns end. T.followed s Ticket turns end) (plan_of script.now) detail self.old.shown
            → IsMemoryShown (λ s turns end. T.followed s Ticket turns end) (plan_of script.now) detail self.new.shown) }
    {
        match shown_by_schedule(runs, rt, alloc, script, detail, &schedule)? {
            Some(outcome) => self.shown.add(outcome, schedule)?,
            None => self.are_run = false,
        }
        Ok(())
    }

    /// Looks at an order: it is run if it is whole, else what may come next after it is to be looked at.
    fn look_at<T: ScriptRunner, R: Wait>(
        &mut self,
        runs: &T,
        rt: &R,
        alloc: Global,
        script: &Script,
        uses: &ScriptUses,
        detail: Detail,
        mut order: Order,
    ) -> Result<(), AllocError>
        requires lawful { IsLawful (plan_of script.now) }
        requires uncut { detail ≢ told.Words → HasNoCutInstruction (plan_of script.now) }
        ensures { OnOk result (IsMemoryShown (λ s turns end. T.followed s Ticket turns end) (plan_of script.now) detail self.old.shown
            → IsMemoryShown (λ s turns end. T.followed s Ticket turns end) (plan_of script.now) detail self.new.shown) }
    {
        if !order.advance_freely(script, uses)? {
            return Ok(());
        }
        if order.is_whole(script) {
            return self.run(runs, rt, alloc, script, detail, order.into_schedule());
        }
        order.follow(script, uses, &mut self.pending)
    }

    /// Looks at so many orders, or at all, or until so many outcomes were met.
    fn look_at_all<T: ScriptRunner, R: Wait>(
        &mut self,
        runs: &T,
        rt: &R,
        alloc: Global,
        script: &Script,
        uses: &ScriptUses,
        detail: Detail,
        most: usize,
        enough: usize,
    ) -> Result<(), AllocError>
        requires lawful { IsLawful (plan_of script.now) }
        requires uncut { detail ≢ told.Words → HasNoCutInstruction (plan_of script.now) }
        ensures { OnOk result (IsMemoryShown (λ s turns end. T.followed s Ticket turns end) (plan_of script.now) detail self.old.shown
            → IsMemoryShown (λ s turns end. T.followed s Ticket turns end) (plan_of script.now) detail self.new.shown) }
    {
        for _ in 0..most {
            if self.shown.outcomes.len() >= enough {
                return Ok(());
            }
            match self.pending.pop() {
                Some(order) => self.look_at(runs, rt, alloc, script, uses, detail, order)?,
                None => {
                    self.shown.are_all = self.are_run;
                    return Ok(());
                }
            }
        }
        Ok(())
    }

    /// Looks at so many orders of the script, or at fewer if it is long, or until so many outcomes were met.
    fn look<T: ScriptRunner, R: Wait>(
        &mut self,
        runs: &T,
        rt: &R,
        alloc: Global,
        script: &Script,
        detail: Detail,
        most: usize,
        enough: usize,
    ) -> Result<(), AllocError>
        requires lawful { IsLawful (plan_of script.now) }
        requires uncut { detail ≢ told.Words → HasNoCutInstruction (plan_of script.now) }
        ensures { OnOk result (IsMemoryShown (λ s turns end. T.followed s Ticket turns end) (plan_of script.now) detail self.old.shown
            → IsMemoryShown (λ s turns end. T.followed s Ticket turns end) (plan_of script.now) detail self.new.shown) }
    {
        let uses = ScriptUses::of(alloc, script)?;
        let most = memory_orders_at_most(script, most);
        self.look_at_all(runs, rt, alloc, script, &uses, detail, most, enough)
    }
}

/// Whether more is told than the words at the end, which a report has. The rest is read in the journal.
fn tells_more_than_words(detail: Detail) -> bool
    ensures { result ≡ false → detail ≡ told.Words }
{
    match detail {
        Detail::Words => false,
        _ => true,
    }
}

/// How many orders are looked at, if so many are asked for.
fn memory_orders_at_most(script: &Script, most: usize) -> usize {
    let mut turns = 1usize;
    for section in &script.sections {
        turns = turns.saturating_add(section.len());
    }
    most.min(MOST_ORDERS).min(MOST_ORDERED_TURNS / turns.max(1))
}

/// What this memory shows of a script, told by this detail: outcomes of whole runs, each with a schedule of `step`. It gives up after so
/// many orders of turns (or [`MOST_ORDERS`], or fewer of a long script). It also gives up a script that cuts, if more than the
/// words is told. It ends when as many outcomes as are `enough` were met.
/// The only error is running out of memory.
///
/// That each outcome's schedule shows it is proved. That no schedule shows another one, if the search came to its end, is tested:
/// turns are ordered as `orders` says.
pub fn what_memory_shows<T: ScriptRunner, R: Wait>(
    runs: &T,
    rt: &R,
    alloc: Global,
    script: &Script,
    detail: Detail,
    most: usize,
    enough: usize,
) -> Result<MemoryShown, AllocError>
    requires { IsLawful (plan_of script.now) }
    ensures { IfOk result (IsMemoryShown (λ s turns end. T.followed s Ticket turns end) (plan_of script.now) detail) }
{
    if tells_more_than_words(detail) && has_cut_script(script) {
        return Ok(MemoryShown::none(alloc));
    }
    let mut search = MemorySearch::new(alloc)?;
    search.look(runs, rt, alloc, script, detail, most, enough)?;
    let MemorySearch { shown, .. } = search;
    Ok(shown)
}
