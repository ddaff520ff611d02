//! What runs scripts.
ghost use Rattle.std.specs.Prelude.{ℕ, ◌≡◌, ◌<◌, IfErr, IfOk, List, Option, Result};
ghost use Rattle.std.specs.Thread.{IsSync};
ghost use Rattle.lrc_script.specs.Prelude.{IsLawful, plan_of};
ghost use Rattle.conformance.specs.Prelude.{IsEndByOrderedTurns, IsRunEnd, IsReportByOrderedTurns, IsScriptReport, IsScheduleFault, IsStuckByOrderedTurns};
ghost use Rattle.conformance.specs.Prelude.{IsRunOfDraws, ordered_turns_of_seed, schedule_orders};
ghost use Rattle.conformance.specs.declared.cause.Cause.TheVariants as cause;

use crate::cause::RunFault;
use crate::ended::Ended;
use crate::schedule::{DrawnRun, Schedule, ScheduleFault};
use lrc_report::Report;
use lrc_script::script::Script;
use std::alloc::Global;
use std::sync::Wait;
use std::thread::Threads;

/// Which lock stands round the book.
#[derive(Clone, Copy, Debug, PartialEq, Eq)]
pub enum LockChoice {
    /// The array lock.
    Array,
    /// The ticket lock.
    Ticket,
}

/// Runs lawful scripts. Whatever report it answers is one of the script.
///
/// `ran`, `stepped`, `followed` and `drawn` say what comes of a run; each implementor gives them their meaning. So code that
/// promises one of them for any implementor has made this very call: on threads or by turns, with this lock, and these
/// tries, this seed or this schedule.
pub trait ScriptRunner {
    ghost use Rattle.lrc_script.specs.Plan.{Plan};
    ghost use Rattle.lrc_report.specs.declared.report.Report.{Report};
    ghost use Rattle.conformance.specs.declared.cause.RunFault.{RunFault};
    ghost use Rattle.conformance.specs.declared.script_runner.LockChoice.{LockChoice};
    ghost use Rattle.conformance.specs.declared.ended.Ended.{Ended};
    ghost use Rattle.conformance.specs.declared.schedule.DrawnRun.{DrawnRun};
    ghost use Rattle.conformance.specs.declared.schedule.ScheduleFault.{ScheduleFault};

    // What comes of a script by `run` with this lock and so many tries.
    ghost ran: { Plan → LockChoice → ℕ → Result Report RunFault → Type 0 } = { λ _ _ _ _. Unit {0} };

    // What comes of it by `step` with this lock and this seed.
    ghost stepped: { Plan → LockChoice → Option ℕ → Result Report RunFault → Type 0 } = { λ _ _ _ _. Unit {0} };

    // What comes of it by `step_by` with this lock and this schedule.
    ghost followed: { Plan → LockChoice → List ℕ → Result Ended ScheduleFault → Type 0 } = { λ _ _ _ _. Unit {0} };

    // What comes of it by `step_drawn` with this lock and this seed.
    ghost drawn: { Plan → LockChoice → ℕ → Result DrawnRun RunFault → Type 0 } = { λ _ _ _ _. Unit {0} };

    /// Runs the script with a thread for each processor, started by this handle. What a processor waits for is tried for `tries` times in a row.
    fn run<R: Threads + Wait + Sync>(
        &self,
        rt: &R,
        alloc: Global,
        script: &Script,
        lock: LockChoice,
        tries: u64,
    ) -> Result<Report, RunFault>
        requires threads { IsSync R.row }
        requires tries { 0 < tries }
        requires lawful { IsLawful (plan_of script.now) }
        ensures report { IfOk result (IsScriptReport (plan_of script.now)) }
        ensures ran { ran (plan_of script.now) lock tries result };

    /// Runs the script by turns on one thread, in the orders that the seed draws, or by rising number without one.
    fn step<R: Wait>(
        &self,
        rt: &R,
        alloc: Global,
        script: &Script,
        lock: LockChoice,
        seed: Option<u64>,
    ) -> Result<Report, RunFault>
        requires { IsLawful (plan_of script.now) }
        ensures report { IfOk result (IsScriptReport (plan_of script.now)) }
        ensures stepped { stepped (plan_of script.now) lock seed result }
        ensures turns { IfOk result (IsReportByOrderedTurns (plan_of script.now) (ordered_turns_of_seed (plan_of script.now) seed)) }
        ensures stuck { IfErr result (λ fault. fault.cause ≡ cause.Stuck
            → IsStuckByOrderedTurns (plan_of script.now) (ordered_turns_of_seed (plan_of script.now) seed) fault.processor) };

    /// Runs the script as `step` does, except that a run that can't go on is no fault: it answers the journal so far.
    fn step_as_far<R: Wait>(
        &self,
        rt: &R,
        alloc: Global,
        script: &Script,
        lock: LockChoice,
        seed: Option<u64>,
    ) -> Result<Ended, RunFault>
        requires { IsLawful (plan_of script.now) }
        ensures end { IfOk result (IsRunEnd (plan_of script.now)) }
        ensures turns { IfOk result (IsEndByOrderedTurns (plan_of script.now) (ordered_turns_of_seed (plan_of script.now) seed)) };

    /// Runs the script by turns on one thread, as far as it goes: first the schedule's turns, and when these are over rounds
    /// by rising number. Each turn of the schedule is one in which its processor gets on; one that isn't is refused.
    fn step_by<R: Wait>(
        &self,
        rt: &R,
        alloc: Global,
        script: &Script,
        lock: LockChoice,
        schedule: &Schedule,
    ) -> Result<Ended, ScheduleFault>
        requires { IsLawful (plan_of script.now) }
        ensures end { IfOk result (IsRunEnd (plan_of script.now)) }
        ensures followed { followed (plan_of script.now) lock schedule.now.turns.items result }
        ensures turns { IfOk result
            (IsEndByOrderedTurns (plan_of script.now) (schedule_orders (plan_of script.now) schedule.now.turns.items)) }
        ensures fault { IfErr result (IsScheduleFault (plan_of script.now) schedule.now.turns.items) };

    /// Runs the script by turns that the seed draws, as far as it goes, and answers them as a schedule. For each turn the
    /// processors are tried in the order of the next draw, and the first that gets on has it.
    fn step_drawn<R: Wait>(
        &self,
        rt: &R,
        alloc: Global,
        script: &Script,
        lock: LockChoice,
        seed: u64,
    ) -> Result<DrawnRun, RunFault>
        requires { IsLawful (plan_of script.now) }
        ensures drawn { drawn (plan_of script.now) lock seed result }
        ensures turns { IfOk result (λ run. IsEndByOrderedTurns (plan_of script.now)
            (schedule_orders (plan_of script.now) run.schedule.turns.items) run.ended) }
        ensures draws { IfOk result (λ run. IsRunOfDraws (plan_of script.now) seed run.schedule.turns.items run.ended) };
}
