//! What runs scripts: on a cluster, with the lock that is asked for.
ghost use Rattle.std.specs.Prelude.{◌<◌, IfOk};
ghost use Rattle.lrc_script.specs.Prelude.{IsLawful, plan_of};
ghost use Rattle.conformance.specs.Prelude.{IsEndByOrderedTurns, IsRunEnd, IsScriptReport, ordered_turns_of_seed};
ghost use Rattle.lrc_run.specs.Prelude.{IsClusterEnd, lock_choice_width};

use crate::cluster_run::{run, run_with};
use crate::gate::Open;
use crate::steps::{
    step, step_as_far, step_as_far_with, step_drawn, step_drawn_with, step_scheduled,
    step_scheduled_with, step_with,
};
use cluster::TicketBookLock;
use conformance::{DrawnRun, Ended, LockChoice, RunFault, Schedule, ScheduleFault, ScriptRunner};
use lrc_report::Report;
use lrc_script::script::Script;
use std::alloc::Global;
use std::sync::Wait;
use std::thread::Threads;

/// Runs scripts on a cluster, whose book has the lock that is asked for.
#[derive(Clone, Copy)]
pub struct OnCluster;

impl ScriptRunner for OnCluster {
    ghost use Rattle.std.specs.Prelude.{IfOk};
    ghost use Rattle.lrc_run.specs.ClusterRuns.{IsClusterEnd, IsClusterReport, IsClusterRun, lock_choice_width};

    ghost ran = { λ s lock tries came. IsClusterRun (lock_choice_width lock) s tries came };

    ghost stepped = { λ s lock _ came. IfOk came (IsClusterReport (lock_choice_width lock) s) };

    ghost followed = { λ s lock _ came. IfOk came (IsClusterEnd (lock_choice_width lock) s) };

    ghost drawn = { λ s lock _ came. IfOk came (λ run. IsClusterEnd (lock_choice_width lock) s run.ended) };

    fn run<R: Threads + Wait + Sync>(
        &self,
        rt: &R,
        alloc: Global,
        script: &Script,
        lock: LockChoice,
        tries: u64,
    ) -> Result<Report, RunFault> {
        match lock {
            LockChoice::Array => run(rt, alloc, script, &Open, tries),
            LockChoice::Ticket => run_with::<TicketBookLock, R, Open>(
                rt, alloc, script, &Open, tries,
            ),
        }
    }

    fn step<R: Wait>(
        &self,
        rt: &R,
        alloc: Global,
        script: &Script,
        lock: LockChoice,
        seed: Option<u64>,
    ) -> Result<Report, RunFault> {
        match lock {
            LockChoice::Array => step(rt, alloc, script, seed),
            LockChoice::Ticket => step_with::<TicketBookLock, R>(rt, alloc, script, seed),
        }
    }

    fn step_as_far<R: Wait>(
        &self,
        rt: &R,
        alloc: Global,
        script: &Script,
        lock: LockChoice,
        seed: Option<u64>,
    ) -> Result<Ended, RunFault>
        requires { IsLawful (plan_of script.now) }
        ensures end { IfOk result (IsRunEnd (plan_of script.now)) }
        ensures turns { IfOk result (IsEndByOrderedTurns (plan_of script.now) (ordered_turns_of_seed (plan_of script.now) seed)) }
        // The trait has no word for this call with its lock.
        ensures cluster { IfOk result (IsClusterEnd (lock_choice_width lock) (plan_of script.now)) }
    {
        match lock {
            LockChoice::Array => step_as_far(rt, alloc, script, seed),
            LockChoice::Ticket => step_as_far_with::<TicketBookLock, R>(rt, alloc, script, seed),
        }
    }

    fn step_by<R: Wait>(
        &self,
        rt: &R,
        alloc: Global,
        script: &Script,
        lock: LockChoice,
        schedule: &Schedule,
    ) -> Result<Ended, ScheduleFault> {
        match lock {
            LockChoice::Array => step_scheduled(rt, alloc, script, schedule),
            LockChoice::Ticket => step_scheduled_with::<TicketBookLock, R>(
                rt, alloc, script, schedule,
            ),
        }
    }

    fn step_drawn<R: Wait>(
        &self,
        rt: &R,
        alloc: Global,
        script: &Script,
        lock: LockChoice,
        seed: u64,
    ) -> Result<DrawnRun, RunFault> {
        match lock {
            LockChoice::Array => step_drawn(rt, alloc, script, seed),
            LockChoice::Ticket => step_drawn_with::<TicketBookLock, R>(rt, alloc, script, seed),
        }
    }
}
