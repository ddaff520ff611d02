//! The end of a run: the shown loads, the journal and what the report says of it.
ghost use Rattle.std.specs.Prelude.{◌≡◌, IfOk, ℕ, List, slice_set, slice_get, Some};
ghost use Rattle.lrc_script.specs.Prelude.{IsLawful, Plan, plan_of};
ghost use Rattle.conformance.specs.Prelude.{plan_sizes};
ghost use Rattle.cluster.specs.Prelude.{AreAllToFinish};
ghost use Rattle.lrc_run.specs.Prelude.{HaveRunCallsOfWalks, HaveFollowedToEnd, IsFollowedEndReportAfter, IsFollowedEndReportWith};

use crate::shown::show;
use book::Refused;
use cluster::{BookTurn, Cluster, Processor};
use lrc_report::Report;
use lrc_script::script::Script;
use std::alloc::{AllocError, Global};
use std::sync::Wait;

/// Ends a run after all processors have walked their sections: processor 0 loads what the script shows, and the
/// cluster is finished. Refused as the loads are, and if memory is.
pub(crate) fn conclude_run_ending<T: BookTurn + Drop, R: Wait>(
    rt: &R,
    alloc: Global,
    cluster: Cluster<T>,
    mut processors: Vec<Processor<T>>,
    script: &Script,
) -> Result<Report, Refused>
    requires lawful { IsLawful (plan_of script.now) }
    requires sizes { cluster.sizes ≡ plan_sizes (plan_of script.now) }
    requires walked { HaveRunCallsOfWalks cluster (plan_of script.now).sections processors.items }
    ensures { IfOk result (λ r. IsFollowedEndReportAfter (plan_of script.now) r processors.items) }
{
    let shown = show(rt, alloc, &cluster, &mut processors[0], &script.shown)?;
    Ok(report_run_ending(cluster, processors, shown)?)
}

/// Finishes the cluster, and reports of its journal. Refused only if memory is.
fn report_run_ending<T: BookTurn>(
    cluster: Cluster<T>,
    processors: Vec<Processor<T>>,
    shown: Vec<(usize, u32)>,
) -> Result<Report, AllocError>
    requires { AreAllToFinish cluster processors.items }
    ensures { (s : Plan) → HaveFollowedToEnd s cluster processors.items shown.items
        → IfOk result (λ r. IsFollowedEndReportWith s r processors.items × (r.shown ≡ shown)) }
{
    let journal = cluster.finish(processors);
    let racy = journal.first_race()?.is_some();
    let traffic = journal.traffic();
    Ok(Report {
        shown,
        racy,
        traffic,
        journal,
    })
}
