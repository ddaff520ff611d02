//! Processors that see what others have done. What stands in the history is known to a processor only if it has seen it: so
//! each turn is told of those before it.
ghost use Rattle.std.specs.Prelude.{◌≡◌, ◌<◌, ℕ, Some, slice_get, vec_len};
ghost use Rattle.cluster.specs.Copies.Prelude.{Local};
ghost use Rattle.lrc_run.specs.Prelude.{SeesRunTurnsOf};

use cluster::{BookTurn, Cluster, Processor};

/// Lets processor `p` see all that processor 0 has seen.
pub(super) fn catch_up_with_first<T: BookTurn>(
    cluster: &Cluster<T>,
    processors: &mut Vec<Processor<T>>,
    p: usize,
)
    requires within { p < vec_len processors.old }
    requires own { (q : ℕ) (m : Local) → slice_get processors.old.items q ≡ Some m → m.lock ≡ cluster.now.lock }
    ensures { SeesRunTurnsOf processors.old.items p 0 processors.new.items }
{
    if p > 0 {
        let (front, back) = processors.split_at_mut(p);
        cluster.catch_up(&mut back[0], &mut front[0]);
    }
}

/// Lets processor 0 see all that processor `p` has seen.
pub(super) fn catch_first_up<T: BookTurn>(
    cluster: &Cluster<T>,
    processors: &mut Vec<Processor<T>>,
    p: usize,
)
    requires within { p < vec_len processors.old }
    requires own { (q : ℕ) (m : Local) → slice_get processors.old.items q ≡ Some m → m.lock ≡ cluster.now.lock }
    ensures { SeesRunTurnsOf processors.old.items 0 p processors.new.items }
{
    if p > 0 {
        let (front, back) = processors.split_at_mut(p);
        cluster.catch_up(&mut front[0], &mut back[0]);
    }
}
