//! Stores of a processor to an address, in order.
ghost use Rattle.std.specs.Prelude.{◌<◌, MatchOption};
ghost use Rattle.base.specs.InOrderOnce.{InOrder};
ghost use Rattle.judge.specs.Prelude.{IsKeptStoreIndex, IsLastKeptStoreBelow, NoKeptStoreBelow};

/// A store. It takes 16 bytes.
#[derive(Clone, Copy)]
pub(crate) struct KeptStore {
    /// The place of its event.
    pub(crate) place: u32,
    /// What it stored.
    pub(crate) value: u32,
    /// Where the cut stands, in `KnownCuts`, that its processor had before it.
    pub(crate) cut: usize,
}

/// Where the stores from this place on begin, looked for by halving.
pub(crate) fn first_kept_store_from(stores: &[KeptStore], limit: usize) -> usize
    requires { InOrder (λ x y. x.place < y.place) stores.now }
    ensures { IsKeptStoreIndex stores.now limit result }
{
    stores.partition_point(|store| (store.place as usize) < limit)
}

/// The last of these stores that stands before the limit, looked for by halving.
fn halve_kept_stores(stores: &[KeptStore], limit: usize) -> Option<KeptStore>
    requires { InOrder (λ x y. x.place < y.place) stores.now }
    ensures { MatchOption result (NoKeptStoreBelow stores.now limit) (IsLastKeptStoreBelow stores.now limit) }
{
    let count = first_kept_store_from(stores, limit);
    if count == 0 {
        None
    } else {
        Some(stores[count - 1])
    }
}

/// The last of these stores that stands before the limit. Mostly it is the last one of all, or there is none, so the last and
/// the first one are looked at before all others.
pub(crate) fn last_kept_store_below(stores: &[KeptStore], limit: usize) -> Option<KeptStore>
    requires { InOrder (λ x y. x.place < y.place) stores.now }
    ensures { MatchOption result (NoKeptStoreBelow stores.now limit) (IsLastKeptStoreBelow stores.now limit) }
{
    let count = stores.len();
    if count == 0 {
        return None;
    }
    let last = stores[count - 1];
    if (last.place as usize) < limit {
        Some(last)
    } else if limit <= stores[0].place as usize {
        None
    } else {
        halve_kept_stores(stores, limit)
    }
}
