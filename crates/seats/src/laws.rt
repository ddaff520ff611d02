//! Laws, as contracts of functions that do nothing: the check proves each by its name.
ghost use Rattle.seats.specs.Prelude.{WordTallyLaw, BalanceFactLaw, GridPairsLaw, KeptFact, TenuresKeepLaw, TenuresReadLaw, SeatGuardLaw, RoundsLaw};
ghost use Rattle.seats.specs.Prelude.{SeatTableGuardLaw};

/// If each processor keeps to the guards in what it does, then no two accesses of a word race, but of one that was open
/// to all.
pub fn guarded_law()
    ensures { SeatGuardLaw }
{}

/// If each processor keeps to a layout in what it does, and no word of it is open to all, then no two accesses race.
pub fn table_law()
    ensures { SeatTableGuardLaw }
{}

/// A fact that a lock keeps: of the words under it, and of what was loaded and stored there.
pub trait LockKeeps {
    ghost fact: { KeptFact };
}

/// Let the fact hold at first, and each processor's accesses from an acquire of the lock to the release preserve it. Then it
/// holds at the end, of one flat memory and of all accesses to the lock's words.
pub fn kept_law<K: LockKeeps>()
    ensures { TenuresKeepLaw K.fact }
{}

/// A round goes from one departure from the barrier to the next. Let each processor make its words in it from words that nobody
/// makes then, and all make each word that the round changes. Then the memory at the end is that after all rounds.
pub fn rounds_law()
    ensures { RoundsLaw }
{}

/// Let the rounds make two grids in turn, the first one at first from the start and then each from the other by a step. Then
/// the last one that was made is the start after as many steps.
pub fn grids_law()
    ensures { GridPairsLaw }
{}

/// If the fact holds at first, and each tenure of the lock preserves it, then each tenure loads from a memory of which it holds.
/// So a processor that acquires the lock may take the fact for granted, if the others preserve it.
pub fn kept_reads_law<K: LockKeeps>()
    ensures { TenuresReadLaw K.fact }
{}

/// A word under a lock is what it was at first and what all processors say that they have added to it, modulo 2^32.
pub fn added_law()
    ensures { WordTallyLaw }
{}

/// If some words under a lock come to as much as others, then a tenure that adds as much to the one side as to the other
/// preserves that, modulo 2^32.
pub fn balance_law()
    ensures { BalanceFactLaw }
{}
