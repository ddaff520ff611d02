//! What a processor waits for, and who holds a lock: each in a few bytes, since each state has many.
ghost use Rattle.std.specs.Prelude.{◌≡◌, ◌<◌, Some, None};
ghost use Rattle.base.specs.Prelude.{most_processors};
ghost use Rattle.journal.specs.Sizes.{Sizes as TheSizes};
ghost use Rattle.journal.specs.WellFormed.{WellFormedKindInRange};
ghost use Rattle.journal.specs.Prelude.{awaited_next};
ghost use Rattle.judge.specs.Prelude.{AreJudgedSizesSmall};
ghost use Rattle.explore.specs.WaitCodes.{wait_code_end_of, wait_code_ending, wait_code_holder, wait_code_seated};

use journal::Kind;

/// What a processor waits for.
#[derive(Clone, Copy, PartialEq, Eq, Hash)]
pub enum WaitCode {
    /// A lock that it has asked for.
    Lock(u8),
    /// The others, at the barrier.
    Barrier,
    /// A flag that it watches.
    Flag(u8),
}

impl WaitCode {
    /// The event that ends the wait.
    fn end(self) -> Kind
        ensures { result ≡ wait_code_end_of self }
    {
        match self {
            WaitCode::Lock(lock) => Kind::Acquire(lock as usize),
            WaitCode::Barrier => Kind::Depart,
            WaitCode::Flag(flag) => Kind::Await(flag as usize),
        }
    }

    /// What the processor of an event of this kind waits for after it, if it waits.
    pub fn after(kind: Kind) -> Option<WaitCode>
        requires { (s : TheSizes) × AreJudgedSizesSmall s × WellFormedKindInRange s kind }
        ensures { wait_code_ending result ≡ awaited_next kind }
    {
        match kind {
            Kind::Ask(lock) => Some(WaitCode::Lock(lock as u8)),
            Kind::Arrive => Some(WaitCode::Barrier),
            Kind::Watch(flag) => Some(WaitCode::Flag(flag as u8)),
            _ => None,
        }
    }
}

/// The event that ends the wait, if there is one.
pub fn wait_code_end_of(wait: Option<WaitCode>) -> Option<Kind>
    ensures { result ≡ wait_code_ending wait }
{
    match wait {
        Some(wait) => Some(wait.end()),
        None => None,
    }
}

/// A processor's number, below 16, in a byte.
#[derive(Clone, Copy, Default, PartialEq, Eq, PartialOrd, Ord, Hash)]
pub struct ProcessorNumber(u8);

impl ProcessorNumber {
    /// The number of this processor.
    pub fn of(processor: usize) -> ProcessorNumber
        requires { processor < most_processors }
        ensures { wait_code_seated (Some result) ≡ Some processor }
    {
        ProcessorNumber(processor as u8)
    }

    /// The processor that has this number.
    pub fn processor(self) -> usize
        ensures { wait_code_seated (Some self) ≡ Some result }
    {
        self.0 as usize
    }
}

/// Who holds a lock, if anybody does: 0 for nobody, and else one more than the processor's number. An `Option` takes two bytes,
/// which take several times as long to compare, and of each state that is found the holders of all locks are compared.
#[derive(Clone, Copy, PartialEq, Eq, Hash)]
pub struct LockHolder(u8);

impl LockHolder {
    /// Nobody.
    pub fn nobody() -> LockHolder
        ensures { wait_code_holder result ≡ None }
    {
        LockHolder(0)
    }

    /// This processor.
    pub fn of(processor: usize) -> LockHolder
        requires { processor < most_processors }
        ensures { wait_code_holder result ≡ Some processor }
    {
        LockHolder(processor as u8 + 1)
    }

    /// The processor that holds the lock.
    pub fn processor(self) -> Option<usize>
        ensures { result ≡ wait_code_holder self }
    {
        match self.0 {
            0 => None,
            number => Some(number as usize - 1),
        }
    }
}
