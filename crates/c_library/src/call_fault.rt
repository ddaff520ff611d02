//! Why a call did nothing.
ghost use Rattle.std.specs.Prelude.{◌≡◌};
ghost use Rattle.c_library.specs.declared.call_fault.CallFault.TheVariants.{NoMemory};
ghost use Rattle.c_library.specs.Prelude.{call_fault_code};

use std::alloc::AllocError;

/// Why a call did nothing. Where several of these apply, the first one in this order is told.
#[derive(Clone, Copy, Debug, PartialEq, Eq)]
pub enum CallFault {
    /// A size is out of range.
    BadSizes,
    /// A number of the rules has no meaning.
    BadRules,
    /// There is not just a word of room for each address.
    BadRoom,
    /// There are more events than a journal can hold.
    TooMany,
    /// An event has a kind that there isn't, or names a number that is to be within the sizes and isn't.
    BadEvent,
    /// The text is no lawful script's.
    BadScript,
    /// A growth was refused.
    NoMemory,
}

impl CallFault {
    /// The number that C is told.
    pub fn code(self) -> u32
        ensures { result ≡ call_fault_code self }
    {
        match self {
            CallFault::BadSizes => 1,
            CallFault::BadRules => 2,
            CallFault::BadRoom => 3,
            CallFault::TooMany => 4,
            CallFault::BadEvent => 5,
            CallFault::BadScript => 8,
            CallFault::NoMemory => 6,
        }
    }
}

impl From<AllocError> for CallFault {
    ghost from_gives = { λ _ fault. fault ≡ NoMemory };

    fn from(_error: AllocError) -> CallFault {
        CallFault::NoMemory
    }
}
