//! Why the program ends before the list does.

use std::alloc::AllocError;
use std::io;

/// Why the program ends before the list does.
#[derive(Clone, Copy, PartialEq, Eq)]
pub enum ListFault {
    /// The line is no call.
    NoCall,
    /// No cluster is open.
    NoCluster,
    /// No book is open.
    NoBook,
    /// There is no journal at hand, or none that can be written.
    NoJournal,
    /// The program itself ran out of memory.
    NoMemory,
    /// A write failed.
    Output,
}

impl ListFault {
    /// What is said of it.
    pub fn text(self) -> &'static str {
        match self {
            ListFault::NoCall => "no such call",
            ListFault::NoCluster => "no cluster is open",
            ListFault::NoBook => "no book is open",
            ListFault::NoJournal => "no such journal",
            ListFault::NoMemory => "out of memory",
            ListFault::Output => "output failed",
        }
    }

    /// The program's status.
    pub fn status(self) -> u8 {
        match self {
            ListFault::NoMemory | ListFault::Output => 4,
            _ => 2,
        }
    }
}

impl From<io::Error> for ListFault {
    fn from(_error: io::Error) -> ListFault {
        ListFault::Output
    }
}

impl From<AllocError> for ListFault {
    fn from(_error: AllocError) -> ListFault {
        ListFault::NoMemory
    }
}
