//! What a call answers.

use book::Refused;
use std::fmt;

/// What a call answers.
#[derive(Clone, Copy, PartialEq, Eq)]
pub enum Said {
    /// It is done.
    Done,
    /// The word that was loaded.
    Word(u32),
    /// It is refused, and what is seen of its processor is as it was.
    Refused(Refused),
    /// It is refused, and what is seen of its processor is not as it was.
    Changed(Refused),
}

impl Said {
    /// What is said of an outcome without an answer.
    pub fn of(outcome: Result<(), Refused>) -> Said {
        match outcome {
            Ok(()) => Said::Done,
            Err(refused) => Said::Refused(refused),
        }
    }
}

impl fmt::Display for Said {
    fn fmt<W: fmt::Write>(&self, f: &mut fmt::Formatter<W>) -> fmt::Result {
        match self {
            Said::Done => write!(f, "ok"),
            Said::Word(word) => write!(f, "{word}"),
            Said::Refused(refused) => write!(f, "{refused:?}"),
            Said::Changed(refused) => write!(f, "{refused:?} but not as before"),
        }
    }
}

/// So often this answer in turn.
#[derive(Clone, Copy)]
pub struct Turns {
    pub said: Said,
    pub count: usize,
}
