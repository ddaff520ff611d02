//! What is sent to a processor that waits.
ghost use Rattle.std.specs.Prelude.{◌≡◌};
ghost use Rattle.transit.specs.Prelude.{letter};

use interval::Sent;
use vtime::VTime;

/// What a processor that waits receives: the timestamp that it has to take over, and the write notices,
/// with their records, of the intervals that the timestamp covers and its own doesn't. It is that of Keleher, Cox and
/// Zwaenepoel, Lazy Release Consistency for Software Distributed Shared Memory, ISCA 1992, section 4.
#[derive(Drop)]
pub enum Message {
    /// The lock that was asked for, with the timestamp of its last release.
    Grant { time: VTime, notices: Vec<Sent> },
    /// The end of a barrier episode, with the join of all arrivals' timestamps.
    Departure { time: VTime, notices: Vec<Sent> },
    /// The flag that was watched, with the join of its setters' timestamps.
    Signal { time: VTime, notices: Vec<Sent> },
}

impl Message {
    /// The timestamp to take over.
    pub fn time(&self) -> &VTime
        ensures { result.now ≡ (letter self.now).time }
    {
        match self {
            Message::Grant { time, .. }
            | Message::Departure { time, .. }
            | Message::Signal { time, .. } => time,
        }
    }

    /// The notices, in closing order.
    pub fn notices(&self) -> &[Sent]
        ensures { result.now ≡ (letter self.now).notices }
    {
        match self {
            Message::Grant { notices, .. }
            | Message::Departure { notices, .. }
            | Message::Signal { notices, .. } => notices,
        }
    }

    /// Both, to keep.
    pub fn into_parts(self) -> (VTime, Vec<Sent>)
        ensures time { result.0 ≡ (letter self).time }
        ensures notices { result.1.items ≡ (letter self).notices }
    {
        match self {
            Message::Grant { time, notices }
            | Message::Departure { time, notices }
            | Message::Signal { time, notices } => (time, notices),
        }
    }
}
