//! How the events of a history are numbered that are told.

/// How the events of a history are numbered: on from those that were cut off.
#[derive(Clone, Copy)]
pub struct ProseNumbers {
    /// How many events were cut off.
    pub cut: u64,
    /// How many arrivals in front stand for them.
    pub opening: usize,
}

impl ProseNumbers {
    /// Those of a history of which nothing was cut off: each event's place.
    pub fn whole() -> ProseNumbers {
        ProseNumbers { cut: 0, opening: 0 }
    }

    /// The number of the event at this place of the history.
    pub fn of(self, place: usize) -> u64 {
        let left = place.saturating_sub(self.opening);
        self.cut.saturating_add(left as u64)
    }

    /// Whether some events were cut off.
    pub fn has_cut(self) -> bool {
        self.cut > 0
    }

    /// Whether the event at this place stands for some that were cut off.
    pub fn is_cut(self, place: usize) -> bool {
        place < self.opening
    }
}
