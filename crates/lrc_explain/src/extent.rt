//! How much is told of a run.

use causes::Part;

/// How much is told of a run.
#[derive(Clone, Copy)]
pub struct Extent {
    /// The events that are told; the numbers that they are told with are their places.
    pub part: Part,
    /// Whether it is told which pages' records they tell of, which copies go stale, and whose records a fetch brings. Of more than
    /// 16 processors it never is.
    pub pages: bool,
    /// Whether the protocol's state at each of them is told, too, if pages are.
    pub state: bool,
}

impl Extent {
    /// All events, without pages and the state.
    pub fn whole() -> Extent {
        Extent {
            part: Part::whole(),
            pages: false,
            state: false,
        }
    }
}
