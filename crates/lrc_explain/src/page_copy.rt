//! A processor's copy of a page.

/// Whose copy of which page.
#[derive(Clone, Copy, PartialEq, Eq, PartialOrd, Ord)]
pub struct PageCopy {
    pub page: usize,
    pub processor: usize,
}
