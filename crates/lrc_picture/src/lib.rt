//! The picture of a run or a trace: its space-time diagram as an SVG file, which a browser opens without anything else; and a page with it
//! that steps through the run, as an HTML file (module `page`).
//!
//! A line a processor downwards, an event a row: its number, its mark and its label, and what is said of it where one points
//! at the mark. Arrows lead from releases and sets to the acquires and awaits that they hand news on to, between rows and
//! lanes, so that they touch nothing else. Thin edges lead from stores to the loads that answer them; a stale load has a
//! stroke. A bar stands where all have arrived at the barrier. The first race is a dotted line between two marks in frames.
//! Where the run can't go on, a cross stands for each processor that waits, with for what, and an arrow to who could let it
//! go on. Of a trace a cross stands on its first lie. Shapes and dashes tell what colours tell. Where lanes with labels would be too wide for a page, the labels stand in
//! a column right of all lanes.
//!
//! A picture may be of a part of the run (module `cutout`): of the events of some processors from one to another. An arrow or an
//! edge from an event outside is left out.
//!
//! A page has, beside the picture, the state before the first event as tables (`panel`), and what each event changes in them
//! (`changes`, `steps`). A short script (`page_looks`) applies one event's changes after the other, or takes them back.
//!
//! **What contracts see.** Which events a part's picture has (specs/Cutout), and at which point a processor's line and a row meet
//! (specs/PictureGrid). The mark of an event, its label, the arrow between two events, the bar of a row. A writer by the bytes
//! that it was given (`contents`).
//!
//! **What is proved.** Exactly the part's events are drawn, in order, on the lanes of its processors. The layout has a mark
//! for each event, in a row of its own on its processor's line. Lanes, or a column of labels, have room for the longest
//! label, so no two lanes overlap, and each mark lies within the picture (module `laws`). An arrow leads from the first
//! event's mark to the second one's. A bar ends at the last lane. Where memory runs out nothing was written. Of each event, a
//! page has its processor's vector timestamp after it, exactly the words that it writes in copies, and exactly the records by
//! which copies go stale (specs/Changes).
//!
//! **What is only tested** (in `tests/pictures`, which reads files back): that each arrow, edge and bar is
//! there; the file's text; of a page its locks, flags and messages, and that it shows the state after each number of events.
#![tactic(auto)]

pub mod arrows;
pub mod bars;
mod canvas;
pub mod changes;
pub mod cutout;
mod edges;
mod elements;
mod headline;
pub mod label;
pub mod laws;
mod legend;
mod looks;
pub mod marks;
mod page_looks;
mod panel;
pub mod picture;
pub mod picture_grid;
pub mod picture_layout;
pub mod picture_page;
mod run_front;
mod step_entries;
pub mod story;
mod svg;
pub mod times;
mod waiter_cross;
