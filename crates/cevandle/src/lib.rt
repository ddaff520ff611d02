//! Cevandle in one library: the cluster and its calls, scripts and their runs, and the program over a reader and writers.
//!
//! An embedder lists this crate and finds each type and call that it needs below it by name. Module [`parts`] has the parts
//! of the book, [`judging`] what judges histories, [`exploring`] what looks at all schedules of a script. Nothing is defined
//! here but [`program`]: what is proved of each name stands in its own crate.
#![tactic(auto)]

pub mod exploring;
pub mod judging;
mod on_cluster;
pub mod parts;

pub use cluster::{
    Book, BookLock, BookTurn, Cluster, Event, Journal, Kind, Processor, Refused, Shape,
    TicketBookLock, Turn, Waited,
};
pub use journal::{CutFault, Traffic, first_race_of, traffic_of};
pub use lrc_options::command_line::options;
pub use lrc_options::options::{Asked, Options};
pub use lrc_report::Report;
pub use lrc_report::render::render;
pub use lrc_run::{
    Cause, Ended, Gate, Halt, OnCluster, Open, RunFault, Stopped, order, run, run_with, step,
    step_as_far, step_as_far_with, step_with,
};
pub use lrc_script::fault::ScriptFault;
pub use lrc_script::script::{Instruction, Script, parse};
pub use on_cluster::program;
