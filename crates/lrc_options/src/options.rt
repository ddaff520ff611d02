//! What the program is to do.

use crate::ranges::EventRange;

/// The most processors that a trace may have which is told.
pub const MOST_TRACE_PROCESSORS: usize = 256;

/// What the words ask for.
#[derive(Drop)]
pub enum Asked {
    /// A script is to be run, by `run` or `step`.
    Script(Options),
    /// A run of a script by turns is to be explained, by `explain`.
    Explain(ExplainOptions),
    /// A trace is to be told, by `explain --trace`.
    Tell(TellOptions),
    /// A script is to be run by many schedules, by `sample`.
    Sample(SampleOptions),
    /// All schedules of a script are to be looked at, by `explore`.
    Explore(ExploreOptions),
    /// A trace is to be judged, by `check`.
    Trace(TraceOptions),
    /// A script is to be drawn, by `draw`.
    Draw(DrawOptions),
    /// Whether a trace follows its script is to be told, by `follows`.
    Follow(FollowOptions),
    /// What a trace costs on pages is to be told, by `pages`.
    Pages(PagesOptions),
}

/// Which script is to be drawn. A size that isn't given is drawn, too.
#[derive(Drop)]
pub struct DrawOptions {
    /// The name of the pattern, one of those that `--help` lists.
    pub pattern: Option<String>,
    /// What the script is drawn from; 0 if None.
    pub seed: Option<u64>,
    /// How many processors it has, 1 to 16.
    pub processors: Option<u64>,
    /// How many pages, 1 to 64.
    pub pages: Option<u64>,
    /// How many words a page has, 1 to 64.
    pub words: Option<u64>,
    /// How many locks, 1 to 32.
    pub locks: Option<u64>,
    /// How many flags, 1 to 32, if the pattern has flags.
    pub flags: Option<u64>,
    /// How many pieces a phase of a section has, 1 to 400.
    pub length: Option<u64>,
}

/// Which trace is to follow which script.
#[derive(Drop)]
pub struct FollowOptions {
    /// The file to read the script from, or None for standard input.
    pub script: Option<String>,
    /// The file to read the trace from, or None for standard input.
    pub trace: Option<String>,
}

/// What is to be told of what a trace costs on pages.
#[derive(Drop)]
pub struct PagesOptions {
    /// The file to read the trace from, or None for standard input.
    pub file: Option<String>,
    /// How many words a page has, for each size that the trace is told on: at most 8 sizes, of 1 to 2^20 words each.
    pub page_words: Vec<usize>,
    /// How many pages are told of each size, and how many labels: at most 1,000, and none where it isn't given.
    pub top: Option<u64>,
    /// Whether it is also told what eager release consistency would cost.
    pub eager: bool,
    /// Whether a picture is printed, as an SVG file, and not a text.
    pub svg: bool,
    /// Whether the answer is JSON, an object a line, and not text.
    pub json: bool,
}

impl Asked {
    /// The file to read from, or None for standard input.
    pub fn file(&self) -> Option<&str> {
        match self {
            Asked::Script(options) => options.file.as_deref(),
            Asked::Explain(options) => options.file.as_deref(),
            Asked::Tell(options) => options.file.as_deref(),
            Asked::Sample(options) => options.file.as_deref(),
            Asked::Explore(options) => options.file.as_deref(),
            Asked::Trace(options) => options.file.as_deref(),
            Asked::Draw(_) => None,
            Asked::Follow(options) => options.trace.as_deref(),
            Asked::Pages(options) => options.file.as_deref(),
        }
    }
}

/// What of a history is shown, and how.
#[derive(Clone, Copy)]
pub struct ShowOptions {
    /// Whether a picture is printed and not a text: as an SVG file, or in a page.
    pub picture: bool,
    /// Whether it is printed in a page that steps through the history, as an HTML file.
    pub page: bool,
    /// Whether the protocol's state at each event is told, too.
    pub state: bool,
    /// Which events are told, by their numbers.
    pub events: EventRange,
    /// Of each processor, whether its events are told.
    pub processors: [bool; MOST_TRACE_PROCESSORS],
}

/// Which run of a script is to be explained, and how.
#[derive(Drop)]
pub struct ExplainOptions {
    /// The file to read the script from, or None for standard input.
    pub file: Option<String>,
    /// What the orders of the rounds are drawn from, or None for 0, 1, .. in each.
    pub seed: Option<u64>,
    /// The text of the schedule by which the run is made, or None if it is made in rounds alone.
    pub schedule: Option<String>,
    /// Whether the book's lock is the ticket lock, and not the array lock.
    pub ticket: bool,
    /// What of the run is shown, and how.
    pub showing: ShowOptions,
}

/// Which trace is to be told, and how.
#[derive(Drop)]
pub struct TellOptions {
    /// The file to read the trace from, or None for standard input.
    pub file: Option<String>,
    /// What the loads of the trace owe.
    pub model: TraceModel,
    /// Whether what only this memory asks is left out: unless the trace is to be judged strictly, or by this memory's model.
    pub lax: bool,
    /// Whether the trace may end in the midst of a line, before which it is judged then.
    pub unfinished: bool,
    /// What of the trace is shown, and how.
    pub showing: ShowOptions,
}

/// How a script is to be sampled.
#[derive(Drop)]
pub struct SampleOptions {
    /// The file to read the script from, or None for standard input.
    pub file: Option<String>,
    /// How many seeds draw turns of a run, beside the run that goes in rounds alone: those from 0 on. It is 1 at least.
    pub seeds: u32,
    /// How much of a run its outcome tells.
    pub outcomes: OutcomeDetail,
    /// Whether the book's lock is the ticket lock, and not the array lock.
    pub ticket: bool,
    /// How many runs are made beside each other at most, 1 to 64; one after the other if None.
    pub jobs: Option<u64>,
    /// Whether the answer is JSON, an object a line, and not text.
    pub json: bool,
}

/// How far all schedules of a script are to be looked at.
#[derive(Drop)]
pub struct ExploreOptions {
    /// The file to read the script from, or None for standard input.
    pub file: Option<String>,
    /// How many states, or beginnings of histories, are looked at before the search is given up.
    pub most: u32,
    /// The words that a run is to end with, each with its address before it; none if all runs are to be looked at.
    pub until: Vec<(usize, u32)>,
    /// How much of a run its outcome tells.
    pub outcomes: OutcomeDetail,
    /// Whether the answer is JSON, an object a line, and not text.
    pub json: bool,
}

/// How much of a run its outcome tells.
#[derive(Clone, Copy, Debug, PartialEq, Eq)]
pub enum OutcomeDetail {
    /// The shown words at the end.
    Words,
    /// Those, and what instructions `load` answered.
    Loads,
    /// Those, and what instructions `add` loaded, too.
    All,
}

/// How a trace is to be judged.
#[derive(Drop)]
pub struct TraceOptions {
    /// The file to read the trace from, or None for standard input.
    pub file: Option<String>,
    /// What the loads of the trace owe.
    pub model: TraceModel,
    /// Whether what only this memory asks is left out: unless the trace is to be judged strictly, or by this memory's model.
    pub lax: bool,
    /// Whether the trace may end in the midst of a line, before which it is judged then.
    pub unfinished: bool,
    /// Whether judging ends with a race, and the exit status tells it.
    pub race_is_error: bool,
    /// Which words are told that need a lock and have none; None if nothing is told of locks.
    pub locksets: Option<TraceLocksets>,
    /// Whether the trace is a program's, whose races are all told.
    pub program: bool,
    /// How many of these at most, 1 to 1,000; None if it isn't given.
    pub most: Option<u64>,
    /// The file whose lines name the races that are left out; None if none are.
    pub suppress: Option<String>,
    /// Whether the answer is JSON, an object a line, and not text.
    pub json: bool,
}

/// Which words of a trace are told that need a lock and have none.
#[derive(Clone, Copy, Debug, PartialEq, Eq)]
pub enum TraceLocksets {
    /// Those that have one at times: somebody forgot it.
    Forgotten,
    /// These, and those that never have one: they are handed over.
    All,
}

/// The model of memory by which a trace is judged.
#[derive(Clone, Copy, Debug, PartialEq, Eq)]
pub enum TraceModel {
    RaceFree,
    HappensBefore,
    LazyRelease,
    Sequential,
}

/// The most pages of each size that may be asked for.
pub(crate) const MOST_TOP: u64 = 1000;

/// The most runs that may be made beside each other.
pub(crate) const MOST_JOBS: u64 = 64;

/// The most races that may be asked for.
pub(crate) const MOST_RACES: u64 = 1000;

/// The tries if none are given.
pub(crate) const DEFAULT_TRIES: u64 = 1_000_000;

/// The seeds if none are given.
pub(crate) const DEFAULT_SEEDS: u32 = 1000;

/// The states if no number is given.
pub(crate) const DEFAULT_MOST: u32 = 1_000_000;

/// How a script is to be run.
#[derive(Drop)]
pub struct Options {
    /// Whether the script is run by turns on one thread, by `step`, and not on threads, by `run`.
    pub step: bool,
    /// The file to read the script from, or None for standard input.
    pub file: Option<String>,
    /// After how many answers NotYet in a row a thread of `run` gives up; the default under `step`.
    pub tries: u64,
    /// What the orders of the rounds of `step` are drawn from, or None for 0, 1, .. in each; None under `run`.
    pub seed: Option<u64>,
    /// The text of the schedule by which `step` goes, or None for rounds alone; None under `run`.
    pub schedule: Option<String>,
    /// Whether the book's lock is the ticket lock, and not the array lock.
    pub ticket: bool,
    /// Whether the journal's lines are printed too.
    pub journal: bool,
}
