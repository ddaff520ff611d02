//! Reads the program's words.
ghost use Rattle.std.specs.Prelude.{◌≡◌, ◌||◌, ℕ, Bool, List, IfOk, IfErr, MatchOption, OnOk, false, true, is_some, map, not, option_map, string_bytes, codes};
ghost use Rattle.std.specs.Option.{option_map_or};
ghost use Rattle.std.specs.Str.{bytes_eq};
ghost use Rattle.clap.specs.Words.{first_of, one_of, rows_of, found_of};
ghost use Rattle.lrc_options.specs.OptionRules.{IsNumberReadByOptionRule, IsNumberByOptionRule, IsSeedByOptionRule, IsFlagByOptionRule, IsLaxByOptionRules, IsOneOfFlagsByOptionRule, AreOptionsAskedByRules, AreOptionsByRulesOfScript};
ghost use Rattle.lrc_options.specs.declared.ranges.EventRange.{EventRange};
ghost use Rattle.lrc_options.specs.OptionRules.{AreEventsByOptionRule, AreOptionsByRulesOfExplain, AreOptionsByRulesOfExplore, AreUntilWordsByOptionRule, AreProcessorsByOptionRule, AreOptionsByRulesOfSample};
ghost use Rattle.lrc_options.specs.OptionRules.{AreOptionsByRulesOfDraw, AreOptionsByRulesOfFollow, AreOptionsByRulesOfPages, ArePageWordsByOptionRule, AreOptionsByRulesOfShowing, AreOptionsByRulesOfTell, IsSizeByOptionRule, IsExplanationAskedByOptionRules, IsShowingUnreadByOptionRules};
ghost use Rattle.lrc_options.specs.OptionRules.{AreOptionsByRulesOfTrace, option_rule_default_most, option_rule_detail_given, option_rule_locksets_given, option_rule_model_given, option_rule_named_detail, option_rule_named_locksets, option_rule_named_model, option_rule_ticket};
ghost use Rattle.lrc_options.specs.Clashes.{do_options_clash_together};
ghost use Rattle.lrc_options.specs.OptionRules.{AreOptionsGivenByRules, AreOptionsRefusedByRules, IsOptionUnanswered, option_rule_most_processors, option_rule_most_tries, option_rule_most_seed, option_rule_default_tries, option_rule_default_seeds};

use crate::clap_commands::{
    DETAILS, LOCKS, LOCKSET_WORDS, MODELS, MOST_SEED, MOST_TRIES, PATTERNS, clap_lrc_command,
};
use crate::clashes::{is_in_words, is_lazy_release, option_clash_of};
use crate::final_words::final_words;
use crate::misuse::{misuse_by_exclusion, misuse_by_unread_value, with_misuse_tip};
use crate::options::{
    Asked, DEFAULT_MOST, DEFAULT_SEEDS, DEFAULT_TRIES, DrawOptions, ExplainOptions, ExploreOptions,
    FollowOptions, MOST_JOBS, MOST_RACES, MOST_TOP, MOST_TRACE_PROCESSORS, Options, OutcomeDetail,
    PagesOptions, SampleOptions, ShowOptions, TellOptions, TraceLocksets, TraceModel, TraceOptions,
};
use crate::page_words::{default_page_sizes, page_sizes};
use crate::ranges::{ALL_EVENTS, EventRange, option_range_of_events, processors};
use base::MOST_PROCESSORS;
use clap::{ArgMatches, Error};
use std::alloc::{AllocError, Global};

/// The number that an option gives.
fn command_line_number(matches: &ArgMatches<'_>, id: &str) -> Option<u64>
    ensures { IsNumberReadByOptionRule (one_of id.now (rows_of (found_of matches.now))) result }
{
    matches.get_one::<u64>(id)
}

/// The number given for `--tries`, or the default.
fn command_line_tries(matches: &ArgMatches<'_>) -> u64
    ensures { IsNumberByOptionRule 1 option_rule_most_tries option_rule_default_tries
        (one_of (codes "tries") (rows_of (found_of matches.now))) result }
{
    match command_line_number(matches, "tries") {
        Some(tries) if 1 <= tries && tries <= MOST_TRIES => tries,
        _ => DEFAULT_TRIES,
    }
}

/// The number given for `--seed`.
fn command_line_seed(matches: &ArgMatches<'_>) -> Option<u64>
    ensures { IsSeedByOptionRule (one_of (codes "seed") (rows_of (found_of matches.now))) result }
{
    match command_line_number(matches, "seed") {
        Some(seed) if seed <= MOST_SEED => Some(seed),
        _ => None,
    }
}

/// The number given for `--seeds`, or the default.
fn command_line_seeds(matches: &ArgMatches<'_>) -> u32
    ensures { IsNumberByOptionRule 1 option_rule_most_seed option_rule_default_seeds
        (one_of (codes "seeds") (rows_of (found_of matches.now))) result }
{
    match command_line_number(matches, "seeds") {
        Some(seeds) if 1 <= seeds && seeds <= MOST_SEED => seeds as u32,
        _ => DEFAULT_SEEDS,
    }
}

/// The number given for `--most`, or the default.
fn command_line_most(matches: &ArgMatches<'_>) -> u32
    ensures { IsNumberByOptionRule 0 option_rule_most_seed option_rule_default_most
        (one_of (codes "most") (rows_of (found_of matches.now))) result }
{
    match command_line_number(matches, "most") {
        Some(most) if most <= MOST_SEED => most as u32,
        _ => DEFAULT_MOST,
    }
}

/// The size that an option gives, from 1 to the most.
fn command_line_size(matches: &ArgMatches<'_>, id: &str, most: u64) -> Option<u64>
    ensures { IsSizeByOptionRule most (one_of id.now (rows_of (found_of matches.now))) result }
{
    match command_line_number(matches, id) {
        Some(size) if 1 <= size && size <= most => Some(size),
        _ => None,
    }
}

/// Whether the ticket lock is asked for.
fn command_line_wants_ticket(matches: &ArgMatches<'_>) -> bool
    ensures { result ≡ option_rule_ticket (rows_of (found_of matches.now)) }
{
    match matches.get_str("lock") {
        Some(lock) => lock == "ticket",
        None => false,
    }
}

/// Whether the journal is asked for.
fn command_line_wants_journal(matches: &ArgMatches<'_>) -> bool
    ensures { IsFlagByOptionRule (one_of (codes "journal") (rows_of (found_of matches.now))) result }
{
    matches.get_flag("journal")
}

/// Whether a picture alone is asked for.
fn command_line_wants_svg(matches: &ArgMatches<'_>) -> bool
    ensures { IsFlagByOptionRule (one_of (codes "svg") (rows_of (found_of matches.now))) result }
{
    matches.get_flag("svg")
}

/// Whether a page with a picture is asked for.
fn command_line_wants_page(matches: &ArgMatches<'_>) -> bool
    ensures { IsFlagByOptionRule (one_of (codes "html") (rows_of (found_of matches.now))) result }
{
    matches.get_flag("html")
}

/// Whether a picture is asked for, alone or in a page.
fn command_line_wants_picture(matches: &ArgMatches<'_>) -> bool
    ensures { IsOneOfFlagsByOptionRule (one_of (codes "svg") (rows_of (found_of matches.now)))
        (one_of (codes "html") (rows_of (found_of matches.now))) result }
{
    let svg = command_line_wants_svg(matches);
    let page = command_line_wants_page(matches);
    svg || page
}

/// Whether the protocol's state is asked for.
fn command_line_wants_state(matches: &ArgMatches<'_>) -> bool
    ensures { IsFlagByOptionRule (one_of (codes "state") (rows_of (found_of matches.now))) result }
{
    matches.get_flag("state")
}

/// The range given for `--events`, or all events; None where what is given is no range.
fn command_line_events(matches: &ArgMatches<'_>) -> Option<EventRange>
    ensures { MatchOption result ((x : EventRange) → ¬ AreEventsByOptionRule (first_of (codes "events") (rows_of (found_of matches.now))) x)
        (AreEventsByOptionRule (first_of (codes "events") (rows_of (found_of matches.now)))) }
{
    match matches.get_str("events") {
        Some(text) => option_range_of_events(text),
        None => Some(ALL_EVENTS),
    }
}

/// How many processors may be given: as many as a trace has, or as a script's cluster.
fn command_line_most_processors(matches: &ArgMatches<'_>) -> usize
    ensures { result ≡ option_rule_most_processors (rows_of (found_of matches.now)) }
{
    if is_in_words(matches, "trace") {
        MOST_TRACE_PROCESSORS
    } else {
        MOST_PROCESSORS
    }
}

/// The processors given for `--processors`, or all; None where what is given are none.
fn command_line_processors(matches: &ArgMatches<'_>) -> Option<[bool; MOST_TRACE_PROCESSORS]>
    ensures { MatchOption result
        ((marks : List Bool) → ¬ AreProcessorsByOptionRule (option_rule_most_processors (rows_of (found_of matches.now)))
        (first_of (codes "processors") (rows_of (found_of matches.now))) marks)
        (AreProcessorsByOptionRule (option_rule_most_processors (rows_of (found_of matches.now)))
        (first_of (codes "processors") (rows_of (found_of matches.now)))) }
{
    match matches.get_str("processors") {
        Some(text) => processors(text, command_line_most_processors(matches)),
        None => Some([true; MOST_TRACE_PROCESSORS]),
    }
}

/// What is wanted of `--processors`, in words.
fn command_line_processors_wanted(matches: &ArgMatches<'_>) -> &'static str {
    if is_in_words(matches, "trace") {
        "numbers from 0 to 255, as 2 or 0,2"
    } else {
        "numbers from 0 to 15, as 2 or 0,2"
    }
}

/// The words given for `--until`, or none; None where what is given are no words. The only error is running out of memory.
fn command_line_until(
    alloc: Global,
    matches: &ArgMatches<'_>,
) -> Result<Option<Vec<(usize, u32)>>, AllocError>
    ensures { IfOk result (λ o. MatchOption o
        ((words : List (ℕ × ℕ)) → ¬ AreUntilWordsByOptionRule (first_of (codes "until") (rows_of (found_of matches.now))) words)
        (λ v. AreUntilWordsByOptionRule (first_of (codes "until") (rows_of (found_of matches.now))) v.items)) }
{
    match matches.get_str("until") {
        Some(text) => final_words(alloc, text),
        None => Ok(Some(Vec::new(alloc))),
    }
}

/// Whether it is asked for by name that a trace is judged lax.
fn command_line_asks_for_lax(matches: &ArgMatches<'_>) -> bool
    ensures { IsFlagByOptionRule (one_of (codes "lax") (rows_of (found_of matches.now))) result }
{
    matches.get_flag("lax")
}

/// Whether a trace is to be judged strictly.
fn command_line_is_strict(matches: &ArgMatches<'_>) -> bool
    ensures { IsFlagByOptionRule (one_of (codes "strict") (rows_of (found_of matches.now))) result }
{
    matches.get_flag("strict")
}

/// Whether a trace is judged lax, where that is asked for or not, and where it is to be judged strictly or by this memory's own
/// model or not.
fn is_judged_lax(asked: bool, strict: bool, own: bool) -> bool
    ensures { result ≡ (asked || not (strict || own)) }
{
    asked || !(strict || own)
}

/// Whether what only this memory asks is to be left out: if that is asked for, and under every model but this memory's own
/// unless the trace is to be judged strictly.
fn command_line_is_lax(matches: &ArgMatches<'_>) -> bool
    ensures { IsLaxByOptionRules (rows_of (found_of matches.now)) result }
{
    let asked = command_line_asks_for_lax(matches);
    let strict = command_line_is_strict(matches);
    is_judged_lax(asked, strict, is_lazy_release(matches))
}

/// Whether a trace may end in the midst of a line.
fn command_line_is_unfinished(matches: &ArgMatches<'_>) -> bool
    ensures { IsFlagByOptionRule (one_of (codes "unfinished") (rows_of (found_of matches.now))) result }
{
    matches.get_flag("unfinished")
}

/// Whether a race is to end the judging.
fn command_line_ends_at_race(matches: &ArgMatches<'_>) -> bool
    ensures { IsFlagByOptionRule (one_of (codes "race-is-error") (rows_of (found_of matches.now))) result }
{
    matches.get_flag("race-is-error")
}

/// Whether the trace is a program's.
fn command_line_is_of_program(matches: &ArgMatches<'_>) -> bool
    ensures { IsFlagByOptionRule (one_of (codes "program") (rows_of (found_of matches.now))) result }
{
    matches.get_flag("program")
}

/// Whether the answer is to be JSON.
fn command_line_wants_json(matches: &ArgMatches<'_>) -> bool
    ensures { IsFlagByOptionRule (one_of (codes "json") (rows_of (found_of matches.now))) result }
{
    matches.get_flag("json")
}

/// The model of this name; the first one, if none has it.
fn command_line_model_named(name: &str) -> TraceModel
    ensures { result ≡ option_rule_named_model name.now }
{
    if name == "happens-before" {
        TraceModel::HappensBefore
    } else if name == "lazy-release" {
        TraceModel::LazyRelease
    } else if name == "sequential" {
        TraceModel::Sequential
    } else {
        TraceModel::RaceFree
    }
}

/// The model that is asked for.
fn command_line_model(matches: &ArgMatches<'_>) -> TraceModel
    ensures { result ≡ option_rule_model_given (rows_of (found_of matches.now)) }
{
    match matches.get_str("model") {
        Some(name) => command_line_model_named(name),
        None => TraceModel::RaceFree,
    }
}

/// The words without a lock that this name gives; those of which somebody forgot it, if none has the name.
fn command_line_locksets_named(name: &str) -> TraceLocksets
    ensures { result ≡ option_rule_named_locksets name.now }
{
    if name == "all" {
        TraceLocksets::All
    } else {
        TraceLocksets::Forgotten
    }
}

/// The words without a lock that are to be told, if any are.
fn command_line_locksets(matches: &ArgMatches<'_>) -> Option<TraceLocksets>
    ensures { result ≡ option_rule_locksets_given (rows_of (found_of matches.now)) }
{
    match matches.get_str("locksets") {
        Some(name) => Some(command_line_locksets_named(name)),
        None => None,
    }
}

/// What is told by this name; the words alone, if nothing is.
fn command_line_detail_named(name: &str) -> OutcomeDetail
    ensures { result ≡ option_rule_named_detail name.now }
{
    if name == "loads" {
        OutcomeDetail::Loads
    } else if name == "all" {
        OutcomeDetail::All
    } else {
        OutcomeDetail::Words
    }
}

/// How much of a run is to be told.
fn command_line_detail(matches: &ArgMatches<'_>) -> OutcomeDetail
    ensures { result ≡ option_rule_detail_given (rows_of (found_of matches.now)) }
{
    match matches.get_str("outcomes") {
        Some(name) => command_line_detail_named(name),
        None => OutcomeDetail::Words,
    }
}

/// The text that is given for this.
fn command_line_text(
    alloc: Global,
    matches: &ArgMatches<'_>,
    id: &str,
) -> Result<Option<String>, AllocError>
    ensures { IfOk result (λ f. option_map (λ s. string_bytes s) f
        ≡ first_of id.now (rows_of (found_of matches.now))) }
{
    match matches.get_str(id) {
        Some(text) => Ok(Some(String::from_str(alloc, text)?)),
        None => Ok(None),
    }
}

/// The options that the name of a command on a script, and its matches, give.
pub(crate) fn command_line_script_options(
    alloc: Global,
    name: &str,
    matches: &ArgMatches<'_>,
) -> Result<Options, AllocError>
    ensures { IfOk result (AreOptionsByRulesOfScript name.now (rows_of (found_of matches.now))) }
{
    let file = command_line_text(alloc, matches, "FILE")?;
    let schedule = command_line_text(alloc, matches, "schedule")?;
    Ok(Options {
        step: name == "step",
        file,
        tries: command_line_tries(matches),
        seed: command_line_seed(matches),
        schedule,
        ticket: command_line_wants_ticket(matches),
        journal: command_line_wants_journal(matches),
    })
}

/// The options that the matches of `explain` give, of which this is shown.
fn command_line_explain_options(
    alloc: Global,
    matches: &ArgMatches<'_>,
    showing: ShowOptions,
) -> Result<ExplainOptions, AllocError>
    requires { AreOptionsByRulesOfShowing (rows_of (found_of matches.now)) showing }
    ensures { IfOk result (AreOptionsByRulesOfExplain (rows_of (found_of matches.now))) }
{
    let file = command_line_text(alloc, matches, "FILE")?;
    let schedule = command_line_text(alloc, matches, "schedule")?;
    Ok(ExplainOptions {
        file,
        seed: command_line_seed(matches),
        schedule,
        ticket: command_line_wants_ticket(matches),
        showing,
    })
}

/// The options that the matches of `explain --trace` give, of which this is shown.
fn command_line_tell_options(
    alloc: Global,
    matches: &ArgMatches<'_>,
    showing: ShowOptions,
) -> Result<TellOptions, AllocError>
    requires { AreOptionsByRulesOfShowing (rows_of (found_of matches.now)) showing }
    ensures { IfOk result (AreOptionsByRulesOfTell (rows_of (found_of matches.now))) }
{
    let file = command_line_text(alloc, matches, "FILE")?;
    Ok(TellOptions {
        file,
        model: command_line_model(matches),
        lax: command_line_is_lax(matches),
        unfinished: command_line_is_unfinished(matches),
        showing,
    })
}

/// The options that the matches of `sample` give.
fn command_line_sample_options(
    alloc: Global,
    matches: &ArgMatches<'_>,
) -> Result<SampleOptions, AllocError>
    ensures { IfOk result (AreOptionsByRulesOfSample (rows_of (found_of matches.now))) }
{
    let file = command_line_text(alloc, matches, "FILE")?;
    Ok(SampleOptions {
        file,
        seeds: command_line_seeds(matches),
        outcomes: command_line_detail(matches),
        ticket: command_line_wants_ticket(matches),
        jobs: command_line_size(matches, "jobs", MOST_JOBS),
        json: command_line_wants_json(matches),
    })
}

/// The options that the matches of `explore` give, with these words.
fn command_line_explore_options(
    alloc: Global,
    matches: &ArgMatches<'_>,
    until: Vec<(usize, u32)>,
) -> Result<ExploreOptions, AllocError>
    requires { AreUntilWordsByOptionRule (first_of (codes "until") (rows_of (found_of matches.now))) until.items }
    ensures { IfOk result (AreOptionsByRulesOfExplore (rows_of (found_of matches.now))) }
{
    let file = command_line_text(alloc, matches, "FILE")?;
    Ok(ExploreOptions {
        file,
        most: command_line_most(matches),
        until,
        outcomes: command_line_detail(matches),
        json: command_line_wants_json(matches),
    })
}

/// The options that the matches of `check` give.
fn command_line_trace_options(
    alloc: Global,
    matches: &ArgMatches<'_>,
) -> Result<TraceOptions, AllocError>
    ensures { IfOk result (AreOptionsByRulesOfTrace (rows_of (found_of matches.now))) }
{
    let file = command_line_text(alloc, matches, "FILE")?;
    let suppress = command_line_text(alloc, matches, "suppress")?;
    Ok(TraceOptions {
        file,
        model: command_line_model(matches),
        lax: command_line_is_lax(matches),
        unfinished: command_line_is_unfinished(matches),
        race_is_error: command_line_ends_at_race(matches),
        locksets: command_line_locksets(matches),
        program: command_line_is_of_program(matches),
        most: command_line_size(matches, "most", MOST_RACES),
        suppress,
        json: command_line_wants_json(matches),
    })
}

/// The options that the matches of `draw` give.
fn command_line_draw_options(
    alloc: Global,
    matches: &ArgMatches<'_>,
) -> Result<DrawOptions, AllocError>
    ensures { IfOk result (AreOptionsByRulesOfDraw (rows_of (found_of matches.now))) }
{
    let pattern = command_line_text(alloc, matches, "PATTERN")?;
    Ok(DrawOptions {
        pattern,
        seed: command_line_seed(matches),
        processors: command_line_size(matches, "processors", 16),
        pages: command_line_size(matches, "pages", 64),
        words: command_line_size(matches, "words", 64),
        locks: command_line_size(matches, "locks", 32),
        flags: command_line_size(matches, "flags", 32),
        length: command_line_size(matches, "length", 400),
    })
}

/// The options that the matches of `follows` give.
fn command_line_follow_options(
    alloc: Global,
    matches: &ArgMatches<'_>,
) -> Result<FollowOptions, AllocError>
    ensures { IfOk result (AreOptionsByRulesOfFollow (rows_of (found_of matches.now))) }
{
    let script = command_line_text(alloc, matches, "FILE")?;
    let trace = command_line_text(alloc, matches, "TRACE")?;
    Ok(FollowOptions { script, trace })
}

/// The page sizes given for `--page-words`, or the default; None where what is given are none. The only error is running out of
/// memory.
fn command_line_page_sizes(
    alloc: Global,
    matches: &ArgMatches<'_>,
) -> Result<Option<Vec<usize>>, AllocError>
    ensures { IfOk result (λ o. MatchOption o
        ((words : List ℕ) → ¬ ArePageWordsByOptionRule (first_of (codes "page-words") (rows_of (found_of matches.now))) words)
        (λ v. ArePageWordsByOptionRule (first_of (codes "page-words") (rows_of (found_of matches.now))) v.items)) }
{
    match matches.get_str("page-words") {
        Some(text) => page_sizes(alloc, text),
        None => Ok(Some(default_page_sizes(alloc)?)),
    }
}

/// Whether the costs of eager release consistency are asked for.
fn command_line_wants_eager(matches: &ArgMatches<'_>) -> bool
    ensures { IsFlagByOptionRule (one_of (codes "eager") (rows_of (found_of matches.now))) result }
{
    matches.get_flag("eager")
}

/// The options that the matches of `pages` give, with these page sizes.
fn command_line_pages_options(
    alloc: Global,
    matches: &ArgMatches<'_>,
    page_words: Vec<usize>,
) -> Result<PagesOptions, AllocError>
    requires { ArePageWordsByOptionRule (first_of (codes "page-words") (rows_of (found_of matches.now))) page_words.items }
    ensures { IfOk result (AreOptionsByRulesOfPages (rows_of (found_of matches.now))) }
{
    let file = command_line_text(alloc, matches, "FILE")?;
    Ok(PagesOptions {
        file,
        page_words,
        top: command_line_size(matches, "top", MOST_TOP),
        eager: command_line_wants_eager(matches),
        svg: command_line_wants_svg(matches),
        json: command_line_wants_json(matches),
    })
}

/// What the matches of `pages` ask for; or that page sizes are given that can't be read.
fn command_line_pages_answer(
    alloc: Global,
    name: &str,
    matches: &ArgMatches<'_>,
) -> Result<Asked, Error>
    requires { bytes_eq name.now (codes "pages") ≡ true }
    ensures asked { IfOk result (AreOptionsAskedByRules name.now (rows_of (found_of matches.now))) }
    ensures unanswered { IfErr result (IsShowingUnreadByOptionRules (rows_of (found_of matches.now))) }
{
    let Some(page_words) = command_line_page_sizes(alloc, matches)? else {
        let want = "at most 8 numbers of words from 1 to 1048576, as 128 or 128,1024";
        return Err(misuse_by_unread_value(alloc, name, matches, "page-words", "W,..", want)?);
    };
    let options = command_line_pages_options(alloc, matches, page_words)?;
    Ok(Asked::Pages(options))
}

/// What the matches of `explain` ask for, of which this is shown.
fn command_line_explanation(
    alloc: Global,
    matches: &ArgMatches<'_>,
    showing: ShowOptions,
) -> Result<Asked, AllocError>
    requires { AreOptionsByRulesOfShowing (rows_of (found_of matches.now)) showing }
    ensures { IfOk result (IsExplanationAskedByOptionRules (rows_of (found_of matches.now))) }
{
    if is_in_words(matches, "trace") {
        command_line_tell_options(alloc, matches, showing).map(Asked::Tell)
    } else {
        command_line_explain_options(alloc, matches, showing).map(Asked::Explain)
    }
}

/// What a command's name and its matches ask for, of which this is shown if it is `explain`, with these words if it is
/// `explore`.
fn command_line_asks(
    alloc: Global,
    name: &str,
    matches: &ArgMatches<'_>,
    showing: ShowOptions,
    until: Vec<(usize, u32)>,
) -> Result<Asked, AllocError>
    requires showing { AreOptionsByRulesOfShowing (rows_of (found_of matches.now)) showing }
    requires until { AreUntilWordsByOptionRule (first_of (codes "until") (rows_of (found_of matches.now))) until.items }
    requires draws { bytes_eq name.now (codes "draw") ≡ false }
    requires follows { bytes_eq name.now (codes "follows") ≡ false }
    requires pages { bytes_eq name.now (codes "pages") ≡ false }
    ensures { IfOk result (AreOptionsAskedByRules name.now (rows_of (found_of matches.now))) }
{
    if name == "explain" {
        command_line_explanation(alloc, matches, showing)
    } else if name == "sample" {
        command_line_sample_options(alloc, matches).map(Asked::Sample)
    } else if name == "explore" {
        command_line_explore_options(alloc, matches, until).map(Asked::Explore)
    } else if name == "check" {
        command_line_trace_options(alloc, matches).map(Asked::Trace)
    } else {
        command_line_script_options(alloc, name, matches).map(Asked::Script)
    }
}

/// What of a history is shown, and how; or that events or processors are given that can't be read.
fn command_line_show_options(
    alloc: Global,
    name: &str,
    matches: &ArgMatches<'_>,
) -> Result<ShowOptions, Error>
    ensures showing { IfOk result (AreOptionsByRulesOfShowing (rows_of (found_of matches.now))) }
    ensures unread { IfErr result (IsShowingUnreadByOptionRules (rows_of (found_of matches.now))) }
{
    let Some(events) = command_line_events(matches) else {
        let want = "a range of numbers, as 3..8, 3.. or ..8";
        return Err(misuse_by_unread_value(alloc, name, matches, "events", "A..B", want)?);
    };
    let Some(processors) = command_line_processors(matches) else {
        let want = command_line_processors_wanted(matches);
        return Err(misuse_by_unread_value(alloc, name, matches, "processors", "P,..", want)?);
    };
    Ok(ShowOptions {
        picture: command_line_wants_picture(matches),
        page: command_line_wants_page(matches),
        state: command_line_wants_state(matches),
        events,
        processors,
    })
}

/// What a command's name and its matches ask for; or that options exclude each other, or that events, processors or words
/// can't be read.
fn command_line_answer(alloc: Global, name: &str, matches: &ArgMatches<'_>) -> Result<Asked, Error>
    ensures apart { OnOk result (do_options_clash_together name.now (rows_of (found_of matches.now)) ≡ false) }
    ensures asked { IfOk result (AreOptionsAskedByRules name.now (rows_of (found_of matches.now))) }
    ensures unanswered { IfErr result (IsOptionUnanswered name.now (rows_of (found_of matches.now))) }
{
    if let Some(clash) = option_clash_of(name, matches) {
        return Err(misuse_by_exclusion(alloc, name, clash)?);
    }
    if name == "draw" {
        return Ok(Asked::Draw(command_line_draw_options(alloc, matches)?));
    }
    if name == "follows" {
        return Ok(Asked::Follow(command_line_follow_options(alloc, matches)?));
    }
    if name == "pages" {
        return command_line_pages_answer(alloc, name, matches);
    }
    command_line_study_answer(alloc, name, matches)
}

/// The same of a command that studies or runs a script or a trace.
fn command_line_study_answer(
    alloc: Global,
    name: &str,
    matches: &ArgMatches<'_>,
) -> Result<Asked, Error>
    requires draws { bytes_eq name.now (codes "draw") ≡ false }
    requires follows { bytes_eq name.now (codes "follows") ≡ false }
    requires pages { bytes_eq name.now (codes "pages") ≡ false }
    ensures asked { IfOk result (AreOptionsAskedByRules name.now (rows_of (found_of matches.now))) }
    ensures unanswered { IfErr result (IsShowingUnreadByOptionRules (rows_of (found_of matches.now))) }
{
    let showing = command_line_show_options(alloc, name, matches)?;
    let Some(until) = command_line_until(alloc, matches)? else {
        let want = "words at addresses, each address once, as 0=1 or 0=1,4=2";
        return Err(misuse_by_unread_value(alloc, name, matches, "until", "A=V,..", want)?);
    };
    Ok(command_line_asks(alloc, name, matches, showing, until)?)
}

/// Reads the words, the program's name first: `lrc run [FILE] [--tries N] [--lock KIND] [--journal]`,
/// `lrc step [FILE] [--seed N | --schedule S] [--lock KIND] [--journal]`,
/// `lrc explain [FILE] [--seed N | --schedule S] [--lock KIND] [--svg | --html] [--state] [--events A..B] [--processors P,..]`,
/// `lrc explain [FILE] --trace [--model NAME] [--strict] [--lax] [--unfinished]` with the same to say what is shown,
/// `lrc sample [FILE] [--seeds N] [--lock KIND] [--outcomes WHAT] [--jobs N] [--json]`,
/// `lrc explore [FILE] [--most N] [--until A=V,..] [--outcomes WHAT] [--json]`,
/// `lrc check [FILE] [--model NAME] [--strict] [--lax] [--unfinished] [--race-is-error] [--locksets WHICH] [--json]` with
/// `[--program [--most N] [--suppress FILE]]` for all races,
/// `lrc draw [PATTERN] [--seed N] [--processors N] [--pages N] [--words N] [--locks N] [--flags N] [--length N]`,
/// `lrc follows [FILE] [TRACE]` or `lrc pages [FILE] [--page-words W,..] [--top N] [--eager] [--svg | --json]`.
///
/// # Errors
///
/// clap's, of just the kind that its own function of the command finds in the words: words that give no such command, or
/// a question for help. A conflict, if they give options that exclude each other. A bad value, if they give events, processors,
/// words or page sizes that can't be read. Or running out of memory.
pub fn options<'a>(alloc: Global, words: &'a [String]) -> Result<Asked, Error>
    ensures given { IfOk result (AreOptionsGivenByRules (map (λ w. string_bytes w) words.entry.now)) }
    ensures refused { IfErr result (AreOptionsRefusedByRules (map (λ w. string_bytes w) words.entry.now)) }
{
    match clap_lrc_command(
        alloc,
        LOCKS.as_slice(),
        MODELS.as_slice(),
        LOCKSET_WORDS.as_slice(),
        DETAILS.as_slice(),
        PATTERNS.as_slice(),
    )?
    .try_get_matches_from(words)
    {
        Ok(matches) => match matches.subcommand() {
            Some((name, given)) => command_line_answer(alloc, name, given),
            None => unreachable!("a command is required"),
        },
        Err(fault) => Err(with_misuse_tip(alloc, words, fault)?),
    }
}
