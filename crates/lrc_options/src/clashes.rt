//! Which options exclude each other.
ghost use Rattle.std.specs.Prelude.{◌≡◌, codes, is_some};
ghost use Rattle.clap.specs.Words.{first_of, found_of, rows_of};
ghost use Rattle.lrc_options.specs.Clashes.{do_lax_and_strict_clash, do_options_clash_together, do_picture_and_json_clash, does_trace_clash, do_seed_and_schedule_clash, has_clashing_page_option};
ghost use Rattle.lrc_options.specs.Clashes.{has_clashing_script_option, has_clashing_trace_option, is_from_words, is_option_in_words, is_own_model};

use clap::ArgMatches;
use clap::parser::ValueSource;

/// Whether something is given for this.
fn is_given(matches: &ArgMatches<'_>, id: &str) -> bool
    ensures { result ≡ is_some (first_of id.now (rows_of (found_of matches.now))) }
{
    matches.get_str(id).is_some()
}

/// What is said if a seed and a schedule are given.
pub(crate) const SEED_AND_SCHEDULE: &str =
    "the argument '--seed <N>' cannot be used with '--schedule <S>'";

/// Whether a seed and a schedule are given.
pub(crate) fn seed_clashes_with_schedule(matches: &ArgMatches<'_>) -> bool
    ensures { result ≡ do_seed_and_schedule_clash (rows_of (found_of matches.now)) }
{
    is_given(matches, "seed") && is_given(matches, "schedule")
}

/// Whether a trace is to be judged both lax and strictly.
fn lax_clashes_with_strict(matches: &ArgMatches<'_>) -> bool
    ensures { result ≡ do_lax_and_strict_clash (rows_of (found_of matches.now)) }
{
    is_in_words(matches, "lax") && is_in_words(matches, "strict")
}

/// Whether a picture and JSON are asked for.
fn picture_clashes_with_json(matches: &ArgMatches<'_>) -> bool
    ensures { result ≡ do_picture_and_json_clash (rows_of (found_of matches.now)) }
{
    is_in_words(matches, "svg") && is_in_words(matches, "json")
}

/// Whether a value comes from the words, and isn't a default.
fn comes_from_words(source: ValueSource) -> bool
    ensures { result ≡ is_from_words (Some source) }
{
    match source {
        ValueSource::CommandLine => true,
        ValueSource::DefaultValue => false,
    }
}

/// Whether the words give this option.
pub(crate) fn is_in_words(matches: &ArgMatches<'_>, id: &str) -> bool
    ensures { result ≡ is_option_in_words id.now (rows_of (found_of matches.now)) }
{
    match matches.value_source(id) {
        Some(source) => comes_from_words(source),
        None => false,
    }
}

/// What is said if an option is given that only a script has, beside `--trace`.
fn script_option_clash(matches: &ArgMatches<'_>) -> Option<&'static str>
    ensures { is_some result ≡ has_clashing_script_option (rows_of (found_of matches.now)) }
{
    if is_in_words(matches, "seed") {
        Some("the argument '--trace' cannot be used with '--seed <N>'")
    } else if is_in_words(matches, "schedule") {
        Some("the argument '--trace' cannot be used with '--schedule <S>'")
    } else if is_in_words(matches, "lock") {
        Some("the argument '--trace' cannot be used with '--lock <KIND>'")
    } else {
        None
    }
}

/// What is said if an option is given that only a trace has, without `--trace`.
fn trace_option_clash(matches: &ArgMatches<'_>) -> Option<&'static str>
    ensures { is_some result ≡ has_clashing_trace_option (rows_of (found_of matches.now)) }
{
    if is_in_words(matches, "model") {
        Some("the argument '--model <NAME>' cannot be used without '--trace'")
    } else if is_in_words(matches, "lax") {
        Some("the argument '--lax' cannot be used without '--trace'")
    } else if is_in_words(matches, "strict") {
        Some("the argument '--strict' cannot be used without '--trace'")
    } else if is_in_words(matches, "unfinished") {
        Some("the argument '--unfinished' cannot be used without '--trace'")
    } else {
        None
    }
}

/// Whether the trace is to be judged by this memory's own model.
pub(crate) fn is_lazy_release(matches: &ArgMatches<'_>) -> bool
    ensures { result ≡ is_own_model (rows_of (found_of matches.now)) }
{
    match matches.get_str("model") {
        Some(model) => model == "lazy-release",
        None => false,
    }
}

/// What is said if the state of pages is asked for.
fn page_option_clash(matches: &ArgMatches<'_>) -> Option<&'static str>
    ensures { is_some result ≡ has_clashing_page_option (rows_of (found_of matches.now)) }
{
    if is_in_words(matches, "state") {
        Some("the argument '--state' beside '--trace' wants '--model lazy-release'")
    } else if is_in_words(matches, "html") {
        Some("the argument '--html' beside '--trace' wants '--model lazy-release'")
    } else {
        None
    }
}

/// What is said if something is given beside `--trace` that can't be told of the trace.
fn clash_beside_trace(matches: &ArgMatches<'_>) -> Option<&'static str>
    ensures { is_some result ≡ does_trace_clash (rows_of (found_of matches.now)) }
{
    let clash = script_option_clash(matches);
    if clash.is_some() || is_lazy_release(matches) {
        return clash;
    }
    page_option_clash(matches)
}

/// What is said if the command of this name is given options that exclude each other.
pub(crate) fn option_clash_of(name: &str, matches: &ArgMatches<'_>) -> Option<&'static str>
    ensures { is_some result ≡ do_options_clash_together name.now (rows_of (found_of matches.now)) }
{
    if seed_clashes_with_schedule(matches) {
        return Some(SEED_AND_SCHEDULE);
    }
    if lax_clashes_with_strict(matches) {
        return Some("the argument '--lax' cannot be used with '--strict'");
    }
    if picture_clashes_with_json(matches) {
        return Some("the argument '--svg' cannot be used with '--json'");
    }
    if name != "explain" {
        return None;
    }
    if is_in_words(matches, "trace") {
        clash_beside_trace(matches)
    } else {
        trace_option_clash(matches)
    }
}
