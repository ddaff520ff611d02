//! The command that the program's words are read by.
ghost use Rattle.std.specs.Prelude.{◌≡◌, IfOk, false, true};
ghost use Rattle.clap.specs.Words.{App, app_of, new_app, rule_of, with_rule, with_subcommand};
ghost use Rattle.clap.specs.declared.builder.command.Command.TheViews.{out-Command};
ghost use Rattle.clap.specs.declared.builder.value_parser.ValueParser.TheVariants as vp;
ghost use Rattle.lrc_options.specs.OptionRules.{flag_option_rule, lock_option_rule, model_option_rule, most_option_rule, number_option_rule, option_parsers, option_rule, schedule_option_rule, seed_option_rule, seeds_option_rule};
ghost use Rattle.lrc_options.specs.OptionRules.{IsCommandByOptionRules, bare_option_rules, check_option_rules, explain_option_rules, explore_option_rules, file_option_rules, outcomes_option_rule};
ghost use Rattle.lrc_options.specs.OptionRules.{flagged_option_rules, lrc_option_rules, run_option_rules, sample_option_rules, script_option_rules, step_option_rules};
ghost use Rattle.lrc_options.specs.OptionRules.{draw_option_rules, drawn_option_rules, follows_option_rules, judged_option_rules, locksets_option_rule, pages_option_rules, pattern_option_rule, told_option_rules, tries_option_rule};
ghost use Rattle.lrc_options.specs.ScriptWords.{script_word_rules};

use crate::help::{
    ABOUT, AFTER, AFTER_RUN_AND_STEP, DRAW, DRAWN_FLAGS, DRAWN_LENGTH, DRAWN_LOCKS, DRAWN_PAGES,
    DRAWN_PROCESSORS, DRAWN_SEED, DRAWN_WORDS, EAGER, EVENTS, EXPLAIN, EXPLORE, FOLLOWS, HTML,
    JOBS, JOURNAL, JSON, LAX, LOCKSETS, MODEL, MOST, OUTCOMES, PAGE_WORDS, PAGES, PAGES_SVG,
    PATTERN, PROCESSORS, PROGRAM, RACE_IS_ERROR, RACES, SAMPLE, SCHEDULE, SCRIPT, SCRIPT_FILE,
    SEED, SEEDS, STATE, STRICT, SUPPRESS, SVG, TOP, TRACE, TRACE_FILE, TRACED, TRIES, UNFINISHED,
    UNTIL, VERSION,
};
use crate::options::{MOST_JOBS, MOST_RACES, MOST_TOP};
use clap::builder::ValueParser;
use clap::{Arg, ArgAction, Command};
use std::alloc::{AllocError, Global};

/// The most tries.
pub(crate) const MOST_TRIES: u64 = 1_000_000_000;

/// The greatest seed, and the most states.
pub(crate) const MOST_SEED: u64 = u32::MAX as u64;

/// The locks that may stand round the book, the one that is taken if none is given first.
pub(crate) static LOCKS: [&str; 2] = ["array", "ticket"];

/// The models by which a trace may be judged, the one that is taken where none is given first.
pub(crate) static MODELS: [&str; 4] = ["race-free", "happens-before", "lazy-release", "sequential"];

/// Which words without a lock may be told.
pub(crate) static LOCKSET_WORDS: [&str; 2] = ["forgotten", "all"];

/// The patterns by which a script may be drawn.
pub(crate) static PATTERNS: [&str; 9] = [
    "guarded", "free", "chains", "sharing", "barriers", "nested", "flags", "silences", "mixed",
];

/// What an outcome may tell, what it tells where nothing is given first.
pub(crate) static DETAILS: [&str; 3] = ["words", "loads", "all"];

/// The option of this name whose value is a number in this range.
fn clap_number_arg<'a>(
    alloc: Global,
    name: &'a str,
    least: u64,
    most: u64,
    help: &'a str,
) -> Arg<'a>
    ensures rule { rule_of result ≡ number_option_rule name.entry.now least most }
    ensures own { result.global ≡ false }
{
    Arg::new(alloc, name)
        .long(name)
        .value_name("N")
        .value_parser(ValueParser::unsigned(least, most))
        .help(help)
}

/// `--tries N`.
fn clap_tries_arg<'a>(alloc: Global) -> Arg<'a>
    ensures rule { rule_of result ≡ tries_option_rule }
    ensures own { result.global ≡ false }
{
    clap_number_arg(alloc, "tries", 1, MOST_TRIES, TRIES).default_value("1000000")
}

/// `--seed N`.
fn clap_seed_arg<'a>(alloc: Global) -> Arg<'a>
    ensures rule { rule_of result ≡ seed_option_rule }
    ensures own { result.global ≡ false }
{
    clap_number_arg(alloc, "seed", 0, MOST_SEED, SEED)
}

/// The option of this name whose value is a text.
fn clap_text_arg<'a>(alloc: Global, name: &'a str, value: &'a str, help: &'a str) -> Arg<'a>
    ensures rule { rule_of result ≡ option_rule name.entry.now }
    ensures own { result.global ≡ false }
{
    Arg::new(alloc, name)
        .long(name)
        .value_name(value)
        .help(help)
}

/// `--schedule S`.
fn clap_schedule_arg<'a>(alloc: Global) -> Arg<'a>
    ensures rule { rule_of result ≡ schedule_option_rule }
    ensures own { result.global ≡ false }
{
    clap_text_arg(alloc, "schedule", "S", SCHEDULE)
}

/// `--seeds N`.
fn clap_seeds_arg<'a>(alloc: Global) -> Arg<'a>
    ensures rule { rule_of result ≡ seeds_option_rule }
    ensures own { result.global ≡ false }
{
    clap_number_arg(alloc, "seeds", 1, MOST_SEED, SEEDS).default_value("1000")
}

/// `--most N`.
fn clap_most_arg<'a>(alloc: Global) -> Arg<'a>
    ensures rule { rule_of result ≡ most_option_rule }
    ensures own { result.global ≡ false }
{
    clap_number_arg(alloc, "most", 0, MOST_SEED, MOST).default_value("1000000")
}

/// `--lock KIND`.
fn clap_lock_arg<'a>(alloc: Global, locks: &'a [&'a str]) -> Arg<'a>
    ensures rule { rule_of result ≡ lock_option_rule (vp.Names locks.entry) }
    ensures own { result.global ≡ false }
{
    Arg::new(alloc, "lock")
        .long("lock")
        .value_name("KIND")
        .value_parser(locks)
        .default_value("array")
        .help("which lock stands round the book")
}

/// `--model NAME`.
fn clap_model_arg<'a>(alloc: Global, models: &'a [&'a str]) -> Arg<'a>
    ensures rule { rule_of result ≡ model_option_rule (vp.Names models.entry) }
    ensures own { result.global ≡ false }
{
    Arg::new(alloc, "model")
        .long("model")
        .value_name("NAME")
        .value_parser(models)
        .default_value("race-free")
        .help(MODEL)
}

/// `--locksets WHICH`.
fn clap_locksets_arg<'a>(alloc: Global, words: &'a [&'a str]) -> Arg<'a>
    ensures rule { rule_of result ≡ locksets_option_rule (vp.Names words.entry) }
    ensures own { result.global ≡ false }
{
    Arg::new(alloc, "locksets")
        .long("locksets")
        .value_name("WHICH")
        .value_parser(words)
        .help(LOCKSETS)
}

/// `--outcomes WHAT`.
fn clap_outcomes_arg<'a>(alloc: Global, details: &'a [&'a str]) -> Arg<'a>
    ensures rule { rule_of result ≡ outcomes_option_rule (vp.Names details.entry) }
    ensures own { result.global ≡ false }
{
    Arg::new(alloc, "outcomes")
        .long("outcomes")
        .value_name("WHAT")
        .value_parser(details)
        .default_value("words")
        .help(OUTCOMES)
}

/// The pattern of `draw`.
fn clap_pattern_arg<'a>(alloc: Global, patterns: &'a [&'a str]) -> Arg<'a>
    ensures rule { rule_of result ≡ pattern_option_rule (vp.Names patterns.entry) }
    ensures own { result.global ≡ false }
{
    Arg::new(alloc, "PATTERN")
        .value_parser(patterns)
        .default_value("mixed")
        .help(PATTERN)
}

/// The flag of this name.
fn clap_flag_arg<'a>(alloc: Global, name: &'a str, help: &'a str) -> Arg<'a>
    ensures rule { rule_of result ≡ flag_option_rule name.entry.now }
    ensures own { result.global ≡ false }
{
    Arg::new(alloc, name)
        .long(name)
        .action(ArgAction::SetTrue)
        .help(help)
}

/// The command with one more option, if it could be made.
fn with_clap_arg<'a>(
    command: Result<Command<'a>, AllocError>,
    option: Arg<'a>,
) -> Result<Command<'a>, AllocError>
    requires { option.global ≡ false }
    ensures { (a : App) → IfOk command.entry (IsCommandByOptionRules a)
        → IfOk result (IsCommandByOptionRules (with_rule a (rule_of option.entry))) }
{
    command?.arg(option)
}

/// The command with one more below it, if both could be made.
fn with_clap_subcommand<'a>(
    above: Result<Command<'a>, AllocError>,
    below: Result<Command<'a>, AllocError>,
) -> Result<Command<'a>, AllocError>
    ensures { (a b : App) → IfOk above.entry (IsCommandByOptionRules a) → IfOk below.entry (IsCommandByOptionRules b)
        → IfOk result (IsCommandByOptionRules (with_subcommand a b.top)) }
{
    above?.subcommand(below?)
}

/// A command on a file, which this text describes.
fn clap_file_command<'a>(
    alloc: Global,
    name: &'a str,
    about: &'a str,
    after: &'a str,
    file: &'a str,
) -> Result<Command<'a>, AllocError>
    ensures { IfOk result (IsCommandByOptionRules (file_option_rules name.entry.now)) }
{
    let file = Arg::new(alloc, "FILE").help(file);
    Command::new(alloc, name)
        .about(about)
        .after_help(after)
        .arg(file)
}

/// A command on a script's file, with an option of its own and `--lock`.
fn clap_script_command<'a>(
    alloc: Global,
    name: &'a str,
    about: &'a str,
    after: &'a str,
    own: Arg<'a>,
    locks: &'a [&'a str],
) -> Result<Command<'a>, AllocError>
    requires { own.global ≡ false }
    ensures { IfOk result (IsCommandByOptionRules
        (script_option_rules name.entry.now (rule_of own.entry) (vp.Names locks.entry))) }
{
    let command = clap_file_command(alloc, name, about, after, SCRIPT_FILE);
    let command = with_clap_arg(command, own);
    with_clap_arg(command, clap_lock_arg(alloc, locks))
}

/// The same with a flag.
fn clap_flagged_command<'a>(
    alloc: Global,
    name: &'a str,
    about: &'a str,
    after: &'a str,
    own: Arg<'a>,
    locks: &'a [&'a str],
    flag: &'a str,
    help: &'a str,
) -> Result<Command<'a>, AllocError>
    requires { own.global ≡ false }
    ensures { IfOk result (IsCommandByOptionRules
        (flagged_option_rules name.entry.now (rule_of own.entry) (vp.Names locks.entry) (flag_option_rule flag.entry.now))) }
{
    let command = clap_script_command(alloc, name, about, after, own, locks);
    with_clap_arg(command, clap_flag_arg(alloc, flag, help))
}

/// `lrc run`.
fn clap_run_command<'a>(alloc: Global, locks: &'a [&'a str]) -> Result<Command<'a>, AllocError>
    ensures { IfOk result (IsCommandByOptionRules (run_option_rules (vp.Names locks.entry))) }
{
    let about = "Runs each processor on a thread of its own";
    let own = clap_tries_arg(alloc);
    clap_flagged_command(alloc, "run", about, SCRIPT, own, locks, "journal", JOURNAL)
}

/// `lrc step`.
fn clap_step_command<'a>(alloc: Global, locks: &'a [&'a str]) -> Result<Command<'a>, AllocError>
    ensures { IfOk result (IsCommandByOptionRules (step_option_rules (vp.Names locks.entry))) }
{
    let about = "Runs the processors by turns on one thread: the same words give the same report";
    let own = clap_seed_arg(alloc);
    let command = clap_flagged_command(
        alloc, "step", about, SCRIPT, own, locks, "journal", JOURNAL,
    );
    with_clap_arg(command, clap_schedule_arg(alloc))
}

/// The command with the options that say how a trace is judged.
fn clap_judged_command<'a>(
    alloc: Global,
    command: Result<Command<'a>, AllocError>,
    models: &'a [&'a str],
) -> Result<Command<'a>, AllocError>
    ensures { (a : App) → IfOk command.entry (IsCommandByOptionRules a)
        → IfOk result (IsCommandByOptionRules (judged_option_rules a (vp.Names models.entry))) }
{
    let command = with_clap_arg(command, clap_model_arg(alloc, models));
    let command = with_clap_arg(command, clap_flag_arg(alloc, "strict", STRICT));
    let command = with_clap_arg(command, clap_flag_arg(alloc, "lax", LAX));
    with_clap_arg(command, clap_flag_arg(alloc, "unfinished", UNFINISHED))
}

/// `lrc explain` of a script alone.
fn clap_run_told_command<'a>(alloc: Global, locks: &'a [&'a str]) -> Result<Command<'a>, AllocError>
    ensures { IfOk result (IsCommandByOptionRules (told_option_rules (vp.Names locks.entry))) }
{
    let about = "Runs the processors as step does, and tells the run event by event";
    let own = clap_seed_arg(alloc);
    let command = clap_flagged_command(alloc, "explain", about, EXPLAIN, own, locks, "svg", SVG);
    let command = with_clap_arg(command, clap_flag_arg(alloc, "html", HTML));
    let command = with_clap_arg(command, clap_schedule_arg(alloc));
    let command = with_clap_arg(command, clap_flag_arg(alloc, "state", STATE));
    let command = with_clap_arg(command, clap_text_arg(alloc, "events", "A..B", EVENTS));
    with_clap_arg(
        command,
        clap_text_arg(alloc, "processors", "P,..", PROCESSORS),
    )
}

/// `lrc explain`.
fn clap_explain_command<'a>(
    alloc: Global,
    locks: &'a [&'a str],
    models: &'a [&'a str],
) -> Result<Command<'a>, AllocError>
    ensures { IfOk result (IsCommandByOptionRules (explain_option_rules (vp.Names locks.entry) (vp.Names models.entry))) }
{
    let command = clap_run_told_command(alloc, locks);
    let command = with_clap_arg(command, clap_flag_arg(alloc, "trace", TRACED));
    clap_judged_command(alloc, command, models)
}

/// `lrc sample`.
fn clap_sample_command<'a>(
    alloc: Global,
    locks: &'a [&'a str],
    details: &'a [&'a str],
) -> Result<Command<'a>, AllocError>
    ensures { IfOk result (IsCommandByOptionRules (sample_option_rules (vp.Names locks.entry) (vp.Names details.entry))) }
{
    let about = "Runs the script by many drawn schedules, and tells each kind of result once";
    let own = clap_seeds_arg(alloc);
    let command = clap_script_command(alloc, "sample", about, SAMPLE, own, locks);
    let command = with_clap_arg(command, clap_outcomes_arg(alloc, details));
    let command = with_clap_arg(command, clap_number_arg(alloc, "jobs", 1, MOST_JOBS, JOBS));
    with_clap_arg(command, clap_flag_arg(alloc, "json", JSON))
}

/// `lrc explore`.
fn clap_explore_command<'a>(
    alloc: Global,
    details: &'a [&'a str],
) -> Result<Command<'a>, AllocError>
    ensures { IfOk result (IsCommandByOptionRules (explore_option_rules (vp.Names details.entry))) }
{
    let about =
        "Looks at all schedules of a script: whether it can race or hang, and what it can show";
    let command = clap_file_command(alloc, "explore", about, EXPLORE, SCRIPT_FILE);
    let command = with_clap_arg(command, clap_most_arg(alloc));
    let command = with_clap_arg(command, clap_text_arg(alloc, "until", "A=V,..", UNTIL));
    let command = with_clap_arg(command, clap_outcomes_arg(alloc, details));
    with_clap_arg(command, clap_flag_arg(alloc, "json", JSON))
}

/// `lrc check`.
fn clap_check_command<'a>(
    alloc: Global,
    models: &'a [&'a str],
    words: &'a [&'a str],
) -> Result<Command<'a>, AllocError>
    ensures { IfOk result (IsCommandByOptionRules (check_option_rules (vp.Names models.entry) (vp.Names words.entry))) }
{
    let about = "Judges a trace from any system: whether such a memory could have made it";
    let command = clap_file_command(alloc, "check", about, TRACE, TRACE_FILE);
    let command = clap_judged_command(alloc, command, models);
    let command = with_clap_arg(
        command,
        clap_flag_arg(alloc, "race-is-error", RACE_IS_ERROR),
    );
    let command = with_clap_arg(command, clap_locksets_arg(alloc, words));
    let command = with_clap_arg(command, clap_flag_arg(alloc, "program", PROGRAM));
    let command = with_clap_arg(
        command,
        clap_number_arg(alloc, "most", 1, MOST_RACES, RACES),
    );
    let command = with_clap_arg(command, clap_text_arg(alloc, "suppress", "FILE", SUPPRESS));
    with_clap_arg(command, clap_flag_arg(alloc, "json", JSON))
}

/// A command without arguments.
fn clap_new_command<'a>(alloc: Global, name: &'a str, about: &'a str, after: &'a str) -> Command<'a>
    ensures { IsCommandByOptionRules (new_app name.entry.now) result }
{
    Command::new(alloc, name).about(about).after_help(after)
}

/// `lrc draw`, without its sizes.
fn clap_drawn_command<'a>(alloc: Global, patterns: &'a [&'a str]) -> Result<Command<'a>, AllocError>
    ensures { IfOk result (IsCommandByOptionRules (drawn_option_rules (vp.Names patterns.entry))) }
{
    let about = "Draws a lawful script, to be run on a memory that is to be tested";
    let command = Ok(clap_new_command(alloc, "draw", about, DRAW));
    let command = with_clap_arg(command, clap_pattern_arg(alloc, patterns));
    with_clap_arg(
        command,
        clap_number_arg(alloc, "seed", 0, MOST_SEED, DRAWN_SEED),
    )
}

/// `lrc draw`.
fn clap_draw_command<'a>(alloc: Global, patterns: &'a [&'a str]) -> Result<Command<'a>, AllocError>
    ensures { IfOk result (IsCommandByOptionRules (draw_option_rules (vp.Names patterns.entry))) }
{
    let command = clap_drawn_command(alloc, patterns);
    let command = with_clap_arg(
        command,
        clap_number_arg(alloc, "processors", 1, 16, DRAWN_PROCESSORS),
    );
    let command = with_clap_arg(command, clap_number_arg(alloc, "pages", 1, 64, DRAWN_PAGES));
    let command = with_clap_arg(command, clap_number_arg(alloc, "words", 1, 64, DRAWN_WORDS));
    let command = with_clap_arg(command, clap_number_arg(alloc, "locks", 1, 32, DRAWN_LOCKS));
    let command = with_clap_arg(command, clap_number_arg(alloc, "flags", 1, 32, DRAWN_FLAGS));
    with_clap_arg(
        command,
        clap_number_arg(alloc, "length", 1, 400, DRAWN_LENGTH),
    )
}

/// `lrc follows`.
fn clap_follows_command<'a>(alloc: Global) -> Result<Command<'a>, AllocError>
    ensures { IfOk result (IsCommandByOptionRules follows_option_rules) }
{
    let about = "Tells whether a trace follows its script";
    let command = clap_file_command(alloc, "follows", about, FOLLOWS, SCRIPT_FILE);
    with_clap_arg(command, Arg::new(alloc, "TRACE").help(TRACE_FILE))
}

/// `lrc pages`.
fn clap_pages_command<'a>(alloc: Global) -> Result<Command<'a>, AllocError>
    ensures { IfOk result (IsCommandByOptionRules pages_option_rules) }
{
    let about = "Tells what a trace would cost on this memory, on pages of any size";
    let command = clap_file_command(alloc, "pages", about, PAGES, TRACE_FILE);
    let command = with_clap_arg(
        command,
        clap_text_arg(alloc, "page-words", "W,..", PAGE_WORDS),
    );
    let command = with_clap_arg(command, clap_number_arg(alloc, "top", 1, MOST_TOP, TOP));
    let command = with_clap_arg(command, clap_flag_arg(alloc, "eager", EAGER));
    let command = with_clap_arg(command, clap_flag_arg(alloc, "svg", PAGES_SVG));
    with_clap_arg(command, clap_flag_arg(alloc, "json", JSON))
}

/// `lrc` without its commands, with this text at the end of its help.
fn clap_bare_command<'a>(alloc: Global, after: &'a str) -> Command<'a>
    ensures { IsCommandByOptionRules bare_option_rules result }
{
    Command::new(alloc, "lrc")
        .about(ABOUT)
        .after_help(after)
        .version(VERSION)
        .subcommand_required(true)
}

/// The command that the words are read by of a program that has `run` and `step` alone.
pub(crate) fn clap_scripts_command<'a>(
    alloc: Global,
    locks: &'a [&'a str],
) -> Result<Command<'a>, AllocError>
    ensures command { IfOk result (IsCommandByOptionRules (script_word_rules (vp.Names locks.entry))) }
    ensures wants { IfOk result (λ c. (out-Command c).subcommand_required ≡ true) }
{
    let lrc = Ok(clap_bare_command(alloc, AFTER_RUN_AND_STEP));
    let lrc = with_clap_subcommand(lrc, clap_run_command(alloc, locks));
    with_clap_subcommand(lrc, clap_step_command(alloc, locks))
}

/// The command that the words are read by.
pub(crate) fn clap_lrc_command<'a>(
    alloc: Global,
    locks: &'a [&'a str],
    models: &'a [&'a str],
    words: &'a [&'a str],
    details: &'a [&'a str],
    patterns: &'a [&'a str],
) -> Result<Command<'a>, AllocError>
    ensures command { IfOk result (IsCommandByOptionRules (lrc_option_rules (option_parsers (vp.Names locks.entry) (vp.Names models.entry)
        (vp.Names words.entry) (vp.Names details.entry) (vp.Names patterns.entry)))) }
    ensures wants { IfOk result (λ c. (out-Command c).subcommand_required ≡ true) }
{
    let lrc = Ok(clap_bare_command(alloc, AFTER));
    let lrc = with_clap_subcommand(lrc, clap_run_command(alloc, locks));
    let lrc = with_clap_subcommand(lrc, clap_step_command(alloc, locks));
    let lrc = with_clap_subcommand(lrc, clap_explain_command(alloc, locks, models));
    let lrc = with_clap_subcommand(lrc, clap_sample_command(alloc, locks, details));
    let lrc = with_clap_subcommand(lrc, clap_explore_command(alloc, details));
    let lrc = with_clap_subcommand(lrc, clap_check_command(alloc, models, words));
    let lrc = with_clap_subcommand(lrc, clap_draw_command(alloc, patterns));
    let lrc = with_clap_subcommand(lrc, clap_follows_command(alloc));
    with_clap_subcommand(lrc, clap_pages_command(alloc))
}
