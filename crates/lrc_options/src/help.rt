//! The texts of help.

/// The program's version, which `--version` prints. It is stated here alone.
pub(crate) const VERSION: &str = "0.1.0";

/// What the program is.
pub(crate) const ABOUT: &str =
    "Runs a script on a page-based shared memory of several processors, under lazy release consistency.
Prints the last words, whether two accesses race, and what the protocol sent.";

/// An example, and the exit statuses.
pub(crate) const AFTER: &str = "Example:
  printf 'cluster 2 1 1 1\\np 0\\nacquire 0\\nadd 0 1\\nrelease 0\\n\
p 1\\nacquire 0\\nadd 0 1\\nrelease 0\\nshow 0\\n' | lrc step --journal

Statuses: 0 done; 2 the script or the trace is refused; 3 no progress; 4 a limit, out of memory, a
thread that couldn't be started, or a failed write; 5 usage, or the file can't be read; 6 the trace
isn't faithful, or doesn't follow its script; 7 a search was given up; 8 the trace races, with
--race-is-error; 9 it hangs, with --program.";

/// The same of a program that has `run` and `step` alone.
pub(crate) const AFTER_RUN_AND_STEP: &str = "Example:
  printf 'cluster 2 1 1 1\\np 0\\nacquire 0\\nadd 0 1\\nrelease 0\\n\
p 1\\nacquire 0\\nadd 0 1\\nrelease 0\\nshow 0\\n' | lrc step --journal

Statuses: 0 done; 2 the script is refused; 3 no progress; 4 a limit, out of memory, a thread that
couldn't be started, or a failed write; 5 usage, or the file can't be read.

This program has run and step alone. ./lrc prove builds the one that has explain, sample, explore and
check, too.";

/// What a script says, and what is printed of it.
pub(crate) const SCRIPT: &str = "A script, a line each:
  cluster P N W L [G]    P processors, N pages of W words, L locks, G flags; all are numbered from 0
  p K                    what processor K does follows; there is one for each processor, in order
  load A                 reads the word at address A, which is word A % W of page A / W
  store A V              writes V there
  add A V                reads the word there, and writes it with V added, modulo 2^32
  acquire L, release L   waits for lock L and takes it; gives it back
  barrier                waits until all processors have come to it
  set F, await F         sets flag F; waits until it is set
  cut                    may cut off the journal's events up to the last barrier that all have come to
  show A ..              the last line: the addresses whose words are printed

What is printed:
  word A V               address A has V in the end
  verdict race-free      or `racy`: two processors accessed a word, one by a store, and nothing orders the two
  traffic M R W          M messages were sent; fetches brought R records with W words in all
  cut K                  with --journal, where K events were cut off
  event I B ..           with --journal: event I of the journal, by processor B, which
    load A V               read V at address A
    store A V              wrote V at address A
    fetch P S R W          brought page P up to date: W words in R records of S processors
    ask L, acquire L       asked for lock L; was given it
    release L              gave lock L back
    arrive, depart         came to a barrier; went on from it
    set F                  set flag F
    watch F, await F       began to wait for flag F; found it set";

/// What is printed of a run or a trace that is told.
pub(crate) const EXPLAIN: &str =
    "The script is as `lrc run --help` tells it, and a trace as `lrc check --help` does. What is printed:
  a line for each event    its number, what it did, in its processor's column, and why: which store a load
                           returns, what a fetch brought, for whom a processor waits
  timestamp T ..           with --state, below each event: its processor's vector timestamp; the interval that
                           it lies in or closes (pW:N is interval N of processor W), and its records; the
                           write notices that it brings; which copies of pages are stale or dirty
  a race                   the first one: its two events, and what the second had heard of the first
  word, verdict, traffic   as `lrc step` prints them; where no processor gets on, what each waits for
  events, faithful, ..     of a trace, in their place: what `lrc check` prints. A lie is told in its event's line, too

Pages go stale under this memory's rules alone, so of a trace they are told with --model lazy-release, and --state
and --html want that.

Statuses: 0 done; 2 the script or the trace is refused; 3 no progress: the run is told so far; 4 a limit, running
out of memory, or a failed write; 5 usage, or the file can't be read; 6 the trace isn't faithful.";

/// What is printed of a script's runs by many schedules.
pub(crate) const SAMPLE: &str =
    "The script is as `lrc run --help` tells it. What is printed, the most frequent result first:
  runs R                   there were R runs, whose processors went at different speeds
  verdicts race-free A racy B stuck C
                           A of them ended without a race, B ended with one, C got stuck
  result K RESULT schedule S
                           K of them came to this; `lrc step --schedule S` shows it. RESULT is one of
    race-free words A V .. replies pP V ..
                           address A has V in the end; with --outcomes loads, the instructions `load` of processor
                           P returned V .., in order; with --outcomes all, what its `add` loaded is among them;
                           both as far as the journal has them
    racy words ..          the same of a run with a race
    stuck P                no processor got on, and P is the least that waits

Statuses: 0 done, whatever the results; 2 the script is refused; 4 a limit, running out of memory, or a
failed write; 5 usage, or the file can't be read.";

/// What is printed of all schedules of a script.
pub(crate) const EXPLORE: &str =
    "The script is as `lrc run --help` tells it. All orders of its events on one flat memory are looked at; where
none of them races, each run of the script is one of them. What is printed:
  verdict race-free under every schedule
                           or `verdict undecided`: the search was given up, and none that it met races
    outcomes N             whole runs have N results, a line each; with `so far`, there may be others
      words A V .. replies pP V .. schedule S
                             address A has V in the end; with --outcomes loads, the instructions `load` of processor
                             P returned V .., in order; with --outcomes all, what its `add` loaded is among them;
                             `lrc step --schedule S` shows it
    hangs never            or `hangs`, then the events of a schedule that can't go on, who waits for what, and
                           `schedule S`, by which `lrc step` comes there;
                           or `hangs undecided`: the search was given up, and none that it met hangs
  verdict racy             then the events of a schedule that races, its two accesses after `race`, `schedule S`,
                           by which `lrc step` makes them, and a schedule that can't go on, if one was met
  states N                 N states were found
If the script is racy, then what the memory's rules allow: each load returns a latest store of its past.
  outcomes N by the rules  N results, a line each, as above; with `so far`, there may be others
    words .. schedule S    `lrc step --schedule S` shows it; or `schedule undecided`: the search for one was given up
    words .. by the rules alone
                           no schedule shows it; then each load of a run by the rules, with the store it returns
  beginnings N             N beginnings of runs were looked at for that
With --until, in place of the verdict race-free and what stands below it:
  until shown              a run ends with these words; then what it shows, as above, and
    schedule S             `lrc step --schedule S` shows it
  until never              no run ends with them, and none races
  until undecided          the search was given up, and no run that it met ends with them
and if the script is racy, in place of the results by the rules:
  until shown              a run of this memory ends with these words, as above
  until by the rules alone they allow one, and no schedule shows any; then what it shows, its events and answers
  until by the rules       they allow one; then what it shows, and its events: the search for a schedule was given up
  until never by the rules
                           they allow none; or `until undecided by the rules`: that search was given up

Statuses: 0 done, whatever the verdict; 2 the script is refused; 4 running out of memory, or a failed
write; 5 usage, or the file can't be read; 7 the search was given up.";

/// What a trace is, and what is printed of it.
pub(crate) const TRACE: &str =
    "A trace is a script's line `cluster P N W L [G]`, and the lines `event I B ..` that --journal prints,
numbered from 0: each event in order. What stands after two spaces on a line is its label; a line that is
empty or begins with # is passed over. An `acquire` or `await` without its `ask` or `watch` stands for both.

What a load has to return under each model; the other events are judged alike:
  race-free               up to the first race the latest store of its past; from there on it isn't judged
  happens-before          a latest store of its past, or a store before it in the trace that its past lacks
  lazy-release            a latest store of its past, as this memory does; and fetches count what they bring
  sequential              the last store before it in the trace

What is printed:
  events N                N events were judged: all, or those up to the lie and with it
  model NAME              but for lazy-release
  faithful                such a memory can make each of them, but for what isn't judged:
    unjudged counts order   under lazy-release with --lax: the counts of fetches, and the order of a lock's asks
    unjudged N loads        under race-free: N loads from the first race on
    verdict race-free       or `racy`, and then the two events of the first race, and what would have ordered them
    unprotected A: ..       with --locksets: two accesses of word A that hold no lock in common, and two that
                            do; flags, the barrier and their processors' own order keep none of these apart
    race of word A          with --program: the two events of word A's first race; and of how many more words the
                            first race has the same two labels; then `racing words N`, how many words race
    handed over A: ..       with --locksets all: two such accesses that hold none in common, where no two do
    traffic M R W           M messages; R records with W words in all, as its fetches tell
  unfaithful I            no such memory makes event I after those before it, which are faithful; after the
                          race, if it has one by then:
    event I B ..            the event
    because ..              why; where a load may return stores of others, their events follow
  waits ..                at the end of a trace: who waits for what, and in a circle for each other
  unfinished line N       with --unfinished: the trace ends in the midst of line N

Statuses: 0 faithful, racy or not; 2 no trace; 4 a limit, out of memory, or a failed write; 5 usage, or
the file can't be read; 6 unfaithful; 8 a race, with --race-is-error alone; 9 a hang, with --program.";

/// What the options are for.
pub(crate) const TRIES: &str = "a thread gives up after N consecutive answers that it must wait";

pub(crate) const SEED: &str =
    "draws the order of each round, in place of 0, 1, ..; up to 4294967295";

pub(crate) const SCHEDULE: &str =
    "gives the processors that have their turns first, as 0:3,1: processor 0 three times, then processor 1";

pub(crate) const SEEDS: &str =
    "runs it in rounds, and by the turns that the seeds 0 to N - 1 draw; N is up to 4294967295";

pub(crate) const JOBS: &str =
    "makes up to N runs beside each other, on threads; the answer is the same, and N is up to 64";

pub(crate) const MOST: &str =
    "gives up after N states, or N beginnings of histories if the script races; N is up to 4294967295";

pub(crate) const UNTIL: &str =
    "looks for a run that ends with word V at address A, and so on; the script has to show them";

pub(crate) const OUTCOMES: &str =
    "what a result tells: the words alone, what each `load` returned, too, or what each `add` loaded, too";

/// What the flags do.
pub(crate) const JOURNAL: &str = "prints a line for each event too";

pub(crate) const SVG: &str = "draws the run in place of its text: prints an SVG file";

pub(crate) const HTML: &str =
    "prints a page that steps through the picture and the memory's state, as an HTML file";

pub(crate) const STATE: &str = "tells the protocol's state at each event, too";

pub(crate) const EVENTS: &str =
    "tells the events from A to B alone; A.. for those from A on, ..B for those up to B";

pub(crate) const PROCESSORS: &str =
    "tells the events of these processors alone, given by their numbers";

pub(crate) const TRACED: &str =
    "FILE is no script, but a trace from any system: tells it up to its first lie, as `lrc check` judges it";

pub(crate) const STRICT: &str =
    "judges what only this memory asks, too: asks and watches are written, and a lock goes to the first ask";

pub(crate) const LAX: &str =
    "leaves that out, and counts of fetches, as all models but lazy-release do";

pub(crate) const UNFINISHED: &str =
    "the trace may end in the midst of a line: what stands before that is judged";

pub(crate) const MODEL: &str = "what the loads of the trace owe";

pub(crate) const RACE_IS_ERROR: &str = "ends with the first race, and with status 8";

pub(crate) const LOCKSETS: &str =
    "tells the words whose lock was forgotten somewhere, or those that never have one, too; of a trace without a race";

pub(crate) const PROGRAM: &str =
    "the trace is a program's: tells every word that races, once; those between the same two labels together";

pub(crate) const RACES: &str =
    "with --program: tells N races at most, 100 if it isn't given; N is up to 1000";

pub(crate) const SUPPRESS: &str =
    "with --program: leaves out the races that have a line of FILE in one of their labels";

pub(crate) const JSON: &str = "prints JSON in place of text: an object a line";

/// The file that a command reads.
pub(crate) const SCRIPT_FILE: &str = "the script; standard input where it isn't given";

pub(crate) const TRACE_FILE: &str = "the trace; standard input where it isn't given";

/// What a drawn script is made of.
pub(crate) const PATTERN: &str = "what the script is made of";

/// What `--seed` of `draw` does.
pub(crate) const DRAWN_SEED: &str = "draws another script, in place of that of 0; up to 4294967295";

/// Sizes of a drawn script.
pub(crate) const DRAWN_PROCESSORS: &str =
    "how many processors it has, 1 to 16, in place of a drawn number";

pub(crate) const DRAWN_PAGES: &str = "how many pages, 1 to 64";

pub(crate) const DRAWN_WORDS: &str = "how many words a page has, 1 to 64";

pub(crate) const DRAWN_LOCKS: &str = "how many locks, 1 to 32";

pub(crate) const DRAWN_FLAGS: &str = "how many flags, 1 to 32, if the pattern has flags";

pub(crate) const DRAWN_LENGTH: &str =
    "how many pieces each phase of a section has, an access or a critical section each; 1 to 400";

/// What is printed of a drawn script.
pub(crate) const DRAW: &str = "Patterns, of which no script hangs:
  guarded                additions, each under the lock of its address; never races
  free                   loads, stores and additions, some under a lock; may race
  chains                 words that a chain of flags hands on; never races
  sharing                words of one processor beside words under locks, on the same pages; never races
  barriers               phases, in each of which a word has another owner; never races
  nested                 locks within locks, in rising order; never races
  flags                  flags that several processors set, and loads after them; may race
  silences               a processor that hears of nothing until the end; never races
  mixed                  most of these side by side; may race

What is printed is a script, as `lrc run --help` tells it. The same words give the same script everywhere.

Statuses: 0 done; 4 out of memory, or a failed write; 5 usage, or no such script was drawn.";

/// What is printed of a trace and its script.
pub(crate) const FOLLOWS: &str =
    "The script is as `lrc run --help` tells it, and a trace as `lrc check --help` does; both can't be standard input.
What is printed:
  follows                each processor's events, fetches aside, are what its section says, then a last barrier,
                         and of processor 0 the loads of the shown words; an `acquire` or `await` without its
                         `ask` or `watch` stands for both
  strays I               what stands before event I does so, and with event I it doesn't
    event I B ..           the event
    pB is at line N: ..    what its processor does next: the script's line N, the closing barrier, a shown
                           address, or nothing, at its end
  unfinished P           all events do so, and processor P is the least that hasn't come to its end
    pP is at line N: ..    what it does next, as above
  other sizes            the first line of the trace isn't the script's

Statuses: 0 it follows; 2 the script or the trace is refused; 4 out of memory, or a failed write; 5 usage, or
a file can't be read; 6 it doesn't follow.";

/// What `--page-words` of `pages` gives.
pub(crate) const PAGE_WORDS: &str =
    "how many words a page has, up to 1048576, for each of at most 8 sizes; 128,256,1024,4096 where it isn't given";

/// What `--top` of `pages` gives.
pub(crate) const TOP: &str =
    "also tells of each size the N pages that are fetched most, and the N labels whose accesses wait for most messages, up to 1000";

/// What `--eager` of `pages` gives.
pub(crate) const EAGER: &str = "also tells of each size what eager release consistency would cost";

/// What `--svg` of `pages` gives.
pub(crate) const PAGES_SVG: &str =
    "prints a picture, as an SVG file: messages and words by page size, and which processors access the pages that are fetched most";

/// What is printed of a trace on pages.
pub(crate) const PAGES: &str =
    "A trace is as `lrc check --help` tells it. Its own fetches are left out. On pages of each size a fetch stands right before
each access of a page whose copy lacks records, and counts what it lacks. A line for each size:
  page words W           a page has W words
  messages M             M messages were sent, two for each other processor that a fetch asks
  locks, flags, barrier, fetch
                         how many of them hand locks over, tell of flags, go to the barrier and back, and bring records
  fetches F              there are F fetches
  records R, words W     they bring R records with W words in all
  pages P                P pages are accessed
With --top after each of them the pages that are fetched most, and the labels whose accesses wait for most:
  page P                 page P has F fetches that bring W words; U of them are useless: their processors access none of
                         these words before they fetch the page again
  writers, readers       the processors that store in it, and those that load from it
  messages M, label L    the accesses with label L wait for M messages of fetches
With --eager a line of what eager release consistency costs: a release tells each processor that has a copy of a page stored in,
by notices, and a fetch brings a whole page.

Statuses: 0 done; 2 no trace; 4 a limit, out of memory, or a failed write; 5 usage, the file can't be read, or pages of so
many words don't fit.";
