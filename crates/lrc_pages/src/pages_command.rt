//! The command that tells what a trace costs on pages, over its reader and its writers.
ghost use Rattle.std.specs.Prelude.{◌≡◌, ◌<◌, [], IfErr, IfOk, OnOk, false, length};
ghost use Rattle.std.specs.Io.KnownBytes.{Keeps};
ghost use Rattle.lrc_commands.specs.Prelude.{IsCommandExitStatusOfInput, IsTraceCommandOnNone};
ghost use Rattle.lrc_pages.specs.Prelude.{ArePagesFound, IsPageFaultInBytes, IsPageStream, IsPagesCommandDone, IsPagesFaultOfInput, IsPagesStatusOf, pages_told};
ghost use Rattle.lrc_pages.specs.declared.pages_command.PagesFault.TheVariants.{Command};

use crate::page_row::PageRow;
use crate::page_stream::{PageFault, PageStream};
use crate::page_table::write_page_rows;
use crate::page_watch::{PageWatch, wants_page_watch};
use lrc_commands::checking::check_command_reads_some;
use lrc_commands::fault::CommandFault;
use lrc_commands::refused_line::RefusedLine;
use lrc_options::options::PagesOptions;
use lrc_program::fault::ProgramFault;
use lrc_program::program::program_says_line;
use lrc_program::program_file_named;
use std::alloc::{AllocError, Global};
use std::io;
use std::io::{Read, Write};

/// How many bytes are read at once, at most.
const PIECE: usize = 1 << 16;

/// The exit status if the trace's addresses don't fit on pages of so many words.
const UNFIT: u8 = 5;

/// How many pages a picture has at most, if no number is given.
const DRAWN_PAGES: usize = 32;

/// Why the command ends without an answer.
#[derive(Clone, Copy)]
pub enum PagesFault {
    /// What keeps other commands from an answer, too.
    Command(CommandFault),
    /// The trace's addresses don't fit on pages of so many words.
    Unfit(usize),
}

impl From<CommandFault> for PagesFault {
    ghost from_gives = { λ given fault. fault ≡ Command given };

    fn from(fault: CommandFault) -> PagesFault {
        PagesFault::Command(fault)
    }
}

impl From<io::Error> for PagesFault {
    ghost from_gives = { λ _ fault. IsPagesFaultOfInput fault → ⊥ };

    fn from(error: io::Error) -> PagesFault {
        PagesFault::Command(CommandFault::from(error))
    }
}

impl From<AllocError> for PagesFault {
    ghost from_gives = { λ _ fault. IsPagesFaultOfInput fault → ⊥ };

    fn from(error: AllocError) -> PagesFault {
        PagesFault::Command(CommandFault::from(error))
    }
}

impl From<PageFault> for PagesFault {
    ghost from_gives = { λ given fault. IsPagesFaultOfInput fault → IsPageFaultInBytes given };

    fn from(fault: PageFault) -> PagesFault {
        match fault {
            PageFault::Trace(line, fault) => PagesFault::Command(CommandFault::Trace(line, fault)),
            PageFault::Unfit(words) => PagesFault::Unfit(words),
            PageFault::Full => PagesFault::Command(CommandFault::Long),
            PageFault::NoMemory => {
                PagesFault::Command(CommandFault::Program(ProgramFault::NoMemory))
            }
        }
    }
}

impl PagesFault {
    /// Says on `err` in one write why there is no answer of the trace of this file, of which this line was refused if the fault is of
    /// one, and answers the exit status.
    fn say<E: Write>(
        self,
        alloc: Global,
        file: Option<&str>,
        refused: &RefusedLine,
        err: &mut E,
    ) -> u8
        ensures { IsPagesStatusOf self result }
    {
        match self {
            PagesFault::Command(fault) => fault.say_of_trace(alloc, file, refused, err),
            PagesFault::Unfit(words) => {
                let line = format!(in alloc;
                    "lrc: pages of {words} words don't fit\n  the last one would end past address 1048575, the last that a trace may have\n"
                );
                program_says_line(line, UNFIT, err)
            }
        }
    }
}

/// Reads a trace, a piece at a time, and tells it as it is read: what it costs on pages of each size.
fn pages_command_streams<S: Read>(
    alloc: Global,
    source: &mut S,
    piece: &mut [u8],
    stream: &mut PageStream,
) -> Result<Vec<PageRow>, PagesFault>
    requires piece { 0 < length piece.old }
    requires stream { IsPageStream [] stream.old }
    ensures found { IfOk result (λ rows. ArePagesFound stream.old.most stream.old.words.items (S.remaining source.old) rows.items) }
    ensures refused { IfErr result (λ fault. IsPagesFaultOfInput fault → IsTraceCommandOnNone false (S.remaining source.old)) }
{
    for _ in 0..u64::MAX {
        let count = check_command_reads_some(source, piece)?;
        if count == 0 {
            return Ok(stream.finish(alloc)?);
        }
        stream.feed(alloc, &piece[..count])?;
    }
    Err(PagesFault::Command(CommandFault::Long))
}

/// The same, and keeps the line that is refused.
fn pages_command_reads<S: Read>(
    alloc: Global,
    source: &mut S,
    stream: &mut PageStream,
    refused: &mut RefusedLine,
) -> Result<Vec<PageRow>, PagesFault>
    requires { IsPageStream [] stream.old }
    ensures found { IfOk result (λ rows. ArePagesFound stream.old.most stream.old.words.items (S.remaining source.old) rows.items) }
    ensures refused { IfErr result (λ fault. IsPagesFaultOfInput fault → IsTraceCommandOnNone false (S.remaining source.old)) }
{
    let mut piece = vec![in alloc; 0; PIECE]?;
    let rows = pages_command_streams(alloc, source, &mut piece, stream);
    if rows.is_err() {
        let (line, passed) = stream.refused_line();
        refused.keep(line, passed, stream.sizes());
    }
    rows
}

/// How many pages are told of each size, at most.
fn most_pages_told(options: &PagesOptions) -> usize
    ensures { result ≡ pages_told options.now.top options.now.svg }
{
    match options.top {
        Some(top) => top as usize,
        None if options.svg => DRAWN_PAGES,
        None => 0,
    }
}

/// What finds what else is asked for, if anything is. The only error is running out of memory.
fn watch_asked_for(alloc: Global, options: &PagesOptions) -> Result<Option<PageWatch>, AllocError> {
    if !wants_page_watch(options) {
        return Ok(None);
    }
    let watch = PageWatch::new(alloc, options)?;
    Ok(Some(watch))
}

/// Reads a trace, and writes what it costs on pages of each size that the options give.
fn pages_command_on_source<S: Read, W: Write>(
    alloc: Global,
    options: &PagesOptions,
    source: &mut S,
    refused: &mut RefusedLine,
    out: &mut W,
) -> Result<(), PagesFault>
    ensures done { OnOk result (IsPagesCommandDone (pages_told options.now.top options.now.svg) options.now.page_words.items (S.remaining source.old) (W.contents out.old) (W.contents out.new)) }
    ensures refused { IfErr result (λ fault. IsPagesFaultOfInput fault → IsTraceCommandOnNone false (S.remaining source.old)) }
{
    let words = options.page_words.clone()?;
    let watch = watch_asked_for(alloc, options)?;
    let mut stream = PageStream::new(alloc, words, most_pages_told(options), watch);
    let rows = pages_command_reads(alloc, source, &mut stream, refused);
    drop(stream);
    write_page_rows(alloc, options, &rows?, out)?;
    Ok(())
}

/// Tells what the trace of `source` costs on pages of each size that the options give: on `out` a row for each, or on `err` why
/// not; answers the exit status. The file that the options name isn't opened here.
pub fn run_pages_command<S: Read, W: Write, E: Write>(
    alloc: Global,
    options: &PagesOptions,
    source: &mut S,
    out: &mut W,
    err: &mut E,
) -> u8
    // The source had a trace, and what it costs was found.
    ensures done { result ≡ 0
        → IsPagesCommandDone (pages_told options.now.top options.now.svg) options.now.page_words.items (S.remaining source.old) (W.contents out.old) (W.contents out.new) }
    // What is refused as a trace is none.
    ensures refused { result ≡ 2 → IsTraceCommandOnNone false (S.remaining source.old) }
    // If it was told, no line goes to the error output.
    ensures quiet { result ≡ 0 → Keeps (E.contents err.old) (E.contents err.new) }
{
    let mut refused = RefusedLine::new(alloc);
    match pages_command_on_source(alloc, options, source, &mut refused, out) {
        Ok(()) => 0,
        Err(fault) => fault.say(alloc, program_file_named(&options.file), &refused, err),
    }
}
