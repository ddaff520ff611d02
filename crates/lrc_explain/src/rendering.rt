//! Writes what is told of a run.
ghost use Rattle.std.specs.Prelude.{◌≡◌, ◌++◌, IfErr, IfOk, OnOk, false};
ghost use Rattle.std.specs.Io.KnownBytes.{Appends};
ghost use Rattle.lrc_explain.specs.declared.fault.ExplainFault.TheVariants.{Output};
ghost use Rattle.lrc_explain.specs.Prelude.{IsExplainText, IsExplainTextBefore, ExplainTextWritten, ExplainTextUnwritten, ExplainTextOfTraceWritten, explain_text_end};

use crate::chronicle::{put_chronicle, put_chronicle_of_trace};
use crate::extent::Extent;
use crate::fault::ExplainFault;
use crate::halting::put_halted_waits;
use crate::told_history::ToldHistory;
use conformance::Ended;
use judge::History;
use lrc_prose::text::ProseText;
use lrc_report::render::render_report_bytes;
use std::alloc::{AllocError, Global};
use std::io::Write;

/// Puts a run with this history, as much of it, without its report. The only error is running out of memory.
fn render_explained_run(
    text: &mut ProseText,
    alloc: Global,
    history: &History<'_>,
    extent: &Extent,
    ended: &Ended,
) -> Result<(), AllocError> {
    put_chronicle(text, alloc, extent, history)?;
    if let Ended::Halted(_) = ended {
        put_halted_waits(text, alloc, history)?;
    }
    Ok(())
}

/// Adds the report's lines, where the run has one. The only error is running out of memory.
fn render_explained_end(text: &mut Vec<u8>, ended: &Ended) -> Result<(), ExplainFault>
    ensures { OnOk result (text.new.items ≡ text.old.items ++ explain_text_end ended.now) }
{
    let Ended::Whole(report) = ended else {
        return Ok(());
    };
    match render_report_bytes(text, report) {
        Ok(()) => Ok(()),
        Err(_) => Err(ExplainFault::NoMemory),
    }
}

/// The whole text of the run with this history.
fn render_explained_text(
    alloc: Global,
    history: &History<'_>,
    extent: &Extent,
    ended: &Ended,
) -> Result<Vec<u8>, ExplainFault>
    ensures { IfOk result (λ v. IsExplainText ended.now v.items) }
{
    let mut text = ProseText::new(alloc);
    render_explained_run(&mut text, alloc, history, extent, ended)?;
    let mut bytes = text.finish()?;
    render_explained_end(&mut bytes, ended)?;
    Ok(bytes)
}

/// The whole text of the trace: its story, and then what was found of it.
fn render_explained_trace_text(
    alloc: Global,
    history: &ToldHistory<'_>,
    extent: &Extent,
    verdict: &[u8],
) -> Result<Vec<u8>, ExplainFault>
    ensures { IfOk result (λ v. IsExplainTextBefore verdict.now v.items) }
{
    let mut text = ProseText::new(alloc);
    put_chronicle_of_trace(&mut text, alloc, extent, history)?;
    let mut bytes = text.finish()?;
    bytes.extend_from_slice(verdict)?;
    Ok(bytes)
}

/// Writes the text and flushes the writer.
fn write_explained_rendering<W: Write>(text: &[u8], out: &mut W) -> Result<(), ExplainFault>
    ensures written { OnOk result (Appends (W.contents out.old) (W.contents out.new) text.now) }
    ensures fault { IfErr result (λ e. e ≡ Output) }
{
    match out.write_all(text) {
        Ok(()) => match out.flush() {
            Ok(()) => Ok(()),
            Err(_) => Err(ExplainFault::Output),
        },
        Err(_) => Err(ExplainFault::Output),
    }
}

/// Tells a run that ended so and has this history, in one write where the writer takes all of it, and flushes the writer.
///
/// First comes `cut N` where N events were cut off, then a line of lanes' titles, and a line for each event that is left:
/// its number, what it did in its processor's lane, and to the right why. Then come the sentences on the first race, where
/// there is one. At the end stand the report's lines without its journal; of a run that can't go on, for what each
/// processor waits, with those that wait for each other in a circle in one line.
///
/// Where the extent has pages, there stands besides, of each event that takes, which pages go stale by it, by how many records
/// of whom; and of each fetch, whose records it brings. Of the pages at most three are told. What was cut off isn't told: a page
/// may lack records from before the cut besides. Else no pages are told, and no states.
///
/// Of the events those alone are told that the extent's part has, in lanes of its processors; their numbers are their places.
/// Where the extent has the state, a line below each tells the protocol's state at it (`causes::states`): the timestamp, the
/// interval that the event lies in or closes, with its records, the write notices that it brings, and which copies are stale or
/// dirty. Interval N of processor W is `pW:N`. After a cut, intervals are counted from the last arrivals before it on.
///
/// A lane is as wide as its longest label, but at most 16. Where there are more than eight processors, labels are short
/// and a lane is at most 10 wide, so that sixteen lanes and numbers of eight digits take 200 columns. A longer label runs
/// on. What stands to the right of the lanes doesn't count.
///
/// It takes time and memory as `causes::sources_of_loads` and `causes::Ways` do, with pages time as `causes::dues` does
/// besides, with the state as `causes::event_states`, and memory for the whole text.
///
/// # Errors
///
/// Output where a write or the flush fails. NoMemory, after which nothing was written.
pub fn render<W: Write>(
    alloc: Global,
    history: &History<'_>,
    extent: &Extent,
    ended: &Ended,
    out: &mut W,
) -> Result<(), ExplainFault>
    ensures written { OnOk result (ExplainTextWritten (W.contents out.old) (W.contents out.new) ended.now) }
    ensures unwritten { IfErr result (ExplainTextUnwritten (W.contents out.old) (W.contents out.new)) }
{
    let text = render_explained_text(alloc, history, extent, ended)?;
    write_explained_rendering(&text, out)
}

/// Tells a trace, in one write where the writer takes all of it, and flushes the writer: its events as `render` tells those of a
/// run, and then what was found of it, the text `verdict`.
///
/// Of its last event there stands, where that is a lie, why it is one. A load may answer no latest store of its past: then it is
/// told which store before it has its word. Pages and states are told as by `render`: the history of a memory that keeps no such
/// pages is told without.
///
/// # Errors
///
/// As those of `render`.
pub fn render_explained_trace<W: Write>(
    alloc: Global,
    history: &ToldHistory<'_>,
    extent: &Extent,
    verdict: &[u8],
    out: &mut W,
) -> Result<(), ExplainFault>
    ensures written { OnOk result (ExplainTextOfTraceWritten (W.contents out.old) (W.contents out.new) verdict.now) }
    ensures unwritten { IfErr result (ExplainTextUnwritten (W.contents out.old) (W.contents out.new)) }
{
    let text = render_explained_trace_text(alloc, history, extent, verdict)?;
    write_explained_rendering(&text, out)
}
