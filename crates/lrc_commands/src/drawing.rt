//! The picture of a run or of a trace.
ghost use Rattle.std.specs.Prelude.{ℕ, ◌-◌, ◌<◌, ◌≤◌, All, IfErr, IfOk, OnOk, length};
ghost use Rattle.std.specs.Io.KnownBytes.{Keeps};
ghost use Rattle.lrc_picture.specs.Prelude.{AreArrowPlaces, HasPictureLayout};
ghost use Rattle.lrc_commands.specs.Prelude.{IsCommandExitStatusBeforeAnswer, IsCommandExitStatusOfInput};

use crate::fault::CommandFault;
use causes::{Part, hand_overs};
use journal::Journal;
use judge::History;
use lrc_check::ToldTrace;
use lrc_explain::{Sketch, ToldHistory, sketch_run, sketch_trace};
use lrc_picture::changes::changes;
use lrc_picture::picture::render;
use lrc_picture::picture_page::{PicturePageState, render_picture_page};
use lrc_picture::story::{Details, PictureStory, Subject};
use std::alloc::{AllocError, Global};
use std::io::Write;

/// Adds the place, counted from `opening` on, unless it stands before that.
fn add_drawing_place(left: &mut Vec<usize>, place: usize, opening: usize) -> Result<(), AllocError>
    ensures { OnOk result ((n : ℕ) → place < n → All (λ i. i < n - opening) left.old.items
        → All (λ i. i < n - opening) left.new.items) }
{
    if place >= opening {
        left.push(place - opening)?;
    }
    Ok(())
}

/// The places from `opening` on, counted from there.
fn drawing_places_from(
    alloc: Global,
    places: &[usize],
    opening: usize,
) -> Result<Vec<usize>, AllocError>
    ensures { IfOk result (λ v. (n : ℕ) → All (λ i. i < n) places.now
        → All (λ i. i < n - opening) v.items) }
{
    let mut left = Vec::new(alloc);
    for place in places {
        add_drawing_place(&mut left, *place, opening)?;
    }
    Ok(left)
}

/// The rows from `opening` on, with the places from there on, counted from there.
fn drawing_rows_from(
    alloc: Global,
    rows: &[Vec<usize>],
    opening: usize,
) -> Result<Vec<Vec<usize>>, AllocError>
    requires opening { opening ≤ length rows.now }
    requires places { AreArrowPlaces (length rows.now) rows.now }
    ensures { IfOk result (λ v. AreArrowPlaces (length rows.now - opening) v.items) }
{
    let mut left = Vec::new(alloc);
    for row in opening..rows.len() {
        left.push(drawing_places_from(alloc, &rows[row], opening)?)?;
    }
    Ok(left)
}

/// For each event that is left of the history the places, counted from the first of these, of the other processors' events by
/// which its processor gets its news: of a lock the last release alone.
fn drawing_arrows(alloc: Global, history: &History<'_>) -> Result<Vec<Vec<usize>>, AllocError>
    ensures { IfOk result (λ v. AreArrowPlaces (length history.now.events - history.now.opening) v.items) }
{
    let rows = hand_overs(alloc, history)?;
    drawing_rows_from(alloc, &rows, history.opening())
}

/// What the picture tells besides events and arrows.
fn drawing_details(sketch: &Sketch) -> Details<'_> {
    Details {
        notes: &sketch.notes,
        reads: &sketch.reads,
        stale: &sketch.stale,
        waits: &sketch.waits,
        holders: &sketch.holders,
    }
}

/// How a run is drawn.
#[derive(Clone, Copy)]
pub(crate) struct DrawingStyle<'a> {
    /// The name of the file, where there is one.
    pub name: Option<&'a str>,
    /// What of the run is drawn.
    pub part: Part,
    /// Whether as a page that steps through it, and not as a picture alone.
    pub is_page: bool,
}

/// A history that is drawn, and what is told of it.
#[derive(Clone, Copy)]
struct DrawnHistory<'a> {
    subject: Subject,
    history: &'a History<'a>,
    /// The places of the first race; None where there is none.
    race: Option<(usize, usize)>,
    /// Whether the run can't go on.
    halted: bool,
    /// The words of the memory before the first event.
    words: &'a [u32],
    sketch: &'a Sketch,
}

/// Draws the story of the history, as a picture or as a page that steps through it.
fn draw_story<W: Write>(
    alloc: Global,
    drawing: &DrawingStyle<'_>,
    story: &PictureStory<'_>,
    drawn: &DrawnHistory<'_>,
    out: &mut W,
) -> Result<(), CommandFault>
    requires drawn { HasPictureLayout story.now.processors story.now.events.now story.now.incoming.now }
    ensures runs { IfErr result (λ fault. IsCommandExitStatusOfInput fault → ⊥) }
    ensures early { IfErr result
        (λ fault. IsCommandExitStatusBeforeAnswer fault → Keeps (W.contents out.old) (W.contents out.new)) }
{
    if !drawing.is_page {
        render(alloc, story, &drawing.part, out)?;
        return Ok(());
    }
    let changes = changes(alloc, drawn.history)?;
    let state = PicturePageState {
        history: drawn.history,
        words: drawn.words,
        changes: &changes,
    };
    let written = render_picture_page(alloc, story, &drawing.part, &state, out);
    drop(changes);
    written?;
    Ok(())
}

/// Draws the history.
fn draw_history<W: Write>(
    alloc: Global,
    drawing: &DrawingStyle<'_>,
    drawn: &DrawnHistory<'_>,
    out: &mut W,
) -> Result<(), CommandFault>
    ensures runs { IfErr result (λ fault. IsCommandExitStatusOfInput fault → ⊥) }
    ensures early { IfErr result
        (λ fault. IsCommandExitStatusBeforeAnswer fault → Keeps (W.contents out.old) (W.contents out.new)) }
{
    let history = drawn.history;
    let arrows = drawing_arrows(alloc, history)?;
    let story = PictureStory {
        subject: drawn.subject,
        name: drawing.name,
        processors: history.sizes().processors,
        events: history.left(),
        incoming: &arrows,
        first: history.cut_events(),
        race: drawn.race,
        halted: drawn.halted,
        details: drawing_details(drawn.sketch),
    };
    draw_story(alloc, drawing, &story, drawn, out)
}

/// Draws the run of a script with this journal and its history. The only faults are running out of memory and that of the
/// output.
pub(crate) fn draw<W: Write>(
    alloc: Global,
    drawing: &DrawingStyle<'_>,
    journal: &Journal,
    history: &History<'_>,
    halted: bool,
    out: &mut W,
) -> Result<(), CommandFault>
    ensures runs { IfErr result (λ fault. IsCommandExitStatusOfInput fault → ⊥) }
    ensures early { IfErr result
        (λ fault. IsCommandExitStatusBeforeAnswer fault → Keeps (W.contents out.old) (W.contents out.new)) }
{
    let race = journal.first_race()?;
    let sketch = sketch_run(alloc, history)?;
    let drawn = DrawnHistory {
        subject: Subject::Run,
        history,
        race,
        halted,
        words: journal.base(),
        sketch: &sketch,
    };
    let written = draw_history(alloc, drawing, &drawn, out);
    drop(sketch);
    written
}

/// Of what the picture of the trace is.
fn drawing_subject(told: &ToldTrace<'_>) -> Subject {
    if told.lie.is_some() {
        Subject::LyingTrace
    } else {
        Subject::FaithfulTrace
    }
}

/// Draws what is told of a trace, and of its pages, if these are told; the history is what is told. The only faults are running
/// out of memory and that of the output.
pub(crate) fn draw_trace<W: Write>(
    alloc: Global,
    drawing: &DrawingStyle<'_>,
    told: &ToldTrace<'_>,
    history: &ToldHistory<'_>,
    pages: bool,
    out: &mut W,
) -> Result<(), CommandFault>
    ensures runs { IfErr result (λ fault. IsCommandExitStatusOfInput fault → ⊥) }
    ensures early { IfErr result
        (λ fault. IsCommandExitStatusBeforeAnswer fault → Keeps (W.contents out.old) (W.contents out.new)) }
{
    let words = vec![in alloc; 0; history.history.addresses()]?;
    let sketch = sketch_trace(alloc, history, pages)?;
    let drawn = DrawnHistory {
        subject: drawing_subject(told),
        history: history.history,
        race: told.race,
        halted: false,
        words: &words,
        sketch: &sketch,
    };
    let written = draw_history(alloc, drawing, &drawn, out);
    drop(sketch);
    written
}
