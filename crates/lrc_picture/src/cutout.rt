//! What of a run is drawn: the events of a part, on the lanes of its processors.
ghost use Rattle.std.specs.Prelude.{ℕ, ◌≡◌, ◌+◌, ◌<◌, ◌≤◌, ◌↔◌, All, IfOk, IfSome, List, OnOk, Some, length, slice_get, vec_len};
ghost use Rattle.base.specs.InOrderOnce.{Has};
ghost use Rattle.causes.specs.declared.part.Part.{Part};
ghost use Rattle.causes.specs.Prelude.{IsInPart};
ghost use Rattle.journal.specs.declared.event.Event.{Event};
ghost use Rattle.journal.specs.Events.{EventAt};
ghost use Rattle.judge.specs.Prelude.{most_judged_processors};
ghost use Rattle.lrc_picture.specs.Prelude.{AreCutoutEvents, AreCutoutLanes, AreCutoutRowsOf, AreArrowPlaces, AreCutoutPlaces, HasPictureLayout, IsCutout, IsPictureLayoutOf};

use crate::picture_layout::{DiagramLayout, picture_layout_of};
use crate::story::PictureStory;
use causes::Part;
use journal::{Event, Kind};
use std::alloc::{AllocError, Global};

/// What of a run is drawn. Rows and lanes are counted from 0.
#[derive(Drop)]
pub struct Cutout {
    /// Of each lane its processor.
    pub lanes: Vec<usize>,
    /// Of each row the place of its event in the run.
    pub places: Vec<usize>,
    /// Of each row its event, with its lane in the place of its processor.
    pub events: Vec<Event>,
    /// Of each place of the run its row, where its event is drawn.
    pub rows: Vec<Option<usize>>,
    /// Of each row the rows of the events that let it through, where they are drawn.
    pub incoming: Vec<Vec<usize>>,
    /// The rows below which all have arrived at the barrier.
    pub episodes: Vec<usize>,
    /// Whether the end of the run is drawn.
    pub has_end: bool,
}

/// The part, with places counted from this one.
pub fn cutout_part_from(part: &Part, first: usize) -> Part
    ensures { (k p : ℕ) → IsInPart result k p ↔ IsInPart part.now (first + k) p }
{
    Part {
        first: part.first.saturating_sub(first),
        end: match part.end {
            Some(end) => Some(end.saturating_sub(first)),
            None => None,
        },
        processors: part.processors,
    }
}

/// The part's processors among so many. The only error is running out of memory.
fn cutout_lanes_of(alloc: Global, part: &Part, processors: usize) -> Result<Vec<usize>, AllocError>
    requires { processors ≤ most_judged_processors }
    ensures lanes { IfOk result (λ v. AreCutoutLanes part.now processors v.items) }
    ensures few { IfOk result (λ v. vec_len v ≤ processors) }
{
    let mut lanes = Vec::new(alloc);
    for processor in 0..processors {
        if part.processors[processor] {
            lanes.push(processor)?;
        }
    }
    Ok(lanes)
}

/// The places of the part's events. The only error is running out of memory.
fn cutout_places_of(alloc: Global, part: &Part, events: &[Event]) -> Result<Vec<usize>, AllocError>
    ensures places { IfOk result (λ v. AreCutoutPlaces part.now events.now v.items) }
    ensures few { IfOk result (λ v. vec_len v ≤ length events.now) }
{
    let mut places = Vec::new(alloc);
    for place in 0..events.len() {
        if part.has(place, events[place].processor) {
            places.push(place)?;
        }
    }
    Ok(places)
}

/// The lane of the processor.
fn cutout_lane_of(lanes: &[usize], processor: usize) -> usize
    requires { Has lanes.now processor }
    ensures { slice_get lanes.now result ≡ Some processor }
{
    for lane in 0..lanes.len() {
        if lanes[lane] == processor {
            return lane;
        }
    }
    0
}

/// The events at these places, each with its lane. The only error is running out of memory.
fn cutout_events_of(
    alloc: Global,
    lanes: &[usize],
    events: &[Event],
    places: &[usize],
) -> Result<Vec<Event>, AllocError>
    requires places { All (λ k. k < length events.now) places.now }
    requires lanes { (k : ℕ) (e : Event) → Has places.now k → EventAt events.now k e → Has lanes.now e.processor }
    ensures { IfOk result (λ v. AreCutoutEvents lanes.now events.now places.now v.items) }
{
    let mut drawn = Vec::with_capacity(alloc, places.len())?;
    for row in 0..places.len() {
        let event = events[places[row]];
        drawn.push(Event {
            processor: cutout_lane_of(lanes, event.processor),
            kind: event.kind,
        })?;
    }
    Ok(drawn)
}

/// Of each of so many places its row among these. The only error is running out of memory.
fn cutout_rows_of(
    alloc: Global,
    count: usize,
    places: &[usize],
) -> Result<Vec<Option<usize>>, AllocError>
    requires { All (λ k. k < count) places.now }
    ensures { IfOk result (λ v. AreCutoutRowsOf count places.now v.items) }
{
    let mut rows = vec![in alloc; None; count]?;
    for row in 0..places.len() {
        rows[places[row]] = Some(row);
    }
    Ok(rows)
}

/// The rows of those of these places that are drawn, of so many rows. The only error is running out of memory.
fn cutout_rows_among(
    alloc: Global,
    rows: &[Option<usize>],
    places: &[usize],
    count: usize,
) -> Result<Vec<usize>, AllocError>
    ensures { IfOk result (λ v. All (λ r. r < count) v.items) }
{
    let mut among = Vec::new(alloc);
    for place in places {
        if let Some(Some(row)) = rows.get(*place)
            && *row < count
        {
            among.push(*row)?;
        }
    }
    Ok(among)
}

/// Of each row the rows of the events that let it through. The only error is running out of memory.
fn cutout_incoming_of(
    alloc: Global,
    rows: &[Option<usize>],
    places: &[usize],
    incoming: &[Vec<usize>],
) -> Result<Vec<Vec<usize>>, AllocError>
    requires { All (λ k. k < length incoming.now) places.now }
    ensures { IfOk result (λ v. AreArrowPlaces (length places.now) v.items) }
{
    let mut drawn = Vec::with_capacity(alloc, places.len())?;
    for row in 0..places.len() {
        drawn.push(cutout_rows_among(alloc, rows, &incoming[places[row]], places.len())?)?;
    }
    Ok(drawn)
}

/// Whether it is an arrival.
fn arrives_in_cutout(kind: Kind) -> bool {
    match kind {
        Kind::Arrive => true,
        _ => false,
    }
}

/// Whether the part has this place, whosever event stands there.
fn cutout_has_place(part: &Part, place: usize) -> bool {
    part.first <= place
        && match part.end {
            Some(end) => place < end,
            None => true,
        }
}

/// Adds the last row up to this place, where an episode is complete, if the part has the place. The only error is running
/// out of memory.
fn add_cutout_episode(
    episodes: &mut Vec<usize>,
    part: &Part,
    place: usize,
    last: Option<usize>,
    count: usize,
) -> Result<(), AllocError>
    ensures { OnOk result (All (λ r. r < count) episodes.old.items → All (λ r. r < count) episodes.new.items) }
{
    if let Some(row) = last
        && row < count
        && cutout_has_place(part, place)
    {
        episodes.push(row)?;
    }
    Ok(())
}

/// Of each episode of the barrier that so many processors complete within the part the last row up to that, of so many
/// rows. The only error is running out of memory.
fn cutout_episodes_of(
    alloc: Global,
    part: &Part,
    processors: usize,
    events: &[Event],
    rows: &[Option<usize>],
    count: usize,
) -> Result<Vec<usize>, AllocError>
    ensures { IfOk result (λ v. All (λ r. r < count) v.items) }
{
    let mut episodes = Vec::new(alloc);
    let mut missing = processors;
    let mut last = None;
    for (place, event) in events.iter().enumerate() {
        if let Some(Some(row)) = rows.get(place) {
            last = Some(*row);
        }
        if arrives_in_cutout(event.kind) {
            missing = missing.saturating_sub(1);
            if missing == 0 {
                missing = processors;
                add_cutout_episode(&mut episodes, part, place, last, count)?;
            }
        }
    }
    Ok(episodes)
}

/// What is drawn of the story's run: the events of this part, whose places are counted from the story's first event. An
/// arrow or an edge from an event that isn't drawn is left out. The only error is running out of memory. It takes time in
/// the order of the events and of the places that let them through.
pub fn cutout_of(alloc: Global, story: &PictureStory<'_>, part: &Part) -> Result<Cutout, AllocError>
    requires { HasPictureLayout story.now.processors story.now.events.now story.now.incoming.now }
    ensures { IfOk result (IsCutout part.now story.now.processors story.now.events.now) }
{
    let lanes = cutout_lanes_of(alloc, part, story.processors)?;
    let places = cutout_places_of(alloc, part, story.events)?;
    let events = cutout_events_of(alloc, &lanes, story.events, &places)?;
    let rows = cutout_rows_of(alloc, story.events.len(), &places)?;
    let incoming = cutout_incoming_of(alloc, &rows, &places, story.incoming)?;
    let count = events.len();
    let episodes = cutout_episodes_of(alloc, part, story.processors, story.events, &rows, count)?;
    Ok(Cutout {
        lanes,
        places,
        events,
        rows,
        incoming,
        episodes,
        has_end: match part.end {
            Some(end) => story.events.len() <= end,
            None => true,
        },
    })
}

impl Cutout {
    /// The layout of what is drawn. The only error is running out of memory.
    pub fn picture_layout_of(&self, alloc: Global) -> Result<DiagramLayout, AllocError>
        requires { (part : Part) × (n : ℕ) × (j : List Event) × IsCutout part n j self.now }
        ensures { IfOk result (IsPictureLayoutOf (vec_len self.now.lanes) self.now.events.items) }
    {
        picture_layout_of(
            alloc,
            self.lanes.len(),
            &self.events,
            &self.incoming,
            &self.episodes,
        )
    }

    /// The row of the event at this place of the run, where it is drawn.
    pub fn row(&self, place: usize) -> Option<usize>
        ensures { IfSome result (λ r. slice_get self.now.rows.items place ≡ Some (Some r)) }
    {
        match self.rows.get(place) {
            Some(row) => *row,
            None => None,
        }
    }

    /// The rows of the first race, where both of its accesses are drawn.
    pub fn race(&self, story: &PictureStory<'_>) -> Option<(usize, usize)> {
        let (first, second) = story.race?;
        Some((self.row(first)?, self.row(second)?))
    }

    /// The lane of the one who could let the processor of this lane go on, where both are drawn.
    pub fn holder(&self, story: &PictureStory<'_>, lane: usize) -> Option<usize>
        requires { lane < vec_len self.now.lanes }
        ensures { IfSome result (λ lane. lane < vec_len self.now.lanes) }
    {
        if !self.has_end {
            return None;
        }
        self.lane(story.holder(self.processor(lane))?)
    }

    /// The processor of this lane.
    pub fn processor(&self, lane: usize) -> usize
        requires { lane < vec_len self.now.lanes }
        ensures { slice_get self.now.lanes.items lane ≡ Some result }
    {
        self.lanes[lane]
    }

    /// The lane of this processor, where it has one.
    pub fn lane(&self, processor: usize) -> Option<usize>
        ensures { IfSome result (λ lane. lane < vec_len self.now.lanes) }
    {
        for lane in 0..self.lanes.len() {
            if self.lanes[lane] == processor {
                return Some(lane);
            }
        }
        None
    }
}
