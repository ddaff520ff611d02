//! What is looked up of a history before it is told.
ghost use Rattle.std.specs.Prelude.{◌≡◌, ◌≤◌, IfOk, IsTrue, MatchOption, length, vec_len};
ghost use Rattle.base.specs.Prelude.{most_processors};
ghost use Rattle.journal.specs.Prelude.{IsFirstRace, RaceFree};
ghost use Rattle.judge.specs.Sources.Prelude.{AreLatestRows};
ghost use Rattle.causes.specs.Prelude.{ArePathWays, IsRaceApart};

use crate::earlier::{Earlier, earlier_stores_before};
use crate::journey::journey_to_each_load;
use crate::rivals::{Rival, rivals_of};
use crate::strays::{Stray, strays_of};
use base::MOST_PROCESSORS;
use causes::{
    Due, EventState, RaceApart, Source, Ways, WordOrigin, dues, event_states, incoming_news,
    origins, race_apart, sources_of_loads,
};
use judge::History;
use judge::sources::latest_rows;
use std::alloc::{AllocError, Global};

/// What is found of the loads of a history.
#[derive(Drop)]
pub struct LoadFindings {
    /// Of each event, the store that it answers, where it is a load.
    pub sources: Vec<Option<Source>>,
    /// Of each event, where the word comes from that its copy has, where it is a load and pages are told.
    pub origins: Vec<Option<WordOrigin>>,
    /// Of each event, the other latest stores, where it is a load.
    pub rivals: Vec<Vec<Rival>>,
    /// Of each event, the last store before it to its address.
    pub earlier: Vec<Option<Earlier>>,
    /// Of each event, the way from the store that it answers, where it is a load.
    pub ways: Vec<Option<Vec<usize>>>,
    /// Of each event, another store of its value, where it is a load that answers none that it may.
    pub strays: Vec<Option<Stray>>,
}

impl LoadFindings {
    /// Another store of the value of the event at this place, where it is a load that answers none that it may.
    pub fn stray(&self, place: usize) -> Option<Stray> {
        match self.strays.get(place) {
            Some(stray) => *stray,
            None => None,
        }
    }

    /// Whether the store is that.
    pub fn is_stray(&self, place: usize, store: usize) -> bool {
        match self.stray(place) {
            Some(stray) => stray.store == store,
            None => false,
        }
    }
}

/// What is found of a history by its pages.
#[derive(Drop)]
struct FoundByPages {
    /// Of each event, where the word comes from that its copy has, where it is a load.
    origins: Vec<Option<WordOrigin>>,
    /// Of each event, the records that it tells of.
    dues: Vec<Vec<Due>>,
    /// Of each event, the protocol's state at it, where that is told.
    states: Vec<Option<EventState>>,
}

/// What is found of a history.
#[derive(Drop)]
pub struct Findings {
    pub loads: LoadFindings,
    /// Of each event, the records that it tells of; empty where pages aren't told.
    pub dues: Vec<Vec<Due>>,
    /// Of each event, the protocol's state at it, where that is told; empty where it is told of none.
    pub states: Vec<Option<EventState>>,
    /// Of each event, the events of others that let it through and that its processor had not heard of.
    pub incoming: Vec<Vec<usize>>,
}

/// The first race of the history, and what keeps it apart. The only error is running out of memory.
pub fn race_finding_of(
    alloc: Global,
    history: &History<'_>,
) -> Result<Option<RaceApart>, AllocError>
    ensures { IfOk result (λ o. MatchOption o (RaceFree history.now.events)
        (λ x. IsFirstRace history.now.events x.first x.second
        × IsRaceApart history.now.sizes.locks history.now.events x.first x.second x)) }
{
    match history.first_race(alloc)? {
        Some(race) => Ok(Some(race_apart(alloc, history, race)?)),
        None => Ok(None),
    }
}

/// Adds what is found of the loads of the history by the latest stores before each event, and by the ways between events. The
/// only error is running out of memory.
fn add_load_findings_by(
    found: &mut LoadFindings,
    alloc: Global,
    history: &History<'_>,
    words: Option<usize>,
    latest: &[Vec<usize>],
    ways: &Ways,
) -> Result<(), AllocError>
    requires long { length latest.now ≡ length history.now.events }
    requires latest { AreLatestRows history.now.events latest.now }
    requires ways { ArePathWays history.now.events ways.now }
    requires origins { vec_len found.old.origins ≡ length history.now.events }
{
    let events = history.events();
    let sources = sources_of_loads(alloc, history, latest, &found.origins)?;
    found.sources = sources;
    found.rivals = rivals_of(alloc, ways, events, words, latest, &found.sources)?;
    found.ways = journey_to_each_load(alloc, ways, events, &found.sources)?;
    found.strays = strays_of(alloc, ways, events, &found.sources)?;
    Ok(())
}

/// Adds what is found of the loads of the history, of which the words are told if they have so many a page. The only error is
/// running out of memory.
fn add_load_findings(
    found: &mut LoadFindings,
    alloc: Global,
    history: &History<'_>,
    words: Option<usize>,
) -> Result<(), AllocError>
    requires { vec_len found.old.origins ≡ length history.now.events }
{
    found.earlier = earlier_stores_before(alloc, history)?;
    let latest = latest_rows(alloc, history)?;
    let ways = Ways::new(alloc, history)?;
    add_load_findings_by(found, alloc, history, words, &latest, &ways)
}

/// What is found of the loads of the history, whose words come from these origins; with pages, also where what they answer was
/// fetched. The only error is running out of memory.
fn load_findings_of(
    alloc: Global,
    history: &History<'_>,
    pages: bool,
    origins: Vec<Option<WordOrigin>>,
) -> Result<LoadFindings, AllocError>
    requires { vec_len origins ≡ length history.now.events }
{
    let words = pages.then_some(history.sizes().words);
    let mut found = LoadFindings {
        sources: Vec::new(alloc),
        origins,
        rivals: Vec::new(alloc),
        earlier: Vec::new(alloc),
        ways: Vec::new(alloc),
        strays: Vec::new(alloc),
    };
    match add_load_findings(&mut found, alloc, history, words) {
        Ok(()) => Ok(found),
        Err(error) => Err(error),
    }
}

/// The protocol's state at each event of the history that is asked for; nothing where `asked` hasn't one for each event. The
/// only error is running out of memory.
fn state_findings_of(
    alloc: Global,
    history: &History<'_>,
    asked: &[bool],
) -> Result<Vec<Option<EventState>>, AllocError>
    requires { history.now.sizes.processors ≤ most_processors }
{
    if asked.len() != history.events().len() {
        return Ok(Vec::new(alloc));
    }
    event_states(alloc, history, asked)
}

/// Whether the pages of the history are told, if that is asked: what copies of pages lack is told of at most 16 processors.
fn do_findings_have_pages(history: &History<'_>, pages: bool) -> bool
    ensures { IsTrue result → history.now.sizes.processors ≤ most_processors }
{
    pages && history.sizes().processors <= MOST_PROCESSORS
}

/// What is found of the history by its pages; nothing where these aren't told. The only error is running out of memory.
fn page_findings(
    alloc: Global,
    history: &History<'_>,
    pages: bool,
    asked: &[bool],
) -> Result<FoundByPages, AllocError>
    requires { IsTrue pages → history.now.sizes.processors ≤ most_processors }
    ensures { IfOk result (λ f. vec_len f.origins ≡ length history.now.events) }
{
    if !pages {
        return Ok(FoundByPages {
            origins: vec![in alloc; None; history.events().len()]?,
            dues: Vec::new(alloc),
            states: Vec::new(alloc),
        });
    }
    let origins = origins(alloc, history)?;
    let dues = dues(alloc, history)?;
    let states = state_findings_of(alloc, history, asked)?;
    Ok(FoundByPages {
        origins,
        dues,
        states,
    })
}

/// What is found of the history, by its pages too if these are told and it has at most 16 processors. Then it has the protocol's
/// state at those events for which `asked` has true, and none if no state is asked for. The only error is running out of memory.
pub fn findings_of(
    alloc: Global,
    history: &History<'_>,
    pages: bool,
    asked: &[bool],
) -> Result<Findings, AllocError> {
    let pages = do_findings_have_pages(history, pages);
    let incoming = incoming_news(alloc, history)?;
    let FoundByPages {
        origins,
        dues,
        states,
    } = page_findings(alloc, history, pages, asked)?;
    let loads = load_findings_of(alloc, history, pages, origins)?;
    Ok(Findings {
        loads,
        dues,
        states,
        incoming,
    })
}
