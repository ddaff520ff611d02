//! The races of a trace as they are told: words that race between lines with the same two labels are told together.

use crate::kept_lists::KeptLists;
use crate::labelled_accesses::LabelledAccesses;
use crate::racing_words::RacingWord;
use crate::told_events::KnownEvent;
use crate::traces::reader::Reader;
use indexmap::IndexMap;
use journal::Event;
use std::alloc::{AllocError, Global};
use std::mem;

/// Which races are told, if all are.
#[derive(Drop)]
pub struct RacesAsked {
    /// How many at most: words that race between the same two labels count as one.
    pub most: usize,
    /// A race is left out if one of its labels contains one of these texts. None of them is empty.
    pub left_out: Vec<Vec<u8>>,
}

impl RacesAsked {
    /// No race is told.
    pub fn none(alloc: Global) -> RacesAsked {
        RacesAsked {
            most: 0,
            left_out: Vec::new(alloc),
        }
    }

    /// Whether a race with this label is left out.
    fn leaves_out(&self, label: &[u8]) -> bool {
        self.left_out.iter().any(|text| has_text(label, text))
    }
}

/// Whether the text stands in the label.
fn has_text(label: &[u8], text: &[u8]) -> bool {
    for at in 0..label.len() {
        if label[at..].starts_with(text) {
            return true;
        }
    }
    false
}

/// A race that is told, and how many words race first between lines with its two labels.
#[derive(Drop)]
pub struct ToldRace {
    pub word: RacingWord,
    /// Its first access with its label; None if that isn't known any more.
    pub first: Option<KnownEvent>,
    pub second: Option<KnownEvent>,
    /// How many words race so, this one with them.
    pub words: usize,
}

/// The two labels of a race, by their numbers.
#[derive(Clone, Copy, PartialEq, Eq, Hash)]
struct LabelPair {
    lesser: usize,
    greater: usize,
}

/// How races between two labels are told.
#[derive(Clone, Copy)]
enum PairTelling {
    /// By the race at this index.
    At(usize),
    /// They aren't, since there are as many as are asked for.
    Beyond,
    /// They are left out.
    LeftOut,
}

/// An access of a race: the event, if it is known, and the number of its label.
#[derive(Clone, Copy)]
struct RacingAccess {
    event: Option<Event>,
    label: usize,
}

/// The races of a trace as they are told, taken as the trace is read.
#[derive(Drop)]
pub struct ToldRaces {
    asked: RacesAsked,
    /// Those that are told, as they were met.
    pub races: Vec<ToldRace>,
    /// How many words are left out.
    pub left_out: usize,
    /// How many words were looked at.
    noted: usize,
    labels: KeptLists<u8>,
    pairs: IndexMap<LabelPair, PairTelling>,
}

/// The places of the accesses of these words' races that are at hand, for the numbers of their labels. The only error is running out of memory.
fn racing_places_at_hand(
    alloc: Global,
    gone: usize,
    words: &[RacingWord],
) -> Result<IndexMap<usize, usize>, AllocError> {
    let mut places = IndexMap::new(alloc);
    for word in words {
        if word.first >= gone {
            places.insert(word.first, 0)?;
        }
        places.insert(word.second, 0)?;
    }
    Ok(places)
}

impl ToldRaces {
    /// Before the first event.
    pub(crate) fn new(alloc: Global, asked: RacesAsked) -> ToldRaces {
        ToldRaces {
            asked,
            races: Vec::new(alloc),
            left_out: 0,
            noted: 0,
            labels: KeptLists::new(alloc),
            pairs: IndexMap::new(alloc),
        }
    }

    /// No race.
    pub(crate) fn none(alloc: Global) -> ToldRaces {
        ToldRaces::new(alloc, RacesAsked::none(alloc))
    }

    /// The races that are told. None are left then.
    pub(crate) fn taken(&mut self, alloc: Global) -> ToldRaces {
        mem::replace(self, ToldRaces::none(alloc))
    }

    /// Gives these events at hand the numbers of their labels. The only error is running out of memory.
    fn number_labels(
        &mut self,
        alloc: Global,
        reader: &Reader,
        places: &mut IndexMap<usize, usize>,
    ) -> Result<(), AllocError> {
        let mut labels = reader.labels().walk(reader.is_headed());
        for index in 0..reader.events().len() {
            let label = labels.next_label();
            let place = reader.gone().saturating_add(index);
            if let Some(number) = places.get_mut(&place) {
                *number = self.labels.number_of(alloc, label)?;
            }
        }
        Ok(())
    }

    /// The access of this word at this place, which is among those at hand, or is kept if it has a label. The only error is running
    /// out of memory.
    fn access(
        &mut self,
        alloc: Global,
        reader: &Reader,
        earlier: &LabelledAccesses,
        places: &IndexMap<usize, usize>,
        address: usize,
        place: usize,
    ) -> Result<RacingAccess, AllocError> {
        if let Some(label) = places.get(&place) {
            return Ok(RacingAccess {
                event: reader
                    .events()
                    .get(place.saturating_sub(reader.gone()))
                    .copied(),
                label: *label,
            });
        }
        let processors = reader.sizes().map_or(0, |sizes| sizes.processors);
        match earlier.at(alloc, processors, address, place)? {
            Some(known) => Ok(RacingAccess {
                event: Some(known.event),
                label: self.labels.number_of(alloc, &known.label)?,
            }),
            None => Ok(RacingAccess {
                event: None,
                label: self.labels.number_of(alloc, b"")?,
            }),
        }
    }

    /// The access with its label, as it is told. The only error is running out of memory.
    fn known(
        &self,
        alloc: Global,
        place: usize,
        access: RacingAccess,
    ) -> Result<Option<KnownEvent>, AllocError> {
        match access.event {
            Some(event) => {
                let label = self.labels.list(access.label);
                Ok(Some(KnownEvent::of(alloc, place, event, label)?))
            }
            None => Ok(None),
        }
    }

    /// Tells the race of this word between these accesses, unless it is left out or there are as many as are asked for. The only
    /// error is running out of memory.
    fn tell(
        &mut self,
        alloc: Global,
        word: RacingWord,
        first: RacingAccess,
        second: RacingAccess,
    ) -> Result<PairTelling, AllocError> {
        let is_left_out = self.asked.leaves_out(self.labels.list(first.label))
            || self.asked.leaves_out(self.labels.list(second.label));
        if is_left_out {
            return Ok(PairTelling::LeftOut);
        }
        let index = self.races.len();
        if index >= self.asked.most {
            return Ok(PairTelling::Beyond);
        }
        let race = ToldRace {
            word,
            first: self.known(alloc, word.first, first)?,
            second: self.known(alloc, word.second, second)?,
            words: 0,
        };
        self.races.push(race)?;
        Ok(PairTelling::At(index))
    }

    /// The two labels of a race, by which it is told with others; None if one of them has no byte: then it is told alone.
    fn pair(&self, first: RacingAccess, second: RacingAccess) -> Option<LabelPair> {
        if self.labels.list(first.label).is_empty() || self.labels.list(second.label).is_empty() {
            return None;
        }
        Some(LabelPair {
            lesser: first.label.min(second.label),
            greater: first.label.max(second.label),
        })
    }

    /// How the race of this word between these accesses is told. The only error is running out of memory.
    fn telling(
        &mut self,
        alloc: Global,
        word: RacingWord,
        first: RacingAccess,
        second: RacingAccess,
    ) -> Result<PairTelling, AllocError> {
        let Some(pair) = self.pair(first, second) else {
            return self.tell(alloc, word, first, second);
        };
        if let Some(telling) = self.pairs.get(&pair) {
            return Ok(*telling);
        }
        let telling = self.tell(alloc, word, first, second)?;
        self.pairs.insert(pair, telling)?;
        Ok(telling)
    }

    /// Counts the word for the race by which it is told.
    fn count(&mut self, telling: PairTelling) {
        match telling {
            PairTelling::At(index) => {
                if let Some(race) = self.races.get_mut(index) {
                    race.words = race.words.saturating_add(1);
                }
            }
            PairTelling::LeftOut => self.left_out = self.left_out.saturating_add(1),
            PairTelling::Beyond => {}
        }
    }

    /// Takes note of a word that races; `places` has the numbers of the labels that are at hand. The only error is running out of
    /// memory.
    fn note_word(
        &mut self,
        alloc: Global,
        reader: &Reader,
        earlier: &LabelledAccesses,
        places: &IndexMap<usize, usize>,
        word: RacingWord,
    ) -> Result<(), AllocError> {
        let first = self.access(alloc, reader, earlier, places, word.address, word.first)?;
        let second = self.access(alloc, reader, earlier, places, word.address, word.second)?;
        let telling = self.telling(alloc, word, first, second)?;
        self.count(telling);
        Ok(())
    }

    /// Takes note of words that race and weren't noted before. The only error is running out of memory.
    fn note_fresh(
        &mut self,
        alloc: Global,
        reader: &Reader,
        earlier: &LabelledAccesses,
        fresh: &[RacingWord],
    ) -> Result<(), AllocError> {
        let mut places = racing_places_at_hand(alloc, reader.gone(), fresh)?;
        self.number_labels(alloc, reader, &mut places)?;
        for word in fresh {
            self.note_word(alloc, reader, earlier, &places, *word)?;
        }
        Ok(())
    }

    /// Takes note of the words that race, of which the first ones may have been noted before; the second accesses of the others are at
    /// hand. The only error is running out of memory.
    pub(crate) fn note(
        &mut self,
        alloc: Global,
        reader: &Reader,
        earlier: &LabelledAccesses,
        words: &[RacingWord],
    ) -> Result<(), AllocError> {
        let fresh = words.get(self.noted..).unwrap_or(&[]);
        if fresh.is_empty() {
            return Ok(());
        }
        self.note_fresh(alloc, reader, earlier, fresh)?;
        self.noted = words.len();
        Ok(())
    }
}
