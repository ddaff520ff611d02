//! What pages of one size are used for. Nothing is proved of it beyond that it is safe.

use crate::heard_stores::{Heard, HeardStores, lengthen_row};
use crate::page_traffic::PageTraffic;
use crate::processor_set::ProcessorSet;
use journal::{Event, Kind};
use std::alloc::{AllocError, Global};

/// Who uses a page, and how many of its fetches were of no use.
#[derive(Clone, Copy, Debug, Default, PartialEq, Eq)]
pub struct PageUse {
    /// The fetches of which each brings no word that its processor accesses before it fetches the page again.
    pub useless: u64,
    /// The processors that store in it.
    pub writers: ProcessorSet,
    /// Those that load from it.
    pub readers: ProcessorSet,
}

/// What is kept of a page.
#[derive(Clone, Copy, Default, Drop)]
struct UsedPage {
    useful: u64,
    writers: ProcessorSet,
    readers: ProcessorSet,
}

/// What is kept of a processor's fetches of a page.
#[derive(Clone, Copy, Default, Drop)]
struct LastFetch {
    /// How often the processor had taken before the fetch before the last one.
    before: u32,
    /// How often it had before the last one.
    last: u32,
    /// How many words the last one brought.
    words: u32,
    /// Whether the last one has been of no use so far.
    is_unused: bool,
}

/// What pages of one size are used for. It takes 72 bytes for each page, 16 for each page and processor that accesses any, and 8
/// for each label.
#[derive(Drop)]
pub(crate) struct PageUses {
    words: usize,
    pages: Vec<UsedPage>,
    /// By processors, and then by pages.
    fetched: Vec<Vec<LastFetch>>,
    /// By labels: the messages that accesses with this label waited for.
    waited: Vec<u64>,
    /// How many words the fetches of use brought.
    useful_words: u64,
    /// What the history had cost before the event at hand.
    seen: PageTraffic,
}

/// An access of a word.
#[derive(Clone, Copy)]
pub(crate) struct WordAccess {
    processor: usize,
    address: usize,
    stores: bool,
    /// The number of its label, if it has one.
    label: Option<usize>,
    /// What its processor has heard of others' stores to the word.
    heard: Heard,
}

/// The page of so many words that the word is in; page 0, if a page has none.
pub(crate) fn page_of_word(address: usize, words: usize) -> usize {
    match address.checked_div(words) {
        Some(page) => page,
        None => 0,
    }
}

impl WordAccess {
    /// The access that the event is, if it is one.
    pub(crate) fn of(
        event: Event,
        label: Option<usize>,
        heard: &HeardStores,
    ) -> Option<WordAccess> {
        let processor = event.processor;
        let (address, stores) = match event.kind {
            Kind::Load(address, _) => (address, false),
            Kind::Store(address, _) => (address, true),
            _ => return None,
        };
        Some(WordAccess {
            processor,
            address,
            stores,
            label,
            heard: heard.of(processor, address),
        })
    }
}

impl LastFetch {
    /// The processor fetches the page, after it has taken so often, which brings so many words.
    fn fetch(&mut self, takes: u32, words: u64) {
        self.before = self.last;
        self.last = takes;
        self.words = u32::try_from(words).unwrap_or(u32::MAX);
        self.is_unused = true;
    }

    /// Whether this access of a word is the first that the last fetch was of use for. `heard` is the take by which the processor
    /// last heard of another's store there.
    fn is_used_now(&mut self, heard: u32) -> bool {
        let used = self.is_unused && heard > self.before;
        if used {
            self.is_unused = false;
        }
        used
    }
}

impl UsedPage {
    /// The processor accesses it.
    fn access(&mut self, processor: usize, stores: bool, used: bool) {
        if stores {
            self.writers.add(processor);
        } else {
            self.readers.add(processor);
        }
        self.useful = self.useful.saturating_add(u64::from(used));
    }
}

impl PageUses {
    /// Before the first event, on pages of so many words.
    pub(crate) fn new(alloc: Global, words: usize) -> PageUses {
        PageUses {
            words,
            pages: Vec::new(alloc),
            fetched: Vec::new(alloc),
            waited: Vec::new(alloc),
            useful_words: 0,
            seen: PageTraffic::default(),
        }
    }

    /// Who uses the page, which is fetched so often.
    pub(crate) fn of(&self, page: usize, fetches: u64) -> PageUse {
        match self.pages.get(page) {
            None => PageUse::default(),
            Some(used) => PageUse {
                useless: fetches.saturating_sub(used.useful),
                writers: used.writers,
                readers: used.readers,
            },
        }
    }

    /// By labels: the messages that accesses with this label waited for.
    pub(crate) fn waited(&self) -> &[u64] {
        &self.waited
    }

    /// Of so many words that all fetches bring, how many the useless ones do.
    pub(crate) fn useless_words(&self, words: u64) -> u64 {
        words.saturating_sub(self.useful_words)
    }

    /// Whether the access of a word of the page is the first that its processor's last fetch of the page is of use for. Right before
    /// it the page is fetched with so many words, if it is. The only error is running out of memory.
    fn uses(
        &mut self,
        alloc: Global,
        access: WordAccess,
        page: usize,
        fetched: Option<u64>,
    ) -> Result<bool, AllocError> {
        for _ in self.fetched.len()..access.processor.saturating_add(1) {
            self.fetched.push(Vec::new(alloc))?;
        }
        let Some(row) = self.fetched.get_mut(access.processor) else {
            return Ok(false);
        };
        lengthen_row(row, page, LastFetch::default())?;
        let Some(fetch) = row.get_mut(page) else {
            return Ok(false);
        };
        if let Some(words) = fetched {
            fetch.fetch(access.heard.takes, words);
        }
        let used = fetch.is_used_now(access.heard.last);
        if used {
            self.useful_words = self.useful_words.saturating_add(u64::from(fetch.words));
        }
        Ok(used)
    }

    /// Counts the messages that an access with this label waited for. The only error is running out of memory.
    fn wait(&mut self, label: Option<usize>, messages: u64) -> Result<(), AllocError> {
        if let Some(label) = label {
            lengthen_row(&mut self.waited, label, 0)?;
            if let Some(waited) = self.waited.get_mut(label) {
                *waited = waited.saturating_add(messages);
            }
        }
        Ok(())
    }

    /// Takes note of the access, which comes next. The history has cost so much with it. The only error is running out of memory.
    pub(crate) fn note(
        &mut self,
        alloc: Global,
        access: WordAccess,
        now: PageTraffic,
    ) -> Result<(), AllocError> {
        let before = self.seen;
        self.seen = now;
        let page = page_of_word(access.address, self.words);
        let is_fetched = now.fetches > before.fetches;
        let words = now.words.saturating_sub(before.words);
        let used = self.uses(alloc, access, page, is_fetched.then_some(words))?;
        lengthen_row(&mut self.pages, page, UsedPage::default())?;
        if let Some(found) = self.pages.get_mut(page) {
            found.access(access.processor, access.stores, used);
        }
        if is_fetched {
            self.wait(access.label, now.answers.saturating_sub(before.answers))?;
        }
        Ok(())
    }
}
