//! How much a take would bring.
ghost use Rattle.std.specs.Prelude.{◌≡◌, ◌<◌, EachIndex, IfSome, None, count_by, length, slice_index, slice_index_or};
ghost use Rattle.journal.specs.declared.event.Kind.TheVariants.{Await};
ghost use Rattle.interval.specs.Prelude.{is_kept_closing_of_page};
ghost use Rattle.book.specs.Prelude.{brought_by_message, message_for, sent_with_message, IsSignalledForAllowedCall, IsProcessorOfAllowedCall, AllowsTakeCall};

use super::Protocol;
use interval::Sent;
use journal::Awaited;
use vtime::VTime;

impl Protocol {
    /// How many notices of each page a take by `processor` would bring now, if `processor` waits for the flag.
    pub(crate) fn count_by_flag(&self, processor: usize, flag: usize, counts: &mut [usize])
        requires call { AllowsTakeCall self.now processor (Await flag) }
        ensures each { EachIndex counts.new (λ n. slice_index counts.new n
            ≡ count_by (is_kept_closing_of_page n) (sent_with_message (message_for self.now processor (Await flag)))) }
        ensures same_length { length counts.new ≡ length counts.old }
    {
        let closed = &self.closed;
        match self.signalled_to_count(processor, flag) {
            Some((own, time)) => closed.count_news(own, time, counts),
            None => counts.fill(0),
        }
    }

    /// The same if `processor` waits for a grant or a departure.
    pub(crate) fn count_by_message(&self, processor: usize, counts: &mut [usize])
        requires processor { processor < length self.now.transit }
        ensures each { EachIndex counts.new (λ n. slice_index counts.new n
            ≡ count_by (is_kept_closing_of_page n) (sent_with_message (slice_index_or self.now.transit processor None))) }
        ensures same_length { length counts.new ≡ length counts.old }
    {
        let transit = &self.transit;
        match transit.peek(processor) {
            Some(message) => count_pages(message.notices(), counts),
            None => counts.fill(0),
        }
    }

    /// How many notices of the page, if `processor` waits for the flag.
    pub(crate) fn count_page_by_flag(&self, processor: usize, flag: usize, page: usize) -> usize
        requires call { AllowsTakeCall self.now processor (Await flag) }
        ensures { result
            ≡ count_by (is_kept_closing_of_page page) (sent_with_message (message_for self.now processor (Await flag))) }
    {
        let closed = &self.closed;
        match self.signalled_to_count(processor, flag) {
            Some((own, time)) => closed.news_of(page, own, time),
            None => 0,
        }
    }

    /// The timestamps of `processor` and of the flag for which `processor` waits, if that is set.
    fn signalled_to_count(&self, processor: usize, flag: usize) -> Option<(&VTime, &VTime)>
        requires call { AllowsTakeCall self.now processor (Await flag) }
        ensures set { IfSome result (λ x. IsSignalledForAllowedCall self.now processor flag x.0.now x.1.now) }
        ensures none { result ≡ None → message_for self.now processor (Await flag) ≡ None }
    {
        let time = self.flags[flag].as_ref()?;
        Some((&self.times[processor], time))
    }

    /// The same if `processor` waits for a grant or a departure.
    pub(crate) fn count_page_by_message(&self, processor: usize, page: usize) -> usize
        requires processor { processor < length self.now.transit }
        ensures { result
            ≡ count_by (is_kept_closing_of_page page) (sent_with_message (slice_index_or self.now.transit processor None)) }
    {
        let transit = &self.transit;
        let Some(message) = transit.peek(processor) else {
            return 0;
        };
        count_of_page(message.notices(), page)
    }
}

/// How many of the notices are of the page.
fn count_of_page(notices: &[Sent], page: usize) -> usize
    ensures { result ≡ count_by (is_kept_closing_of_page page) notices.now }
{
    notices
        .iter()
        .filter(|sent| sent.notice.page == page)
        .count()
}

/// Entry n becomes how many of the notices are of page n.
fn count_pages(notices: &[Sent], counts: &mut [usize])
    ensures each { EachIndex counts.new (λ n. slice_index counts.new n
        ≡ count_by (is_kept_closing_of_page n) notices.now) }
    ensures same_length { length counts.new ≡ length counts.old }
{
    counts.fill(0);
    for sent in notices {
        let page = sent.notice.page;
        if page < counts.len() {
            counts[page] += 1;
        }
    }
}
