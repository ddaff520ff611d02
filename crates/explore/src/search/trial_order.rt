//! The order in which processors are tried for the next event of a trial.

use base::MOST_PROCESSORS;
use rand_core::SeedableRng;
use rand_core::utils::NextWord;
use rand_pcg::Pcg32;

/// After how many of a trial's events, on average, whoever made one comes last, if processors have priorities.
const CHANGES: usize = 3;

/// All processors, by rising number.
const RISING: [usize; MOST_PROCESSORS] = [0, 1, 2, 3, 4, 5, 6, 7, 8, 9, 10, 11, 12, 13, 14, 15];

/// How an order changes after an event.
#[derive(Clone, Copy)]
pub enum OrderChange {
    /// Whoever made it comes last: rounds.
    Rounds,
    /// Who comes first is drawn anew: a random walk.
    Walk,
    /// After a few events, which are drawn, whoever made one comes last from then on (Burckhardt, Kothari, Musuvathi and
    /// Nagarakatte, A randomized scheduler with probabilistic guarantees of finding bugs, ASPLOS 2010).
    Priorities,
}

impl OrderChange {
    /// That of the trial of this number: rounds first, and then walks and priorities by turns.
    fn of_trial(number: usize) -> OrderChange {
        if number == 0 {
            OrderChange::Rounds
        } else if number % 2 == 0 {
            OrderChange::Priorities
        } else {
            OrderChange::Walk
        }
    }
}

/// The order in which processors are tried for the next event of a trial: the first that may make one makes it. Numbers that
/// are no processor's are passed over.
#[derive(Drop)]
pub struct TrialOrder {
    pub processors: [usize; MOST_PROCESSORS],
    change: OrderChange,
    generator: Pcg32,
    /// About how many events the trial has.
    events: usize,
}

impl TrialOrder {
    /// The order of the first event of the trial of this number, which has about so many events. It is by rising number if that
    /// is 0, and else drawn by it.
    pub fn of_trial(number: usize, events: usize) -> TrialOrder {
        let mut generator = Pcg32::seed_from_u64(number as u64);
        let mut processors = RISING;
        if number > 0 {
            for place in (1..MOST_PROCESSORS).rev() {
                let word = generator.next_word() as usize;
                processors.swap(place, word % (place + 1));
            }
        }
        TrialOrder {
            processors,
            change: OrderChange::of_trial(number),
            generator,
            events: events.max(1),
        }
    }

    /// Puts whoever is at this place last.
    fn put_last(&mut self, place: usize) {
        for next in place.saturating_add(1)..MOST_PROCESSORS {
            self.processors.swap(next - 1, next);
        }
    }

    /// Goes on to the order of the next event, after whoever is at this place has made one.
    pub fn go_on(&mut self, place: usize) {
        match self.change {
            OrderChange::Rounds => self.put_last(place),
            OrderChange::Walk => {
                let word = self.generator.next_word() as usize;
                self.processors.swap(0, word % MOST_PROCESSORS);
            }
            OrderChange::Priorities => {
                let word = self.generator.next_word() as usize;
                if word % self.events.max(1) < CHANGES {
                    self.put_last(place);
                }
            }
        }
    }
}
