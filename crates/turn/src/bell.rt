//! A bell: one thread sleeps until another one rings it.
use crate::sleepers::LOOKS_AWAKE;
use crossbeam_utils::{Backoff, CachePadded};
use std::sync::Wait;
use std::sync::atomic::AtomicU64;
use std::sync::atomic::Ordering::SeqCst;

/// The word of a bell: nothing was told since its listener forgot.
const FORGOTTEN: u64 = 0;
/// Something was told.
const TOLD: u64 = 1;
/// Nothing was told, and the listener sleeps or is about to.
const ASLEEP: u64 = 2;

/// A bell, which others ring and one thread alone listens to. Before it sleeps it *forgets* what it was told; who may have
/// brought what it waits for *tells* it.
///
/// No wake-up is lost: a listener that was told after it forgot doesn't fall asleep, since the word is compared as the sleep
/// begins; and one that sleeps is woken.
#[derive(Drop)]
pub struct Bell {
    word: CachePadded<AtomicU64>,
}

impl Bell {
    /// A bell that was never rung.
    pub fn new() -> Bell {
        Bell {
            word: CachePadded::new(AtomicU64::new(FORGOTTEN)),
        }
    }

    /// The listener forgets what it was told.
    pub fn forget(&self) {
        self.word.store(FORGOTTEN, SeqCst);
    }

    /// Ends the listener's sleep, or keeps it from falling asleep.
    pub fn tell(&self) {
        if self.word.swap(TOLD, SeqCst) == ASLEEP {
            self.word.wake_all();
        }
    }

    /// Waits until it is told: awake for a while, and then asleep.
    pub fn wait<R: Wait>(&self, rt: &R) {
        if !self.wait_awake() {
            self.wait_asleep(rt);
        }
    }

    // Looks for as long as a thread waits awake: whether it was told.
    fn wait_awake(&self) -> bool {
        let backoff = Backoff::new();
        for _ in 0..LOOKS_AWAKE {
            if self.word.load(SeqCst) == TOLD {
                return true;
            }
            backoff.reset();
            backoff.spin();
        }
        false
    }

    // Looks until it is told, and sleeps between two looks.
    fn wait_asleep<R: Wait>(&self, rt: &R) {
        for _ in rt.forever() {
            if self.word.load(SeqCst) == TOLD {
                return;
            }
            self.sleep(rt);
        }
    }

    // Sleeps until it is told; it may wake earlier for no reason. If it was told, it doesn't sleep.
    fn sleep<R: Wait>(&self, rt: &R) {
        let _found = self
            .word
            .compare_exchange(FORGOTTEN, ASLEEP, SeqCst, SeqCst);
        self.word.park(rt, ASLEEP as u32);
    }
}

#[cfg(test)]
mod tests;
