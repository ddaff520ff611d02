//! The threads that sleep until their turn at a lock comes.
//!
//! No wake-up is lost. A thread that waits counts itself, reads the word that it waits at, looks, and then sleeps only if
//! the kernel still finds there what was read. A thread that leaves writes the word, and then reads the count. All of
//! these steps have one order (`SeqCst`). If the number is written before the word is read, the look finds it. If it is
//! written after that, the count is read later still, and isn't 0: the wake comes, and ends a sleep that has begun. A sleep
//! that hasn't begun by then doesn't begin, since the kernel finds another word.
//!
//! The kernel compares the low half of a word. So no thread sleeps on a low half that its own number has: a sleep never
//! begins once the number is there, whatever the word was before. The two differ anyway if a lock has fewer than 2^32
//! chairs, since the word is behind the number by at most the number of chairs.
//!
//! A sleep may also end for no reason, or by a wake that is for another thread at the same word. Then the thread looks, and
//! sleeps again.
use crossbeam_utils::CachePadded;
use std::sync::atomic::AtomicU64;
use std::sync::atomic::Ordering::SeqCst;

/// How often a waiting thread looks before it sleeps, with a pause of the processor after each look. The pauses don't grow,
/// since in a queue the one that looks too late stops everybody behind it. It doesn't yield either: if there are more
/// threads than idle processors, a yield lets threads run that wait as it does.
pub(crate) const LOOKS_AWAKE: u32 = 128;

/// How many threads sleep, or are about to. The count stands beside the lock's table, and no rule speaks of it. It has a
/// cache line of its own, which each leave reads.
#[derive(Drop)]
pub struct Sleepers {
    count: CachePadded<AtomicU64>,
    // How often one more did, in all.
    ever: AtomicU64,
}

impl Sleepers {
    pub(crate) fn none() -> Sleepers {
        Sleepers {
            count: CachePadded::new(AtomicU64::new(0)),
            ever: AtomicU64::new(0),
        }
    }

    // One more sleeps, or is about to.
    pub(crate) fn count_sleeper(&self) {
        self.ever.fetch_add(1, SeqCst);
        self.count.fetch_add(1, SeqCst);
    }

    // One is awake again.
    pub(crate) fn forget_sleeper(&self) {
        self.count.fetch_sub(1, SeqCst);
    }

    pub(crate) fn number(&self) -> u64 {
        self.count.load(SeqCst)
    }

    pub(crate) fn ever(&self) -> u64 {
        self.ever.load(SeqCst)
    }
}

// What the kernel compares of a word.
pub(crate) fn low_half(word: u64) -> u32 {
    (word & 0xffff_ffff) as u32
}
