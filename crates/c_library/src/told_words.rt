//! What C is told of words that need a lock and have none.
ghost use Rattle.std.specs.Prelude.{◌≡◌};
ghost use Rattle.c_library.specs.Prelude.{AreToldWordsWritten, told_word_access, told_word_guarded, told_word_of};

use crate::told_verdict::{NONE, ToldVerdict};
use judge::locksets::{Guarded, PairedAccess, Unprotected};

/// An access of a word.
#[repr(C)]
#[derive(Clone, Copy)]
pub struct ToldAccess {
    /// Its place in the history, counted from 0.
    pub place: u64,
    /// Who made it.
    pub processor: u64,
}

/// Two accesses of a word that hold a lock in common, and the lock; `NONE` each where no two do.
#[repr(C)]
#[derive(Clone, Copy)]
pub struct ToldGuarded {
    pub first: ToldAccess,
    pub second: ToldAccess,
    pub lock: u64,
}

/// A word that needs a lock and has none.
#[repr(C)]
#[derive(Clone, Copy)]
pub struct ToldWord {
    pub address: u64,
    /// Two accesses that hold no lock in common.
    pub first: ToldAccess,
    pub second: ToldAccess,
    /// If there are such: then somebody forgot the lock.
    pub guarded: ToldGuarded,
}

/// What is found of a history, and how many words of it need a lock and have none.
#[repr(C)]
#[derive(Clone, Copy)]
pub struct ToldLocksets {
    pub verdict: ToldVerdict,
    pub words: u64,
}

/// No access.
const NO_ACCESS: ToldAccess = ToldAccess {
    place: NONE,
    processor: NONE,
};

/// The access.
fn told_word_access(access: PairedAccess) -> ToldAccess
    ensures { result ≡ told_word_access access }
{
    ToldAccess {
        place: access.place as u64,
        processor: access.processor as u64,
    }
}

/// The accesses that hold a lock in common.
fn told_word_guarded(guarded: Option<Guarded>) -> ToldGuarded
    ensures { result ≡ told_word_guarded guarded }
{
    match guarded {
        Some(guarded) => ToldGuarded {
            first: told_word_access(guarded.accesses.0),
            second: told_word_access(guarded.accesses.1),
            lock: guarded.lock as u64,
        },
        None => ToldGuarded {
            first: NO_ACCESS,
            second: NO_ACCESS,
            lock: NONE,
        },
    }
}

/// The word.
fn told_word(word: &Unprotected) -> ToldWord
    ensures { result ≡ told_word_of word.now }
{
    ToldWord {
        address: word.address as u64,
        first: told_word_access(word.unguarded.0),
        second: told_word_access(word.unguarded.1),
        guarded: told_word_guarded(word.guarded),
    }
}

/// Writes the first of these words, as many as there is room for.
pub fn write_told_words(found: &[Unprotected], room: &mut [ToldWord])
    ensures { AreToldWordsWritten found.now room.old room.new }
{
    for place in 0..room.len() {
        if place < found.len() {
            room[place] = told_word(&found[place]);
        }
    }
}
