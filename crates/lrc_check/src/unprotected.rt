//! Words of a trace that need a lock and have none, and their text.
ghost use Rattle.std.specs.Prelude.{◌≡◌};
ghost use Rattle.lrc_check.specs.Prelude.{may_unprotected_be_sought, unprotected_looked_for};

use crate::checked::{Checked, TraceVerdict};
use crate::told_events::ToldEvents;
use judge::locksets::{Guarded, LocksetWords, PairedAccess, Unprotected};
use std::alloc::{AllocError, Global};

/// Whether the trace is faithful.
pub(crate) fn is_faithful(verdict: &TraceVerdict) -> bool
    ensures { result ≡ may_unprotected_be_sought verdict.now }
{
    match verdict {
        TraceVerdict::Faithful { .. } => true,
        _ => false,
    }
}

/// Which words are told, if that is asked for: none of a history that isn't faithful or has a race.
pub(crate) fn unprotected_asked_for(
    asked: Option<LocksetWords>,
    found: &Checked,
) -> Option<LocksetWords>
    ensures { result ≡ unprotected_looked_for asked found.now }
{
    if found.race.is_none() && is_faithful(&found.verdict) {
        asked
    } else {
        None
    }
}

/// Adds the access's number, and its label, if there is one.
fn put_unprotected_number(
    text: &mut Vec<u8>,
    alloc: Global,
    told: ToldEvents<'_>,
    access: PairedAccess,
) -> Result<(), AllocError> {
    let PairedAccess { place, .. } = access;
    let number = format!(in alloc; "{place}")?;
    text.extend_from_slice(number.as_bytes())?;
    let label = told.label(place);
    if !label.is_empty() {
        text.extend_from_slice(b" (")?;
        text.extend_from_slice(label)?;
        text.push(b')')?;
    }
    Ok(())
}

/// Adds the access's number, its label, if there is one, and who made it.
fn put_unprotected_maker(
    text: &mut Vec<u8>,
    alloc: Global,
    told: ToldEvents<'_>,
    access: PairedAccess,
) -> Result<(), AllocError> {
    text.extend_from_slice(b"event ")?;
    put_unprotected_number(text, alloc, told, access)?;
    let PairedAccess { processor, .. } = access;
    let maker = format!(in alloc; " by p{processor}")?;
    text.extend_from_slice(maker.as_bytes())?;
    Ok(())
}

/// Adds which accesses of the word hold a lock in common, and which one.
fn put_unprotected_guard(
    text: &mut Vec<u8>,
    alloc: Global,
    told: ToldEvents<'_>,
    guarded: Guarded,
) -> Result<(), AllocError> {
    let Guarded { accesses, lock } = guarded;
    text.extend_from_slice(b"; events ")?;
    put_unprotected_number(text, alloc, told, accesses.0)?;
    text.extend_from_slice(b" and ")?;
    put_unprotected_number(text, alloc, told, accesses.1)?;
    let tail = format!(in alloc; " hold lock {lock}")?;
    text.extend_from_slice(tail.as_bytes())?;
    Ok(())
}

/// Adds what kind of word it is, and its address.
fn put_unprotected_name(
    text: &mut Vec<u8>,
    alloc: Global,
    word: Unprotected,
) -> Result<(), AllocError> {
    let Unprotected {
        address,
        guarded,
        ..
    } = word;
    let name = match guarded {
        Some(_) => "unprotected",
        None => "handed over",
    };
    let head = format!(in alloc; "{name} {address}: ")?;
    text.extend_from_slice(head.as_bytes())?;
    Ok(())
}

/// Adds the line of a word that needs a lock and has none: at times, or never, and then it is handed over.
fn put_unprotected_word(
    text: &mut Vec<u8>,
    alloc: Global,
    told: ToldEvents<'_>,
    word: Unprotected,
) -> Result<(), AllocError> {
    let Unprotected {
        unguarded,
        guarded,
        ..
    } = word;
    put_unprotected_name(text, alloc, word)?;
    put_unprotected_maker(text, alloc, told, unguarded.0)?;
    text.extend_from_slice(b" and ")?;
    put_unprotected_maker(text, alloc, told, unguarded.1)?;
    text.extend_from_slice(b" hold no lock in common")?;
    if let Some(guarded) = guarded {
        put_unprotected_guard(text, alloc, told, guarded)?;
    }
    text.push(b'\n')?;
    Ok(())
}

/// Adds a line for each of these words. The only error is running out of memory.
pub(crate) fn put_unprotected_text(
    text: &mut Vec<u8>,
    alloc: Global,
    told: ToldEvents<'_>,
    words: &[Unprotected],
) -> Result<(), AllocError> {
    for word in words {
        put_unprotected_word(text, alloc, told, *word)?;
    }
    Ok(())
}
