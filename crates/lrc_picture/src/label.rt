//! The words beside an event's mark.
ghost use Rattle.std.specs.Prelude.{ℕ, ◌≡◌, ◌≤◌, ◌+◌, ◌++◌, IfOk, IsOk, OnOk, codes, length, string_bytes};
ghost use Rattle.std.specs.Fmt.{decimal};
ghost use Rattle.journal.specs.declared.event.Event.{Event};
ghost use Rattle.journal.specs.Events.{EventAt};
ghost use Rattle.lrc_picture.specs.Prelude.{picture_label_text};

use crate::svg::Svg;
use journal::{Event, Kind};
use std::alloc::{AllocError, Global};

/// Puts what is said of a load or a store.
fn put_access_in_picture_label(text: &mut Svg, name: &str, address: usize, arrow: &str, word: u32)
    ensures stays { OnOk text.new.granted (IsOk text.old.granted) }
    ensures grown { OnOk text.new.granted (string_bytes text.new.text
        ≡ string_bytes text.old.text ++ (name.now ++ (decimal address ++ (arrow.now ++ decimal word)))) }
    ensures short { length (string_bytes text.new.text)
        ≤ length (string_bytes text.old.text) + (length name.now + (length arrow.now + 40)) }
{
    text.put_number(name, address);
    text.put_number(arrow, word as usize);
}

/// Puts what is said of a fetch.
fn put_fetch_in_picture_label(text: &mut Svg, page: usize, writers: u32, records: u32, words: u32)
    ensures stays { OnOk text.new.granted (IsOk text.old.granted) }
    ensures grown { OnOk text.new.granted (string_bytes text.new.text ≡ string_bytes text.old.text
        ++ (codes "fetch " ++ (decimal page ++ (codes " (" ++ (decimal writers ++ (codes ", "
        ++ (decimal records ++ (codes ", " ++ (decimal words ++ codes ")"))))))))) }
    ensures short { length (string_bytes text.new.text) ≤ length (string_bytes text.old.text) + 96 }
{
    text.put_number("fetch ", page);
    text.put_number(" (", writers as usize);
    text.put_number(", ", records as usize);
    text.put_number(", ", words as usize);
    text.put(")");
}

/// Puts what is said of an event beside its mark.
pub fn put_picture_label(text: &mut Svg, kind: Kind)
    ensures stays { OnOk text.new.granted (IsOk text.old.granted) }
    ensures grown { OnOk text.new.granted (string_bytes text.new.text ≡ string_bytes text.old.text ++ picture_label_text kind) }
    ensures short { length (string_bytes text.new.text) ≤ length (string_bytes text.old.text) + 96 }
{
    match kind {
        Kind::Load(address, word) => put_access_in_picture_label(
            text, "load ", address, " -> ", word,
        ),
        Kind::Store(address, word) => put_access_in_picture_label(
            text, "store ", address, " &lt;- ", word,
        ),
        Kind::Fetch {
            writers,
            page,
            records,
            words,
        } => put_fetch_in_picture_label(text, page, writers, records, words),
        Kind::Ask(lock) => text.put_number("ask ", lock),
        Kind::Acquire(lock) => text.put_number("acquire ", lock),
        Kind::Release(lock) => text.put_number("release ", lock),
        Kind::Arrive => text.put("arrive"),
        Kind::Depart => text.put("depart"),
        Kind::Set(flag) => text.put_number("set ", flag),
        Kind::Watch(flag) => text.put_number("watch ", flag),
        Kind::Await(flag) => text.put_number("await ", flag),
    }
}

/// What is said of an event beside its mark, as it stands in the picture's file, in at most 96 bytes. The only error is
/// running out of memory.
pub fn picture_label(alloc: Global, kind: Kind) -> Result<String, AllocError>
    ensures text { IfOk result (λ s. string_bytes s ≡ picture_label_text kind) }
    ensures short { IfOk result (λ s. length (string_bytes s) ≤ 96) }
{
    let mut text = Svg::new(alloc);
    put_picture_label(&mut text, kind);
    text.finish()
}

/// The greater of two numbers.
fn greater(a: usize, b: usize) -> usize
    ensures first { a ≤ result }
    ensures second { b ≤ result }
    ensures least { (n : ℕ) → a ≤ n → b ≤ n → result ≤ n }
{
    if a < b { b } else { a }
}

/// How many bytes the longest label of these events has; 0 where there is none. The only error is running out of memory.
pub fn widest_picture_label(alloc: Global, events: &[Event]) -> Result<usize, AllocError>
    ensures fits { IfOk result (λ most. (k : ℕ) (e : Event) → EventAt events.now k e
        → length (picture_label_text e.kind) ≤ most) }
    ensures short { IfOk result (λ most. most ≤ 96) }
{
    let mut most = 0;
    for event in events {
        let text = picture_label(alloc, event.kind)?;
        most = greater(most, text.as_bytes().len());
    }
    Ok(most)
}
