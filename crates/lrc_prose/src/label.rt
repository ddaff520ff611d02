//! What an event did, in a reader's words.

use crate::text::ProseText;
use journal::Kind;

/// Puts what an event did, as it stands in its lane.
pub fn put_prose_label(text: &mut ProseText, kind: Kind) {
    match kind {
        Kind::Load(address, word) => put_access_prose_label(text, "load ", address, " -> ", word),
        Kind::Store(address, word) => put_access_prose_label(text, "store ", address, " <- ", word),
        Kind::Fetch { page, .. } => text.put_number("fetch page ", page),
        Kind::Ask(lock) => text.put_number("ask ", lock),
        Kind::Acquire(lock) => text.put_number("acquire ", lock),
        Kind::Release(lock) => text.put_number("release ", lock),
        Kind::Arrive => text.put("arrive"),
        Kind::Depart => text.put("depart"),
        Kind::Set(flag) => text.put_number("set ", flag),
        Kind::Watch(flag) => text.put_number("watch ", flag),
        Kind::Await(flag) => text.put_number("await ", flag),
    }
}

/// Puts an access with this name.
fn put_access_prose_label(
    text: &mut ProseText,
    name: &str,
    address: usize,
    arrow: &str,
    word: u32,
) {
    text.put_number(name, address);
    text.put_number(arrow, word);
}
