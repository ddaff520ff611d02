//! The text of a picture's file, put together piece by piece.
ghost use Rattle.std.specs.Prelude.{◌≡◌, ◌≤◌, ◌+◌, ◌++◌, [], IfOk, IsOk, OnOk, length, string_bytes};
ghost use Rattle.std.specs.Fmt.{decimal};

use itoa::Buffer;
use std::alloc::{AllocError, Global};

/// A text that grows, as it stands in an SVG file. Who puts something needn't ask whether there was memory for it: where a
/// growth is refused, nothing more is put, and `finish` answers the refusal.
#[derive(Drop)]
pub struct Svg {
    text: String,
    /// Whether each growth was granted so far.
    granted: Result<(), AllocError>,
}

impl Svg {
    /// An empty one.
    pub fn new(alloc: Global) -> Svg
        ensures { string_bytes result.text ≡ [] }
    {
        Svg {
            text: String::new(alloc),
            granted: Ok(()),
        }
    }

    /// Adds these words, unless a growth was refused.
    pub fn put(&mut self, words: &str)
        ensures stays { OnOk self.new.granted (IsOk self.old.granted) }
        ensures grown { OnOk self.new.granted (string_bytes self.new.text ≡ string_bytes self.old.text ++ words.now) }
        ensures short { length (string_bytes self.new.text) ≤ length (string_bytes self.old.text) + length words.now }
    {
        if self.granted.is_ok() {
            self.granted = self.text.push_str(words);
        }
    }

    /// Adds these words, and a number behind them.
    pub fn put_number(&mut self, words: &str, number: usize)
        ensures stays { OnOk self.new.granted (IsOk self.old.granted) }
        ensures grown { OnOk self.new.granted (string_bytes self.new.text
            ≡ string_bytes self.old.text ++ (words.now ++ decimal number)) }
        ensures short { length (string_bytes self.new.text)
            ≤ length (string_bytes self.old.text) + (length words.now + 20) }
    {
        self.put(words);
        let mut buffer = Buffer::new();
        self.put(buffer.format(number));
    }

    /// Adds this character as it stands in a file of XML; a `?` for one that can't.
    fn put_character(&mut self, character: char) {
        match character {
            '<' => self.put("&lt;"),
            '&' => self.put("&amp;"),
            '\u{0}'..='\u{1f}' | '\u{fffe}'..='\u{ffff}' => self.put("?"),
            _ => {
                if self.granted.is_ok() {
                    self.granted = self.text.push(character);
                }
            }
        }
    }

    /// Adds these words, each character as it stands in a file of XML.
    pub fn put_escaped(&mut self, words: &str) {
        for character in words.chars() {
            self.put_character(character);
        }
    }

    /// The text. The only error is running out of memory: a growth was refused.
    pub fn finish(self) -> Result<String, AllocError>
        ensures granted { OnOk result (IsOk self.granted) }
        ensures text { IfOk result (λ s. s ≡ self.text) }
    {
        let Svg { text, granted } = self;
        granted?;
        Ok(text)
    }
}
