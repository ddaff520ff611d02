//! The text of a picture of pages, and the elements that it consists of. Nothing is proved of it beyond that it is safe.

use itoa::{Buffer, Integer};
use std::alloc::{AllocError, Global};

/// How far below its middle a line of words stands, in pixels.
const BELOW: usize = 5;

/// A rectangle, in pixels from the picture's left upper corner.
#[derive(Clone, Copy)]
pub(crate) struct Area {
    pub(crate) x: usize,
    pub(crate) y: usize,
    pub(crate) width: usize,
    pub(crate) height: usize,
}

/// A text that grows, as it stands in an SVG file. Who puts something needn't ask whether there was memory for it: where a
/// growth is refused, nothing more is put, and `finish` answers the refusal.
#[derive(Drop)]
pub(crate) struct PageSvg {
    text: String,
    /// Whether each growth was granted so far.
    granted: Result<(), AllocError>,
}

impl PageSvg {
    /// An empty one.
    pub(crate) fn new(alloc: Global) -> PageSvg {
        PageSvg {
            text: String::new(alloc),
            granted: Ok(()),
        }
    }

    /// Adds these words, unless a growth was refused.
    pub(crate) fn put(&mut self, words: &str) {
        if self.granted.is_ok() {
            self.granted = self.text.push_str(words);
        }
    }

    /// Adds these words, and a number after them.
    pub(crate) fn put_number<N: Integer>(&mut self, words: &str, number: N) {
        self.put(words);
        let mut buffer = Buffer::new();
        self.put(buffer.format(number));
    }

    /// Adds these words, and how many words a page has after them.
    pub(crate) fn put_word_count(&mut self, words: &str, count: usize) {
        self.put_number(words, count);
        self.put(if count == 1 { " word" } else { " words" });
    }

    /// The text. The only error is running out of memory: a growth was refused.
    pub(crate) fn finish(self) -> Result<String, AllocError> {
        let PageSvg { text, granted } = self;
        granted?;
        Ok(text)
    }

    /// Begins words of this class at this point, whose middle line is at this height.
    pub(crate) fn open_words(&mut self, class: &str, x: usize, y: usize) {
        self.put("<text class=\"");
        self.put(class);
        self.put_number("\" x=\"", x);
        self.put_number("\" y=\"", y.saturating_add(BELOW));
        self.put("\">");
    }

    /// Ends words.
    pub(crate) fn close_words(&mut self) {
        self.put("</text>\n");
    }

    /// Puts words of this class.
    pub(crate) fn put_words(&mut self, class: &str, x: usize, y: usize, words: &str) {
        self.open_words(class, x, y);
        self.put(words);
        self.close_words();
    }

    /// Puts a number as words of this class.
    pub(crate) fn put_number_words<N: Integer>(
        &mut self,
        class: &str,
        x: usize,
        y: usize,
        number: N,
    ) {
        self.open_words(class, x, y);
        self.put_number("", number);
        self.close_words();
    }

    /// Puts a rectangle of this class.
    pub(crate) fn put_area(&mut self, class: &str, area: Area) {
        self.put("<rect class=\"");
        self.put(class);
        self.put_number("\" x=\"", area.x);
        self.put_number("\" y=\"", area.y);
        self.put_number("\" width=\"", area.width);
        self.put_number("\" height=\"", area.height);
        self.put("\"/>\n");
    }

    /// Puts a rectangle of this class with words of its meaning right of it.
    pub(crate) fn put_swatch(&mut self, class: &str, x: usize, y: usize, words: &str) {
        let area = Area {
            x,
            y: y.saturating_sub(6),
            width: 12,
            height: 12,
        };
        self.put_area(class, area);
        self.put_words("key", x.saturating_add(18), y, words);
    }
}
