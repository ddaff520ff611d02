//! The elements that a picture's file consists of.

use crate::picture_grid::Point;
use crate::svg::Svg;

/// Half of what is from a row to the next, in pixels: nothing stands there between two rows but bars.
pub const HALF_ROW: usize = 12;

/// How words stand at a point.
#[derive(Clone, Copy)]
pub enum WordStyle {
    /// Above the picture.
    Title,
    /// Above a processor's line.
    Head,
    /// Left of all lines.
    Number,
    /// Right of a mark.
    Label,
    /// Left of a mark.
    Race,
}

/// What words of this style begin with, up to how far to the right they are.
fn element_opening(style: WordStyle) -> &'static str {
    match style {
        WordStyle::Title => "<text class=\"title\" x=\"",
        WordStyle::Head => "<text class=\"head\" dx=\"-8\" x=\"",
        WordStyle::Number => "<text class=\"number\" dy=\"4\" x=\"",
        WordStyle::Label => "<text dx=\"14\" dy=\"4\" x=\"",
        WordStyle::Race => "<text class=\"beside\" dx=\"-16\" dy=\"4\" x=\"",
    }
}

/// Begins words at this point.
pub fn open_words_element(text: &mut Svg, style: WordStyle, at: Point) {
    text.put_number(element_opening(style), at.x);
    text.put_number("\" y=\"", at.y);
    text.put("\">");
}

/// Ends words.
pub fn close_words_element(text: &mut Svg) {
    text.put("</text>\n");
}

/// Puts words at this point.
pub fn put_words_element(text: &mut Svg, style: WordStyle, at: Point, words: &str) {
    open_words_element(text, style, at);
    text.put(words);
    close_words_element(text);
}

/// Puts a line of this class.
pub fn put_line_element(text: &mut Svg, class: &str, from: Point, to: Point) {
    text.put("<line class=\"");
    text.put(class);
    text.put_number("\" x1=\"", from.x);
    text.put_number("\" y1=\"", from.y);
    text.put_number("\" x2=\"", to.x);
    text.put_number("\" y2=\"", to.y);
    text.put("\"/>\n");
}

/// Puts the mark of this name, of this class.
pub fn put_mark_element(text: &mut Svg, class: &str, name: &str, at: Point) {
    text.put("<use class=\"");
    text.put(class);
    text.put("\" href=\"#");
    text.put(name);
    text.put_number("\" x=\"", at.x);
    text.put_number("\" y=\"", at.y);
    text.put("\"/>\n");
}

/// Begins a path of this class at this point. What follows is how it goes on.
pub fn open_path_element(text: &mut Svg, class: &str, from: Point) {
    text.put("<path class=\"");
    text.put(class);
    text.put_number("\" d=\"M", from.x);
    text.put_number(" ", from.y);
}

/// Ends a path.
pub fn close_path_element(text: &mut Svg) {
    text.put("\"/>\n");
}
