//! What standard error gets of a script's fault behind its first line: the place, that line of the script with a caret under
//! the word, what may stand there, and what the likely cause is.
//!
//! **What contracts see.** The script's bytes and the text as plain lists.
//!
//! **What is proved.** `hint` returns the place, and then the line of the script that has this number (`excerpt_line_at`), as far as it
//! is shown. A caret is under one of its bytes (`excerpt_text`), and then comes what is said of that (`IsHintExcerpt`).
//!
//! **What is only tested**, by whole runs of the program: which word the caret is under, and all other lines. They are guesses
//! for a reader: what is told of the fault itself, the script's reader has answered.

mod advice;
mod amiss;
mod excerpt;
mod forms;
pub mod hint;
