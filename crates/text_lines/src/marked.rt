//! The words of a text's lines, by marks of 64 bytes at once.
//!
//! [`next_words`] gives what `Statements::next` does, with the line's words beside it where the line is plain: [`Words`], one after the
//! other. Each block of 64 bytes of the text is looked at once for the line's end and whether it is plain, and once for its blanks; so
//! that short words cost no look of their own.
//!
//! A load of 64 bytes goes on behind the line's end, so no line has to be long. In the last 64 bytes of a text, and in lines with tabs
//! or a CR, lines and words are found as `text_lines` does. Definitions: those of `text_lines`, and `specs/marked/Words.antt`.
//!
//! No call takes memory.

mod marked;
mod marks;
mod statements;
#[cfg(test)]
mod tests;
mod words;

pub use statements::next_words;
pub use words::Words;
