//! What the words of a command stand for: the plan and the sessions, as their texts are read and judged, and what is wrong with a text.
//!
//! - [`read_plan`] and [`read_programs`] read the text that a word stands for up to its limit, and answer what it means under what is
//!   known (clause `meaning`); or which refusal its whole text has, that it can't be read, or that memory ran out (clause `fault`).
//! - [`read_coded_programs`] gives the same programs as [`read_programs`], with their code: for commands that submit them.
//! - [`text`] reads the text of any input up to a limit, and answers just what [`host_files::inputs`] has of it (clause `text`).
//! - [`TextFault`] is what is wrong with a text. It has the refusal, and the whole sentence that people are told of it: its line, also
//!   in the standard input where that begins further up, its rule, and what was found.
//!
//! Scripts and journals are read by the commands that take them (`drink_commands`), so nothing here stands on offices.

pub mod causes;
pub mod fault;
pub mod input;
pub mod texts;

pub use fault::TextFault;
pub use input::Input;
pub use texts::{at_line, lines_above, read_coded_programs, read_plan, read_programs, text};
