//! The file in which an office has its secrets.
//!
//! [`read_secrets`] answers the secrets of an office by the text of the file of a name (clause `meaning`), or why it has none: the file
//! can't be read, others than its owner may use it, or its text is refused (clause `fault`). [`SecretsFault`] has the sentence that
//! people are told, in which no key is shown.
//!
//! A file is one of a disk: pipes, terminals and the standard input are none. One of more than 262,144 bytes is taken to have no end.
//!
//! Not said: who may use a file, which the system tells.

mod fault;
mod reading;
mod said;

pub use fault::SecretsFault;
pub use reading::read_secrets;
