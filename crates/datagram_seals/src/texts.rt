//! The secrets that an office shares with its neighbours, by a text of lines.
//!
//! [`read`] answers, for each office of a plan, the secret that the office shares with it, or the first fault of the text (clause
//! `meaning`). A line `secret A B HEX` names two neighbours, in either order, and has their key, of 16 to 64 bytes. No two lines name
//! the same two, and there is one for each neighbour of the office, so that it has a secret with each of them and with nobody else
//! (clause `neighbours`). Lines of other pairs are judged by the same rules, and are no secrets of the office.
//!
//! [`laws`] says that two offices which read one text have the same secret with each other, and that each secret of an office is that
//! of a line which names it and the other.
//!
//! It stands on `text_lines`, for lines, words and names, on `office_map`, for plans, on `datagram_seals::frames`, for secrets, on
//! `bottle_values`, for what an answer is unless memory runs out, on the kit's `hex`, and on `thiserror`, for the messages of its
//! faults. Definitions: `specs/texts/SecretText.antt`; laws: `specs/texts/SecretLaws.antt`.
//!
//! Not said: that keys are hard to guess; that a key's bytes are overwritten when they are dropped. `Memory` may stand in place of each
//! answer.

mod fault;
mod key;
pub mod laws;
pub mod limits;
mod line;
mod reading;
mod shared;

pub use fault::{NO_SECRET_RULE, SecretFault, SecretRefusal, SecretRule};
pub use reading::read;
