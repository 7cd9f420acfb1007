//! Turns of an office whose frames leave only when their entries stand in a store.
//!
//! - [`turn`] does what the pump's does (clause `turned`, definitions in `specs/durable/Letting.antt`): it fetches what came from the wire
//!   into the [`Mail`], has the pump turn between the office and the mail, appends the entries that are new to the store, and then
//!   posts the frames that were made. Whatever the answer is, the store has the text of the journal's first entries (`has`), and
//!   each datagram that left is of a frame whose entry is among these (`lets_out`): a loss at any moment is a turn whose calls
//!   fail from then on. What a start may find after a failed append is a beginning of the journal's text (`found`). At a fault
//!   nothing was done at the office but what a pump does (`broke`, definitions in `specs/durable/Breaking.antt`).
//!
//! What came is fetched first and frames are posted last, with a wire of fixed room in memory between: the pump and its
//! contract stay as they are, and all entries of a turn share one sync.
//!
//! Not said: that what an Ok of the store said stands is found, and what a file has; that the wire failed where the
//! answer is WireFailed, since its mail may have no room (private clauses of a pump rule that out); at a fault, which
//! of the three cases it was, what was heard, and what the pump takes for sent.

mod fault;
mod letter;
mod mail;
mod posting;
mod standing;
mod turning;

pub use crate::durable::fault::TurnFault;
pub use crate::durable::mail::Mail;
pub use crate::durable::standing::stand_office;
pub use crate::durable::turning::turn;
