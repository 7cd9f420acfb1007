//! What a client asks of an office, out of bytes that come as they come.
//!
//! - A [`RequestReader`] takes a line at a time. A client asks for a session, for a session under a ticket (a line `ticket T`
//!   before it), or for a record's value (a line `value NAME`); what can't be read is told with its line (`ask`, in
//!   `specs/requests/Requests.antt`). A session after a line `ticket` is never asked for without that ticket.
//! - An [`Intake`] cuts bytes into such lines, in whatever parts they come (`specs/requests/Bytes.antt`). What is asked hangs on the bytes
//!   alone ([`laws::parts_are_one`]), and a text asks for what its lines ask for, one after the other ([`laws::texts_are_asked`]).
//!
//! It stands on `session_streams`. A line of more than a mebibyte is told as one that is too long, and isn't kept. Neither the
//! lines nor what is asked have a limit. After want of memory nobody reads on.

mod asked;
mod intake;
pub mod laws;
mod line_number;
mod lines;
mod requests;

pub use crate::requests::asked::Asked;
pub use crate::requests::intake::Intake;
pub use crate::requests::requests::RequestReader;
