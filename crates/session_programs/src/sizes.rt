//! How long a session is, and whether it is longer than one may be.
//!
//! [`are_too_long`] looks at the statements of a session, its cost, and the bytes of its canonical text where each office and record
//! has a name of 16 (`is_too_long`, in `specs/sizes/Program.antt` of `session_programs`). The text isn't made: its bytes are summed over the
//! nodes of each expression (`specs/sizes/refinement/TextSizes.antt`), and those of a short session aren't even that.

pub mod limits;
mod sizes;

pub use crate::sizes::sizes::are_too_long;
