//! What a running session has.

use session_meaning::{Gives, Variables, WorkingCopy};

/// A running session's copy of the records that it needs, its variables, and what it gave.
#[derive(Drop)]
pub struct Environment {
    pub records: WorkingCopy,
    pub variables: Variables,
    pub gives: Gives,
}
