//! Submitted sessions.

use session_programs::Program;

/// A submitted session: its number at its office, from 1, and its program.
#[derive(Drop)]
pub struct Session {
    pub ticket: u32,
    pub program: Program,
}
