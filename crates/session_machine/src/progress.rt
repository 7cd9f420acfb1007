//! How far work is.

/// Whether a session's work goes on.
#[derive(Clone, Copy, PartialEq, Eq)]
pub enum Progress {
    Running,
    Ended,
}
