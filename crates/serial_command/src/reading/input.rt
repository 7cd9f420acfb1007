//! The inputs of the commands.

/// What a command reads.
///
/// OFFICE is a word of the command line and no text, so it is none. What a fault of `run` says (`JudgesOffice`) has a
/// place for it between the plan and the sessions.
#[derive(Clone, Copy, Debug, PartialEq, Eq)]
pub enum Input {
    Plan,
    Sessions,
    Script,
    /// The journal that is named so many words after the plan, from 0.
    Journal(usize),
}
