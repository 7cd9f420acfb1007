//! What is looked for at an office.

/// The next rule of an office, or its next message.
#[derive(Clone, Copy)]
pub(crate) enum Sought {
    Rule,
    Message,
}
