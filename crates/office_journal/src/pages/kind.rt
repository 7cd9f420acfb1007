//! What an entry can tell.

/// What an entry tells: that a session was submitted or withdrawn, which rule was done, that a frame was made, or what one that came
/// was.
#[derive(Clone, Copy)]
pub enum Kind {
    Submitted,
    Withdrew,
    Start,
    Hungry,
    AskFork,
    GiveFork,
    Eat,
    Leave,
    AskBottle,
    GiveBottle,
    Drink,
    Work,
    Finish,
    Sent,
    Acked,
    Taken,
    Repeat,
    Kept,
    Early,
}
