//! What an office may do.

use office_map::{OfficeId, RecordId};

/// A rule of an office. Its guard is `may`, and its effect `act`, in `specs/Offices.antt` of `site_core`.
#[derive(Clone, Copy, Debug, PartialEq, Eq)]
pub enum Rule {
    /// The first waiting session becomes the current one.
    Start,
    /// A thirsty office wants to eat.
    Hungry,
    /// The request token of a neighbour's fork is sent.
    AskFork(OfficeId),
    /// A dirty fork is sent to the neighbour who asked for it.
    GiveFork(OfficeId),
    /// An office that has all its forks eats.
    Eat,
    /// An office that isn't thirsty any more stops eating.
    Leave,
    /// The request token of a needed record's bottle is sent.
    AskBottle(RecordId),
    /// A record's bottle is sent, with its value.
    GiveBottle(RecordId),
    /// The session's work begins on a copy of the needed values.
    Drink,
    /// At most so many instructions of the session's work, 1 to 1,000.
    Work(u16),
    /// The session's writes go into its bottles, and its outcome is kept.
    Finish,
}
