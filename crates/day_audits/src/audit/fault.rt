//! Why a text isn't gathered.

use journal_texts::JournalFault;
use office_map::OfficeId;
use thiserror::Error;

/// Why a text isn't gathered with those before it.
#[derive(Clone, Copy, Debug, PartialEq, Eq, Error)]
pub enum GatherFault {
    /// It is no journal under the plan; or memory ran out.
    #[error("{0}")]
    Unread(JournalFault),
    /// It is the journal of an office whose journal is there already.
    #[error("the journal of office {} is there already", .0.number())]
    Twice(OfficeId),
}
