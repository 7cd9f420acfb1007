//! Why a text is no plan.

ghost use Rattle.std.specs.Prelude.{◌≡◌};
ghost use Rattle.office_map.specs.declared.fault.PlanFault.TheVariants.{Memory};

use crate::ring::Ring;
use std::alloc::{AllocError, AllocFailed};
use thiserror::Error;

/// The rule that a line of a plan's text breaks.
#[derive(Clone, Copy, Debug, PartialEq, Eq, Error)]
pub enum PlanRule {
    #[error("P1 Header")]
    Header,
    #[error("P2 Line")]
    Line,
    #[error("P3 NameTwice")]
    NameTwice,
    #[error("P4 UnknownName")]
    UnknownName,
    #[error("P5 SelfPair")]
    SelfPair,
    #[error("P6 PairTwice")]
    PairTwice,
    #[error("P7 Limit")]
    Limit,
}

/// The first rule that is broken, and the number of the line that breaks it: from 1, or 0
/// where no line does.
#[derive(Clone, Copy, Debug, PartialEq, Eq, Error)]
#[error("line {line}: {rule}")]
pub struct PlanRefusal {
    pub rule: PlanRule,
    pub line: u64,
}

/// The rule that a ring breaks, which no line does.
pub const RING_RULE: &str = "P8 Ring";

/// Why there is no plan.
///
/// A ring is no rule of a line: `PlanRule` has the codes that come with a line. What the lines mean (`plan_of`) is told
/// without it, and `Answers` says what reading makes of both.
#[derive(Debug, Drop, Error)]
pub enum PlanFault {
    #[error("out of memory")]
    Memory,
    /// A rule is broken by a line, or by a text that is too long or has too few offices.
    #[error("{0}")]
    Refused(PlanRefusal),
    /// No line is at fault, but the forks start so that some offices precede one another in a ring.
    #[error("{rule}: {0} (each precedes the next, and the last the first)", rule = RING_RULE)]
    Ring(Ring),
}

impl From<AllocError> for PlanFault {
    ghost from_gives = { λ _ e. e ≡ Memory };

    fn from(_e: AllocError) -> PlanFault {
        PlanFault::Memory
    }
}

impl<T: Drop> From<AllocFailed<T>> for PlanFault {
    ghost from_gives = { λ _ e. e ≡ Memory };

    fn from(_e: AllocFailed<T>) -> PlanFault {
        PlanFault::Memory
    }
}

pub(crate) fn refused(rule: PlanRule, line: u64) -> PlanFault
    ensures { result ≡ PlanFault.Refused (record { rule = rule; line = line }) }
{
    PlanFault::Refused(PlanRefusal { rule, line })
}
