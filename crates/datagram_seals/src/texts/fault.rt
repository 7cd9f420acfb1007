//! Why a text says no secrets of an office.

ghost use Rattle.std.specs.Prelude.{◌≡◌};
ghost use Rattle.datagram_seals.specs.declared.texts.fault.SecretFault.TheVariants.{Memory};

use office_map::OfficeId;
use std::alloc::{AllocError, AllocFailed};
use thiserror::Error;

/// The rule that a line breaks.
#[derive(Clone, Copy, Debug, PartialEq, Eq, Error)]
pub enum SecretRule {
    #[error("K1 Secret")]
    Secret,
    #[error("K2 NotNeighbours")]
    NotNeighbours,
    #[error("K3 SecretTwice")]
    SecretTwice,
}

/// The rule that a neighbour without a secret breaks, which no line does.
pub const NO_SECRET_RULE: &str = "K4 NoSecret";

/// The first fault of a text.
#[derive(Clone, Copy, Debug, PartialEq, Eq, Error)]
pub enum SecretRefusal {
    /// A line breaks a rule: the first that does, by its number, from 1.
    #[error("line {1}: {0}")]
    AtLine(SecretRule, u64),
    /// No line breaks a rule, and none has a secret with this neighbour, the one of the least number.
    #[error("{rule}", rule = NO_SECRET_RULE)]
    NoSecret(OfficeId),
}

/// Why there are no secrets.
#[derive(Clone, Copy, Debug, PartialEq, Eq, Error)]
pub enum SecretFault {
    #[error("out of memory")]
    Memory,
    #[error("{0}")]
    Refused(SecretRefusal),
}

impl From<AllocError> for SecretFault {
    ghost from_gives = { λ _ e. e ≡ Memory };

    fn from(_e: AllocError) -> SecretFault {
        SecretFault::Memory
    }
}

impl<T: Drop> From<AllocFailed<T>> for SecretFault {
    ghost from_gives = { λ _ e. e ≡ Memory };

    fn from(_e: AllocFailed<T>) -> SecretFault {
        SecretFault::Memory
    }
}

/// That a line of this number breaks the rule.
pub(crate) fn refused(rule: SecretRule, line: u64) -> SecretFault
    ensures { result ≡ SecretFault.Refused (SecretRefusal.AtLine rule line) }
{
    SecretFault::Refused(SecretRefusal::AtLine(rule, line))
}
