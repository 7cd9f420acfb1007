//! Why an office doesn't get its secrets.

ghost use Rattle.std.specs.Prelude.{◌≡◌};
ghost use Rattle.command_outputs.specs.declared.secrets.fault.SecretsFault.TheVariants.{Memory};

use datagram_seals::texts::SecretRefusal;
use serial_command::reading::causes::read_cause;
use std::alloc::{AllocError, AllocFailed};
use std::io::ErrorKind;
use thiserror::Error;

/// Why an office doesn't get its secrets.
#[derive(Debug, Drop, PartialEq, Eq, Error)]
pub enum SecretsFault {
    #[error("out of memory")]
    Memory,
    /// Their file isn't there, or can't be read.
    #[error("X4 ReadFailed: it cannot be read: {cause}; nothing was run", cause = read_cause(*.0))]
    Failed(ErrorKind),
    /// Others than its owner may read or write it.
    #[error("K5 OpenToOthers: others than its owner may read or write it, and a secret is for an office alone: chmod 600 takes that from them; nothing was run")]
    OpenToOthers,
    /// Its text is refused, and what people are told of that.
    #[error("{1}; nothing was run")]
    Refused(SecretRefusal, String),
}

impl From<AllocError> for SecretsFault {
    ghost from_gives = { λ _ e. e ≡ Memory };

    fn from(_e: AllocError) -> SecretsFault {
        SecretsFault::Memory
    }
}

impl<T: Drop> From<AllocFailed<T>> for SecretsFault {
    ghost from_gives = { λ _ e. e ≡ Memory };

    fn from(_e: AllocFailed<T>) -> SecretsFault {
        SecretsFault::Memory
    }
}
