//! Why a run can't begin.

ghost use Rattle.std.specs.Prelude.{◌≡◌};
ghost use Rattle.office_stations.specs.declared.opening.OpeningFault.TheVariants.{Memory};

use std::alloc::{AllocError, AllocFailed};
use std::io::ErrorKind;
use std::net::SocketAddr;

/// Why a run can't begin: then nothing was done. Or memory lacks to tell of it.
///
/// What ends a run that began is another type (`RunFault`), so that a socket that fails in a run can't be told as a
/// clock that can't be read. Want of memory is in both. A socket that lacks memory is told as one that can't have its
/// address, with that cause.
#[derive(Clone, Copy, Debug, PartialEq, Eq)]
pub enum OpeningFault {
    Memory,
    /// A socket can't have this address, and why.
    BindFailed(SocketAddr, ErrorKind),
    /// The clock can't be read.
    NoClock,
}

impl From<AllocError> for OpeningFault {
    ghost from_gives = { λ _ e. e ≡ Memory };

    fn from(_e: AllocError) -> OpeningFault {
        OpeningFault::Memory
    }
}

impl<T: Drop> From<AllocFailed<T>> for OpeningFault {
    ghost from_gives = { λ _ e. e ≡ Memory };

    fn from(_e: AllocFailed<T>) -> OpeningFault {
        OpeningFault::Memory
    }
}
