//! Why an office serves no more.

ghost use Rattle.std.specs.Prelude.{◌≡◌};
ghost use Rattle.serving.specs.declared.fault.ServeFault.TheVariants as faults;

use std::io::ErrorKind;
use stored_runs::StoredFault;

/// Why an office serves no more, before its time. What stood, and was told, stands.
#[derive(Clone, Copy, Debug, PartialEq, Eq)]
pub enum ServeFault {
    /// As of a run with a store.
    Run(StoredFault),
    /// What the client asks can't be read.
    InputFailed(ErrorKind),
}

impl From<StoredFault> for ServeFault {
    ghost from_gives = { λ f e. e ≡ faults.Run f };

    fn from(fault: StoredFault) -> ServeFault {
        ServeFault::Run(fault)
    }
}
