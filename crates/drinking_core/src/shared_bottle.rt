//! What an office has of a record.

ghost use Rattle.std.specs.Prelude.{◌≡◌, ◌&&◌, not, is_some};

use bottle_values::Value;
use office_map::OfficeId;

/// What an office has of a record: the bottle with its value if it is here, whether the bottle's request token is here,
/// and the record's other end.
#[derive(Clone, Copy, PartialEq, Eq)]
pub struct SharedBottle {
    pub bottle: Option<Value>,
    pub token: bool,
    pub peer: OfficeId,
}

impl SharedBottle {
    /// Whether the bottle isn't here, and may be asked for.
    pub(crate) fn is_askable(&self) -> bool
        ensures { result ≡ (not (is_some self.now.bottle) && self.now.token) }
    {
        self.bottle.is_none() && self.token
    }

    /// Whether the bottle is here, and is asked for.
    pub(crate) fn is_owed(&self) -> bool
        ensures { result ≡ (self.now.token && is_some self.now.bottle) }
    {
        self.token && self.bottle.is_some()
    }
}
