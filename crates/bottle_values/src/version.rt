//! Versions of plans.

ghost use Rattle.std.specs.Prelude.{◌≡◌};
ghost use Rattle.bottle_values.specs.Versions.{number_of, admits};

use crate::Value;

/// The version of a plan, and of each frame of its run.
#[derive(Clone, Copy, Debug, PartialEq, Eq, Hash)]
pub enum Version {
    /// Values are numbers.
    One,
    /// Values are numbers or texts.
    Two,
}

impl Version {
    /// Its number, which plans and frames tell.
    pub fn number(self) -> u8
        ensures { result ≡ number_of self }
    {
        match self {
            Version::One => 1,
            Version::Two => 2,
        }
    }

    /// Whether a value can be one of a run of this version.
    pub fn admits(self, value: Value) -> bool
        ensures { result ≡ admits self value }
    {
        match self {
            Version::One => match value {
                Value::Number(_) => true,
                Value::Text(_) => false,
            },
            Version::Two => true,
        }
    }
}
