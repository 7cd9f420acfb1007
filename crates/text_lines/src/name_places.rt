//! The places of names in lists.

ghost use Rattle.std.specs.Prelude.{◌≡◌, position};
ghost use Rattle.std.specs.Str.{bytes_eq};

use crate::short::ShortName;

/// The place of a name.
pub fn place_of_name(names: &[ShortName], name: &ShortName) -> Option<usize>
    ensures { result ≡ position (λ v. bytes_eq v name.now) names.now }
{
    names.iter().position(|v| v.is(name))
}
