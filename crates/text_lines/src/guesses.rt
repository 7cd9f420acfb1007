//! Where names were found last.

ghost use Rattle.std.specs.Prelude.{◌≡◌, ◌≢◌, ◌<◌, ◌≤◌, AllPairs, length, position};
ghost use Rattle.std.specs.Str.{bytes_eq};

use crate::name_places::place_of_name;
use crate::short::ShortName;

/// For names of each key, where the last one stood that was found. A place may be of another list by now: it is only
/// where to look first.
///
/// There is a place for each of 64 keys. It is believed only where the name stands there, and since the names of a list
/// differ, that is the name's place. A table that is always right would be one more thing to keep through each change of
/// the list, and each refusal of one.
#[derive(Clone, Copy)]
pub struct Guesses {
    last: [u8; 64],
}

impl Guesses {
    pub fn new() -> Guesses {
        Guesses { last: [0; 64] }
    }

    /// The place of a name in a list of different ones.
    pub fn find_name(&mut self, names: &[ShortName], name: &ShortName) -> Option<usize>
        requires distinct { AllPairs (λ a b. a ≢ b) names.now }
        requires few { length names.now ≤ 255 }
        ensures { result ≡ position (λ v. bytes_eq v name.now) names.now }
    {
        let key = short_key(name);
        let place = self.last[key] as usize;
        if place < names.len() && names[place].is(name) {
            return Some(place);
        }
        let place = place_of_name(names, name)?;
        self.last[key] = place as u8;
        Some(place)
    }
}

/// A number that names of one list seldom share.
fn short_key(name: &ShortName) -> usize
    ensures { result < 64 }
{
    (name.key() >> 32) as usize % 64
}
