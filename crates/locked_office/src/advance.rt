//! Rules that an office does one after the other.

ghost use Rattle.std.specs.Prelude.{◌<◌};
ghost use Rattle.locked_office.specs.Advance.{Advances};

use site_core::laws::{next_is_done_where_there_is_room, steps_add_their_entry};
use site_core::{Office, Refusal};

/// The rule that came next was refused, after so many others were done.
#[derive(Clone, Copy, Debug, PartialEq, Eq)]
pub struct Stopped {
    pub done: u32,
    pub refusal: Refusal,
}

/// At most so many rules, each the one that comes next.
pub fn do_rules(office: &mut Office, tag: u8, most: u32) -> Result<u32, Stopped>
    requires { tag < 16 }
    ensures { Advances tag most result office.old office.new }
{
    steps_add_their_entry();
    next_is_done_where_there_is_room();
    for done in 0..most {
        let Some(rule) = office.next_rule() else {
            return Ok(done);
        };
        match office.act(tag, rule) {
            Ok(_) => {}
            Err(refusal) => return Err(Stopped { done, refusal }),
        }
    }
    Ok(most)
}
