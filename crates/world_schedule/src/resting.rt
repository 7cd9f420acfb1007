//! Which offices have nothing to do.

ghost use Rattle.std.specs.Prelude.{◌≡◌, ◌<◌, false, get_or, set};
ghost use Rattle.frame_world.specs.Worlds.{World};
ghost use Rattle.world_schedule.specs.Resting.{RestIn};
ghost use Rattle.world_schedule.specs.refinement.Marks.{marks_of, marked};

use crate::sought::Sought;
use office_map::OfficeId;
use std::marker::Model;

/// Which offices had no rule next when they were last asked, and which had no message, so that they aren't asked again
/// before they change.
///
/// Only the office that did a rule, or that a message came to, can have got something to do. The note is the caller's
/// and no part of the world, so there is no second truth beside the journals. A clause says that what it notes is so in
/// the world after the step; without it (`World::next_step`) every office is asked, and no memory is taken.
#[derive(Drop)]
pub struct Resting {
    rules: [bool; 16],
    messages: [bool; 16],
}

impl Model for Resting {
    ghost use Rattle.world_schedule.specs.Resting as specs;

    ghost Value = { specs.Resting };

    ghost view = { λ r. record { rules = r.rules; messages = r.messages } };
}

impl Resting {
    /// None was asked: that is right of every world.
    pub fn new() -> Resting
        ensures { (w : World) → RestIn w result }
    {
        Resting {
            rules: [false; 16],
            messages: [false; 16],
        }
    }

    pub(crate) fn has_none(&self, sought: Sought, office: OfficeId) -> bool
        requires { office < 16 }
        ensures { result ≡ get_or (marks_of sought self.now) office false }
    {
        match sought {
            Sought::Rule => self.rules[office.index()],
            Sought::Message => self.messages[office.index()],
        }
    }

    pub(crate) fn found_none(&mut self, sought: Sought, office: OfficeId)
        requires { office < 16 }
        ensures { self.new ≡ marked sought self.old office }
    {
        match sought {
            Sought::Rule => self.rules[office.index()] = true,
            Sought::Message => self.messages[office.index()] = true,
        }
    }

    /// It has changed, so it is asked again.
    pub(crate) fn wake(&mut self, office: OfficeId)
        requires { office < 16 }
        ensures { self.new ≡ record { rules = set self.old.rules office false; messages = set self.old.messages office false } }
    {
        self.rules[office.index()] = false;
        self.messages[office.index()] = false;
    }
}
