//! What is held at an end.

ghost use Rattle.std.specs.Prelude.{◌≡◌, ◌++◌, ◌<◌, ◌≤◌, length, drop, IfOk, IsTrue};
ghost use Rattle.office_map.specs.PlanValue.{are_neighbours};
ghost use Rattle.token_channel.specs.Places.{holds, shares, waits, changed, with_token, places_of};

use crate::thing::{SharedThing, Thing};
use office_map::{OfficeId, Plan};
use std::alloc::{AllocError, Global};
use window_link::Waiting;

pub fn holds(places: &[SharedThing], thing: Thing) -> bool
    ensures { result ≡ holds places.now thing }
{
    places
        .iter()
        .any(|place| place.thing.is(thing) && place.held)
}

pub fn shares(places: &[SharedThing], thing: Thing) -> bool
    ensures { result ≡ shares places.now thing }
{
    places.iter().any(|place| place.thing.is(thing))
}

/// Whether it waits among the messages after so many older ones.
pub fn waits_after(thing: Thing, messages: &Waiting, known: usize) -> bool
    requires { known ≤ length messages.now }
    ensures { result ≡ waits thing (drop known messages.now) }
{
    for i in known..messages.len() {
        if thing.is(Thing::of(messages.message(i))) {
            return true;
        }
    }
    false
}

/// The thing came or went.
pub fn change(places: &mut Vec<SharedThing>, thing: Thing, held: bool)
    ensures { places.new.items ≡ changed places.old.items thing held }
{
    for place in places.iter_mut() {
        *place = place.with_held(thing, held);
    }
}

/// The things that two neighbours share, with what is held at the first as the plan starts.
pub fn open(
    alloc: Global,
    plan: &Plan,
    me: OfficeId,
    peer: OfficeId,
) -> Result<Vec<SharedThing>, AllocError>
    requires office { me < length plan.now.offices }
    requires neighbours { IsTrue (are_neighbours plan.now me peer) }
    ensures { IfOk result (λ places. places.items ≡ places_of plan.now me peer) }
{
    let mut places = Vec::new(alloc);
    let fork_is_here = plan.fork_end(me, peer) == me;
    push_both(&mut places, Thing::Fork, Thing::ForkToken, fork_is_here)?;
    for r in plan.records_of(me) {
        if plan.has_end(*r, peer) {
            let bottle = Thing::Bottle(r.number());
            let token = Thing::BottleToken(r.number());
            push_both(&mut places, bottle, token, plan.start_end(*r) == me)?;
        }
    }
    Ok(places)
}

// A thing, and its token, which is at the other end.
fn push_both(
    places: &mut Vec<SharedThing>,
    thing: Thing,
    token: Thing,
    here: bool,
) -> Result<(), AllocError>
    ensures { IfOk result (λ _. places.new.items ≡ places.old.items ++ with_token thing token here) }
{
    places.push(SharedThing { thing, held: here })?;
    places.push(SharedThing {
        thing: token,
        held: !here,
    })?;
    Ok(())
}
