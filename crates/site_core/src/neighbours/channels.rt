//! The channels of an office to its neighbours.

ghost use Rattle.std.specs.Prelude.{◌≡◌, ◌<◌, ℕ, Bool, length, map, true, false, is_some, Some, None, IfOk, IsTrue};
ghost use Rattle.std.specs.List.{range_with_len};
ghost use Rattle.std.specs.Option.{option_copied};
ghost use Rattle.std.proofs.Math.ListN.{set};
ghost use Rattle.bottle_values.specs.declared.version.Version.{Version};
ghost use Rattle.bottle_values.specs.Maps.{put};
ghost use Rattle.office_map.specs.PlanValue.{PlanValue};
ghost use Rattle.window_link.specs.Limits.{greatest};
ghost use Rattle.window_link.specs.Links.{arrival_at};
ghost use Rattle.token_channel.specs.Things.{thing_of, hold};
ghost use Rattle.token_channel.specs.declared.thing.Thing.{Thing};
ghost use Rattle.token_channel.specs.Channels.{ChannelState, channel_fault, taken_with};
ghost use Rattle.site_core.specs.neighbours.Pairs.{queued_to};
ghost use Rattle.site_core.specs.neighbours.refinement.Slots.{slot_at, slot_holds, slot_carries, slot_used, slot_sent, slot_taking, links_of, slot_at_start, IsSlotOf};

use frame_codec::{Frame, Msg};
use office_map::{OfficeId, Plan};
use std::alloc::{AllocError, Global};
use std::marker::Model;
use token_channel::laws::what_is_shared_stays;
use token_channel::{Channel, Messages};
use window_link::Arrival;

/// A place for each office of the plan, with the channel to it where it is a neighbour.
///
/// In an office's definition the state of a link is the window that `window_link` defines, with two counts and the
/// messages that wait, and not the whole lists of messages sent and taken. So an office's rows use that crate's
/// definitions as they are; the laws over whole lists stand there.
#[derive(Drop)]
pub struct Channels {
    slots: Vec<Option<Channel>>,
}

impl Model for Channels {
    ghost use Rattle.std.specs.Prelude.{List};
    ghost use Rattle.site_core.specs.neighbours.refinement.Slots.{Slot};

    ghost Value = { List Slot };

    ghost view = { λ c. c.slots.items };
}

impl Channels {
    /// The channels as the plan starts.
    pub fn open(alloc: Global, plan: &Plan, me: OfficeId) -> Result<Channels, AllocError>
        requires { me < length plan.now.offices }
        ensures { IfOk result (λ c. c ≡ map (slot_at_start plan.now me) (range_with_len 0 (length plan.now.offices))) }
    {
        let slots = slots_at_start(alloc, plan, me)?;
        Ok(Channels { slots })
    }

    /// The channel to that office, if it is a neighbour.
    pub fn get(&self, v: OfficeId) -> Option<&Channel>
        ensures { option_copied result ≡ slot_at self.now v }
    {
        match self.slots.get(v.index()) {
            Some(Some(channel)) => Some(channel),
            _ => None,
        }
    }

    /// Whether there is a channel to that office.
    pub fn has(&self, v: OfficeId) -> bool
        ensures { result ≡ is_some (slot_at self.now v) }
    {
        self.get(v).is_some()
    }

    /// Sends a message that carries a thing that the channel holds, while there are numbers for it.
    pub fn send(&mut self, v: OfficeId, msg: Msg)
        requires held { slot_holds (slot_at self.old v) (thing_of msg) ≡ true }
        requires carried { IsTrue (slot_carries (slot_at self.old v) msg) }
        requires room { slot_used (slot_at self.old v) < greatest }
        ensures links { (run me : ℕ) (version : Version) → links_of run version me self.new ≡ queued_to (links_of run version me self.old) v msg }
        ensures slots { (plan : PlanValue) (me : ℕ) (here : ℕ → Thing → Bool) → ((u : ℕ) → IsSlotOf plan me u (here u) (slot_at self.old u)) →
            (u : ℕ) → IsSlotOf plan me u (put here v (hold (here v) (thing_of msg) false) u) (slot_at self.new u) }
    {
        what_is_shared_stays();
        self.post(v, msg);
    }

    fn post(&mut self, v: OfficeId, msg: Msg)
        requires held { slot_holds (slot_at self.old v) (thing_of msg) ≡ true }
        requires carried { IsTrue (slot_carries (slot_at self.old v) msg) }
        requires room { slot_used (slot_at self.old v) < greatest }
        ensures within { v < length self.old }
        ensures slots { self.new ≡ set self.old v (slot_sent (slot_at self.old v) msg) }
        ensures held { (t : Thing) → slot_holds (slot_sent (slot_at self.old v) msg) t ≡ hold (slot_holds (slot_at self.old v)) (thing_of msg) false t }
    {
        match &mut self.slots[v.index()] {
            Some(channel) => {
                let Ok(()) = channel.send(msg) else {
                    unreachable!()
                };
            }
            None => unreachable!(),
        }
    }

    /// Takes in a frame that the channel to that office passes: what it was. The messages that are taken with it are in `taken` then.
    pub fn accept(&mut self, v: OfficeId, frame: &Frame, taken: &mut Messages) -> Arrival
        requires there { is_some (slot_at self.old v) ≡ true }
        requires passes { (c : ChannelState) → slot_at self.old v ≡ Some c → channel_fault c frame.now ≡ None }
        ensures within { v < length self.old }
        ensures arrival { (c : ChannelState) → slot_at self.old v ≡ Some c → result ≡ arrival_at c.link frame.now }
        ensures messages { (c : ChannelState) → slot_at self.old v ≡ Some c → taken.new ≡ taken_with c frame.now }
        ensures slots { self.new ≡ set self.old v (slot_taking (slot_at self.old v) frame.now) }
    {
        match &mut self.slots[v.index()] {
            Some(channel) => channel.accept(frame, taken),
            None => unreachable!(),
        }
    }
}

fn slots_at_start(
    alloc: Global,
    plan: &Plan,
    me: OfficeId,
) -> Result<Vec<Option<Channel>>, AllocError>
    requires { me < length plan.now.offices }
    ensures { IfOk result (λ s. s.items ≡ map (slot_at_start plan.now me) (range_with_len 0 (length plan.now.offices))) }
{
    let mut slots = Vec::with_capacity(alloc, plan.offices())?;
    for v in 0..plan.offices() {
        let slot = slot_at_start(alloc, plan, me, OfficeId::new(v as u8))?;
        slots.push(slot)?;
    }
    Ok(slots)
}

fn slot_at_start(
    alloc: Global,
    plan: &Plan,
    me: OfficeId,
    v: OfficeId,
) -> Result<Option<Channel>, AllocError>
    requires { me < length plan.now.offices }
    ensures { IfOk result (λ s. s ≡ slot_at_start plan.now me v) }
{
    if plan.are_neighbours(me, v) {
        Ok(Some(Channel::open(alloc, plan, me, v)?))
    } else {
        Ok(None)
    }
}
