//! One end of the channel between two neighbours.

ghost use Rattle.std.specs.Prelude.{◌≡◌, ◌+◌, ◌*◌, ◌<◌, ◌≤◌, ◌^◌, ◌↔◌, ◌++◌, ◌||◌, length, IsTrue, IsErr, IfOk, IfErr, OnOk, OnErr, None, true, false};
ghost use Rattle.std.specs.Result.{result_err};
ghost use Rattle.frame_codec.specs.Frame.{carries};
ghost use Rattle.office_map.specs.PlanValue.{are_neighbours, records_between};
ghost use Rattle.window_link.specs.Windows.{used};
ghost use Rattle.window_link.specs.Links.{frame_of, ack_frame_of, arrival_at};
ghost use Rattle.token_channel.specs.Things.{thing_of, hold};
ghost use Rattle.token_channel.specs.Places.{holds, shares, waits};
ghost use Rattle.token_channel.specs.Channels.{IsApart, opened, sent, channel_fault, after_frame, after_taking, after_kept, follows, following, followed, settled, with_following, taken_with, most_following, is_breach, next_of};
ghost use Rattle.token_channel.specs.Answers.{Tells, HoldsWhatIsBrought};
ghost use Rattle.frame_codec.specs.Limits.{sequence_space};
ghost use Rattle.window_link.specs.Limits.{greatest};

use crate::fault::ChannelFault;
use crate::messages::Messages;
use crate::places;
use crate::taken::Taken;
use crate::thing::{SharedThing, Thing};
use frame_codec::{Frame, Msg};
use office_map::{OfficeId, Plan};
use std::alloc::{AllocError, Global};
use std::marker::Model;
use window_link::{Arrival, Link, LinkFault, MAX_KEPT, Waiting};

/// One office's end of the channel to a neighbour: the link, and what is held here of the things
/// that the two share.
///
/// One list has the things that the pair shares, each with whether it is held. It has at most 18, and is gone through
/// at each call.
#[derive(Drop)]
pub struct Channel {
    link: Link,
    places: Vec<SharedThing>,
}

impl Model for Channel {
    ghost use Rattle.std.specs.Prelude.{◌≤◌, length};
    ghost use Rattle.token_channel.specs.Channels.{ChannelState, IsApart};
    ghost use Rattle.window_link.specs.Limits.{most_waiting};

    ghost Value = { ChannelState };

    ghost view = { λ c. record { link = c.link; places = c.places.items } };

    ghost invariant = { λ c. IsApart (record { link = c.link; places = c.places.items }) × (length c.places.items ≤ most_waiting) };
}

impl Channel {
    /// The channel as the plan starts.
    pub fn open(
        alloc: Global,
        plan: &Plan,
        me: OfficeId,
        peer: OfficeId,
    ) -> Result<Channel, AllocError>
        requires office { me < length plan.now.offices }
        requires neighbours { IsTrue (are_neighbours plan.now me peer) }
        ensures opened { IfOk result (λ c. c ≡ opened plan.now me peer) }
        ensures few { IfOk result (λ c. length c.places ≤ 2 + 2 * records_between plan.now me peer) }
    {
        // The plan is consistent, so that few records are shared.
        let _ = plan.offices();
        let places = places::open(alloc, plan, me, peer)?;
        let link = Link::open(plan.run(), me.number(), peer.number(), plan.version());
        Ok(Channel { link, places })
    }

    /// Whether the thing is held here.
    pub fn holds(&self, thing: Thing) -> bool
        ensures { result ≡ holds self.now.places thing }
    {
        places::holds(&self.places, thing)
    }

    /// Whether the channel's frames can carry the message.
    pub fn carries(&self, msg: &Msg) -> bool
        ensures { result ≡ carries self.now.link.version msg.now }
    {
        self.link.carries(msg)
    }

    /// How many of the peer's messages were taken, in order.
    pub fn taken(&self) -> u64
        ensures value { result ≡ self.now.link.receiving.taken }
        ensures range { result < sequence_space }
    {
        self.link.taken()
    }

    /// How many messages the peer is known to have taken.
    pub fn acked(&self) -> u64
        ensures value { result ≡ self.now.link.sending.acked }
        ensures range { result < sequence_space }
    {
        self.link.acked()
    }

    /// The messages after those, the oldest first. What waits isn't held, and waits once; so at most
    /// as many wait as there are things.
    pub fn waiting(&self) -> &Waiting
        ensures value { result.now ≡ self.now.link.sending.waiting }
        ensures apart { IsApart self.now }
        ensures few { length result.now ≤ length self.now.places }
        ensures most { length result.now ≤ 18 }
    {
        let _ = &self.places;
        self.link.waiting()
    }

    /// Sends the thing that the message carries: it is held no more, and waits.
    ///
    /// # Errors
    /// `Worn` where the link's greatest number was used. Nothing changed.
    pub fn send(&mut self, msg: Msg) -> Result<(), LinkFault>
        requires held { holds self.old.places (thing_of msg) ≡ true }
        requires carried { IsTrue (carries self.old.link.version msg) }
        ensures worn { IsErr result ↔ (used self.old.link.sending ≡ greatest) }
        ensures fault { IfErr result (λ fault. fault ≡ LinkFault.Worn) }
        ensures sent { OnOk result (self.new ≡ sent self.old msg) }
        ensures held { OnOk result ((t : Thing) → holds self.new.places t ≡ hold (holds self.old.places) (thing_of msg) false t) }
        ensures unchanged { OnErr result (self.new ≡ self.old) }
    {
        // A copy, since the borrow checker takes a message that was passed for lent.
        let queued = msg;
        self.link.queue(queued)?;
        places::change(&mut self.places, Thing::of(msg), false);
        Ok(())
    }

    /// The frame of the `i`-th waiting message, from 1, with the count of now.
    pub fn frame(&self, i: usize) -> Frame
        requires first { 0 < i }
        requires last { i ≤ length self.now.link.sending.waiting }
        ensures { result ≡ frame_of self.now.link i }
    {
        self.link.frame(i)
    }

    /// A frame with the count alone.
    pub fn ack_frame(&self) -> Frame
        ensures { result ≡ ack_frame_of self.now.link }
    {
        self.link.ack_frame()
    }

    /// Takes in a frame that comes. What it brings is held, and after it what was kept, up to the first gap or
    /// breach.
    ///
    /// # Errors
    /// The link's faults, or else `Breach`. Nothing changed, and the frame's count isn't used.
    pub fn take(&mut self, frame: &Frame) -> Result<Taken, ChannelFault>
        ensures fault { result_err result ≡ channel_fault self.old frame.now }
        ensures taken { IfOk result (λ taken. Tells taken (arrival_at self.old.link frame.now) (following most_following (after_frame self.old frame.now))) }
        ensures channel { OnOk result (self.new ≡ after_taking self.old frame.now) }
        ensures held { IfOk result (λ taken. HoldsWhatIsBrought self.old taken self.new) }
        ensures unchanged { OnErr result (self.new ≡ self.old) }
    {
        self.check(frame)?;
        let mut messages = Messages::none();
        let arrival = self.accept(frame, &mut messages);
        match arrival {
            Arrival::Acked => Ok(Taken::Acked),
            Arrival::Fresh(_) => Ok(Taken::Fresh(messages)),
            Arrival::Repeat => Ok(Taken::Repeat),
            Arrival::Kept => Ok(Taken::Kept),
            Arrival::Early => Ok(Taken::Early),
        }
    }

    /// Whether a frame that comes can be taken in.
    ///
    /// # Errors
    /// The link's faults, or else `Breach`.
    pub fn check(&self, frame: &Frame) -> Result<(), ChannelFault>
        ensures fault { result_err result ≡ channel_fault self.now frame.now }
    {
        self.link.check(frame).map_err(ChannelFault::Link)?;
        if let Some(msg) = self.next(frame) {
            if self.is_breach(frame.count(), msg) {
                return Err(ChannelFault::Breach);
            }
        }
        Ok(())
    }

    /// Takes in a frame that [`Channel::check`] passes, as [`Channel::take`] does: what it was. The messages that are taken with it, and
    /// no others, are in `taken` then: none, or its own and after it what was kept, up to the first gap or breach.
    ///
    /// Who takes in many frames lends the same room each time: a vector of fixed room is filled when it is made.
    pub fn accept(&mut self, frame: &Frame, taken: &mut Messages) -> Arrival
        requires { channel_fault self.old frame.now ≡ None }
        ensures arrival { result ≡ arrival_at self.old.link frame.now }
        ensures messages { taken.new ≡ taken_with self.old frame.now }
        ensures channel { self.new ≡ after_taking self.old frame.now }
        ensures held { (t : Thing) → holds self.new.places t ≡ (waits t taken.new || holds self.old.places t) }
    {
        let arrival = self.arrive(frame);
        // A copy, since the borrow checker takes an arrival that was passed for lent.
        let told = arrival;
        self.settle(arrival, taken);
        told
    }

    // The frame's own message alone: what it brings is held.
    fn arrive(&mut self, frame: &Frame) -> Arrival
        requires { channel_fault self.old frame.now ≡ None }
        ensures arrival { result ≡ arrival_at self.old.link frame.now }
        ensures taken { self.new ≡ after_frame self.old frame.now }
    {
        if let Some(msg) = self.next(frame) {
            places::change(&mut self.places, Thing::of(msg), true);
        }
        self.link.accept(frame)
    }

    // The messages that are taken with what arrived, which is held by now: none, or that one and what follows it.
    fn settle(&mut self, arrival: Arrival, taken: &mut Messages)
        ensures messages { taken.new ≡ with_following arrival (following most_following self.old) }
        ensures channel { self.new ≡ settled arrival self.old }
    {
        taken.clear();
        match arrival {
            Arrival::Fresh(first) => {
                taken.push(first);
                self.follow_all(taken);
            }
            _ => {}
        }
    }

    fn follow_all(&mut self, taken: &mut Messages)
        requires { length taken.old ≡ 1 }
        ensures messages { taken.new ≡ taken.old ++ following most_following self.old }
        ensures channel { self.new ≡ followed most_following self.old }
    {
        for _ in 1..MAX_KEPT {
            match self.follow() {
                Some(msg) => taken.push(msg),
                None => break,
            }
        }
    }

    // Takes what is kept of the next number, so that it is held. What would be a breach is thrown out.
    //
    // Each kept message is a step of its own, and `take` is the frame's own message with at most 17 of them. What is claimed of
    // one frame's message is so claimed of one kept message.
    fn follow(&mut self) -> Option<Msg>
        ensures follows { result ≡ follows self.old }
        ensures channel { self.new ≡ after_kept self.old }
    {
        let msg = self.link.kept()?;
        // Copies, since the borrow checker takes a message that was passed for lent.
        let taken = msg;
        let brought = msg;
        if self.is_breach(self.acked(), msg) {
            self.link.drop_kept();
            return None;
        }
        let thing = Thing::of(taken);
        places::change(&mut self.places, thing, true);
        self.link.accept_kept();
        Some(brought)
    }

    // The message that the frame would bring.
    fn next(&self, frame: &Frame) -> Option<Msg>
        ensures { result ≡ next_of self.now.link frame.now }
    {
        if frame.number() == self.taken() + 1 {
            frame.msg()
        } else {
            None
        }
    }

    // Whether the message can't be next, where the peer has taken so many.
    fn is_breach(&self, count: u64, msg: Msg) -> bool
        requires { count ≤ used self.now.link.sending }
        ensures { result ≡ is_breach self.now count msg }
    {
        let thing = Thing::of(msg);
        if !places::shares(&self.places, thing) || places::holds(&self.places, thing) {
            return true;
        }
        let known = count.saturating_sub(self.acked()) as usize;
        places::waits_after(thing, self.waiting(), known)
    }
}
