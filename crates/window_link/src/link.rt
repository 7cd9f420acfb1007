//! One end of a link.

ghost use Rattle.std.specs.Prelude.{◌≡◌, ◌<◌, ◌≤◌, ◌^◌, ◌↔◌, length, None, is_some, true, IsTrue, IsErr, IfOk, IfErr, OnOk, OnErr};
ghost use Rattle.std.specs.Result.{result_err};
ghost use Rattle.frame_codec.specs.Frame.{carries};
ghost use Rattle.window_link.specs.Windows.{are_carried, used, queued, next_kept, advanced, without_next};
ghost use Rattle.window_link.specs.Links.{resumed, frame_of, ack_frame_of, fault_of, arrival_at, after_arrival};
ghost use Rattle.frame_codec.specs.Limits.{sequence_space};
ghost use Rattle.window_link.specs.Limits.{greatest};

use crate::arrival::Arrival;
use crate::fault::LinkFault;
use crate::receiving::ReceiveWindow;
use crate::sending::SendWindow;
use crate::waiting::{MAX_WAITING, Waiting};
use bottle_values::Version;
use frame_codec::{Frame, Msg};
use std::marker::Model;

/// One office's end of the link to a neighbour. Its frames can carry all that waits.
#[derive(Drop)]
pub struct Link {
    run: u32,
    me: u8,
    peer: u8,
    version: Version,
    sending: SendWindow,
    receiving: ReceiveWindow,
}

impl Model for Link {
    ghost use Rattle.std.specs.Prelude.{IsTrue};
    ghost use Rattle.window_link.specs.Links.{LinkState};
    ghost use Rattle.window_link.specs.Windows.{are_carried};

    ghost Value = { LinkState };

    ghost view = { λ l. record { run = l.run; me = l.me; peer = l.peer; sending = l.sending; receiving = l.receiving; version = l.version } };

    ghost invariant = { λ l. IsTrue (are_carried l.version l.sending.waiting) };
}

impl Link {
    /// A link on which nothing was sent. The version stands in each frame, with the run's number and the
    /// numbers of the two offices.
    pub fn open(run: u32, me: u8, peer: u8, version: Version) -> Link
        ensures { result ≡ resumed run me peer 0 0 version }
    {
        Link::resume(run, me, peer, 0, 0, version)
    }

    /// A link whose numbers up to `sent` were used, and which has taken the messages up to `taken`.
    /// Nothing waits.
    pub fn resume(run: u32, me: u8, peer: u8, sent: u64, taken: u64, version: Version) -> Link
        requires sent { sent < sequence_space }
        requires taken { taken < sequence_space }
        ensures { result ≡ resumed run me peer sent taken version }
    {
        Link {
            run,
            me,
            peer,
            sending: SendWindow::after(sent),
            receiving: ReceiveWindow::after(taken),
            version,
        }
    }

    /// Whether one more message can wait.
    pub fn has_room(&self) -> bool
        ensures { IsTrue result ↔ (length self.now.sending.waiting < MAX_WAITING) }
    {
        self.sending.has_room()
    }

    /// Whether the link's frames can carry the message.
    pub fn carries(&self, msg: &Msg) -> bool
        ensures { result ≡ carries self.now.version msg.now }
    {
        msg.is_carried(self.version)
    }

    /// How many of the peer's messages were taken, in order.
    pub fn taken(&self) -> u64
        ensures value { result ≡ self.now.receiving.taken }
        ensures range { result < sequence_space }
    {
        self.receiving.taken()
    }

    /// How many messages the peer is known to have taken.
    pub fn acked(&self) -> u64
        ensures value { result ≡ self.now.sending.acked }
        ensures range { result < sequence_space }
    {
        self.sending.acked()
    }

    /// The messages after those, the oldest first. The first has the number after `acked`.
    pub fn waiting(&self) -> &Waiting
        ensures value { result.now ≡ self.now.sending.waiting }
        ensures few { length result.now ≤ MAX_WAITING }
        ensures range { used self.now.sending < sequence_space }
        ensures carried { IsTrue (are_carried self.now.version result.now) }
    {
        self.sending.waiting()
    }

    /// Gives the message the next number, and lets it wait.
    ///
    /// # Errors
    /// `Worn` where the greatest number was used. The link is as it was.
    pub fn queue(&mut self, msg: Msg) -> Result<(), LinkFault>
        requires room { length self.old.sending.waiting < MAX_WAITING }
        requires carried { IsTrue (carries self.old.version msg) }
        ensures worn { IsErr result ↔ (used self.old.sending ≡ greatest) }
        ensures fault { IfErr result (λ fault. fault ≡ LinkFault.Worn) }
        ensures numbered { OnOk result (used self.old.sending < greatest) }
        ensures ok { OnOk result (self.new ≡ record self.old { sending = queued self.old.sending msg }) }
        ensures unchanged { OnErr result (self.new ≡ self.old) }
    {
        self.sending.push(msg)
    }

    /// The frame of the `i`-th waiting message, from 1, with the count of now.
    pub fn frame(&self, i: usize) -> Frame
        requires first { 0 < i }
        requires last { i ≤ length self.now.sending.waiting }
        ensures { result ≡ frame_of self.now i }
    {
        let msg = self.waiting().message(i - 1);
        let number = self.acked() + i as u64;
        Frame::data(
            self.version,
            self.run,
            self.me,
            self.peer,
            number,
            self.taken(),
            msg,
        )
    }

    /// A frame with the count alone.
    pub fn ack_frame(&self) -> Frame
        ensures { result ≡ ack_frame_of self.now }
    {
        Frame::ack(self.version, self.run, self.me, self.peer, self.taken())
    }

    /// What is wrong with a frame that comes: `Stranger` before `WrongVersion`, and that before `AckAhead`.
    ///
    /// `check` and `accept` are calls of their own, and `arrive` is both. A channel has to look at what a frame brings
    /// after the link has judged it and before its count is used; so no check is made twice. Two linked ends show that
    /// `accept` may always be called on a frame that was made for the end.
    pub fn check(&self, frame: &Frame) -> Result<(), LinkFault>
        ensures { result_err result ≡ fault_of self.now frame.now }
    {
        if frame.run() != self.run || frame.from() != self.peer || frame.to() != self.me {
            return Err(LinkFault::Stranger);
        }
        if frame.version().number() != self.version.number() {
            return Err(LinkFault::WrongVersion);
        }
        if frame.count() > self.sending.last_number() {
            return Err(LinkFault::AckAhead);
        }
        Ok(())
    }

    /// Takes in a frame that `check` passes: first its count, then its message. One that is ahead is kept, and
    /// nothing follows by itself: after a `Fresh` the caller looks at [`Link::kept`].
    ///
    /// The link can't say whether a kept message may be taken: the channel judges it, against what is held by then. So
    /// this takes the frame's own message alone, and the caller goes on with `accept_kept` or `drop_kept`. Two linked
    /// ends, which judge nothing, take all that follow. Where a caller left a kept message in its place and a frame
    /// with that number arrives, the frame's message is the fresh one, and the place is empty after it.
    pub fn accept(&mut self, frame: &Frame) -> Arrival
        requires { fault_of self.old frame.now ≡ None }
        ensures arrival { result ≡ arrival_at self.old frame.now }
        ensures link { self.new ≡ after_arrival self.old frame.now }
    {
        self.sending.acknowledge(frame.count());
        match frame.msg() {
            None => Arrival::Acked,
            Some(msg) => self.receiving.receive(frame.number(), msg),
        }
    }

    /// What is kept of the next number: the message of a frame that came before its turn.
    pub fn kept(&self) -> Option<Msg>
        ensures { result ≡ next_kept self.now.receiving }
    {
        self.receiving.kept()
    }

    /// What is kept of the next number is taken.
    pub fn accept_kept(&mut self)
        requires { is_some (next_kept self.old.receiving) ≡ true }
        ensures { self.new ≡ record self.old { receiving = advanced self.old.receiving } }
    {
        self.receiving.accept_kept();
    }

    /// What is kept of the next number is thrown out. A frame that brings it anew is taken as any other.
    pub fn drop_kept(&mut self)
        requires { is_some (next_kept self.old.receiving) ≡ true }
        ensures { self.new ≡ record self.old { receiving = without_next self.old.receiving } }
    {
        self.receiving.drop_kept();
    }

    /// Takes in a frame that comes.
    ///
    /// # Errors
    /// `Stranger`, or else `WrongVersion`, or else `AckAhead`. The link is as it was.
    pub fn arrive(&mut self, frame: &Frame) -> Result<Arrival, LinkFault>
        ensures fault { result_err result ≡ fault_of self.old frame.now }
        ensures arrival { IfOk result (λ arrival. arrival ≡ arrival_at self.old frame.now) }
        ensures link { OnOk result (self.new ≡ after_arrival self.old frame.now) }
        ensures unchanged { OnErr result (self.new ≡ self.old) }
    {
        self.check(frame)?;
        Ok(self.accept(frame))
    }
}
