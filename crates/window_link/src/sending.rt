//! The messages of an end that its peer isn't known to have taken.

ghost use Rattle.std.specs.Prelude.{◌≡◌, ◌≤◌, ◌<◌, ◌^◌, ◌↔◌, [], length, IsTrue, IsErr, IfErr, OnOk, OnErr};
ghost use Rattle.window_link.specs.Windows.{used, queued, acknowledged};
ghost use Rattle.frame_codec.specs.Limits.{sequence_space};
ghost use Rattle.window_link.specs.Limits.{greatest};

use crate::fault::LinkFault;
use crate::waiting::{MAX_WAITING, Waiting};
use frame_codec::{MAX_NUMBER, Msg};
use std::marker::Model;

/// How many messages the peer is known to have taken, and those after them.
#[derive(Drop)]
pub struct SendWindow {
    acked: u64,
    waiting: Waiting,
}

impl Model for SendWindow {
    ghost use Rattle.std.specs.Prelude.{◌+◌, ◌<◌, ◌≤◌, ◌^◌, length};
    ghost use Rattle.window_link.specs.Windows.{Sending};
    ghost use Rattle.frame_codec.specs.Limits.{sequence_space};
    ghost use Rattle.window_link.specs.Limits.{most_waiting};

    ghost Value = { Sending };

    ghost view = { λ w. record { acked = w.acked; waiting = w.waiting } };

    ghost invariant = { λ w. (length w.waiting ≤ most_waiting) × (w.acked + length w.waiting < sequence_space) };
}

impl SendWindow {
    /// The numbers up to `sent` were used, and nothing waits.
    pub fn after(sent: u64) -> SendWindow
        requires { sent < sequence_space }
        ensures { result ≡ record { acked = sent; waiting = [] } }
    {
        SendWindow {
            acked: sent,
            waiting: Waiting::none(),
        }
    }

    pub fn has_room(&self) -> bool
        ensures { IsTrue result ↔ (length self.now.waiting < MAX_WAITING) }
    {
        self.waiting.len() < MAX_WAITING
    }

    pub fn acked(&self) -> u64
        ensures value { result ≡ self.now.acked }
        ensures range { result < sequence_space }
    {
        self.acked
    }

    pub fn waiting(&self) -> &Waiting
        ensures value { result.now ≡ self.now.waiting }
        ensures few { length result.now ≤ MAX_WAITING }
        ensures range { used self.now < sequence_space }
    {
        &self.waiting
    }

    /// The last number that was used.
    pub fn last_number(&self) -> u64
        ensures value { result ≡ used self.now }
        ensures range { result < sequence_space }
    {
        self.acked + self.waiting.len() as u64
    }

    /// The message gets the next number, and waits.
    pub fn push(&mut self, msg: Msg) -> Result<(), LinkFault>
        requires { length self.old.waiting < MAX_WAITING }
        ensures worn { IsErr result ↔ (used self.old ≡ greatest) }
        ensures fault { IfErr result (λ fault. fault ≡ LinkFault.Worn) }
        ensures numbered { OnOk result (used self.old < greatest) }
        ensures ok { OnOk result (self.new ≡ queued self.old msg) }
        ensures unchanged { OnErr result (self.new ≡ self.old) }
    {
        if self.last_number() == MAX_NUMBER {
            return Err(LinkFault::Worn);
        }
        self.waiting.push(msg);
        Ok(())
    }

    /// The peer has taken the messages up to this number.
    pub fn acknowledge(&mut self, count: u64)
        requires { count ≤ used self.old }
        ensures { self.new ≡ acknowledged self.old count }
    {
        if count > self.acked {
            let known = (count - self.acked) as usize;
            self.waiting.drop_oldest(known);
            self.acked = count;
        }
    }
}
