//! The mail of a turn: what came from a wire, and what is to be posted.

ghost use Rattle.std.specs.Prelude.{◌≡◌, ◌<◌, ◌≤◌, ◌+◌, ◌++◌, ◌∷◌, [], true, false, length, take, OnSome, IfSome, IfNone, slice_get, Some};
ghost use Rattle.socket_pump.specs.Wires.{risen};
ghost use Rattle.stored_runs.specs.durable.refinement.Mailed.{fresh, account_of, IsMail};

use crate::durable::letter::{Letter, MOST_BYTES};
use arrayvec::ArrayVec;
use office_map::OfficeId;
use socket_pump::{Wire, WireFailed};
use std::alloc::Global;
use std::marker::Model;

/// The most datagrams that a turn fetches, and the most that it posts.
pub(crate) const MOST_IN: usize = 32;

const MOST_OUT: usize = 304;

/// A datagram to be posted. Contracts see for whom it is, and its bytes.
#[derive(Drop)]
pub(crate) struct Addressed {
    to: OfficeId,
    letter: Letter,
}

impl Model for Addressed {
    ghost use Rattle.std.specs.Prelude.{ℕ, List};

    ghost Value = { ℕ × List ℕ };

    ghost view = { λ p. (p.to, p.letter) };
}

impl Addressed {
    pub(crate) fn to(&self) -> OfficeId
        ensures { result ≡ self.now.0 }
    {
        self.to
    }

    pub(crate) fn bytes(&self) -> &[u8]
        ensures { result.now ≡ self.now.1 }
    {
        self.letter.bytes()
    }
}

impl Default for Addressed {
    fn default() -> Addressed {
        Addressed {
            to: OfficeId::new(0),
            letter: Letter::default(),
        }
    }
}

/// The mail of turns, each after the other: made once, since it has room for the most that a turn fetches and posts, and for the
/// text of the entries that a turn adds, which contracts don't see.
#[derive(Drop)]
pub struct Mail {
    came: ArrayVec<Letter, MOST_IN>,
    handed: usize,
    ended: bool,
    out: ArrayVec<Addressed, MOST_OUT>,
    failures: u64,
    pub(crate) text: String,
}

impl Model for Mail {
    ghost use Rattle.stored_runs.specs.durable.refinement.Mailed.{Mailed, IsMail};

    ghost Value = { Mailed };

    ghost view = { λ m. record { came = m.came.items; handed = m.handed; ended = m.ended; out = m.out.items; failures = m.failures } };

    ghost invariant = { λ m. IsMail m.came.items m.handed m.ended };
}

impl Mail {
    /// With nothing in it.
    pub fn new(alloc: Global) -> Mail {
        Mail {
            came: ArrayVec::new(),
            handed: 0,
            ended: false,
            out: ArrayVec::new(),
            failures: 0,
            text: String::new(alloc),
        }
    }

    /// A turn begins: nothing is in it.
    pub(crate) fn clear(&mut self)
        ensures { self.new ≡ fresh [] }
    {
        self.came.clear();
        self.out.clear();
        self.handed = 0;
        self.ended = false;
        self.failures = 0;
    }

    /// A datagram came.
    pub(crate) fn comes(&mut self, bytes: &[u8])
        requires fresh { self.old ≡ fresh self.old.came }
        requires room { length self.old.came < 32 }
        requires short { length bytes.now ≤ 128 }
        ensures { self.new ≡ fresh (self.old.came ++ bytes.now ∷ []) }
    {
        self.came.push(Letter::of(bytes));
    }

    /// What is to be posted.
    pub(crate) fn out(&self) -> &[Addressed]
        ensures value { result.now ≡ self.now.out }
        ensures mail { IsMail self.now.came self.now.handed self.now.ended }
    {
        self.out.as_slice()
    }

    fn failed(&mut self) -> WireFailed
        ensures { self.new ≡ record self.old { failures = risen self.old.failures } }
    {
        self.failures = self.failures.saturating_add(1);
        WireFailed
    }

    // The next of those that came is handed on.
    fn next(&mut self, buffer: &mut [u8; MOST_BYTES]) -> Option<usize>
        ensures within { IfSome result (λ n. n ≤ 128) }
        ensures next { IfSome result (λ n. slice_get self.old.came self.old.handed ≡ Some (take n buffer.new)) }
        ensures handed { OnSome result (self.new ≡ record self.old { handed = self.old.handed + 1 }) }
        ensures goes_on { OnSome result (self.old.ended ≡ false) }
        ensures all { IfNone result (self.old.handed ≡ length self.old.came) }
        ensures same { IfNone result (self.new ≡ self.old) }
    {
        let letter = self.came.as_slice().get(self.handed)?;
        let count = letter.put(buffer);
        self.handed += 1;
        Some(count)
    }
}

impl Wire for Mail {
    ghost account = { account_of };

    ghost tells = { true };

    fn receive(&mut self, buffer: &mut [u8; 128]) -> Result<Option<usize>, WireFailed> {
        if let Some(count) = self.next(buffer) {
            return Ok(Some(count));
        }
        if self.ended {
            return Err(self.failed());
        }
        self.ended = true;
        Ok(None)
    }

    fn send(&mut self, to: OfficeId, bytes: &[u8]) -> Result<(), WireFailed> {
        if bytes.len() > MOST_BYTES {
            return Err(self.failed());
        }
        let letter = Letter::of(bytes);
        let Ok(()) = self.out.try_push(Addressed { to, letter }) else {
            return Err(self.failed());
        };
        Ok(())
    }
}
