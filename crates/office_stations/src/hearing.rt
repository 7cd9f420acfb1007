//! When the neighbours of an office were last heard. No claim rests on it.

ghost use Rattle.std.specs.Prelude.{◌<◌};

use crate::remarks::Way;
use office_map::OfficeId;
use socket_pump::Turn;
use socket_pump::sockets::Socket;
use std::alloc::{AllocError, Global};
use std::net::SocketAddr;

/// Where the neighbours of an office are, and when each was last heard.
#[derive(Drop)]
pub struct Hearing {
    places: [Option<SocketAddr>; 16],
    /// How many datagrams had come of each when that was last looked at.
    counts: [u64; 16],
    /// When they had last become more, in milliseconds from the start.
    times: [u64; 16],
}

impl Hearing {
    /// Nobody is known yet.
    pub fn none() -> Hearing {
        Hearing {
            places: [None; 16],
            counts: [0; 16],
            times: [0; 16],
        }
    }

    /// Where a neighbour is, from now on.
    pub fn set_place(&mut self, v: OfficeId, at: SocketAddr)
        requires { v < 16 }
    {
        self.places[v.index()] = Some(at);
    }

    /// The turn of this time did this. Where nothing came, nobody was heard.
    pub(crate) fn note<S: Socket>(&mut self, turn: &Turn, socket: &S, at: u64) {
        if turn.taken == 0 && turn.refused == 0 {
            return;
        }
        for k in 0..16 {
            self.note_one(socket, OfficeId::new(k), at);
        }
    }

    fn note_one<S: Socket>(&mut self, socket: &S, v: OfficeId, at: u64)
        requires { v < 16 }
    {
        let count = socket.contact(v).heard;
        if count > self.counts[v.index()] {
            self.counts[v.index()] = count;
            self.times[v.index()] = at;
        }
    }

    /// The way to a neighbour at this time; none to who isn't one.
    pub(crate) fn way<S: Socket>(&self, socket: &S, v: OfficeId, now: u64) -> Option<Way>
        requires { v < 16 }
    {
        let at = self.places[v.index()]?;
        let contact = socket.contact(v);
        let silent = if contact.heard > 0 {
            Some(now.saturating_sub(self.times[v.index()]))
        } else {
            None
        };
        Some(Way {
            to: v,
            at,
            contact,
            silent,
        })
    }

    /// The ways to all neighbours at this time.
    pub(crate) fn ways<S: Socket>(&self, socket: &S, now: u64) -> Ways {
        let mut ways = [None; 16];
        for k in 0..16 {
            let v = OfficeId::new(k);
            ways[v.index()] = self.way(socket, v, now);
        }
        Ways { ways }
    }
}

/// The ways to the neighbours of an office, as they were known at one time. No memory is needed for it.
#[derive(Clone, Copy)]
pub struct Ways {
    ways: [Option<Way>; 16],
}

impl Ways {
    /// Them, in the order of the neighbours.
    pub fn to_vec(&self, alloc: Global) -> Result<Vec<Way>, AllocError> {
        let mut ways = Vec::new(alloc);
        for way in &self.ways {
            if let Some(way) = way {
                ways.push(*way)?;
            }
        }
        Ok(ways)
    }
}
