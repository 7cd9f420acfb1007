//! How it was waited at a socket.

ghost use Rattle.std.specs.Prelude.{◌≡◌};
ghost use Rattle.socket_pump.specs.sockets.Waits.{no_waits, one_more};

/// How often it was waited at a socket, and for how many milliseconds at most the last time.
///
/// No clause can say what a system was asked, so over UDP it is what `UdpSocket` writes down beside the call. A list of
/// all waits would need memory at each turn.
#[derive(Clone, Copy, PartialEq, Eq)]
pub struct Waits {
    pub count: u64,
    pub last: u64,
}

impl Waits {
    /// It wasn't waited yet.
    pub fn none() -> Waits
        ensures { result ≡ no_waits }
    {
        Waits { count: 0, last: 0 }
    }

    /// Once more, for so many milliseconds at most.
    pub fn and(self, most: u64) -> Waits
        ensures { result ≡ one_more most self }
    {
        Waits {
            count: self.count.saturating_add(1),
            last: most,
        }
    }
}
