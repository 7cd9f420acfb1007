//! What a client asks of an office that serves.

ghost use Rattle.std.specs.Prelude.{◌≡◌, List, Option, ℕ};

use std::io::Read;

/// Who asks.
pub trait Clients {
    type Stream: Read + Drop;

    // What is asked, where that is known.
    ghost asks: { Self → Option (List ℕ) };

    /// What is asked, as it comes: where nothing is there, a read answers `WouldBlock` at once. It is asked for once.
    fn stream(&self) -> Self::Stream
        ensures { Self.Stream.remaining result ≡ asks self.now };
}
