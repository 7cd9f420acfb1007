//! The standard input as what a client asks.

ghost use Rattle.std.specs.Prelude.{◌≡◌};
ghost use Rattle.std.specs.Io.KnownBytes.{Keeps};

use command_outputs::clients::Clients;
use host_files::inputs::Sources;
use libc::STDIN_FILENO;
use libc::net::{POLLIN, poll};
use libc::types::pollfd;
use std::io;
use std::io::{Error, ErrorKind, Read};

/// Who asks on the standard input.
#[derive(Drop)]
pub(crate) struct Client<'a, S: Sources> {
    sources: &'a S,
}

impl<'a, S: Sources> Client<'a, S> {
    pub(crate) fn new(sources: &'a S) -> Client<'a, S>
        ensures { result.sources.now ≡ sources.now }
    {
        Client { sources }
    }
}

impl<S: Sources> Clients for Client<'_, S> {
    type Stream = Arriving<S::Standard>;

    ghost asks = { λ c. S.standard_text c.sources.now };

    fn stream(&self) -> Arriving<S::Standard> {
        Arriving {
            reader: self.sources.standard(),
        }
    }
}

/// The standard input, of which is read what is there.
///
/// It is looked at before each read. To make it one whose reads don't wait would change it for others who have it too, as a shell or
/// the other end of a socket.
#[derive(Drop)]
pub struct Arriving<T: Read + Drop> {
    reader: T,
}

impl<T: Read + Drop> Read for Arriving<T> {
    ghost remaining = { λ a. T.remaining a.reader };

    fn read(&mut self, buf: &mut [u8]) -> io::Result<usize> {
        if has_come() {
            return self.reader.read(buf);
        }
        match fault_of(&mut self.reader) {
            Some(error) => Err(error),
            None => Err(Error::from(ErrorKind::WouldBlock)),
        }
    }
}

/// Why a reader can't be read, where a read of nothing says so: as of a standard input that was closed from the first, whose number is
/// another file's by now.
fn fault_of<T: Read>(reader: &mut T) -> Option<Error>
    ensures { Keeps (T.remaining reader.old) (T.remaining reader.new) }
{
    match reader.read(&mut []) {
        Ok(_) => None,
        Err(error) => Some(error),
    }
}

/// Whether a read of the standard input is answered at once: by bytes, by its end, or by a fault.
fn has_come() -> bool {
    let mut asked = [pollfd {
        fd: STDIN_FILENO,
        events: POLLIN,
        revents: 0,
    }];
    poll(&mut asked, 0) > 0
}
