//! How far a run of offices is, for people.

use office_stations::remarks::Unmet;
use office_stations::{Progress, Watch};
use serving::{Monitor, Status};
use std::alloc::{AllocError, Global};
use std::fs::OpenOptions;
use std::io;
use std::io::{Error, ErrorKind, Write};
use std::os::fd::{AsRawFd, RawFd};
use std::rt::Files;

/// Says a line of it on a screen, where there is one, as far as that takes it at once: an office doesn't wait for a terminal. What is
/// said at the end goes to the standard error, whatever that is, and waits for it.
#[derive(Drop)]
pub struct Telling<'a, R> {
    rt: &'a R,
    alloc: Global,
    /// Its descriptor, which is open as long as this is there.
    screen: Option<RawFd>,
}

impl<'a, R> Telling<'a, R> {
    pub fn new(rt: &'a R, alloc: Global, screen: Option<RawFd>) -> Telling<'a, R> {
        Telling { rt, alloc, screen }
    }
}

impl<'a, R: Eprint> Watch for Telling<'a, R> {
    fn tell(&self, progress: Progress) {
        if let Some(fd) = self.screen {
            let _ = show(self.alloc, &mut Screen { fd }, progress);
        }
    }

    fn tell_of(&self, unmet: &Unmet<'_>) {
        if let Some(fd) = self.screen {
            let _ = show_unmet(self.alloc, &mut Screen { fd }, unmet);
        }
    }

    fn end(&self, remarks: &str) {
        if !remarks.is_empty() {
            let _ = eprint!(self.rt; "{remarks}");
        }
    }
}

impl<'a, R: Eprint> Monitor for Telling<'a, R> {
    fn tell_status(&self, status: &Status) {
        let Status {
            finished,
            unfinished,
            came,
            refused,
            left,
            append,
        } = *status;
        let _ = eprintln!(self.rt;
            "drink: {finished} sessions finished, {unfinished} did not; {came} datagrams came, {refused} were refused; {left} entries are left; the last append took {append} ms"
        );
    }

    fn tell_silent(&self, unmet: &Unmet<'_>) {
        let _ = eprintln!(self.rt; "drink: {unmet}");
    }
}

/// The terminal that the standard error is. It takes at once what it takes, and refuses the rest. It is opened anew for this: the
/// standard error itself is the shell's too, and what others write to it has to wait as before.
///
/// To ask for room first isn't enough: a line may be longer, and the terminal be stopped in between. A thread that
/// waits for it would keep the program from ending. A terminal that the user may not open is told nothing.
pub(crate) fn opened<R>(rt: &R) -> io::Result<R::File>
where
    R: Files,
    R::File: AsRawFd,
{
    let screen = OpenOptions::new().write(true).open(rt, STANDARD_ERROR)?;
    if os::set_nonblocking(screen.as_raw_fd(), true) < 0 {
        return Err(Error::from(ErrorKind::Unsupported));
    }
    Ok(screen)
}

/// The name of what is the standard error.
const STANDARD_ERROR: &str = "/dev/stderr";

/// A screen by its descriptor.
#[derive(Drop)]
struct Screen {
    fd: RawFd,
}

impl Write for Screen {
    fn write(&mut self, buf: &[u8]) -> io::Result<usize> {
        match usize::try_from(os::writev(self.fd, [buf, &[], &[], &[]])) {
            Ok(count) => Ok(count.min(buf.len())),
            Err(_) => Err(Error::from(ErrorKind::WouldBlock)),
        }
    }

    fn flush(&mut self) -> io::Result<()> {
        Ok(())
    }
}

/// A line goes out, up to where the screen refuses it.
pub fn show<W: Write>(alloc: Global, screen: &mut W, progress: Progress) -> io::Result<()> {
    let line = line(alloc, progress)?;
    screen.write_all(line.as_bytes())
}

/// A line of a neighbour goes out, as far.
pub fn show_unmet<W: Write>(alloc: Global, screen: &mut W, unmet: &Unmet<'_>) -> io::Result<()> {
    let line = format!(in alloc; "drink: {unmet}\n")?;
    screen.write_all(line.as_bytes())
}

fn line(alloc: Global, progress: Progress) -> Result<String, AllocError> {
    let Progress {
        finished,
        sessions,
        came,
        went,
        refused,
    } = progress;
    format!(in alloc;
        "drink: {finished} of {sessions} sessions finished; {came} datagrams came, {went} went, {refused} were refused\n"
    )
}
