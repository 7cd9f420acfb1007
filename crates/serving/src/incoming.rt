//! What comes in from a client, as it comes.

ghost use Rattle.std.specs.Prelude.{◌≡◌, false, IfErr, OnOk};
ghost use Rattle.session_streams.specs.requests.Bytes.{nothing_taken};
ghost use Rattle.session_streams.specs.requests.refinement.{taking_of};
ghost use Rattle.serving.specs.refinement.Hearing.{Hears, IsOfHearing};

use crate::fault::ServeFault;
use host_files::inputs::failure_kind;
use office_map::{OfficeId, Plan};
use office_stations::RunFault;
use session_streams::requests::{Asked, Intake};
use std::alloc::Global;
use std::collections::VecDeque;
use std::io::{ErrorKind, Read};
use stored_runs::StoredFault;

/// How many bytes are read at once.
const PART: usize = 8192;

/// While so much waits for its answer, nothing more is read.
const MOST_WAITING: usize = 64;

/// A client's stream, which is read as far as bytes are there.
#[derive(Drop)]
pub(crate) struct Incoming<I: Read + Drop> {
    pub(crate) input: I,
    intake: Intake,
    has_ended: bool,
}

impl<I: Read + Drop> Incoming<I> {
    /// A stream of which nothing came.
    pub(crate) fn new(alloc: Global, input: I) -> Incoming<I>
        ensures input { result.input ≡ input }
        ensures nothing { taking_of result.intake ≡ nothing_taken }
        ensures going { result.has_ended ≡ false }
    {
        Incoming {
            input,
            intake: Intake::new(alloc),
            has_ended: false,
        }
    }

    /// Whether nothing comes any more.
    pub(crate) fn is_at_end(&self) -> bool
        ensures { result ≡ self.now.has_ended }
    {
        self.has_ended
    }

    /// Takes what is there now, a part of bytes at most, unless enough waits. What is asked by it waits then.
    ///
    /// The stream has to answer `WouldBlock` where nothing is there: an office doesn't wait for its client.
    pub(crate) fn hear(
        &mut self,
        alloc: Global,
        plan: &Plan,
        me: OfficeId,
        waiting: &mut VecDeque<Asked>,
    ) -> Result<(), ServeFault>
        ensures heard { OnOk result (Hears plan.now me (I.remaining self.old.input) (I.remaining self.new.input) (taking_of self.old.intake) (taking_of self.new.intake) self.old.has_ended self.new.has_ended waiting.old.items waiting.new.items) }
        ensures fault { IfErr result IsOfHearing }
    {
        if self.has_ended {
            return Ok(());
        }
        if waiting.len() >= MOST_WAITING {
            return Ok(());
        }
        let mut part = [0u8; PART];
        let count = match self.input.read(&mut part) {
            Ok(count) => count,
            Err(error) => return unless_nothing(failure_kind(&error)),
        };
        if count == 0 {
            self.has_ended = true;
            return match self.intake.end(alloc, plan, me, waiting) {
                Ok(()) => Ok(()),
                Err(_) => Err(memory()),
            };
        }
        match self.intake.take(alloc, plan, me, &part[..count], waiting) {
            Ok(()) => Ok(()),
            Err(_) => Err(memory()),
        }
    }
}

/// That nothing is there now, or was interrupted, is no fault.
fn unless_nothing(kind: ErrorKind) -> Result<(), ServeFault>
    ensures { IfErr result IsOfHearing }
{
    match kind {
        ErrorKind::WouldBlock | ErrorKind::Interrupted => Ok(()),
        kind => Err(ServeFault::InputFailed(kind)),
    }
}

/// Memory ran out.
fn memory() -> ServeFault
    ensures { IsOfHearing result }
{
    ServeFault::Run(StoredFault::Run(RunFault::Memory))
}
