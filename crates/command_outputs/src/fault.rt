//! Why a command fails.

ghost use Rattle.std.specs.Prelude.{◌≡◌};
ghost use Rattle.command_outputs.specs.declared.fault.Fault.TheVariants.{Memory, NoRun, NoSecrets, Text};
ghost use Rattle.command_outputs.specs.Fault.{input_of, refused_input};

use crate::secrets::SecretsFault;
use journal_texts::{JournalRefusal, JournalRule};
use office_stations::{OpeningFault, RunFault};
use serial_command::reading::causes::{WRITE_FAILED, path_cause, read_cause, write_cause};
use serial_command::reading::{Input, TextFault};
use simulation::scripts::ScriptRefusal;
use site_core::Refusal;
use socket_pump::WireFailed;
use std::alloc::{AllocError, AllocFailed};
use std::fmt;
use std::io::ErrorKind;
use stored_runs::LineFault;
use thiserror::Error;

/// Why the text of a script or of a journal is refused.
#[derive(Debug, Drop, PartialEq, Eq)]
pub enum Why {
    Script(ScriptRefusal),
    /// The text of the journal that is named so many words after the plan, from 0.
    Journal(usize, JournalRefusal),
    /// That journal is of an office of which one before it is.
    Twice(usize),
}

impl Why {
    /// The input whose text is refused.
    pub fn input(&self) -> Input
        ensures { result ≡ refused_input self.now }
    {
        match *self {
            Why::Script(_) => Input::Script,
            Why::Journal(k, _) | Why::Twice(k) => Input::Journal(k),
        }
    }
}

/// Why the file or folder of a name can't take journals that a run leaves.
#[derive(Clone, Copy, Debug, PartialEq, Eq, Error)]
pub enum Obstacle {
    /// It can't be written or made.
    #[error("X5 WriteFailed: it cannot be written: {cause}", cause = file_cause(*.0))]
    Failed(ErrorKind),
    /// What it has can't be read.
    #[error("X5 WriteFailed: what it has cannot be read: {cause}", cause = read_cause(*.0))]
    Unread(ErrorKind),
    /// It is an input of the run.
    #[error("X5 WriteFailed: it is an input, and the journal would take its place")]
    AnInput,
    /// It has a journal of the same office and run.
    #[error("X5 WriteFailed: it has a journal of this office and this run, and a second start would do its sessions twice; give the plan another run number")]
    AJournal,
}

/// Why an office doesn't get its store, or doesn't go on from it.
#[derive(Debug, Drop, PartialEq, Eq, Error)]
pub enum StoreRefusal {
    /// It can't be opened, read or cut off.
    #[error("U4 StoreFailed: it cannot be opened, read or cut off: {cause}", cause = file_cause(*.0))]
    Failed(ErrorKind),
    /// Another process has it.
    #[error("U6 StoreInUse: another process has it")]
    InUse,
    /// It isn't there, and was to be.
    #[error("U7 NoStore: it is not there, and --new makes one")]
    Missing,
    /// It is there, and was to be made.
    #[error("U8 StoreThere: it is there, and --new makes one that is not; without --new the office goes on from it")]
    There,
    /// The line of this number, from 1, is none of the office's journal of this run, and why; or 0, where no line says anything. The
    /// text is what people are told of it.
    #[error("line {line}: U5 StoreFaulty: {2}", line = (*.0).max(1))]
    Faulty(u64, LineFault, String),
}

/// Why a command fails. Its text doesn't name the input: the user has a name for it, and [`Fault::input`] says which input
/// is meant.
///
/// Of a run it says whether something was printed: so one definition (`Leaves`) says what each fault leaves, whatever
/// the cause is. Want of memory may be `NoRun` or `CutShort`, also where there is none to tell what stands; of the
/// other causes `NoRun` has only those that keep a run from beginning (`IsNoRun`).
#[derive(Debug, Drop, PartialEq, Eq, Error)]
pub enum Fault {
    #[error("out of memory")]
    Memory,
    /// An input can't be read, or the text of the plan or of the sessions is refused.
    #[error("{0}")]
    Text(TextFault),
    /// The text of a script or of a journal is refused, and the sentence that people are told of it.
    #[error("{1}")]
    Refused(Why, String),
    /// The plan has no office of the name that was asked for. The text says which it has.
    #[error("X6 NoSuchOffice: the plan has no office of this name; it has {0}")]
    NoSuchOffice(String),
    /// The office of this name has no address in the plan, and would need one.
    #[error("X2 NoAddress: the office `{0}` has `-` for its address, and an office runs where it and its neighbours have one")]
    NoAddress(String),
    /// No journal is of the office of this name.
    #[error("{rule}: no journal is of the office `{0}`, and an audit takes one of each office of the plan", rule = JournalRule::JournalHeader)]
    NoJournal(String),
    /// The file or folder of this name can't take what a run leaves. It hasn't begun, and nothing was written.
    #[error("{1}; nothing was run")]
    NoPlace(String, Obstacle),
    /// A run can't begin, or there is no memory to tell of it. Nothing was written.
    #[error(fmt = write_opening_fault)]
    NoRun(OpeningFault),
    /// A run ended before its time. What stands was written.
    #[error(fmt = write_run_fault)]
    CutShort(RunFault),
    /// How much went out isn't known.
    #[error("{failed}: {cause}", failed = WRITE_FAILED, cause = write_cause(*.0))]
    WriteFailed(ErrorKind),
    /// The file or folder of this name can't be written or made. What was to be printed is.
    #[error("X5 WriteFailed: it cannot be written: {cause}", cause = file_cause(*.1))]
    FileFailed(String, ErrorKind),
    /// The office's store can't be had, or isn't gone on from. The run hasn't begun, and nothing was written.
    #[error("{0}; nothing was run")]
    NoStore(StoreRefusal),
    /// It isn't sure that what was appended to the office's store is kept, and the run ended with it. What was kept before is printed.
    #[error("U4 StoreFailed: what the office did can't be kept in it; the run ended with it, and what was kept before is printed, from which a new start goes on")]
    StoreFailed,
    /// The sessions that the office's store has don't begin the office's here: that with this ticket is the first that differs. The run
    /// hasn't begun, and nothing was written.
    #[error("X7 OtherSessions: the office's session {0} is another than the one to which its store gave ticket {0}, and a start goes on with the same sessions, and maybe more after them; nothing was run")]
    OtherSessions(usize),
    /// The office doesn't get its secrets. The run hasn't begun, and nothing was written.
    #[error("{0}")]
    NoSecrets(SecretsFault),
}

impl Fault {
    /// The input that is at fault, if one is.
    pub fn input(&self) -> Option<Input>
        ensures { result ≡ input_of self.now }
    {
        match self {
            Fault::Memory
            | Fault::NoSuchOffice(_)
            | Fault::NoJournal(_)
            | Fault::NoPlace(_, _)
            | Fault::NoRun(_)
            | Fault::CutShort(_)
            | Fault::WriteFailed(_)
            | Fault::FileFailed(_, _)
            | Fault::NoStore(_)
            | Fault::StoreFailed
            | Fault::NoSecrets(_) => None,
            Fault::Text(fault) => fault.input(),
            Fault::Refused(why, _) => Some(why.input()),
            Fault::NoAddress(_) => Some(Input::Plan),
            Fault::OtherSessions(_) => Some(Input::Sessions),
        }
    }
}

/// Why a run can't begin.
fn write_opening_fault<W: fmt::Write>(
    fault: &OpeningFault,
    f: &mut fmt::Formatter<W>,
) -> fmt::Result {
    match *fault {
        OpeningFault::Memory => write!(f, "out of memory"),
        OpeningFault::BindFailed(at, kind) => {
            let cause = bind_cause(kind);
            write!(
                f,
                "U2 BindFailed: no socket can have the address {at}: {cause}"
            )
        }
        OpeningFault::NoClock => write!(f, "the clock cannot be read"),
    }
}

/// Why a run ended before its time.
fn write_run_fault<W: fmt::Write>(fault: &RunFault, f: &mut fmt::Formatter<W>) -> fmt::Result {
    match *fault {
        RunFault::Memory => write!(f, "out of memory")?,
        RunFault::WireFailed => {
            let rule = WireFailed;
            write!(f, "{rule}: a socket fails")?;
        }
        RunFault::JournalFull => {
            let rule = Refusal::JournalFull;
            write!(
                f,
                "{rule}: the journal of an office has no room left; stop all offices, and start them with the plan of the next day, which `audit PLAN JOURNAL .. --plan FILE` writes"
            )?;
        }
        RunFault::NoThread => write!(f, "U3 NoThread: no further thread can be started")?,
    }
    write!(
        f,
        "; the run ended with it, and what was done before is printed"
    )
}

/// Why a socket can't have an address, for people.
fn bind_cause(kind: ErrorKind) -> &'static str {
    match kind {
        ErrorKind::AddrInUse => "the address is in use",
        ErrorKind::AddrNotAvailable => "this machine has no such address",
        ErrorKind::PermissionDenied => "permission denied",
        ErrorKind::OutOfMemory => "out of memory",
        _ => "the system has no socket for it",
    }
}

/// Why a file or a folder can't be written or made, for people.
fn file_cause(kind: ErrorKind) -> &'static str {
    match kind {
        ErrorKind::NotFound => "a folder of its path is not there",
        ErrorKind::AlreadyExists => "a file has this name",
        _ => path_cause(kind).unwrap_or(write_cause(kind)),
    }
}

impl From<TextFault> for Fault {
    ghost from_gives = { λ f e. e ≡ Text f };

    fn from(fault: TextFault) -> Fault {
        Fault::Text(fault)
    }
}

impl From<OpeningFault> for Fault {
    ghost from_gives = { λ f e. e ≡ NoRun f };

    fn from(fault: OpeningFault) -> Fault {
        Fault::NoRun(fault)
    }
}

impl From<SecretsFault> for Fault {
    ghost from_gives = { λ f e. e ≡ NoSecrets f };

    fn from(fault: SecretsFault) -> Fault {
        Fault::NoSecrets(fault)
    }
}

impl From<AllocError> for Fault {
    ghost from_gives = { λ _ e. e ≡ Memory };

    fn from(_e: AllocError) -> Fault {
        Fault::Memory
    }
}

impl<T: Drop> From<AllocFailed<T>> for Fault {
    ghost from_gives = { λ _ e. e ≡ Memory };

    fn from(_e: AllocFailed<T>) -> Fault {
        Fault::Memory
    }
}
