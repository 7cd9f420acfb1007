//! What the program does with its words, over what opens files, reads and prints.

ghost use Rattle.std.specs.Prelude.{◌≡◌, IfErr, IfOk, map};
ghost use Rattle.std.specs.String.{string_bytes};
ghost use Rattle.drink_commands.specs.Sealed.{IsUnderSeals};
ghost use Rattle.drink_program.specs.Requests.{IsDone, IsJudgedFor, IsStatusOf, word_of};
ghost use Rattle.drink_program.specs.Status.{IsAnswered, status_of};

use crate::client::Client;
use crate::telling::{Telling, opened};
use command_outputs::Fault;
use command_outputs::clients::Clients;
use command_outputs::stores::{StoreFiles, Stores};
use command_words::command_line::{Request, command_line, help};
use drink_commands::commands::{audit, live, random, run, serial, serve, sim, stored};
use host_files::inputs::{Devices, Sources};
use host_files::outputs::{Disk, Targets};
use journal_stores::StoreFile;
use libc::STDIN_FILENO;
use office_stations::{Around, Binds, Gate, Open, UdpSockets};
pub use serial_command::answer::words;
use serial_command::answer::{fault_line, misused};
use serial_command::exit::{Exit, FAILED, MISUSED};
use serial_command::reading::Input;
use serving::{Monitor, Times};
use session_reports::form::Form;
use simulation::random::Schedule;
use std::alloc::{AllocError, Global};
use std::io;
use std::io::{IsTerminal, Write};
use std::net::Net;
use std::os::fd::AsRawFd;
use std::rt::{Clock, Env, Files};
use std::sync::Wait;
use std::thread::Threads;

/// Does what the command line asks for, and answers the exit status: 0, 1 where the command fails or leaves sessions, and 2 where
/// the command line is at fault. How far a run of offices is goes to the standard error, while that is a terminal and takes it at once;
/// and there goes, whatever it is, what one left.
pub fn run<R, E>(rt: &R, error: &E) -> u8
where
    R: AllocGlobal + Env + Files + std::io::Input + Print + Eprint,
    R: Threads + Wait + Clock + Net + Sync,
    R::File: AsRawFd + StoreFile,
    E: IsTerminal,
{
    let devices = Devices::new(rt);
    let mut disk = Disk::new(rt);
    let mut stores = StoreFiles::new(rt);
    let words = words(rt);
    let binds = if is_served(&words) {
        UdpSockets::heeding(rt, rt.alloc(), STDIN_FILENO)
    } else {
        UdpSockets::new(rt, rt.alloc())
    };
    let screen = if error.is_terminal() {
        opened(rt).ok()
    } else {
        None
    };
    let watch = Telling::new(rt, rt.alloc(), screen.as_ref().map(|it| it.as_raw_fd()));
    let around = Around {
        binds: &binds,
        gate: &Open,
        watch: &watch,
    };
    let exit = match words {
        Ok(words) => answer(
            rt,
            rt.alloc(),
            words.as_slice(),
            &devices,
            &around,
            &mut disk,
            &mut stores,
            &Client::new(&devices),
            &mut io::writer(rt),
        ),
        Err(exit) => exit,
    };
    exit.end(rt)
}

/// Whether these words ask for an office that serves, whose client is to be heard at once.
fn is_served(words: &Result<Vec<String>, Exit>) -> bool {
    match words {
        Ok(words) => words.get(1).is_some_and(|word| word.as_str() == "serve"),
        Err(_) => false,
    }
}

/// Does what these words ask for, of a client too that asks on the standard input. The first of them is the program's name. The status is 0 only where what they ask for was
/// done, without sessions that a run of offices leaves, or help or the version went out; and nothing is written where it is 2.
pub fn answer<R, S, B, G, V, T, K, C, W>(
    rt: &R,
    alloc: Global,
    words: &[String],
    sources: &S,
    around: &Around<'_, B, G, V>,
    targets: &mut T,
    stores: &mut K,
    clients: &C,
    out: &mut W,
) -> Exit
where
    R: Threads + Wait + Clock + Sync,
    S: Sources,
    B: Binds,
    B::Socket: Send,
    B::Alarm: Send,
    G: Gate + Sync,
    V: Monitor + Sync,
    T: Targets,
    K: Stores,
    C: Clients,
    W: Write,
    requires { C.asks clients.now ≡ S.standard_text sources.now }
    ensures done { result.status ≡ 0 → IsAnswered (IsUnderSeals B.Socket.account (S.file_text sources.now)) B.Socket.tells (S.file_text sources.now) (S.standard_text sources.now) (K.has stores.old) (map string_bytes words.now) (W.contents out.old) (W.contents out.new) (T.written targets.old) (T.written targets.new) }
    ensures unwritten { result.status ≡ 2 → (out.new ≡ out.old) × (targets.new ≡ targets.old) × (stores.new ≡ stores.old) }
{
    if words.len() < 2 {
        return Exit::saying(MISUSED, help(alloc));
    }
    match command_line(alloc, words) {
        Ok(request) => {
            if has_dash(&request) {
                return Exit::saying(MISUSED, no_dash(alloc, &request));
            }
            let result = perform(
                rt, alloc, &request, sources, around, targets, stores, clients, out,
            );
            Exit {
                status: status(&result),
                said: said(alloc, &request, &result),
            }
        }
        Err(error) => misused(alloc, &error, out),
    }
}

/// Whether a request names `-` where a file has to stand: one that is to be written or has secrets, or the plan of an office that serves,
/// since what is asked of it comes from the standard input. That is what `-` is elsewhere, and no file.
fn has_dash(request: &Request<'_>) -> bool {
    dash_of(request).is_some()
}

/// The word or option of a request that does.
fn dash_of(request: &Request<'_>) -> Option<&'static str> {
    match request {
        Request::Run {
            journal,
            secrets,
            ..
        } => dash_in("--journal", *journal).or(dash_in("--secrets", *secrets)),
        Request::RunStored { store, secrets, .. } => {
            dash_in("--store", Some(*store)).or(dash_in("--secrets", *secrets))
        }
        Request::Serve {
            plan,
            store,
            secrets,
            ..
        } => dash_in("PLAN", Some(*plan))
            .or(dash_in("--store", Some(*store)))
            .or(dash_in("--secrets", *secrets)),
        Request::Serial { next, .. } => dash_in("--plan", *next),
        Request::Sim { next, left, .. }
        | Request::Random { next, left, .. }
        | Request::Live { next, left, .. }
        | Request::Audit { next, left, .. } => {
            dash_in("--plan", *next).or(dash_in("--left", *left))
        }
    }
}

/// The option, where its word is `-`.
fn dash_in(option: &'static str, word: Option<&str>) -> Option<&'static str> {
    match word {
        Some(word) if word == "-" => Some(option),
        _ => None,
    }
}

/// What is said of such a request.
fn no_dash(alloc: Global, request: &Request<'_>) -> Result<String, AllocError> {
    let option = dash_of(request).unwrap_or("--journal");
    format!(in alloc;
        "drink: {option} takes a file, and - is none: a file whose name is - is written ./- instead\n"
    )
}

/// Carries a request out. The answer is the exit status.
pub fn perform<R, S, B, G, V, T, K, C, W>(
    rt: &R,
    alloc: Global,
    request: &Request,
    sources: &S,
    around: &Around<'_, B, G, V>,
    targets: &mut T,
    stores: &mut K,
    clients: &C,
    out: &mut W,
) -> Result<u8, Fault>
where
    R: Threads + Wait + Clock + Sync,
    S: Sources,
    B: Binds,
    B::Socket: Send,
    B::Alarm: Send,
    G: Gate + Sync,
    V: Monitor + Sync,
    T: Targets,
    K: Stores,
    C: Clients,
    W: Write,
    requires { C.asks clients.now ≡ S.standard_text sources.now }
    ensures done { IfOk result (λ status. IsDone (IsUnderSeals B.Socket.account (S.file_text sources.now)) B.Socket.tells (S.file_text sources.now) (S.standard_text sources.now) (K.has stores.old) request.now status (W.contents out.old) (W.contents out.new) (T.written targets.old) (T.written targets.new)) }
    ensures status { IfOk result (IsStatusOf request.now) }
    ensures judged { IfErr result (IsJudgedFor (S.file_text sources.now) (S.standard_text sources.now) request.now) }
{
    match request {
        Request::Serial {
            plan,
            sessions,
            next,
            json,
        } => {
            let form = Form::of(*json);
            serial::run(alloc, form, sources, plan, sessions, *next, targets, out)
        }
        Request::Sim {
            plan,
            sessions,
            script,
            journals,
            next,
            left,
            json,
        } => {
            let form = Form::of(*json);
            sim::run(
                alloc, form, sources, plan, sessions, script, *journals, *next, *left, targets, out,
            )
        }
        Request::Random {
            plan,
            sessions,
            seed,
            loss,
            steps,
            next,
            left,
            json,
        } => {
            let form = Form::of(*json);
            let schedule = Schedule {
                seed: *seed,
                loss: *loss,
                steps: *steps,
            };
            random::run(
                alloc, form, sources, plan, sessions, schedule, *next, *left, targets, out,
            )
        }
        Request::Run {
            plan,
            office,
            sessions,
            turns,
            journal,
            secrets,
            json,
        } => {
            let form = Form::of(*json);
            run::run(
                rt, alloc, form, sources, plan, office, sessions, *turns, *journal, *secrets,
                around, targets, out,
            )
        }
        Request::RunStored {
            plan,
            office,
            sessions,
            turns,
            store,
            sync,
            new,
            secrets,
            json,
        } => {
            let form = Form::of(*json);
            stored::run(
                rt, alloc, form, sources, plan, office, sessions, *turns, store, *sync, *new,
                *secrets, around, stores, out,
            )
        }
        Request::Serve {
            plan,
            office,
            store,
            sync,
            new,
            secrets,
            linger,
            status,
            json,
        } => {
            let form = Form::of(*json);
            let times = Times {
                linger: *linger,
                status: *status,
            };
            serve::run(
                rt, alloc, form, sources, plan, office, store, *sync, *new, *secrets, times,
                around, stores, clients, out,
            )
        }
        Request::Live {
            plan,
            sessions,
            journals,
            next,
            left,
            json,
        } => {
            let form = Form::of(*json);
            live::run(
                rt, alloc, form, sources, plan, sessions, *journals, *next, *left, around, targets,
                out,
            )
        }
        Request::Audit {
            plan,
            journals,
            next,
            left,
            json,
        } => {
            let form = Form::of(*json);
            audit::run(
                alloc, form, sources, plan, journals, *next, *left, targets, out,
            )
        }
    }
}

/// The exit status that a command's answer means.
fn status(answer: &Result<u8, Fault>) -> u8
    ensures { result ≡ status_of answer.now }
{
    match answer {
        Ok(status) => *status,
        Err(_) => FAILED,
    }
}

/// What is said of a request's answer: nothing, or the fault after the word that it is about.
fn said(
    alloc: Global,
    request: &Request,
    answer: &Result<u8, Fault>,
) -> Result<String, AllocError> {
    match answer {
        Ok(_) => Ok(String::new(alloc)),
        Err(fault) => said_of(alloc, fault, named(request, fault)),
    }
}

/// The word of a request that a fault is about, or the file, if it is about one.
fn named<'a>(request: &'a Request<'_>, fault: &'a Fault) -> Option<&'a str> {
    match (request, fault) {
        (
            Request::Run { office, .. }
            | Request::RunStored { office, .. }
            | Request::Serve { office, .. },
            Fault::NoSuchOffice(_),
        ) => Some(*office),
        (
            Request::RunStored { store, .. } | Request::Serve { store, .. },
            Fault::NoStore(_) | Fault::StoreFailed,
        ) => Some(*store),
        (
            Request::Run { secrets, .. }
            | Request::RunStored { secrets, .. }
            | Request::Serve { secrets, .. },
            Fault::NoSecrets(_),
        ) => *secrets,
        (_, Fault::FileFailed(name, _) | Fault::NoPlace(name, _)) => Some(name.as_str()),
        _ => match fault.input() {
            Some(input) => Some(word_of(request, input)),
            None => None,
        },
    }
}

/// What is said of a fault. A reader of the output that has gone away needs no telling.
fn said_of(alloc: Global, fault: &Fault, name: Option<&str>) -> Result<String, AllocError> {
    match fault {
        Fault::WriteFailed(io::ErrorKind::BrokenPipe) => Ok(String::new(alloc)),
        _ => fault_line(alloc, fault, name),
    }
}

/// The word that names an input in a request.
fn word_of<'a>(request: &Request<'a>, input: Input) -> &'a str
    ensures { result.now ≡ word_of request.now input }
{
    match request {
        Request::Sim {
            plan,
            sessions,
            script,
            ..
        } => match input {
            Input::Plan => plan,
            Input::Sessions => sessions,
            Input::Script => script,
            Input::Journal(_) => "",
        },
        Request::Serial { plan, sessions, .. }
        | Request::Random { plan, sessions, .. }
        | Request::Run { plan, sessions, .. }
        | Request::RunStored { plan, sessions, .. }
        | Request::Live { plan, sessions, .. } => match input {
            Input::Plan => plan,
            Input::Sessions => sessions,
            Input::Script | Input::Journal(_) => "",
        },
        Request::Serve { plan, .. } => match input {
            Input::Plan => plan,
            Input::Sessions => "-",
            Input::Script | Input::Journal(_) => "",
        },
        Request::Audit { plan, journals, .. } => match input {
            Input::Plan => plan,
            Input::Journal(k) if k < journals.len() => journals[k],
            _ => "",
        },
    }
}
