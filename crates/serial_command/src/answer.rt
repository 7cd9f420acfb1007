//! What the words of a command line ask for, done where that is `serial`.

ghost use Rattle.std.specs.Prelude.{◌≡◌, ◌≤◌, ◌⊎◌, [], ◌∷◌, None, map};
ghost use Rattle.std.specs.Io.KnownBytes.{Appends};
ghost use Rattle.std.specs.String.{string_bytes};
ghost use Rattle.clap.specs.Values.{kind_of};
ghost use Rattle.session_reports.specs.form.Forms.{form_of};
ghost use Rattle.serial_command.specs.Answers.{IsAnswered, IsDone, IsReported, IsShown};
ghost use Rattle.serial_command.specs.Texts.{HaveAcceptedTexts};

use crate::exit::{DONE, Exit, FAILED, MISUSED};
use crate::reading::causes::{WRITE_FAILED, write_cause};
use crate::reading::{Input, TextFault};
use crate::serial;
use clap::error::ErrorKind;
use command_words::command_line::{Request, command_line, help};
use host_files::inputs::{Devices, Sources, failure_kind};
use host_files::outputs::write_whole;
use session_reports::form::Form;
use std::alloc::{AllocError, Global};
use std::fmt::Display;
use std::io;
use std::io::Write;
use std::rt::{Env, Files};

/// Does what the command line asks for, and answers the exit status: 0, 1 where that fails, and 2 where the command line is at fault
/// or asks for another command.
pub fn run<R>(rt: &R) -> u8
where
    R: AllocGlobal + Env + Files + std::io::Input + Print + Eprint,
{
    let devices = Devices::new(rt);
    let exit = match words(rt) {
        Ok(words) => answer(rt.alloc(), words.as_slice(), &devices, &mut io::writer(rt)),
        Err(exit) => exit,
    };
    exit.end(rt)
}

/// All words of the command line, of which the first is the program's name; or how the program ends without them.
pub fn words<R: AllocGlobal + Env>(rt: &R) -> Result<Vec<String>, Exit> {
    match std::env::args(rt) {
        Ok(args) => match args.collect::<Vec<String>>(rt.alloc()) {
            Ok(words) => Ok(words),
            Err(_) => Err(Exit::out_of_memory()),
        },
        Err(e) if e.kind() == io::ErrorKind::OutOfMemory => Err(Exit::out_of_memory()),
        Err(_) => Err(Exit::saying(MISUSED, no_text(rt.alloc()))),
    }
}

fn no_text(alloc: Global) -> Result<String, AllocError> {
    String::from_str(
        alloc,
        "drink: the command line is not UTF-8, and file names have to be\n",
    )
}

/// Does what these words ask for, where that is a serial run. The first of them is the program's name. The status is 0 only where it
/// was done, or help or the version went out; and nothing is written where it is 2.
pub fn answer<S: Sources, W: Write>(
    alloc: Global,
    words: &[String],
    sources: &S,
    out: &mut W,
) -> Exit
    ensures done { result.status ≡ 0 → IsAnswered (S.file_text sources.now) (S.standard_text sources.now) (map string_bytes words.now) (W.contents out.old) (W.contents out.new) }
    ensures unwritten { result.status ≡ 2 → out.new ≡ out.old }
{
    if words.len() < 2 {
        return Exit::saying(MISUSED, help(alloc));
    }
    match command_line(alloc, words) {
        Ok(request) => perform(alloc, &request, sources, out),
        Err(error) => misused(alloc, &error, out),
    }
}

/// Carries a request out.
fn perform<S: Sources, W: Write>(
    alloc: Global,
    request: &Request<'_>,
    sources: &S,
    out: &mut W,
) -> Exit
    ensures done { result.status ≡ 0 → IsDone (S.file_text sources.now) (S.standard_text sources.now) request.now (W.contents out.old) (W.contents out.new) }
    ensures unwritten { result.status ≡ 2 → out.new ≡ out.old }
{
    match request {
        Request::Serial {
            plan,
            sessions,
            next,
            json,
        } => without_files(alloc, Form::of(*json), plan, sessions, *next, sources, out),
        _ => Exit::saying(MISUSED, another_command(alloc)),
    }
}

/// A serial run, where no file is named for the plan of the next day.
fn without_files<S: Sources, W: Write>(
    alloc: Global,
    form: Form,
    plan: &str,
    sessions: &str,
    next: Option<&str>,
    sources: &S,
    out: &mut W,
) -> Exit
    ensures done { result.status ≡ 0 → (next.entry ≡ None) × IsReported (S.file_text sources.now) (S.standard_text sources.now) form plan.now sessions.now (W.contents out.old) (W.contents out.new) }
    ensures unwritten { result.status ≡ 2 → out.new ≡ out.old }
{
    match next {
        None => report(alloc, form, plan, sessions, sources, out),
        Some(_) => Exit::saying(MISUSED, another_command(alloc)),
    }
}

/// The serial run of the plan and the sessions that these words stand for. Nothing is written before both are judged.
fn report<S: Sources, W: Write>(
    alloc: Global,
    form: Form,
    plan: &str,
    sessions: &str,
    sources: &S,
    out: &mut W,
) -> Exit
    ensures done { result.status ≡ 0 → IsReported (S.file_text sources.now) (S.standard_text sources.now) form plan.now sessions.now (W.contents out.old) (W.contents out.new) }
    ensures status { result.status ≤ 1 }
    ensures unwritten { (out.new ≡ out.old) ⊎ HaveAcceptedTexts (S.file_text sources.now) (S.standard_text sources.now) (plan.now ∷ sessions.now ∷ []) (Input.Plan ∷ Input.Sessions ∷ []) }
{
    match serial::run(alloc, form, sources, plan, sessions) {
        Ok(ended) => write_out(alloc, &ended.text, out),
        Err(fault) => {
            let line = fault_line(alloc, &fault, named(plan, sessions, &fault));
            Exit::saying(FAILED, line)
        }
    }
}

fn another_command(alloc: Global) -> Result<String, AllocError> {
    String::from_str(
        alloc,
        "drink: this program has the command serial alone, without --plan\n",
    )
}

/// The word that a fault is about, if it is about one.
fn named<'a>(plan: &'a str, sessions: &'a str, fault: &TextFault) -> Option<&'a str> {
    match fault.input() {
        Some(Input::Plan) => Some(plan),
        Some(Input::Sessions) => Some(sessions),
        _ => None,
    }
}

/// The line that is said of a fault, after the word or the file that it is about.
pub fn fault_line<F: Display>(
    alloc: Global,
    fault: &F,
    name: Option<&str>,
) -> Result<String, AllocError> {
    match name {
        None => format!(in alloc; "drink: {fault}\n"),
        Some(name) => {
            let name = escaped(alloc, name)?;
            format!(in alloc; "drink: {name}: {fault}\n")
        }
    }
}

/// A file's name as people are shown it: with its control characters escaped, so that a fault is one line and a terminal
/// shows it as it is.
fn escaped(alloc: Global, name: &str) -> Result<String, AllocError> {
    let mut shown = String::new(alloc);
    for c in name.chars() {
        if c.is_control() {
            let code = c as u32;
            write!(shown, "\\u{{{code:x}}}")?;
        } else {
            shown.push(c)?;
        }
    }
    Ok(shown)
}

/// What is answered where the words ask for nothing that is done: help and the version go out, all else is a fault of the
/// command line.
pub fn misused<W: Write>(alloc: Global, error: &clap::Error, out: &mut W) -> Exit
    ensures shown { result.status ≡ 0 → IsShown (kind_of error.now) }
    ensures failed { result.status ≡ 1 → IsShown (kind_of error.now) ⊎ (out.new ≡ out.old) }
    ensures unwritten { result.status ≡ 2 → out.new ≡ out.old }
{
    match error.kind() {
        ErrorKind::DisplayHelp | ErrorKind::DisplayVersion => shown(alloc, error, out),
        ErrorKind::OutOfMemory => Exit::out_of_memory(),
        _ => Exit::saying(MISUSED, misuse(alloc, error)),
    }
}

/// What is wrong with the command line. It begins as all that the program says does.
fn misuse(alloc: Global, error: &clap::Error) -> Result<String, AllocError> {
    let text = error.to_string(alloc)?;
    match text.as_str().strip_prefix("error: ") {
        Some(said) => format!(in alloc; "drink: {said}"),
        None => Ok(text),
    }
}

/// Help or the version goes out.
fn shown<W: Write>(alloc: Global, error: &clap::Error, out: &mut W) -> Exit
    ensures { result.status ≤ 1 }
{
    match error.to_string(alloc) {
        Ok(text) => write_out(alloc, &text, out),
        Err(_) => Exit::out_of_memory(),
    }
}

/// The whole text goes out, or it is said why it can't. A reader of the output that has gone away needs no telling.
fn write_out<W: Write>(alloc: Global, text: &str, out: &mut W) -> Exit
    ensures written { result.status ≡ 0 → Appends (W.contents out.old) (W.contents out.new) text.now }
    ensures status { result.status ≤ 1 }
{
    match write_whole(out, text.as_bytes()) {
        Ok(()) => Exit::silent(alloc, DONE),
        Err(error) => match failure_kind(&error) {
            io::ErrorKind::BrokenPipe => Exit::silent(alloc, FAILED),
            kind => Exit::saying(FAILED, write_failed(alloc, kind)),
        },
    }
}

fn write_failed(alloc: Global, kind: io::ErrorKind) -> Result<String, AllocError> {
    let failed = WRITE_FAILED;
    let cause = write_cause(kind);
    format!(in alloc; "drink: {failed}: {cause}\n")
}
