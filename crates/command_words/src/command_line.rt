//! The words of a command line.

ghost use Rattle.std.specs.Prelude.{◌≡◌, ◌⊎◌, IfOk, Some, codes, false, map, option_map};
ghost use Rattle.std.specs.Str.{bytes_eq};
ghost use Rattle.std.specs.String.{string_bytes};
ghost use Rattle.clap.specs.Words.{App, FailsBy, app_of, found_of, kind_of, rows_of, rule_of, with_subcommand};
ghost use Rattle.clap.specs.declared.builder.command.Command.TheViews.{out-Command as fields_of};
ghost use Rattle.command_words.specs.CommandLine.{Asks, IsNumber, Requests, audit_command, faults_of, flag, given, has_flag, live_command, live_without_end, named, numbered, optional, path, program, random_command, random_without_end, required, run_command, run_without_store, serial_command, serve_command, serve_with_store, several, sim_command, sim_without_end, store_faults, sync_meant, word_of, words_of, run_words};

use clap::builder::ValueParser;
use clap::error::ErrorKind;
use clap::{Arg, ArgAction, ArgMatches, Command, Error};
use journal_stores::Sync;
use std::alloc::{AllocError, Global};

/// What a command line asks for.
#[derive(Debug, Drop, PartialEq, Eq)]
pub enum Request<'a> {
    /// The sessions alone, in the order of the file. A file, where one is named, is for the plan of the next day. Here and below a report
    /// may be asked for as JSON.
    Serial {
        plan: &'a str,
        sessions: &'a str,
        next: Option<&'a str>,
        json: bool,
    },
    /// A script on the world of a plan. A folder, where one is named, is for the journals of its offices; a file for the plan of
    /// the next day; and one for the sessions that are left.
    Sim {
        plan: &'a str,
        sessions: &'a str,
        script: &'a str,
        journals: Option<&'a str>,
        next: Option<&'a str>,
        left: Option<&'a str>,
        json: bool,
    },
    /// A run on the world of a plan, of so many steps that are drawn from this seed. Of a hundred deliveries so many are lost. A file,
    /// where one is named, is for the plan of the next day, and one for the sessions that haven't finished.
    Random {
        plan: &'a str,
        sessions: &'a str,
        seed: u64,
        loss: u64,
        steps: u64,
        next: Option<&'a str>,
        left: Option<&'a str>,
        json: bool,
    },
    /// One office of a plan, at its address, with its sessions, for so many turns. A file, where one is named, is for its journal, and
    /// one has its secrets.
    Run {
        plan: &'a str,
        office: &'a str,
        sessions: &'a str,
        turns: u64,
        journal: Option<&'a str>,
        secrets: Option<&'a str>,
        json: bool,
    },
    /// The same, where the office keeps its journal in a store and goes on from what it has. The store is made, or has to be there.
    RunStored {
        plan: &'a str,
        office: &'a str,
        sessions: &'a str,
        turns: u64,
        store: &'a str,
        sync: Sync,
        new: bool,
        secrets: Option<&'a str>,
        json: bool,
    },
    /// One office of a plan, at its address, that takes its sessions as they come, from such a store. It ends where none comes any more
    /// and no datagram came for so many seconds, and with 0 it doesn't; each so many seconds it is said how it stands, and with 0 it isn't.
    /// A file, where one is named, has its secrets.
    Serve {
        plan: &'a str,
        office: &'a str,
        store: &'a str,
        sync: Sync,
        new: bool,
        secrets: Option<&'a str>,
        linger: u64,
        status: u64,
        json: bool,
    },
    /// All offices of a plan, on this machine. A folder, where one is named, is for their journals; a file for the plan of the next
    /// day; and one for the sessions that haven't finished.
    Live {
        plan: &'a str,
        sessions: &'a str,
        journals: Option<&'a str>,
        next: Option<&'a str>,
        left: Option<&'a str>,
        json: bool,
    },
    /// Whether the journals that offices left are of one run of a plan, and what its sessions did. A file, where one is named, is for
    /// the plan of the next day, and one for the sessions that are left.
    Audit {
        plan: &'a str,
        journals: Vec<&'a str>,
        next: Option<&'a str>,
        left: Option<&'a str>,
        json: bool,
    },
}

/// What the words of a command line ask for. The first word is the program's name. The error has
/// the text to print and the exit status: 0 where help was asked for, and 2 for a fault.
pub fn command_line<'a>(alloc: Global, words: &'a [String]) -> Result<Request<'a>, Error>
    ensures request { IfOk result (Asks (map string_bytes words.entry.now)) }

    // Memory may run out in place of each.
    ensures faults { FailsBy (faults_of (map string_bytes words.entry.now)) result }
{
    let matches = program(alloc)?.try_get_matches_from(words)?;
    match matches.subcommand() {
        Some((name, found)) => requested(alloc, name, found),
        None => Ok(Request::Serial {
            plan: "-",
            sessions: "-",
            next: None,
            json: false,
        }),
    }
}

/// The help of the program.
pub fn help(alloc: Global) -> Result<String, AllocError> {
    match program(alloc)?.try_get_matches_from(["drink", "--help"].as_slice()) {
        Ok(_) => Ok(String::new(alloc)),
        Err(error) => match error.kind() {
            ErrorKind::OutOfMemory => Err(AllocError),
            _ => error.to_string(alloc),
        },
    }
}

/// What the command of this name asks for, with what was found of its words.
fn requested<'a>(alloc: Global, name: &str, found: &ArgMatches<'a>) -> Result<Request<'a>, Error>
    ensures request { IfOk result (Requests name.now (Some (rows_of (found_of found.now)))) }
    ensures faults { FailsBy (store_faults name.now (Some (rows_of (found_of found.now)))) result }
{
    if name == "run" {
        return run_requested(alloc, found);
    }
    if name == "serve" {
        return serve_requested(alloc, found);
    }
    let plan = word(found, "PLAN");
    if name == "audit" {
        let journals = words(alloc, found, "JOURNAL")?;
        let next = given(found, "plan");
        let left = given(found, "left");
        let json = has_flag(found, "json");
        return Ok(Request::Audit {
            plan,
            journals,
            next,
            left,
            json,
        });
    }
    let sessions = word(found, "SESSIONS");
    if name == "sim" {
        return Ok(Request::Sim {
            plan,
            sessions,
            script: word(found, "SCRIPT"),
            journals: given(found, "journals"),
            next: given(found, "plan"),
            left: given(found, "left"),
            json: has_flag(found, "json"),
        });
    }
    if name == "random" {
        return Ok(Request::Random {
            plan,
            sessions,
            seed: number(found, "seed"),
            loss: number(found, "loss"),
            steps: number(found, "steps"),
            next: given(found, "plan"),
            left: given(found, "left"),
            json: has_flag(found, "json"),
        });
    }
    if name == "live" {
        let journals = given(found, "journals");
        return Ok(Request::Live {
            plan,
            sessions,
            journals,
            next: given(found, "plan"),
            left: given(found, "left"),
            json: has_flag(found, "json"),
        });
    }
    Ok(Request::Serial {
        plan,
        sessions,
        next: given(found, "plan"),
        json: has_flag(found, "json"),
    })
}

/// What `run` asks for. A store is a journal already, and what is said of one needs it.
///
/// Words about a store are refused beside `clap`'s rules. Its contracts say which error a command line has only where
/// no option has a rule on another, and which value only of its own lists whose place in memory isn't known. So another
/// word after `--sync`, `--sync` or `--new` without `--store`, and `--store` with `--journal` are refused here, by
/// `clap`'s own kinds of error, after all that `clap` refuses.
fn run_requested<'a>(alloc: Global, found: &ArgMatches<'a>) -> Result<Request<'a>, Error>
    ensures request { IfOk result (Requests (codes "run") (Some (rows_of (found_of found.now)))) }
    ensures faults { FailsBy (store_faults (codes "run") (Some (rows_of (found_of found.now)))) result }
{
    let plan = word(found, "PLAN");
    let office = word(found, "OFFICE");
    let sessions = word(found, "SESSIONS");
    let turns = number(found, "turns");
    let journal = given(found, "journal");
    let new = has_flag(found, "new");
    let secrets = given(found, "secrets");
    let json = has_flag(found, "json");
    let Some(sync) = sync_meant(given(found, "sync")) else {
        return Err(refused(alloc, ErrorKind::InvalidValue, OTHER_SYNC));
    };
    let Some(store) = given(found, "store") else {
        if given(found, "sync").is_some() || new {
            return Err(refused(alloc, ErrorKind::MissingRequiredArgument, NO_STORE));
        }
        return Ok(Request::Run {
            plan,
            office,
            sessions,
            turns,
            journal,
            secrets,
            json,
        });
    };
    if journal.is_some() {
        return Err(refused(alloc, ErrorKind::ArgumentConflict, TWO_JOURNALS));
    }
    Ok(Request::RunStored {
        plan,
        office,
        sessions,
        turns,
        store,
        sync,
        new,
        secrets,
        json,
    })
}

/// What `serve` asks for. The word after `--sync` is judged as that of `run` is.
fn serve_requested<'a>(alloc: Global, found: &ArgMatches<'a>) -> Result<Request<'a>, Error>
    ensures request { IfOk result (Requests (codes "serve") (Some (rows_of (found_of found.now)))) }
    ensures faults { FailsBy (store_faults (codes "serve") (Some (rows_of (found_of found.now)))) result }
{
    let Some(sync) = sync_meant(given(found, "sync")) else {
        return Err(refused_by(
            serve(alloc),
            "drink serve",
            ErrorKind::InvalidValue,
            OTHER_SYNC,
        ));
    };
    Ok(Request::Serve {
        plan: word(found, "PLAN"),
        office: word(found, "OFFICE"),
        store: word(found, "store"),
        sync,
        new: has_flag(found, "new"),
        secrets: given(found, "secrets"),
        linger: number(found, "linger"),
        status: number(found, "status"),
        json: has_flag(found, "json"),
    })
}

/// What the word after `--sync` means, if anything. Without one it is the disk.
fn sync_meant(word: Option<&str>) -> Option<Sync>
    ensures { result ≡ sync_meant (option_map (λ word. word.now) word.entry) }
{
    match word {
        None => Some(Sync::Data),
        Some(word) if word == "data" => Some(Sync::Data),
        Some(word) if word == "none" => Some(Sync::Nothing),
        Some(_) => None,
    }
}

/// The error of `run` for words that its rules let through.
fn refused(alloc: Global, kind: ErrorKind, message: &str) -> Error
    ensures { (kind_of result ≡ kind) ⊎ (kind_of result ≡ ErrorKind.OutOfMemory) }
{
    refused_by(run(alloc), "drink run", kind, message)
}

/// The error of a command, which stands under this name, for words that its rules let through.
fn refused_by(
    command: Result<Command<'_>, AllocError>,
    name: &str,
    kind: ErrorKind,
    message: &str,
) -> Error
    ensures { (kind_of result ≡ kind) ⊎ (kind_of result ≡ ErrorKind.OutOfMemory) }
{
    match error_by(command, name, kind, message) {
        Ok(error) => error,
        Err(AllocError) => Error::from(AllocError),
    }
}

fn error_by(
    command: Result<Command<'_>, AllocError>,
    name: &str,
    kind: ErrorKind,
    message: &str,
) -> Result<Error, AllocError>
    ensures { IfOk result (λ error. kind_of error ≡ kind) }
{
    let mut command = command?.bin_name(name)?;
    command.error(kind, message)
}

/// The number that a word says. Its range was looked at when the words were read.
fn number(matches: &ArgMatches<'_>, id: &str) -> u64
    ensures { IsNumber (word_of id.now (Some (rows_of (found_of matches.now)))) result }
{
    match word(matches, id).parse::<u64>() {
        Ok(number) => number,
        Err(_) => 0,
    }
}

/// The word for an argument; - where there is none.
fn word<'a>(matches: &ArgMatches<'a>, id: &str) -> &'a str
    ensures { result.now ≡ word_of id.now (Some (rows_of (found_of matches.now))) }
{
    given(matches, id).unwrap_or("-")
}

/// The word for an argument, where there is one.
fn given<'a>(matches: &ArgMatches<'a>, id: &str) -> Option<&'a str>
    ensures { option_map (λ word. word.now) result ≡ given id.now (Some (rows_of (found_of matches.now))) }
{
    matches.get_str(id)
}

/// Whether a flag is there.
fn has_flag(matches: &ArgMatches<'_>, id: &str) -> bool
    ensures { result ≡ has_flag id.now (Some (rows_of (found_of matches.now))) }
{
    word(matches, id) == "true"
}

/// All words of an argument that may have several.
fn words<'a>(alloc: Global, matches: &ArgMatches<'a>, id: &str) -> Result<Vec<&'a str>, AllocError>
    ensures { IfOk result (λ words. map (λ w. w.now) words.items ≡ words_of id.now (Some (rows_of (found_of matches.now)))) }
{
    match matches.get_strs(id) {
        Some(words) => words.to_vec(alloc),
        None => Ok(Vec::new(alloc)),
    }
}

fn program<'a>(alloc: Global) -> Result<Command<'a>, AllocError>
    ensures { IfOk result (λ c. app_of c ≡ program) }
{
    let program = Command::new(alloc, "drink")
        .about("A broker for serial record sessions between neighbouring offices")
        .after_help(STATUSES)
        .version(VERSION)
        .subcommand_required(true);
    let program = with_command(program, serial(alloc))?;
    let program = with_command(program, sim(alloc))?;
    let program = with_command(program, random(alloc))?;
    let program = with_command(program, run(alloc))?;
    let program = with_command(program, serve(alloc))?;
    let program = with_command(program, live(alloc))?;
    with_command(program, audit(alloc))
}

/// The program with one command more, where there was memory for that.
fn with_command<'a>(
    program: Command<'a>,
    command: Result<Command<'a>, AllocError>,
) -> Result<Command<'a>, AllocError>
    ensures { IfOk result (λ p. (a : App) → IfOk command.entry (λ c. (app_of c ≡ a) × ((fields_of c).has_globals ≡ false)) → app_of p ≡ with_subcommand (app_of program.entry) a.top) }
{
    program.subcommand(command?)
}

fn serial<'a>(alloc: Global) -> Result<Command<'a>, AllocError>
    ensures command { IfOk result (λ c. app_of c ≡ serial_command) }
    ensures local { IfOk result (λ c. (fields_of c).has_globals ≡ false) }
{
    Command::new(alloc, "serial")
        .about("Runs the sessions alone, one after another, and prints what each did")
        .after_help(INPUTS)
        .arg(required(alloc, "PLAN", PLAN))?
        .arg(required(alloc, "SESSIONS", SESSIONS))?
        .arg(path(alloc, "plan", NEXT, "FILE"))?
        .arg(flag(alloc, "json", OBJECTS))
}

fn sim<'a>(alloc: Global) -> Result<Command<'a>, AllocError>
    ensures command { IfOk result (λ c. app_of c ≡ sim_command) }
    ensures local { IfOk result (λ c. (fields_of c).has_globals ≡ false) }
{
    sim_without_end(alloc)?
        .arg(path(alloc, "plan", NEXT, "FILE"))?
        .arg(path(alloc, "left", LEFT, "FILE"))?
        .arg(flag(alloc, "json", OBJECTS))
}

/// `sim` but for what is said of the next day.
fn sim_without_end<'a>(alloc: Global) -> Result<Command<'a>, AllocError>
    ensures command { IfOk result (λ c. app_of c ≡ sim_without_end) }
    ensures local { IfOk result (λ c. (fields_of c).has_globals ≡ false) }
{
    Command::new(alloc, "sim")
        .about(
            "Runs a script on the offices of a plan, and prints its replies and what the sessions did",
        )
        .after_help(INPUTS)
        .arg(required(alloc, "PLAN", PLAN))?
        .arg(required(alloc, "SESSIONS", SESSIONS))?
        .arg(required(alloc, "SCRIPT", SCRIPT))?
        .arg(path(alloc, "journals", JOURNALS, "DIR"))
}

fn random<'a>(alloc: Global) -> Result<Command<'a>, AllocError>
    ensures command { IfOk result (λ c. app_of c ≡ random_command) }
    ensures local { IfOk result (λ c. (fields_of c).has_globals ≡ false) }
{
    random_without_end(alloc)?
        .arg(path(alloc, "plan", NEXT, "FILE"))?
        .arg(path(alloc, "left", LEFT, "FILE"))?
        .arg(flag(alloc, "json", OBJECTS))
}

/// `random` but for what is said of the next day.
fn random_without_end<'a>(alloc: Global) -> Result<Command<'a>, AllocError>
    ensures command { IfOk result (λ c. app_of c ≡ random_without_end) }
    ensures local { IfOk result (λ c. (fields_of c).has_globals ≡ false) }
{
    Command::new(alloc, "random")
        .about(
            "Runs the sessions on the offices of a plan as it is drawn, and prints what they did",
        )
        .after_help(INPUTS)
        .arg(required(alloc, "PLAN", PLAN))?
        .arg(required(alloc, "SESSIONS", SESSIONS))?
        .arg(numbered(alloc, "seed", SEED, 0, u64::MAX))?
        .arg(numbered(alloc, "loss", LOSS, 0, MOST_LOSS))?
        .arg(numbered(alloc, "steps", STEPS, 1, MOST_STEPS))
}

fn run<'a>(alloc: Global) -> Result<Command<'a>, AllocError>
    ensures command { IfOk result (λ c. app_of c ≡ run_command) }
    ensures local { IfOk result (λ c. (fields_of c).has_globals ≡ false) }
{
    run_without_store(alloc)?
        .arg(path(alloc, "store", STORE, "FILE"))?
        .arg(path(alloc, "sync", SYNC, "WHEN"))?
        .arg(flag(alloc, "new", NEW))?
        .arg(flag(alloc, "json", OBJECTS))
}

/// `run` but for what is said of a store.
fn run_without_store<'a>(alloc: Global) -> Result<Command<'a>, AllocError>
    ensures command { IfOk result (λ c. app_of c ≡ run_without_store) }
    ensures local { IfOk result (λ c. (fields_of c).has_globals ≡ false) }
{
    run_words(alloc)?
        .arg(optional(alloc, "turns", TURNS, 1, MOST_TURNS, USUAL_TURNS))?
        .arg(path(alloc, "secrets", SECRETS, "FILE"))?
        .arg(path(alloc, "journal", OWN_JOURNAL, "FILE"))
}

fn run_words<'a>(alloc: Global) -> Result<Command<'a>, AllocError>
    ensures command { IfOk result (λ c. app_of c ≡ run_words) }
    ensures local { IfOk result (λ c. (fields_of c).has_globals ≡ false) }
{
    Command::new(alloc, "run")
        .about("Runs one office of a plan at its address, and prints what its sessions did")
        .after_help(OWN_RUNS)
        .arg(required(alloc, "PLAN", PLAN))?
        .arg(required(alloc, "OFFICE", OFFICE))?
        .arg(required(alloc, "SESSIONS", OWN_SESSIONS))
}

fn serve<'a>(alloc: Global) -> Result<Command<'a>, AllocError>
    ensures command { IfOk result (λ c. app_of c ≡ serve_command) }
    ensures local { IfOk result (λ c. (fields_of c).has_globals ≡ false) }
{
    serve_with_store(alloc)?
        .arg(flag(alloc, "new", NEW))?
        .arg(path(alloc, "secrets", SECRETS, "FILE"))?
        .arg(optional(alloc, "linger", LINGER, 0, MOST_SECONDS, NEVER))?
        .arg(optional(alloc, "status", STATUS, 0, MOST_SECONDS, NEVER))?
        .arg(flag(alloc, "json", OBJECTS))
}

/// `serve` but for how it begins and how long it goes on.
fn serve_with_store<'a>(alloc: Global) -> Result<Command<'a>, AllocError>
    ensures command { IfOk result (λ c. app_of c ≡ serve_with_store) }
    ensures local { IfOk result (λ c. (fields_of c).has_globals ≡ false) }
{
    Command::new(alloc, "serve")
        .about("Runs one office of a plan at its address, and takes its sessions as they come")
        .after_help(SERVICES)
        .arg(required(alloc, "PLAN", PLAN_FILE))?
        .arg(required(alloc, "OFFICE", OFFICE))?
        .arg(named(alloc, "store", STORE, "FILE"))?
        .arg(path(alloc, "sync", SYNC, "WHEN"))
}

fn live<'a>(alloc: Global) -> Result<Command<'a>, AllocError>
    ensures command { IfOk result (λ c. app_of c ≡ live_command) }
    ensures local { IfOk result (λ c. (fields_of c).has_globals ≡ false) }
{
    live_without_end(alloc)?
        .arg(path(alloc, "plan", NEXT, "FILE"))?
        .arg(path(alloc, "left", LEFT, "FILE"))?
        .arg(flag(alloc, "json", OBJECTS))
}

/// `live` but for what is said of the next day.
fn live_without_end<'a>(alloc: Global) -> Result<Command<'a>, AllocError>
    ensures command { IfOk result (λ c. app_of c ≡ live_without_end) }
    ensures local { IfOk result (λ c. (fields_of c).has_globals ≡ false) }
{
    Command::new(alloc, "live")
        .about("Runs all offices of a plan on this machine, and prints what the sessions did")
        .after_help(RUNS)
        .arg(required(alloc, "PLAN", PLAN))?
        .arg(required(alloc, "SESSIONS", SESSIONS))?
        .arg(path(alloc, "journals", JOURNALS, "DIR"))
}

fn audit<'a>(alloc: Global) -> Result<Command<'a>, AllocError>
    ensures command { IfOk result (λ c. app_of c ≡ audit_command) }
    ensures local { IfOk result (λ c. (fields_of c).has_globals ≡ false) }
{
    Command::new(alloc, "audit")
        .about("Says whether journals are of one run of a plan, and prints what its sessions did")
        .after_help(AUDITS)
        .arg(required(alloc, "PLAN", PLAN))?
        .arg(several(alloc, "JOURNAL", JOURNAL))?
        .arg(path(alloc, "plan", NEXT, "FILE"))?
        .arg(path(alloc, "left", LEFT, "FILE"))?
        .arg(flag(alloc, "json", OBJECTS))
}

/// A word that has to be there.
fn required<'a>(alloc: Global, id: &'a str, help: &'a str) -> Arg<'a>
    ensures rule { rule_of result ≡ required id.now }
    ensures no_global { result.global ≡ false }
{
    Arg::new(alloc, id).help(help).required(true)
}

/// One word or more, which have to be there.
fn several<'a>(alloc: Global, id: &'a str, help: &'a str) -> Arg<'a>
    ensures rule { rule_of result ≡ several id.now }
    ensures no_global { result.global ≡ false }
{
    required(alloc, id, help).num_args(1..)
}

/// A number in a range, after its name, that has to be there.
fn numbered<'a>(alloc: Global, id: &'a str, help: &'a str, low: u64, high: u64) -> Arg<'a>
    ensures rule { rule_of result ≡ numbered id.now low high }
    ensures no_global { result.global ≡ false }
{
    Arg::new(alloc, id)
        .help(help)
        .required(true)
        .long(id)
        .value_name("N")
        .value_parser(ValueParser::unsigned(low, high))
}

/// A number in a range, after its name, that need not be there; where it isn't, this one is meant.
///
/// `clap` fills in the usual number, so the definition of the command line has it too.
fn optional<'a>(
    alloc: Global,
    id: &'a str,
    help: &'a str,
    low: u64,
    high: u64,
    usual: &'a str,
) -> Arg<'a>
    ensures rule { rule_of result ≡ optional id.now low high usual.now }
    ensures no_global { result.global ≡ false }
{
    Arg::new(alloc, id)
        .help(help)
        .long(id)
        .value_name("N")
        .value_parser(ValueParser::unsigned(low, high))
        .default_value(usual)
}

/// A folder or a file, after the option's name, that need not be there. Help shows it as this word.
fn path<'a>(alloc: Global, id: &'a str, help: &'a str, shown: &'a str) -> Arg<'a>
    ensures rule { rule_of result ≡ path id.now }
    ensures no_global { result.global ≡ false }
{
    Arg::new(alloc, id).help(help).long(id).value_name(shown)
}

/// A file, after the option's name, that has to be there. Help shows it as this word.
fn named<'a>(alloc: Global, id: &'a str, help: &'a str, shown: &'a str) -> Arg<'a>
    ensures rule { rule_of result ≡ named id.now }
    ensures no_global { result.global ≡ false }
{
    Arg::new(alloc, id)
        .help(help)
        .required(true)
        .long(id)
        .value_name(shown)
}

/// An option without a word, that need not be there.
fn flag<'a>(alloc: Global, id: &'a str, help: &'a str) -> Arg<'a>
    ensures rule { rule_of result ≡ flag id.now }
    ensures no_global { result.global ≡ false }
{
    Arg::new(alloc, id)
        .help(help)
        .long(id)
        .action(ArgAction::SetTrue)
}

const VERSION: &str = "0.1";

/// The most deliveries of a hundred that may be lost.
const MOST_LOSS: u64 = 100;

/// The most steps of a run.
const MOST_STEPS: u64 = 1_000_000;

/// The most turns of an office.
const MOST_TURNS: u64 = 100_000;

/// How many it has where no number is given.
const USUAL_TURNS: &str = "2000";

/// The most seconds of `serve`: a day.
const MOST_SECONDS: u64 = 86_400;

/// How many they are where no number is given: none, which means never.
const NEVER: &str = "0";

const PLAN: &str = "The file of the plan, or - for the standard input";

const PLAN_FILE: &str = "The file of the plan; - is refused, since the standard input asks";

const SESSIONS: &str = "The file of the sessions, or - for the standard input";

const SCRIPT: &str = "The file of the script, or - for the standard input";

const SEED: &str = "The seed, 0 to 18446744073709551615: one seed gives one run";

const LOSS: &str = "Of a hundred deliveries that are drawn, how many are lost: 0 to 100";

const STEPS: &str = "How many steps there are: 1 to 1000000";

const OFFICE: &str =
    "The name of an office of the plan: it and its neighbours need addresses there";

const OWN_SESSIONS: &str =
    "The file of the sessions, or - for the standard input; those of the office are run";

const TURNS: &str = "How many turns the office has: 1 to 100000";

const SECRETS: &str = "The file of the office's secrets, which is for its owner alone";

const OWN_JOURNAL: &str = "A file for the office's journal; - is refused";

const STORE: &str = "A file for the office's journal, from which it goes on; - is refused";

const SYNC: &str = "data: kept once the disk has it (the usual); none: once the system has it";

const NEW: &str = "Makes the store, which must not be there; without this it must be there";

const LINGER: &str = "Ends N quiet seconds after its input, 0 to 86400; 0: never";

const STATUS: &str = "Tells each N seconds how it stands, 0 to 86400; 0: never";

const JOURNALS: &str = "A folder for the offices' journals, NAME.journal, made if it isn't there";

const NEXT: &str = "A file for the plan of the next day, which starts with the values at the end";

const LEFT: &str = "A file for the sessions that are left, to be submitted on the next day";

const OBJECTS: &str = "Prints an object of JSON on each line";

const JOURNAL: &str =
    "The journals, one of each office of the plan, in any order; - is the standard input";

/// What stands below the help of a command.
const INPUTS: &str =
    "Where several of these are -, the standard input is cut at its first lines that are exactly ---:
up to the first stands the text of the first -, and so on. Each text counts its lines from 1.
A file whose name is - is written ./- instead.

Exit status: 0 where it was done; 1 where an input is refused or can't be read, where something
can't be written, or where memory runs out; 2 where the command line is at fault.";

/// What stands below the help of `live`.
const RUNS: &str =
    "Where PLAN and SESSIONS are both -, the standard input is cut at its first line that is exactly ---:
up to it stands the text of the plan. Each text counts its lines from 1. A file whose name is - is
written ./- instead.

A file for a journal is looked at before anything is run: it has to be one that can be written, no
input, and without a journal of the same office and run.

Exit status: 0 where all sessions finished; 1 where some are left, where an input is refused or
can't be read, where a socket, a thread or the clock can't be had, where something can't be written,
or where memory runs out; 2 where the command line is at fault.";

/// What stands below the help of `run`.
const OWN_RUNS: &str =
    "Where PLAN and SESSIONS are both -, the standard input is cut at its first line that is exactly ---:
up to it stands the text of the plan. Each text counts its lines from 1. A file whose name is - is
written ./- instead.

With secrets all datagrams are frames under seals: each line `secret A B HEX` has what two
neighbours share, and there is one for each neighbour of the office. Their file is refused where
others than its owner may read or write it.

A file for a journal is looked at before anything is run: it has to be one that can be written, no
input, and without a journal of the same office and run.

With a store an office that ended, or was killed, goes on from what it kept: how many of its
sessions had finished is said first, and what they did, and then what each does that finishes, once
that is kept. Then --journal isn't taken, since the store is the journal; --sync and --new go with a
store alone.

Exit status: 0 where all sessions finished; 1 where some are left, where an input or a store is
refused or can't be read, where a socket, a thread or the clock can't be had, where something can't
be written, or where memory runs out; 2 where the command line is at fault.";

/// What stands below the help of `serve`.
const SERVICES: &str =
    "On the standard input stand sessions, one after another, without end. Each line of an answer goes
out once it is kept, and then at once. First it is said how many tickets were given: `ready T`.
With secrets all datagrams are frames under seals, as those of run.

A session is answered by `ticket T`, and by what it did once it has finished. A line `ticket T`
before a session makes it safe to ask again: where T is the next ticket the session has it; where T
was given to this session it isn't done twice, and the answer is what it did, or `pending T`.
A line `value NAME` is answered by `value NAME VALUE`, or by `away NAME NEIGHBOUR` where its bottle
isn't here. Anything else is answered by `refused CODE NAME line N`, and lines are passed over up to
the next that begins with `session`, `ticket` or `value`.

An office that was killed goes on from its store. Where its journal is full (O4), audit --plan FILE
writes the plan of the next day.

Exit status: 0 where it ended by --linger; 1 where an input or a store is refused or can't be read,
where a socket or the clock can't be had, where something can't be written, where the journal is
full, or where memory runs out; 2 where the command line is at fault.";

/// What stands below the help of `audit`.
const AUDITS: &str =
    "Where several of these are -, the standard input is cut at its first lines that are exactly ---:
up to the first stands the text of the first -, and so on. Each text counts its lines from 1.
A file whose name is - is written ./- instead.

Where no run has left these journals, one line names an office and its first entry that doesn't fit,
counted from 1: unwoven OFFICE ENTRY.

Exit status: 0 where the journals are of one run; 1 where they aren't, where an input is refused or
can't be read, where the output can't be written, or where memory runs out; 2 where the command line
is at fault.";

/// What is wrong with words of `run` about a store.
const OTHER_SYNC: &str = "--sync takes data or none";

const NO_STORE: &str = "--sync and --new go with --store, and there is none";

const TWO_JOURNALS: &str =
    "--store goes without --journal: the store is the office's journal already";

/// What stands below the help of the program.
const STATUSES: &str =
    "Exit status: 0 where it was done; 1 where a run leaves sessions, where journals aren't of one run,
where an input is refused or can't be read, where a socket, a thread or the output fails, or where
memory runs out; 2 where the command line is at fault.";
