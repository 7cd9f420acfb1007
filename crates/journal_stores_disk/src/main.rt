//! Appends the lines of its input to a store in a file: `create NAME`, or `go_on NAME`, which cuts off a last line without its
//! end. It says how many bytes stand at its beginning and after each line.
#![tactic(auto)]

ghost use Rattle.std.specs.Prelude.{◌≤◌, length};

use journal_stores::{FileStore, FoundStore, OpenFault, Store, StoreFailed, Sync};
use std::fs::File;
use std::io;
use std::process::ExitCode;
use thiserror::Error;

/// Why the program ends early.
#[derive(Debug, Drop, Error)]
enum Fault {
    #[error("usage: create NAME, or go_on NAME")]
    Usage,
    #[error(transparent)]
    Open(#[from] OpenFault),
    #[error(transparent)]
    Store(#[from] StoreFailed),
    #[error(transparent)]
    Failed(#[from] io::Error),
}

fn main(rt: HostRuntime) -> ExitCode {
    match run(&rt) {
        Ok(()) => ExitCode::SUCCESS,
        Err(fault) => {
            let _ = println!(&rt; "{fault}");
            ExitCode::from(1)
        }
    }
}

fn run(rt: &HostRuntime) -> Result<(), Fault> {
    let words = std::env::args(rt)?
        .collect::<Vec<String>>(rt.alloc())
        .map_err(io::Error::from)?;
    if words.len() != 3 {
        return Err(Fault::Usage);
    }
    let name = words[2].as_str();
    match words[1].as_str() {
        "create" => append_lines(rt, FileStore::<File>::create(rt, name, Sync::Data)?, 0),
        "go_on" => go_on(rt, name),
        _ => Err(Fault::Usage),
    }
}

fn go_on(rt: &HostRuntime, name: &str) -> Result<(), Fault> {
    let found = FoundStore::<File>::open(rt, rt.alloc(), name)?;
    let count = found.bytes().len();
    let kept = whole_lines(found.bytes());
    println!(rt; "found {count}")?;
    append_lines(rt, found.go_on(kept, Sync::Data)?, kept)
}

/// How many of the bytes are whole lines.
fn whole_lines(bytes: &[u8]) -> usize
    ensures { result ≤ length bytes.now }
{
    match bytes.iter().rposition(|b| *b == b'\n') {
        Some(at) => at + 1,
        None => 0,
    }
}

/// Appends the lines of the input, while none fails.
fn append_lines(rt: &HostRuntime, mut store: FileStore<File>, kept: usize) -> Result<(), Fault> {
    let mut stands = kept;
    println!(rt; "stands {stands}")?;
    for line in rt.lines(rt.alloc()) {
        let mut line = line?;
        line.push('\n').map_err(io::Error::from)?;
        if store.has_failed() {
            return Err(Fault::Store(StoreFailed));
        }
        store.append(line.as_bytes())?;
        stands = stands.saturating_add(line.len());
        println!(rt; "stands {stands}")?;
    }
    Ok(())
}
