//! How a program ends.

ghost use Rattle.std.specs.Prelude.{◌≡◌, ◌⊎◌};

use std::alloc::{AllocError, Global};

/// The exit status of a command that did what it was asked for.
pub const DONE: u8 = 0;

/// The exit status of a command that fails.
pub const FAILED: u8 = 1;

/// The exit status where the command line is at fault.
pub const MISUSED: u8 = 2;

/// The exit status, and what is said on the standard error.
#[derive(Drop)]
pub struct Exit {
    pub status: u8,
    /// The text, which is empty where nothing is said. An `Err` is that memory ran out, which takes none to say.
    pub said: Result<String, AllocError>,
}

impl Exit {
    /// A status alone.
    pub fn silent(alloc: Global, status: u8) -> Exit
        ensures { result.status ≡ status }
    {
        Exit {
            status,
            said: Ok(String::new(alloc)),
        }
    }

    /// That memory ran out, with the status of a failure.
    pub fn out_of_memory() -> Exit
        ensures { result.status ≡ 1 }
    {
        Exit {
            status: FAILED,
            said: Err(AllocError),
        }
    }

    /// A status with its text; or, where there was no memory for that, the status of a failure, which says so.
    pub fn saying(status: u8, text: Result<String, AllocError>) -> Exit
        ensures { (result.status ≡ status) ⊎ (result.status ≡ 1) }
    {
        match text {
            Ok(text) => Exit {
                status,
                said: Ok(text),
            },
            Err(_) => Exit::out_of_memory(),
        }
    }

    /// What is said on the standard error.
    pub fn text(&self) -> &str {
        match &self.said {
            Ok(text) => text.as_str(),
            Err(_) => "drink: out of memory\n",
        }
    }

    /// Says what is to be said, and answers the exit status.
    pub fn end<R: Eprint>(&self, rt: &R) -> u8
        ensures { result ≡ self.now.status }
    {
        let text = self.text();
        if !text.is_empty() {
            let _ = eprint!(rt; "{text}");
        }
        self.status
    }
}
