use crate::inputs::fault::InputFault;
use crate::inputs::sources::Sources;
use crate::inputs::standard_input::{StandardInput, text};
use std::io;
use std::io::{ErrorKind, Read};
use std::process::Abort;

/// Gives a text a few bytes at a time, and is interrupted at every second read. It fails once so many reads are done.
#[derive(Drop)]
struct Slow<'a> {
    text: &'a [u8],
    step: usize,
    reads: u32,
    fails_after: u32,
}

impl Read for Slow<'_> {
    fn read(&mut self, buf: &mut [u8]) -> io::Result<usize> {
        self.reads = self.reads.saturating_add(1);
        if self.reads > self.fails_after {
            return Err(io::Error::from(ErrorKind::BrokenPipe));
        }
        if self.reads % 2 == 0 {
            return Err(io::Error::from(ErrorKind::Interrupted));
        }
        let most = self.step.min(buf.len());
        self.text.read(&mut buf[..most])
    }
}

/// Two files, `p` and `s`, and a standard input.
#[derive(Drop)]
struct Memory<'a> {
    plan: &'a str,
    sessions: &'a str,
    standard: &'a str,
    step: usize,
    fails_after: u32,
}

impl<'a> Sources for Memory<'a> {
    ghost use Rattle.std.specs.Prelude.{None};

    type File = Slow<'a>;

    type Standard = Slow<'a>;

    ghost file_text = { λ _ _. None };

    ghost standard_text = { λ _. None };

    fn open(&self, name: &str) -> io::Result<Slow<'a>> {
        match name {
            "p" => Ok(self.slow(self.plan)),
            "s" => Ok(self.slow(self.sessions)),
            _ => Err(io::Error::from(ErrorKind::NotFound)),
        }
    }

    fn find(&self, name: &str) -> io::Result<Option<Slow<'a>>> {
        match self.open(name) {
            Ok(file) => Ok(Some(file)),
            Err(_) => Ok(None),
        }
    }

    fn is_read_from(&self, word: &str, name: &str) -> bool {
        word == name
    }

    fn is_open_to_others(&self, _name: &str) -> io::Result<bool> {
        Ok(false)
    }

    fn standard(&self) -> Slow<'a> {
        self.slow(self.standard)
    }
}

impl<'a> Memory<'a> {
    fn slow(&self, text: &'a str) -> Slow<'a> {
        Slow {
            text: text.as_bytes(),
            step: self.step,
            reads: 0,
            fails_after: self.fails_after,
        }
    }
}

/// The texts of three words, each of at most 9 bytes, where the files have `plan` and `sessions`.
fn read<S: Sources>(
    rt: &(impl Abort + AllocGlobal),
    sources: &S,
    words: [&str; 3],
    expected: [&str; 3],
) -> Result<(), InputFault> {
    let alloc = rt.alloc();
    let mut input = StandardInput::new(alloc, sources.standard(), &words);
    for i in 0..3 {
        let found = text(alloc, sources, &mut input, words[i], 9)?;
        assert_eq!(rt; found.as_slice(), expected[i].as_bytes());
    }
    Ok(())
}

#[test]
fn a_fault_is_told(rt: HostRuntime) {
    let alloc = rt.alloc();
    for reads in 0..6 {
        let memory = Memory {
            plan: "plan",
            sessions: "",
            standard: "standard",
            step: 1,
            fails_after: reads,
        };
        let mut input = StandardInput::new(alloc, memory.standard(), &["p", "-", "x"]);
        let failed = InputFault::Failed(ErrorKind::BrokenPipe);
        assert_eq!(rt; text(alloc, &memory, &mut input, "p", 9), Err(failed));
        assert_eq!(rt; text(alloc, &memory, &mut input, "-", 9), Err(failed));
        let missing = InputFault::Failed(ErrorKind::NotFound);
        assert_eq!(rt; text(alloc, &memory, &mut input, "x", 9), Err(missing));
    }
}
