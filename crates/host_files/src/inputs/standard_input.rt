//! The standard input of a command, which may stand for several texts.

ghost use Rattle.std.specs.Prelude.{◌≡◌, ◌<◌, ◌≤◌, ◌^◌, ◌+◌, suc, Option, List, ℕ, [], None, Some, IfNone, IfOk, IfSome, OnOk, length, map, codes, take};
ghost use Rattle.std.specs.List.{count_by};
ghost use Rattle.host_files.specs.inputs.Cut.{IsCut};
ghost use Rattle.host_files.specs.inputs.Words.{Unread, HasText, IsReadUpTo, is_dash, unread};

use crate::inputs::cut::cut;
use crate::inputs::fault::InputFault;
use crate::inputs::reading::fill;
use crate::inputs::sources::Sources;
use std::alloc::Global;
use std::io::Read;
use std::marker::Model;

/// The longest line of a cut, with its end.
const CUT_LINE: usize = b"---\r\n".len();

/// What is left of a command's standard input, and how many of its texts haven't been read.
#[derive(Drop)]
pub struct StandardInput<R: Read + Drop> {
    reader: R,
    ahead: Vec<u8>,
    parts: usize,
    /// How many lines stand above what is left, and above the text that was read last.
    lines_above_rest: u64,
    lines_above: u64,
}

impl<R: Read + Drop> Model for StandardInput<R> {
    ghost use Rattle.host_files.specs.inputs.Words.{Unread};
    ghost use Rattle.host_files.specs.inputs.refinement.Reading.{left};

    ghost Value = { Unread };

    ghost view = { λ s. record { parts = s.parts; bytes = left s.ahead.items (R.remaining s.reader) } };
}

impl<R: Read + Drop> StandardInput<R> {
    /// The standard input of a command with these words. Nothing is read yet.
    pub fn new(alloc: Global, reader: R, words: &[&str]) -> StandardInput<R>
        ensures { result ≡ unread (R.remaining reader) (map (λ w. w.now) words.now) }
    {
        StandardInput {
            reader,
            ahead: Vec::new(alloc),
            parts: dashes(words),
            lines_above_rest: 0,
            lines_above: 0,
        }
    }

    /// How many lines of the standard input stand above the text that was read from it last, for people who count them
    /// there.
    pub fn lines_above(&self) -> u64 {
        self.lines_above
    }

    /// The text of the next word that is `-`, or what is longer than the limit.
    fn text(&mut self, alloc: Global, limit: usize) -> Result<Vec<u8>, InputFault>
        requires { limit < 2 ^ 32 }
        ensures { IfOk result (λ v. (files : List ℕ → Option (List ℕ)) (text : List ℕ) (after : Unread) → HasText files self.old (codes "-") text after
            → IsReadUpTo limit text v.items × (length v.items ≤ limit → self.new ≡ after)) }
    {
        if self.parts < 2 {
            return self.last(alloc, limit);
        }
        self.part(alloc, limit)
    }

    /// All that is left.
    fn last(&mut self, alloc: Global, limit: usize) -> Result<Vec<u8>, InputFault>
        requires { limit < 2 ^ 32 }
        ensures text { IfOk result (λ v. (text : List ℕ) → self.old.bytes ≡ Some text → IsReadUpTo limit text v.items
            × (length v.items ≤ limit → self.new ≡ record { parts = 0; bytes = Some [] })) }
    {
        fill(&mut self.reader, &mut self.ahead, limit + 1)?;
        self.lines_above = self.lines_above_rest;
        self.parts = 0;
        Ok(std::mem::replace(&mut self.ahead, Vec::new(alloc)))
    }

    /// What stands before the next cut.
    fn part(&mut self, alloc: Global, limit: usize) -> Result<Vec<u8>, InputFault>
        requires limit { limit < 2 ^ 32 }
        requires cut { 2 ≤ self.old.parts }
        ensures text { IfOk result (λ v. (n : ℕ) (rest text back : List ℕ) → self.old.parts ≡ suc (suc n) → self.old.bytes ≡ Some rest
            → IsCut rest text back → IsReadUpTo limit text v.items
            × (length v.items ≤ limit → self.new ≡ record { parts = suc n; bytes = Some back })) }
    {
        fill(&mut self.reader, &mut self.ahead, limit + 1 + CUT_LINE)?;
        let (front, back) = cut(&self.ahead);
        let size = front.len();
        let lines = lines_in(&self.ahead[..self.ahead.len() - back.len()]);
        let mut rest = Vec::new(alloc);
        rest.extend_from_slice(back)?;
        self.lines_above = self.lines_above_rest;
        self.lines_above_rest = self.lines_above.saturating_add(lines);
        self.parts -= 1;
        let mut text = std::mem::replace(&mut self.ahead, rest);
        text.truncate(size);
        Ok(text)
    }
}

fn lines_in(text: &[u8]) -> u64 {
    let mut lines: u64 = 0;
    for b in text {
        if *b == b'\n' {
            lines = lines.saturating_add(1);
        }
    }
    lines
}

/// How many of the words are `-`.
fn dashes(words: &[&str]) -> usize
    ensures count { result ≡ count_by is_dash (map (λ w. w.now) words.now) }
    ensures bound { result ≤ length words.now }
{
    let mut count = 0;
    for word in words {
        if *word == "-" {
            count += 1;
        }
    }
    count
}

/// The text of the next word of a command. Of a text that is longer than the limit, in bytes, one byte more than the limit
/// is given, and nothing is promised of the words after it, nor after a fault.
pub fn text<S: Sources>(
    alloc: Global,
    sources: &S,
    standard: &mut StandardInput<S::Standard>,
    word: &str,
    limit: usize,
) -> Result<Vec<u8>, InputFault>
    requires { limit < 2 ^ 32 }
    ensures text { IfOk result (λ v. (text : List ℕ) (after : Unread) → HasText (S.file_text sources.now) standard.old word.now text after
        → IsReadUpTo limit text v.items × (length v.items ≤ limit → standard.new ≡ after)) }
    ensures bounded { IfOk result (λ v. length v.items ≤ limit + 1) }
{
    let mut text = read_word(alloc, sources, standard, word, limit)?;
    text.truncate(limit + 1);
    Ok(text)
}

fn read_word<S: Sources>(
    alloc: Global,
    sources: &S,
    standard: &mut StandardInput<S::Standard>,
    word: &str,
    limit: usize,
) -> Result<Vec<u8>, InputFault>
    requires { limit < 2 ^ 32 }
    ensures text { IfOk result (λ v. (text : List ℕ) (after : Unread) → HasText (S.file_text sources.now) standard.old word.now text after
        → IsReadUpTo limit text v.items × (length v.items ≤ limit → standard.new ≡ after)) }
{
    if word == "-" {
        return standard.text(alloc, limit);
    }
    file_text(alloc, sources, word, limit)
}

fn file_text<S: Sources>(
    alloc: Global,
    sources: &S,
    name: &str,
    limit: usize,
) -> Result<Vec<u8>, InputFault>
    requires { limit < 2 ^ 32 }
    ensures text { IfOk result (λ v. (text : List ℕ) → S.file_text sources.now name.now ≡ Some text → IsReadUpTo limit text v.items) }
{
    let mut bytes = Vec::new(alloc);
    match sources.open(name) {
        Ok(mut file) => fill(&mut file, &mut bytes, limit + 1)?,
        Err(e) => return Err(InputFault::Failed(e.kind())),
    }
    Ok(bytes)
}

/// The first bytes of the file of that name, so many at most, where one is there.
pub fn beginning<S: Sources>(
    alloc: Global,
    sources: &S,
    name: &str,
    most: usize,
) -> Result<Option<Vec<u8>>, InputFault>
    ensures bytes { IfOk result (λ found. IfSome found (λ v. (text : List ℕ) → S.file_text sources.now name.now ≡ Some text → v.items ≡ take most text)) }
    ensures nowhere { IfOk result (λ found. IfNone found (S.file_text sources.now name.now ≡ None)) }
{
    match sources.find(name) {
        Ok(Some(file)) => Ok(Some(first_bytes(alloc, file, most)?)),
        Ok(None) => Ok(None),
        Err(e) => Err(InputFault::Failed(e.kind())),
    }
}

/// The first bytes that a reader gives.
fn first_bytes<R: Read + Drop>(alloc: Global, reader: R, most: usize) -> Result<Vec<u8>, InputFault>
    ensures { IfOk result (λ v. (text : List ℕ) → R.remaining reader ≡ Some text → v.items ≡ take most text) }
{
    let mut file = reader;
    let mut bytes = Vec::new(alloc);
    fill(&mut file, &mut bytes, most)?;
    Ok(bytes)
}
