//! The records of a plan, by number and by name.

ghost use Rattle.std.specs.Prelude.{◌≡◌, ◌∷◌, [], ◌++◌, ◌<◌, length, OnOk, OnErr, position, if◌then◌else◌, Some};
ghost use Rattle.std.specs.Str.{bytes_eq};
ghost use Rattle.office_map.specs.declared.entries.RecordEntry.{RecordEntry};
ghost use Rattle.office_map.specs.refinement.RecordChains.{place_of_key, has_key, HasChains, IsLastBelow};

use crate::entries::RecordEntry;
use crate::ids::RecordId;
use std::alloc::{AllocError, Global};
use std::marker::Model;
use text_lines::ShortName;

/// How many keys names have: with as many records as a plan can have, each has four.
const KEYS: usize = 256;

/// The records in the order of their numbers, seen as that list. Of several with one name
/// the first is the one that the name means.
///
/// The records whose names have one key are a chain, from the last of them to the first: of each key stands its last
/// record, and of each record the one before it in its chain. So a record that is added changes one place and adds one,
/// and a name is compared with those of its key alone.
#[derive(Drop)]
pub(crate) struct RecordTable {
    entries: Vec<RecordEntry>,
    // Of each key one more than the number of the last record that has it, or 0.
    last: [u16; KEYS],
    // Of each record one more than the number of the last one before it that has its key, or 0.
    before: Vec<u16>,
}

impl Model for RecordTable {
    ghost use Rattle.std.specs.Prelude.{List};
    ghost use Rattle.office_map.specs.declared.entries.RecordEntry.{RecordEntry};
    ghost use Rattle.office_map.specs.refinement.RecordChains.{HasChains, HasStarts};

    ghost Value = { List RecordEntry };

    ghost view = { λ t. t.entries.items };

    ghost invariant = { λ t. HasChains t.entries.items t.before.items × HasStarts t.entries.items t.last };
}

impl RecordTable {
    pub fn new(alloc: Global) -> RecordTable
        ensures { result ≡ [] }
    {
        RecordTable {
            entries: Vec::new(alloc),
            last: [0; KEYS],
            before: Vec::new(alloc),
        }
    }

    pub fn as_slice(&self) -> &[RecordEntry]
        ensures { result.now ≡ self.now }
    {
        self.entries.as_slice()
    }

    /// The record with this name.
    pub fn named(&self, name: &ShortName) -> Option<RecordId>
        ensures { result ≡ position (λ (r : RecordEntry). bytes_eq r.name name.now) self.now }
    {
        let from = self.last[key_place(name)];
        let number = first_named(&self.entries, &self.before, from, name)?;
        Some(RecordId::new(number))
    }

    /// Adds a record with the next number.
    pub fn push(&mut self, entry: RecordEntry) -> Result<(), AllocError>
        requires { length self.old < 65535 }
        ensures ok { OnOk result (self.new ≡ self.old ++ entry ∷ []) }
        ensures unchanged { OnErr result (self.new ≡ self.old) }
    {
        let key = key_place(&entry.name);
        self.entries.reserve(1)?;
        self.before.push(self.last[key])?;
        self.entries.push(entry)?;
        self.last[key] = self.entries.len() as u16;
        Ok(())
    }
}

/// The place that is kept of a name's key.
fn key_place(name: &ShortName) -> usize
    ensures place { result ≡ place_of_key name.now }
    ensures within { result < 256 }
{
    (name.key() >> 56) as usize
}

/// The number of the first record with this name, found along the chain of the name's key, of whose last record `from` is
/// one more than the number; 0 where there is none.
///
/// The chain is walked to its end, since it leads from the last record to the first.
fn first_named(entries: &[RecordEntry], before: &[u16], from: u16, name: &ShortName) -> Option<u16>
    requires chains { HasChains entries.now before.now }
    requires last { IsLastBelow (has_key (place_of_key name.now)) entries.now (length entries.now) from }
    ensures { result ≡ position (λ (r : RecordEntry). bytes_eq r.name name.now) entries.now }
{
    let mut found = None;
    let mut at = from;
    'chain: while at > 0 {
        let number = at - 1;
        let place = number as usize;
        found = nearer(entries[place].name.is(name), number, found);
        at = before[place];
    }
    found
}

/// This number where its record has the name, or else what was found.
fn nearer(has: bool, number: u16, found: Option<u16>) -> Option<u16>
    ensures { result ≡ (if has then Some number else found) }
{
    if has { Some(number) } else { found }
}
