//! Entries in pages.

ghost use Rattle.std.specs.Prelude.{◌≡◌, ◌-◌, ◌*◌, ◌≤◌, ◌<◌, ◌++◌, ◌∷◌, [], length, OnOk, OnErr, slice_get, vec_len};
ghost use Rattle.std.specs.Option.{option_copied};
ghost use Rattle.std.specs.Vec.{vec_capacity};
ghost use Rattle.office_journal.specs.pages.Limits.{most_entries};
ghost use Rattle.office_journal.specs.pages.refinement.PagesOfCode.{entries_of, AreFull};

use crate::pages::packed::Packed;
use std::alloc::{AllocError, Global};
use std::marker::Model;
use std::mem;

/// The entries of a page.
const PAGE_SIZE: usize = 256;

/// A page that takes no entry more.
#[derive(Drop)]
struct Page {
    entries: Vec<Packed>,
}

impl Model for Page {
    ghost use Rattle.std.specs.Prelude.{List};
    ghost use Rattle.office_journal.specs.pages.Told.{Told};

    ghost Value = { List Told };

    ghost view = { λ p. p.entries.items };
}

impl Page {
    fn entry_at(&self, i: usize) -> Option<&Packed>
        ensures { option_copied result ≡ slice_get self.now i }
    {
        self.entries.get(i)
    }
}

/// Entries, the oldest first, in pages of 256.
///
/// An entry stays where it was written: no list that grows is copied, and half of its room never lies empty. A page is one growth of
/// 8 KB, and it is made before the entry that needs it.
#[derive(Drop)]
pub struct Pages {
    alloc: Global,
    full: Vec<Page>,
    /// The page that takes the next entry. It has no memory until there is one.
    last: Vec<Packed>,
}

impl Model for Pages {
    ghost use Rattle.std.specs.Prelude.{◌-◌, ◌++◌, length, vec_len};
    ghost use Rattle.std.specs.Vec.{vec_capacity};
    ghost use Rattle.office_journal.specs.pages.Kept.{PagesValue};
    ghost use Rattle.office_journal.specs.pages.refinement.PagesOfCode.{entries_of, room_after, ArePaged};

    ghost Value = { PagesValue };

    ghost view = { λ p. record { entries = entries_of p.full.items ++ p.last.items; room = room_after (vec_capacity p.last - vec_len p.last) (length p.last.items) (length (entries_of p.full.items ++ p.last.items)) } };

    ghost invariant = { λ p. ArePaged p.full.items p.last.items };
}

impl Pages {
    /// No entry yet.
    pub fn new(alloc: Global) -> Pages
        ensures { result.entries ≡ [] }
    {
        Pages {
            alloc,
            full: Vec::new(alloc),
            last: Vec::new(alloc),
        }
    }

    /// How many entries there are.
    #[tactic(auto, using(crate::proofs::pages_lemmas::PagedEntries::length_is, crate::proofs::pages_lemmas::PagedEntries::few_pages))]
    pub fn len(&self) -> usize
        ensures count { result ≡ length self.now.entries }
        ensures few { result ≤ most_entries }
    {
        self.full.len() * PAGE_SIZE + self.last.len()
    }

    /// The entry at this place, from 0.
    pub fn get(&self, i: usize) -> Option<&Packed>
        ensures { option_copied result ≡ slice_get self.now.entries i }
    {
        match page_at(&self.full, i / PAGE_SIZE) {
            Some(page) => page.entry_at(i % PAGE_SIZE),
            None => entry_after(&self.last, self.full.len(), i),
        }
    }

    /// Makes room for one entry more. The entries stay, also where memory is refused.
    pub fn make_room(&mut self) -> Result<(), AllocError>
        requires { length self.old.entries < most_entries }
        ensures room { OnOk result (0 < self.new.room) }
        ensures unchanged { self.new.entries ≡ self.old.entries }
    {
        reserve_one(self.alloc, &mut self.full, &mut self.last)
    }

    /// Adds an entry at the end.
    pub fn push(&mut self, entry: Packed)
        requires { 0 < self.old.room }
        ensures { self.new.entries ≡ self.old.entries ++ entry ∷ [] }
    {
        self.last.push_reserved(entry);
    }
}

/// The full page at this place.
fn page_at(full: &Vec<Page>, k: usize) -> Option<&Page>
    ensures { option_copied result ≡ slice_get full.now.items k }
{
    full.get(k)
}

/// The entry at this place of all, which is after so many full pages: it is one of the last page, if there is one.
fn entry_after(last: &Vec<Packed>, pages: usize, i: usize) -> Option<&Packed>
    requires few { pages * 256 ≤ most_entries }
    requires after { pages * 256 ≤ i }
    ensures { option_copied result ≡ slice_get last.now.items (i - pages * 256) }
{
    last.get(i - pages * PAGE_SIZE)
}

/// The last page takes one entry more: it is another one, where it was full.
fn reserve_one(
    alloc: Global,
    full: &mut Vec<Page>,
    last: &mut Vec<Packed>,
) -> Result<(), AllocError>
    requires last { length last.old.items ≤ 256 }
    ensures entries { entries_of full.new.items ++ last.new.items ≡ entries_of full.old.items ++ last.old.items }
    ensures full { AreFull full.old.items → AreFull full.new.items }
    ensures last { length last.new.items ≤ 256 }
    ensures left { OnOk result (length last.new.items < 256) }
    ensures room { OnOk result (vec_len last.new < vec_capacity last.new) }
{
    if last.len() < PAGE_SIZE {
        return last.reserve_exact(PAGE_SIZE - last.len());
    }
    turn(alloc, full, last)?;
    last.reserve_exact(PAGE_SIZE)
}

/// The full last page is one of the full ones, and an empty one is the last, which has no memory yet.
fn turn(alloc: Global, full: &mut Vec<Page>, last: &mut Vec<Packed>) -> Result<(), AllocError>
    requires whole { length last.old.items ≡ 256 }
    ensures entries { entries_of full.new.items ++ last.new.items ≡ entries_of full.old.items ++ last.old.items }
    ensures full { AreFull full.old.items → AreFull full.new.items }
    ensures empty { OnOk result (last.new.items ≡ []) }
    ensures same { OnErr result (last.new.items ≡ last.old.items) }
{
    full.reserve(1)?;
    let entries = mem::replace(last, Vec::new(alloc));
    full.push_reserved(Page { entries });
    Ok(())
}
