//! What an office accepted.

ghost use Rattle.std.specs.Prelude.{◌≡◌, ◌≢◌, ◌<◌, ◌≤◌, ◌-◌, ◌↔◌, ◌⊎◌, ◌++◌, ◌∷◌, [], length, take, drop, true, Err, IfOk, IfErr, OnOk, OnErr, nat_le, option_map, is_some, vec_len, List, Some, None, MatchOption};
ghost use Rattle.std.specs.List.{slice_get};
ghost use Rattle.std.specs.Option.{option_and_then};
ghost use Rattle.std.specs.Vec.{vec_capacity};
ghost use Rattle.office_journal.specs.pages.Framed.{text_carried};
ghost use Rattle.office_journal.specs.Limits.{most_entries};
ghost use Rattle.office_journal.specs.Shown.{entry_shown, frame_taken, IsPart};
ghost use Rattle.office_journal.specs.declared.event.Entry.{Entry};
ghost use Rattle.office_journal.specs.declared.event.Event.TheVariants as events;
ghost use Rattle.office_journal.specs.declared.reply.Reply.TheVariants as replies;
ghost use Rattle.office_journal.specs.declared.reply.Refusal.TheVariants as refusals;
ghost use Rattle.office_journal.specs.refinement.PackedEntries.{nothing, entry_in, IsPlain};
ghost use Rattle.office_journal.specs.refinement.JournalOfCode.{texts_of};
ghost use Rattle.office_journal.specs.Replies.{frame_told, reply_to};

use crate::event::{Entry, EntryRef, EventPart};
use crate::limits::MAX_ENTRIES;
use crate::packing;
use crate::pages::{Packed, Pages};
use crate::reply::Refusal;
use bottle_values::Text;
use frame_codec::Frame;
use office_map::OfficeId;
use session_programs::Program;
use std::alloc::{AllocError, Global};
use std::marker::Model;
use window_link::Arrival;

/// The entries of an office, the oldest first.
///
/// They are packed, in pages, and beside them stand, in order, the programs of the sessions that were submitted and the texts that
/// frames carry. Readers are shown the entries that a contract sees.
#[derive(Drop)]
pub struct Journal {
    pages: Pages,
    programs: Vec<Program>,
    texts: Vec<Text>,
}

impl Model for Journal {
    ghost use Rattle.std.specs.Prelude.{◌-◌, vec_len};
    ghost use Rattle.std.specs.Vec.{vec_capacity};
    ghost use Rattle.std.specs.Coded.{Coded, codes};
    ghost use Rattle.session_meaning.specs.declared.node.Node.{Node};
    ghost use Rattle.session_meaning.specs.refinement.TreeEncoding.{Mark, term_code, block_code};
    ghost use Rattle.office_journal.specs.refinement.JournalOfCode.{JournalValue, journal_of, AreKept};

    ghost Value = { JournalValue };

    ghost coded = { let nodes : Coded Node = Prim.hlevel codes in let marks : Coded Mark = Prim.hlevel (codes, term_code nodes) in Prim.hlevel (codes, block_code marks) };

    ghost view = { λ j. journal_of j.pages (record { programs = j.programs.items; texts = j.texts.items }) (vec_capacity j.programs - vec_len j.programs) (vec_capacity j.texts - vec_len j.texts) };

    ghost invariant = { λ j. AreKept (record { programs = j.programs.items; texts = j.texts.items }) j.pages.entries };
}

impl Journal {
    /// No entry yet.
    pub fn new(alloc: Global) -> Journal
        ensures { result.entries ≡ [] }
    {
        Journal {
            pages: Pages::new(alloc),
            programs: Vec::new(alloc),
            texts: Vec::new(alloc),
        }
    }

    /// How many entries there are.
    pub fn len(&self) -> usize
        ensures { result ≡ length self.now.entries }
    {
        self.pages.len()
    }

    /// The entry at this place, from 0.
    pub fn get(&self, i: usize) -> Option<EntryRef<'_>>
        ensures { option_map entry_shown result ≡ slice_get self.now.entries i }
    {
        match self.pages.get(i) {
            Some(packed) => Some(packing::shown(
                packed,
                self.programs.as_slice(),
                self.texts.as_slice(),
            )),
            None => None,
        }
    }

    /// The frame that the entry at this place, from 0, tells in its reply, if it is there and tells one.
    pub fn frame_told(&self, i: usize) -> Option<Frame>
        ensures { result ≡ option_and_then (λ entry. frame_told entry.reply) (slice_get self.now.entries i) }
    {
        let packed = self.pages.get(i)?;
        packing::frame_told(packed, self.texts.as_slice())
    }

    /// What the event of the entry at this place, from 0, is but for the frame that came, if the entry is there.
    pub fn event_part(&self, i: usize) -> Option<EventPart<'_>>
        ensures { MatchOption result (slice_get self.now.entries i ≡ None) (λ part. (entry : Entry) × (slice_get self.now.entries i ≡ Some entry) × IsPart part entry.event) }
    {
        let packed = self.pages.get(i)?;
        Some(packing::event_part(packed, self.programs.as_slice()))
    }

    /// The frame that came by the entry at this place, from 0, if it is there and one came.
    pub fn frame_taken(&self, i: usize) -> Option<Frame>
        ensures { result ≡ option_and_then (λ entry. frame_taken entry.event) (slice_get self.now.entries i) }
    {
        let packed = self.pages.get(i)?;
        packing::frame_taken(packed, self.texts.as_slice())
    }

    /// Copies of the first so many entries from this place on, from 0; of fewer where the journal ends before. Where there is
    /// none, no memory is taken.
    pub fn part(&self, alloc: Global, from: usize, most: usize) -> Result<Vec<Entry>, AllocError>
        ensures part { IfOk result (λ v. v.items ≡ take most (drop from self.now.entries)) }
        ensures memory { OnErr result (take most (drop from self.now.entries) ≢ []) }
    {
        let (first, end) = places(self.len(), from, most);
        copied(alloc, self, first, end)
    }

    /// Makes room for one entry more.
    ///
    /// # Errors
    /// `JournalFull` where no entry more is taken, or `Memory`. The entries stay.
    pub fn make_room(&mut self) -> Result<(), Refusal>
        ensures full { (result ≡ Err refusals.JournalFull) ↔ (nat_le most_entries (length self.old.entries) ≡ true) }
        ensures known { IfErr result (λ e. (e ≡ refusals.JournalFull) ⊎ (e ≡ refusals.Memory)) }
        ensures room { OnOk result (0 < self.new.room) }
        ensures unchanged { self.new.entries ≡ self.old.entries }
    {
        if self.len() >= MAX_ENTRIES {
            return Err(Refusal::JournalFull);
        }
        self.pages.make_room()?;
        Ok(())
    }

    /// Makes room for one program more. The entries stay, and so does their room.
    pub fn make_room_for_program(&mut self) -> Result<(), AllocError>
        ensures program { OnOk result (0 < self.new.programs) }
        ensures room { self.new.room ≡ self.old.room }
        ensures unchanged { self.new.entries ≡ self.old.entries }
    {
        self.programs.reserve(1)?;
        Ok(())
    }

    /// Makes room for the text that a frame carries, if it carries one. The entries stay, and so does their room.
    pub fn make_room_for_text(&mut self, frame: &Frame) -> Result<(), AllocError>
        ensures text { OnOk result (is_some (text_carried frame.now.msg) ≡ true → 0 < self.new.texts) }
        ensures room { self.new.room ≡ self.old.room }
        ensures unchanged { self.new.entries ≡ self.old.entries }
    {
        if packing::text_of(frame).is_none() {
            return Ok(());
        }
        self.texts.reserve(1)?;
        Ok(())
    }

    /// Adds an entry at the end, beside which nothing stands.
    pub fn push(&mut self, packed: Packed)
        requires room { 0 < self.old.room }
        requires plain { IsPlain packed }
        ensures { self.new.entries ≡ self.old.entries ++ entry_in nothing packed ∷ [] }
    {
        self.pages.push(packed);
    }

    /// Adds the entry of a session that was submitted, with its program.
    pub fn push_session(&mut self, tag: u8, program: Program, ticket: u32)
        requires room { 0 < self.old.room }
        requires program { 0 < self.old.programs }
        requires tag { tag < 16 }
        ensures { self.new.entries ≡ self.old.entries ++ record { tag = tag; event = events.Submit program; reply = replies.Ticket ticket } ∷ [] }
    {
        // There are no more programs than entries, and pages have few of these.
        let _ = self.pages.len();
        let place = self.programs.len() as u32;
        let entry = packing::of_session(tag, ticket, place);
        self.programs.push_reserved(program);
        self.pages.push(entry);
    }

    /// Adds the entry of a frame that was made for that neighbour, of that message.
    pub fn push_sent(&mut self, tag: u8, v: OfficeId, i: usize, frame: &Frame)
        requires room { 0 < self.old.room }
        requires text { is_some (text_carried frame.now.msg) ≡ true → 0 < self.old.texts }
        requires tag { tag < 16 }
        requires few { i ≤ 18 }
        ensures { self.new.entries ≡ self.old.entries ++ record { tag = tag; event = events.Send v i; reply = replies.Frame frame.now } ∷ [] }
    {
        // There are no more texts than entries, and pages have few of these.
        let _ = self.pages.len();
        let place = self.texts.len() as u32;
        keep_text(&mut self.texts, frame);
        let entry = packing::of_frame(tag, v, i, frame, place);
        self.pages.push(entry);
    }

    /// Adds the entry of a frame that came.
    pub fn push_arrival(&mut self, tag: u8, frame: &Frame, arrival: &Arrival)
        requires room { 0 < self.old.room }
        requires text { is_some (text_carried frame.now.msg) ≡ true → 0 < self.old.texts }
        requires tag { tag < 16 }
        ensures { self.new.entries ≡ self.old.entries ++ record { tag = tag; event = events.Took frame.now; reply = reply_to arrival.now } ∷ [] }
    {
        let _ = self.pages.len();
        let place = self.texts.len() as u32;
        keep_text(&mut self.texts, frame);
        let entry = packing::of_arrival(tag, frame, arrival, place);
        self.pages.push(entry);
    }
}

/// Keeps the text that a frame carries, if it carries one.
fn keep_text(texts: &mut Vec<Text>, frame: &Frame)
    requires { is_some (text_carried frame.now.msg) ≡ true → vec_len texts.old < vec_capacity texts.old }
    ensures { texts.new.items ≡ texts.old.items ++ texts_of (text_carried frame.now.msg) }
{
    match packing::text_of(frame) {
        Some(text) => texts.push_reserved(text),
        None => {}
    }
}

/// The place of the first entry of a part, and that after the last, of so many in all.
fn places(all: usize, from: usize, most: usize) -> (usize, usize)
    ensures part { (es : List Entry) → all ≡ length es → take (result.1 - result.0) (drop result.0 es) ≡ take most (drop from es) }
    ensures ordered { result.0 ≤ result.1 }
    ensures within { result.1 ≤ all }
{
    let first = from.min(all);
    let count = most.min(all - first);
    (first, first + count)
}

/// Copies of the entries from one place to another. Where that is the same, no memory is taken.
#[tactic(auto, using(crate::proofs::KeptEntries::none_taken))]
fn copied(
    alloc: Global,
    journal: &Journal,
    from: usize,
    end: usize,
) -> Result<Vec<Entry>, AllocError>
    requires ordered { from ≤ end }
    requires within { end ≤ length journal.now.entries }
    ensures same { IfOk result (λ v. v.items ≡ take (end - from) (drop from journal.now.entries)) }
    ensures memory { OnErr result (from < end) }
{
    if from == end {
        return Ok(Vec::new(alloc));
    }
    let mut copies = Vec::with_capacity(alloc, end - from)?;
    for place in from..end {
        let Some(entry) = journal.get(place) else {
            unreachable!()
        };
        let copy = entry.to_entry()?;
        copies.push(copy)?;
    }
    Ok(copies)
}
