//! The journals of a plan's offices, as they are handed in.

ghost use Rattle.std.specs.Prelude.{◌≡◌, ◌<◌, ◌≤◌, ◌^◌, ◌++◌, ◌∷◌, [], ℕ, List, Some, None, IsSome, All, true, false, length, map, set, get_or, IfOk, IfErr, IfSome, IfNone, OnOk, OnErr};
ghost use Rattle.office_map.specs.PlanValue.{PlanValue};
ghost use Rattle.day_audits.specs.audit.Gathering.{IsRefusedAt, Lacks};
ghost use Rattle.day_audits.specs.audit.Following.{Gathers, FollowJournals, FollowSome};

use crate::audit::fault::GatherFault;
use crate::audit::follower::Follower;
use journal_texts::laws::a_text_is_one_journal;
use journal_texts::read_into;
use journal_weave::Replay;
use office_map::{OfficeId, Plan};
use std::alloc::{AllocError, Global};
use std::marker::Model;

/// The journals of a plan's offices, as far as they were handed in: each stands as the office that follows it, and nowhere else.
#[derive(Drop)]
pub struct Journals {
    plan: Plan,
    /// Of each office, in order of number, the one that follows its journal, if that is there.
    slots: Vec<Option<Replay>>,
}

impl Model for Journals {
    ghost use Rattle.std.specs.Coded.{Coded, codes};
    ghost use Rattle.session_meaning.specs.declared.node.Node.{Node};
    ghost use Rattle.session_meaning.specs.refinement.TreeEncoding.{Mark, term_code, block_code};
    ghost use Rattle.day_audits.specs.audit.Gathered.{Gathered};

    ghost Value = { Gathered };

    ghost coded = { let nodes : Coded Node = Prim.hlevel codes in let marks : Coded Mark = Prim.hlevel (codes, term_code nodes) in Prim.hlevel (codes, block_code marks) };

    ghost use Rattle.day_audits.specs.audit.Following.{GathersSome};

    ghost view = { λ j. record { plan = j.plan; slots = j.slots.items } };

    ghost invariant = { λ j. GathersSome (record { plan = j.plan; slots = j.slots.items }) };
}

impl Journals {
    /// None was handed in.
    pub fn new(alloc: Global, plan: &Plan) -> Result<Journals, AllocError>
        ensures { IfOk result (Gathers plan.now []) }
    {
        let slots = empty(alloc, plan.offices())?;
        let plan = plan.copy(alloc)?;
        Ok(Journals { plan, slots })
    }

    /// The journal that a text is goes to the others. Its office takes a step for each line as it is read.
    ///
    /// # Errors
    /// `Unread` where it is none, and `Twice` where its office's journal is there already; nothing changed then.
    pub fn read(&mut self, alloc: Global, text: &[u8]) -> Result<(), GatherFault>
        ensures gathered { OnOk result ((plan : PlanValue) (texts : List (List ℕ)) → Gathers plan texts self.old → Gathers plan (texts ++ text.now ∷ []) self.new) }
        ensures refused { IfErr result (λ fault. (plan : PlanValue) (before after : List (List ℕ)) → Gathers plan before self.old → IsRefusedAt plan (before ++ text.now ∷ after) (length before) fault) }
        ensures same { OnErr result (self.new ≡ self.old) }
    {
        is_short(text);
        let replay = match read_into::<Follower>(alloc, text, &self.plan) {
            Ok(follower) => follower.replay,
            Err(fault) => return Err(GatherFault::Unread(fault)),
        };
        let office = replay.number();
        if !add(&mut self.slots, office, replay) {
            return Err(GatherFault::Twice(office));
        }
        Ok(())
    }

    /// The least office whose journal isn't there, if there is one.
    pub fn missing(&self) -> Option<OfficeId>
        ensures none { IfNone result (All (λ slot. IsSome slot) self.now.slots) }
        ensures lacks { IfSome result (λ a. (plan : PlanValue) (texts : List (List ℕ)) → Gathers plan texts self.now → Lacks plan texts a) }
    {
        a_text_is_one_journal();
        for a in 0..self.offices() {
            if self.has_none(a) {
                return Some(OfficeId::new(a as u8));
            }
        }
        None
    }

    /// How many offices there are.
    fn offices(&self) -> usize
        ensures count { result ≡ length self.now.slots }
        ensures few { result ≤ 16 }
    {
        self.plan.offices()
    }

    /// Whether the journal of the office with this number isn't there.
    fn has_none(&self, a: usize) -> bool
        requires { a < length self.now.slots }
        ensures none { result ≡ true → get_or self.now.slots a None ≡ None }
        ensures some { result ≡ false → IsSome (get_or self.now.slots a None) }
    {
        self.slots[a].is_none()
    }

    /// The plan whose offices' journals they are.
    pub(crate) fn plan(&self) -> &Plan
        ensures { result.now ≡ self.now.plan }
    {
        &self.plan
    }

    /// The offices that follow the journals, all of them, in order of number.
    pub(crate) fn into_replays(self, alloc: Global) -> Result<Vec<Replay>, AllocError>
        requires { All (λ slot. IsSome slot) self.slots }
        ensures one_each { IfOk result (λ v. length v.items ≡ length self.plan.offices) }
        ensures journals { IfOk result (λ v. (plan : PlanValue) (texts : List (List ℕ)) → Gathers plan texts self → FollowJournals plan texts v.items) }
        ensures some { IfOk result (λ v. FollowSome self.plan v.items) }
    {
        let replays = full(alloc, self.slots)?;
        Ok(replays)
    }
}

/// An office that follows its journal goes to the others, where none is there of its number. Whether it does.
fn add(slots: &mut Vec<Option<Replay>>, office: OfficeId, replay: Replay) -> bool
    requires { office < length slots.old.items }
    ensures added { result ≡ true → (get_or slots.old.items office None ≡ None) }
    ensures filled { result ≡ true → slots.new.items ≡ set slots.old.items office (Some replay) }
    ensures there { result ≡ false → IsSome (get_or slots.old.items office None) }
    ensures same { result ≡ false → slots.new.items ≡ slots.old.items }
{
    let slot = &mut slots[office.index()];
    if slot.is_some() {
        return false;
    }
    *slot = Some(replay);
    true
}

/// So many slots, with nothing in them.
fn empty(alloc: Global, offices: usize) -> Result<Vec<Option<Replay>>, AllocError>
    ensures size { IfOk result (λ v. length v.items ≡ offices) }
    ensures empty { IfOk result (λ v. (a : ℕ) → get_or v.items a None ≡ None) }
{
    let mut slots = Vec::with_capacity(alloc, offices)?;
    while slots.len() < offices {
        slots.push(None)?;
    }
    Ok(slots)
}

/// What is in slots that have something each.
fn full(alloc: Global, slots: Vec<Option<Replay>>) -> Result<Vec<Replay>, AllocError>
    requires { All (λ slot. IsSome slot) slots.items }
    ensures { IfOk result (λ v. map Some v.items ≡ slots.items) }
{
    let mut replays = Vec::with_capacity(alloc, slots.len())?;
    for slot in slots {
        match slot {
            Some(replay) => replays.push(replay)?,
            None => unreachable!(),
        }
    }
    Ok(replays)
}

/// No text fills half of what can be addressed.
fn is_short(text: &[u8])
    ensures { length text.now < 2 ^ 63 }
{
    let _ = text.len();
}
