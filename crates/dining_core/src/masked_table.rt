//! A table with masks beside it: what is done next of it, without a look at each neighbour.

ghost use Rattle.std.specs.Prelude.{◌≡◌, ◌<◌, ℕ, length, IfOk, true, false, ◌&&◌};
ghost use Rattle.std.specs.List.{list_all};
ghost use Rattle.dining_core.specs.masks.Sets.{is_in16, IsLeast};
ghost use Rattle.bottle_values.specs.Lists.{is_among};
ghost use Rattle.dining_core.specs.Diners.{BecomeHungry, AskFork, GiveFork, Eat, Leave, may, with_token, with_fork, diner_at_start};
ghost use Rattle.dining_core.specs.refinement.Tables.{DoesRule, diner_of};
ghost use Rattle.dining_core.specs.refinement.Masks.{Tells};

use crate::fault::NotNow;
use crate::masks::Mask16;
use crate::phase::Phase;
use crate::table::Table;
use office_map::{OfficeId, Plan};
use std::alloc::{AllocError, Global};
use std::marker::Model;

/// A [`Table`], and of the offices below 16, as bits: which are neighbours, and whose forks, clean forks and request tokens
/// are here.
///
/// Flags stand twice: the plain type keeps its contracts and proofs, each call is the plain one and a bit or a word
/// more, and what comes next is found in a word. The masks are in the type's invariant, and no contract mentions them.
/// Of a bar the records that are needed stand in a mask alone, since all of them are freed at once; a table has nothing
/// of this kind but what eating makes dirty.
#[derive(Drop)]
pub struct MaskedTable {
    table: Table,
    near: Mask16,
    held: Mask16,
    clean: Mask16,
    tokens: Mask16,
}

impl Model for MaskedTable {
    ghost use Rattle.dining_core.specs.refinement.Tables.{TableValue, diner_of};
    ghost use Rattle.dining_core.specs.refinement.Masks.{AreMasks};

    ghost Value = { TableValue };

    ghost view = { λ t. t.table };

    ghost invariant = { λ t. AreMasks (diner_of t.table) t.near t.held t.clean t.tokens };
}

impl MaskedTable {
    /// The table of an office as the plan starts.
    pub fn open(alloc: Global, plan: &Plan, id: OfficeId) -> Result<MaskedTable, AllocError>
        requires { id < length plan.now.offices }
        ensures { IfOk result (λ t. diner_of t ≡ diner_at_start plan.now id) }
    {
        let table = Table::open(alloc, plan, id)?;
        let near = near_in(plan.neighbours(id));
        let (held, tokens) = here_in(&table);
        Ok(MaskedTable {
            table,
            near,
            held,
            clean: Mask16::empty(),
            tokens,
        })
    }

    /// The table.
    pub fn table(&self) -> &Table
        ensures { result.now ≡ self.now }
    {
        &self.table
    }

    /// The least neighbour to whom a fork may be given now.
    pub fn first_given(&self) -> Option<u32>
        ensures { IsLeast 16 (λ v. is_among (diner_of self.now).neighbours v && may (diner_of self.now) (GiveFork v)) result }
    {
        if matches!(self.table.phase(), Phase::Eating) {
            return None;
        }
        self.near
            .and(self.tokens.and(self.held.and_not(self.clean)))
            .first()
    }

    /// The least neighbour who may be asked for a fork now.
    pub fn first_asked(&self) -> Option<u32>
        ensures { IsLeast 16 (λ v. is_among (diner_of self.now).neighbours v && may (diner_of self.now) (AskFork v)) result }
    {
        if !matches!(self.table.phase(), Phase::Hungry) {
            return None;
        }
        self.near.and(self.tokens.and_not(self.held)).first()
    }

    /// Whether [`MaskedTable::eat`] would be done now.
    pub fn may_eat(&self) -> bool
        ensures { result ≡ may (diner_of self.now) Eat }
    {
        matches!(self.table.phase(), Phase::Hungry) && self.has_all()
    }

    // Whether the fork of each neighbour is here.
    fn has_all(&self) -> bool
        ensures { result ≡ list_all (diner_of self.now).held (diner_of self.now).neighbours }
    {
        self.near.and_not(self.held).first().is_none()
    }

    /// A thinking office that is thirsty becomes hungry.
    pub fn hungry(&mut self, thirsty: bool) -> Result<(), NotNow>
        ensures { DoesRule (BecomeHungry thirsty) result self.old self.new }
    {
        self.table.hungry(thirsty)?;
        Ok(())
    }

    /// A hungry office sends the request token of a fork that isn't here.
    pub fn ask_fork(&mut self, v: OfficeId) -> Result<(), NotNow>
        ensures { DoesRule (AskFork v) result self.old self.new }
    {
        self.table.ask_fork(v)?;
        self.tokens.clear(v.number() as u32);
        Ok(())
    }

    /// An office that doesn't eat sends a dirty fork to the neighbour who asked for it.
    pub fn give_fork(&mut self, v: OfficeId) -> Result<(), NotNow>
        ensures { DoesRule (GiveFork v) result self.old self.new }
    {
        self.table.give_fork(v)?;
        self.held.clear(v.number() as u32);
        Ok(())
    }

    /// A hungry office that has all its forks eats, and each of them is dirty.
    pub fn eat(&mut self) -> Result<(), NotNow>
        ensures { DoesRule Eat result self.old self.new }
    {
        if !self.may_eat() {
            return Err(NotNow);
        }
        self.table.begin_to_eat();
        self.clean = Mask16::empty();
        Ok(())
    }

    /// An eating office that isn't thirsty thinks again.
    pub fn leave(&mut self, thirsty: bool) -> Result<(), NotNow>
        ensures { DoesRule (Leave thirsty) result self.old self.new }
    {
        self.table.leave(thirsty)?;
        Ok(())
    }

    /// The request token of a fork came.
    pub fn got_token(&mut self, v: OfficeId)
        requires ours { is_among (diner_of self.old).neighbours v ≡ true }
        requires away { (diner_of self.old).token v ≡ false }
        ensures { diner_of self.new ≡ with_token (diner_of self.old) v }
    {
        self.table.got_token(v);
        self.tokens.set(v.number() as u32);
    }

    /// A fork came.
    pub fn got_fork(&mut self, v: OfficeId)
        requires ours { is_among (diner_of self.old).neighbours v ≡ true }
        requires away { (diner_of self.old).held v ≡ false }
        ensures { diner_of self.new ≡ with_fork (diner_of self.old) v }
    {
        self.table.got_fork(v);
        self.held.set(v.number() as u32);
        self.clean.set(v.number() as u32);
    }
}

fn near_in(neighbours: &[OfficeId]) -> Mask16
    ensures { Tells result (is_among neighbours.now) }
{
    let mut mask = Mask16::empty();
    for v in neighbours {
        mask.set(v.number() as u32);
    }
    mask
}

/// Of which offices the fork is here, and of which the request token.
fn here_in(table: &Table) -> (Mask16, Mask16)
    ensures held { Tells result.0 (diner_of table.now).held }
    ensures tokens { Tells result.1 (diner_of table.now).token }
{
    let mut held = Mask16::empty();
    let mut tokens = Mask16::empty();
    for v in 0..16u8 {
        held.put(v as u32, table.holds(OfficeId::new(v)));
        tokens.put(v as u32, table.has_token(OfficeId::new(v)));
    }
    (held, tokens)
}
