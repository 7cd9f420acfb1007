//! A session's program.

ghost use Rattle.std.specs.Prelude.{◌≡◌, ◌↔◌, ℕ, IfOk, IfSome, IsTrue, Contains};
ghost use Rattle.std.specs.List.Sorted.{IsStrictlyIncreasing};
ghost use Rattle.std.specs.List.{list_all};
ghost use Rattle.std.specs.String.{string_bytes};
ghost use Rattle.office_map.specs.PlanValue.{is_end};
ghost use Rattle.session_meaning.specs.refinement.TreeOfStatements.{block_of};
ghost use Rattle.session_programs.specs.measures.Needs.{needs_of};
ghost use Rattle.session_programs.specs.measures.Naming.{BlockNames};
ghost use Rattle.session_programs.specs.WellFormed.{IsWellFormed};
ghost use Rattle.session_programs.specs.refinement.Listing.{code_of};

use crate::code::Code;
use crate::listing::session_text;
use crate::measures::are_of_numbers;
use crate::measures::laws::needs_what_it_names;
use crate::words::{RecordNames, Words};
use bottle_values::Version;
use office_map::{OfficeId, Plan, RecordId};
use session_meaning::Statement;
use std::alloc::{AllocError, Global};
use std::marker::Model;
use std::sync::Arc;
use text_lines::ShortName;

/// The program of a session. Its copies share what it says, so that a copy takes no memory, and an event with a program is no
/// larger than others.
///
/// A submitted program stands in the office's journal and in its queue, in a world's event and in journals that were
/// handed in, and nothing ever changes it. So a program is two words, and its copy counts one owner more of each; the
/// counts are such that threads may share.
///
/// Its code may stand beside it, so that a session that is submitted again and again isn't made code again: whoever reads
/// sessions to submit them asks for that once ([`Program::with_code`]). Whether it is there, no contract sees; that it is
/// this program's is an invariant.
#[derive(Drop)]
pub struct Program {
    said: Arc<Said>,
    code: Option<Code>,
}

/// What a program says.
///
/// It keeps the places of variables and the numbers of records. Names are looked up where their line stands: they are
/// the plan's, and the program's own list of variables.
#[derive(Drop)]
struct Said {
    office: OfficeId,
    variables: Vec<ShortName>,
    needs: Vec<RecordId>,
    statements: Vec<Statement>,
    has_numbers_alone: bool,
}

impl Model for Program {
    ghost use Rattle.std.specs.Prelude.{◌≡◌, IfSome};
    ghost use Rattle.std.specs.Arc.{arc_value};
    ghost use Rattle.std.specs.Coded.{Coded, codes};
    ghost use Rattle.session_meaning.specs.ProgramValue.{ProgramValue};
    ghost use Rattle.session_meaning.specs.declared.node.Node.{Node};
    ghost use Rattle.session_meaning.specs.refinement.TreeEncoding.{Mark, term_code, block_code};
    ghost use Rattle.session_meaning.specs.refinement.TreeOfStatements.{block_of};
    ghost use Rattle.session_programs.specs.measures.Needs.{needs_of};
    ghost use Rattle.session_programs.specs.WellFormed.{IsWellFormed};
    ghost use Rattle.session_programs.specs.refinement.Listing.{code_of};
    ghost use Rattle.bottle_values.specs.declared.version.Version.TheVariants.{One};
    ghost use Rattle.session_meaning.specs.Fitting.{block_fits};

    ghost Value = { ProgramValue };

    ghost coded = { let nodes : Coded Node = Prim.hlevel codes in let marks : Coded Mark = Prim.hlevel (codes, term_code nodes) in Prim.hlevel (codes, block_code marks) };

    ghost view = { λ p. record { office = (arc_value p.said).office; variables = (arc_value p.said).variables.items; body = block_of (arc_value p.said).statements.items } };

    ghost invariant = { λ p. ((arc_value p.said).needs.items ≡ needs_of (block_of (arc_value p.said).statements.items)) × IsWellFormed (record { office = (arc_value p.said).office; variables = (arc_value p.said).variables.items; body = block_of (arc_value p.said).statements.items })
        × IfSome p.code (λ c. c ≡ code_of (record { office = (arc_value p.said).office; variables = (arc_value p.said).variables.items; body = block_of (arc_value p.said).statements.items }))
        × ((arc_value p.said).has_numbers_alone ≡ block_fits One (block_of (arc_value p.said).statements.items)) };
}

impl Program {
    ghost use Rattle.session_programs.specs.Program.{fits, text_under};

    /// The program with these parts: an office, the variables in the order in which lines first let them, the records that
    /// the statements need, and these. No part is looked at again.
    pub fn of(
        alloc: Global,
        office: OfficeId,
        variables: Vec<ShortName>,
        needs: Vec<RecordId>,
        statements: Vec<Statement>,
    ) -> Result<Program, AllocError>
        requires needed { needs.items ≡ needs_of (block_of statements.items) }
        requires well_formed { IsWellFormed (record { office = office; variables = variables.items; body = block_of statements.items }) }
        ensures { IfOk result (λ p. p ≡ record { office = office; variables = variables.items; body = block_of statements.items }) }
    {
        let mut statements = statements;
        statements.shrink_to_fit();
        let has_numbers_alone = are_of_numbers(&statements);
        let said = Said {
            office,
            variables,
            needs,
            statements,
            has_numbers_alone,
        };
        Ok(Program {
            said: Arc::new(alloc, said)?,
            code: None,
        })
    }

    /// The office that the session is of.
    pub fn office(&self) -> OfficeId
        ensures { result ≡ self.now.office }
    {
        self.said.office
    }

    /// The records that it reads or sets anywhere, each once, in order of number.
    pub fn needs(&self) -> &[RecordId]
        ensures all { result.now ≡ needs_of self.now.body }
        ensures in_order { IsStrictlyIncreasing result.now }
        ensures named { (r : ℕ) → Contains result.now r ↔ BlockNames r self.now.body }
    {
        needs_what_it_names();
        self.said.needs.as_slice()
    }

    /// The names of its variables, in the order in which lines first let them.
    pub fn variables(&self) -> &[ShortName]
        ensures { result.now ≡ self.now.variables }
    {
        &self.said.variables
    }

    /// The statements, in order. Every program is well formed: its variables are names that lines
    /// let before they are read, its literals have no sign, and it is within the limits.
    pub fn tree(&self) -> &[Statement]
        ensures body { block_of result.now ≡ self.now.body }
        ensures well_formed { IsWellFormed self.now }
    {
        &self.said.statements
    }

    /// Whether its office is the plan's, each record that it needs is of that office, and it has no text where the plan's version
    /// has none.
    #[tactic(auto, using(session_meaning::specs::FittingLaws::all_fit_two))]
    pub fn fits(&self, plan: &Plan) -> bool
        ensures { result ≡ fits plan.now self.now }
    {
        let said = &*self.said;
        if said.office.index() >= plan.offices() {
            return false;
        }
        if !are_of_office(plan, &said.needs, said.office) {
            return false;
        }
        match plan.version() {
            Version::One => said.has_numbers_alone,
            Version::Two => true,
        }
    }

    /// The canonical text of the session under a plan that it fits.
    pub fn text(&self, alloc: Global, plan: &Plan) -> Result<String, AllocError>
        requires { IsTrue (fits plan.now self.now) }
        ensures canonical { IfOk result (λ t. string_bytes t ≡ text_under plan.now self.now) }
    {
        prove!(self.said.office.index() < plan.offices());
        let words = Words {
            office: plan.office_name(self.said.office),
            variables: &self.said.variables,
            records: RecordNames::Of(plan),
        };
        session_text(alloc, &words, &self.said.statements)
    }

    /// The same program.
    pub fn copy(&self) -> Result<Program, AllocError>
        ensures { IfOk result (λ p. p ≡ self.now) }
    {
        let said = Arc::try_clone(&self.said)?;
        let code = same_code(&self.code)?;
        Ok(Program { said, code })
    }

    /// The same program, with its code beside it, which its copies share.
    pub fn with_code(&self, alloc: Global) -> Result<Program, AllocError>
        ensures { IfOk result (λ p. p ≡ self.now) }
    {
        let said = Arc::try_clone(&self.said)?;
        let code = Code::of(alloc, self)?;
        Ok(Program {
            said,
            code: Some(code),
        })
    }

    /// Its code, where that stands beside it.
    pub fn code(&self) -> Option<&Code>
        ensures { IfSome result (λ c. c.now ≡ code_of self.now) }
    {
        match &self.code {
            Some(code) => Some(code),
            None => None,
        }
    }
}

/// The same programs, each with its code beside it.
pub fn with_codes(alloc: Global, programs: &[Program]) -> Result<Vec<Program>, AllocError>
    ensures { IfOk result (λ v. v.items ≡ programs.now) }
{
    let mut coded = Vec::with_capacity(alloc, programs.len())?;
    for program in programs {
        coded.push(program.with_code(alloc)?)?;
    }
    Ok(coded)
}

fn same_code(code: &Option<Code>) -> Result<Option<Code>, AllocError>
    ensures { IfOk result (λ c. c ≡ code.now) }
{
    match code {
        Some(code) => Ok(Some(code.shared()?)),
        None => Ok(None),
    }
}

fn are_of_office(plan: &Plan, records: &[RecordId], office: OfficeId) -> bool
    ensures { result ≡ list_all (λ r. is_end plan.now r office) records.now }
{
    for id in records {
        if !plan.has_end(*id, office) {
            return false;
        }
    }
    true
}
