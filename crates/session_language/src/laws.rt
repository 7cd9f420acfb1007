//! Laws of the definitions that the contracts cite.

ghost use Rattle.std.specs.Prelude.{◌≡◌, ◌∷◌, [], Ok, IsTrue};
ghost use Rattle.session_programs.specs.Program.{fits, text_under};
ghost use Rattle.session_language.specs.Reading.{sessions_of};
ghost use Rattle.session_language.specs.LongestMatch.{CutsTheLongest};
ghost use Rattle.session_language.specs.LineGrammar.{ReadsTheForms};
ghost use Rattle.session_language.specs.NumberLines.{NumbersMeanTheSame};
ghost use Rattle.session_language.specs.Laws.{ReadsInOrder, RefusesALine, ReadsTheGrammar, IsUnambiguous};

use office_map::Plan;
use session_programs::Program;

/// Reading accepts all lines, one after the other, or stops at the first that is refused.
pub fn reads_in_order()
    ensures { ReadsInOrder }
{}

/// A refusal is of the first faulty line, of the whole text (0) where it is too long, or of the end
/// (the line after the last) where a session is still open.
pub fn refuses_a_line()
    ensures { RefusesALine }
{}

/// A line is cut into its longest pieces.
pub fn cuts_the_longest()
    ensures { CutsTheLongest }
{}

/// A line under a plan of version 1 is read as one of numbers alone, in every word and fault.
pub fn numbers_mean_the_same()
    ensures { NumbersMeanTheSame }
{}

/// Lines are read by the grammar.
pub fn reads_the_forms()
    ensures { ReadsTheForms }
{}

/// Expressions are read by the grammar.
pub fn reads_the_grammar()
    ensures { ReadsTheGrammar }
{}

/// An expression is one tree.
pub fn expressions_are_unambiguous()
    ensures { IsUnambiguous }
{}

/// A program's canonical text under a plan that it fits means that program, and nothing else.
pub fn reads_back(program: &Program, plan: &Plan)
    requires { IsTrue (fits plan.now program.now) }
    ensures { sessions_of plan.now (text_under plan.now program.now) ≡ Ok (program.now ∷ []) }
{
    // The program is well formed, and the plan is consistent.
    let _ = program.tree();
    let _ = plan.offices();
}
