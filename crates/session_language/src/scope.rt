//! What names stand for where a line stands.

ghost use Rattle.std.specs.Prelude.{◌≢◌, AllPairs};

use crate::builder::Element;
use crate::leaf::Leaf;
use crate::names::{Placed, known, known_leaf};
use crate::token::{Operand, Token};
use office_map::{OfficeId, Plan, RecordId};
use text_lines::{Guesses, ShortName};

/// The plan, the session's office, and the variables that earlier lines name.
#[derive(Clone, Copy)]
pub struct Scope<'a> {
    pub plan: &'a Plan,
    pub office: OfficeId,
    pub variables: &'a [ShortName],
    ghost distinct: { AllPairs (λ a b. a ≢ b) variables.now },
}

impl Scope<'_> {
    ghost use Rattle.std.specs.Prelude.{◌≡◌, ◌≤◌, length};
    ghost use Rattle.session_language.specs.Names.{scope_of, variable_named, record_of};
    ghost use Rattle.session_language.specs.Phrase.{leaf_of, token_of};
    ghost use Rattle.session_language.specs.Spelling as spelling;
    ghost use Rattle.session_language.specs.refinement.PlacedTokens.{placed_of, seen_placed};

    /// The place of a variable.
    pub fn variable_named(&self, guesses: &mut Guesses, name: &ShortName) -> Option<usize>
        requires { length self.now.variables.now ≤ 255 }
        ensures { result ≡ variable_named (scope_of self.now) name.now }
    {
        guesses.find_name(self.variables, name)
    }

    /// The record of this name, if it is of the session's office.
    pub fn record_of(&self, name: &ShortName) -> Option<RecordId>
        ensures { result ≡ record_of (scope_of self.now) name.now }
    {
        let record = self.plan.record_of_name(name)?;
        if self.plan.has_end(record, self.office) {
            Some(record)
        } else {
            None
        }
    }

    /// A token with its names in their places. An unknown name is at place 0.
    pub fn element(&self, guesses: &mut Guesses, token: Token) -> Placed
        requires { length self.now.variables.now ≤ 255 }
        ensures { seen_placed result ≡ placed_of (scope_of self.now) (token_of token) }
    {
        match token {
            Token::Leaf(operand) => self.place(guesses, operand),
            Token::Plus => known(Element::Plus),
            Token::Minus => known(Element::Minus),
            Token::Times => known(Element::Times),
            Token::Open => known(Element::Open),
            Token::Close => known(Element::Close),
        }
    }

    fn place(&self, guesses: &mut Guesses, operand: Operand) -> Placed
        requires { length self.now.variables.now ≤ 255 }
        ensures { seen_placed result ≡ placed_of (scope_of self.now) (spelling.Leaf (leaf_of operand)) }
    {
        match operand {
            Operand::Number(n) => known_leaf(Leaf::Number(n)),
            Operand::Variable(name) => match self.variable_named(guesses, &name) {
                Some(place) => known_leaf(Leaf::Variable(place as u8)),
                None => Placed {
                    element: Element::Operand(Leaf::Variable(0)),
                    knows_variable: false,
                    knows_record: true,
                },
            },
            Operand::Record(name) => match self.record_of(&name) {
                Some(record) => known_leaf(Leaf::Read(record)),
                None => Placed {
                    element: Element::Operand(Leaf::Read(RecordId::new(0))),
                    knows_variable: true,
                    knows_record: false,
                },
            },
        }
    }
}
