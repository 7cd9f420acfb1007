//! An expression in postfix order, built from the tokens of a line in one pass.

ghost use Rattle.std.specs.Prelude.{◌≡◌, ◌+◌, ◌<◌, ◌≤◌, ◌^◌, ◌++◌, ◌∷◌, ◌&&◌, [], IfOk, OnOk, min, max, suc, length, option_map, replicate, if◌then◌else◌, Some, None, true};
ghost use Rattle.session_language.specs.refinement.PostfixBuilder.{build_of, fresh_build, ended, emit, emit_wanting, emit_having, after_sign, joined_depth, sum_depth, sum_end, completed, HasRoom};
ghost use Rattle.session_language.specs.refinement.PlacedTokens.{Operand, seen_element};
ghost use Rattle.session_meaning.specs.declared.node.Node.TheVariants.{Literal, Negate};
ghost use Rattle.bottle_values.specs.declared.Value.TheVariants as values;
ghost use Rattle.bottle_values.specs.Texts.{is_text};
ghost use Rattle.session_meaning.specs.refinement.Postfix.{IsPostfix, tree_of};
ghost use Rattle.session_language.specs.Limits.{past_depth};
ghost use Rattle.session_language.specs.Lexer.{pieces_of};
ghost use Rattle.session_language.specs.Names.{scope_of};
ghost use Rattle.session_language.specs.Phrase.{phrase_at, Reads};

use crate::leaf::Leaf;
use crate::lexer::{Piece, Pieces};
use crate::limits::PAST_DEPTH;
use crate::scope::Scope;
use crate::summary::Summary;
use crate::token::Next;
use bottle_values::Text;
use session_meaning::{Expression, NodeList, Operator};
use std::alloc::{AllocError, Global};
use text_lines::Guesses;

/// A token whose names are known.
#[derive(Clone, Copy)]
pub enum Element {
    Operand(Leaf),
    Plus,
    Minus,
    Times,
    Open,
    Close,
}

/// The left operand of a sign that waits for the right one, by its depth.
#[derive(Clone, Copy)]
pub enum Sum {
    Nothing,
    Added(u8),
    Taken(u8),
}

/// What stands before an operand since the last open parenthesis: a sum and its sign, a product
/// and its star by its depth, and how many leading minuses.
#[derive(Clone, Copy)]
pub struct Level {
    pub sum: Sum,
    pub product: Option<u8>,
    pub minuses: usize,
}

/// What may come next: an operand, or what follows one of this depth.
#[derive(Clone, Copy)]
pub enum Stage {
    Wants(Level),
    Has(Sum, u8),
}

/// An expression so far: the open parentheses, and the nodes whose operators have come. Depths are
/// exact up to 32, and 33 past it. With it, where variables were found last.
///
/// So depths are bytes. Open parentheses are kept, each with the sum and the product around it: a line with a million
/// of them needs 19 MB, which is within what a text of its length may need, since whether they are closed again is
/// known at its end.
#[derive(Drop)]
pub struct Builder {
    pub outer: Vec<Level>,
    pub stage: Stage,
    pub nodes: NodeList,
    pub guesses: Guesses,
}

impl Builder {
    /// Reads the expression at the front of a line; its nodes stand in `nodes` then. With it comes
    /// the piece after it. None where there is no expression.
    pub fn phrase<'a>(
        &mut self,
        scope: &Scope<'_>,
        pieces: &mut Pieces<'a>,
    ) -> Result<Option<(Summary, Option<Piece<'a>>)>, AllocError>
        requires { length scope.now.variables.now ≤ 255 }
        ensures gives { IfOk result (λ o. Reads o (scope_of scope.now) self.new.nodes (phrase_at (scope_of scope.now).plan.version (pieces_of pieces.old.rest.now)) (pieces_of pieces.new.rest.now)) }
        ensures within { length pieces.new.rest.now ≤ length pieces.old.rest.now }
    {
        self.clear();
        prove!(pieces.rest.len() < usize::MAX);
        let mut knows_variables = true;
        let mut knows_records = true;
        loop {
            let token = match pieces.next_token(scope.plan) {
                Next::Token(token) => token,
                Next::Text(bytes) => {
                    if !self.take_text(bytes)? {
                        return Ok(None);
                    }
                    continue;
                }
                Next::Stop(stop) => {
                    let Some(depth) = self.finish()? else {
                        return Ok(None);
                    };
                    let summary = Summary {
                        depth,
                        knows_variables,
                        knows_records,
                    };
                    return Ok(Some((summary, stop)));
                }
                Next::Wrong => return Ok(None),
            };
            let placed = scope.element(&mut self.guesses, token);
            if !self.take(placed.element)? {
                return Ok(None);
            }
            knows_variables = both(knows_variables, placed.knows_variable);
            knows_records = both(knows_records, placed.knows_record);
        }
    }

    fn clear(&mut self)
        ensures { build_of self.new ≡ fresh_build }
    {
        self.outer.clear();
        self.nodes.clear();
        self.stage = Stage::Wants(after_sign(Sum::Nothing));
    }

    /// The expression ends: how deep it is. None where it may not end.
    fn finish(&mut self) -> Result<Option<u8>, AllocError>
        ensures { IfOk result (λ o. ended (build_of self.old) ≡ option_map (λ d. (d, self.new.nodes)) o) }
    {
        let Stage::Has(sum, depth) = self.stage else {
            return Ok(None);
        };
        if !self.outer.is_empty() {
            return Ok(None);
        }
        push_sum(&mut self.nodes, sum)?;
        Ok(Some(sum_depth(sum, depth)))
    }

    /// What was read last, in memory of its own.
    pub fn expression(&self, alloc: Global) -> Result<Expression, AllocError>
        requires { IsPostfix self.now.nodes }
        ensures { IfOk result (λ e. e ≡ tree_of self.now.nodes) }
    {
        Expression::of(alloc, &self.nodes)
    }

    /// Takes one token. False where the grammar has no such token there.
    fn take(&mut self, element: Element) -> Result<bool, AllocError>
        requires { HasRoom self.old.stage }
        ensures { IfOk result (λ ok. emit (build_of self.old) (seen_element element) ≡ (if ok then Some (build_of self.new) else None)) }
    {
        match self.stage {
            Stage::Wants(level) => self.take_wanting(level, element),
            Stage::Has(sum, depth) => self.take_having(sum, depth, element),
        }
    }

    /// Takes a text. False where the grammar has no operand there.
    #[inline(never)]
    fn take_text(&mut self, bytes: &[u8]) -> Result<bool, AllocError>
        requires { is_text bytes.now ≡ true }
        ensures { IfOk result (λ ok. emit (build_of self.old) (Operand (Literal (values.Text bytes.now))) ≡ (if ok then Some (build_of self.new) else None)) }
    {
        let Stage::Wants(level) = self.stage else {
            return Ok(false);
        };
        self.nodes.push_text(kept_text(bytes))?;
        self.complete(level, 1)?;
        Ok(true)
    }

    fn take_wanting(&mut self, level: Level, element: Element) -> Result<bool, AllocError>
        requires { level.minuses + 1 < 2 ^ 64 }
        ensures { IfOk result (λ ok. emit_wanting (build_of self.old).outer level (build_of self.old).nodes (seen_element element) ≡ (if ok then Some (build_of self.new) else None)) }
    {
        match element {
            Element::Operand(leaf) => {
                leaf.push_to(&mut self.nodes)?;
                self.complete(level, 1)?;
                Ok(true)
            }
            Element::Minus => {
                self.stage = Stage::Wants(one_more_minus(level));
                Ok(true)
            }
            Element::Open => {
                self.outer.push(level)?;
                self.stage = Stage::Wants(after_sign(Sum::Nothing));
                Ok(true)
            }
            Element::Plus | Element::Times | Element::Close => Ok(false),
        }
    }

    fn take_having(&mut self, sum: Sum, depth: u8, element: Element) -> Result<bool, AllocError>
        ensures { IfOk result (λ ok. emit_having (build_of self.old).outer sum depth (build_of self.old).nodes (seen_element element) ≡ (if ok then Some (build_of self.new) else None)) }
    {
        match element {
            Element::Plus => {
                push_sum(&mut self.nodes, sum)?;
                self.stage = Stage::Wants(after_sign(Sum::Added(sum_depth(sum, depth))));
                Ok(true)
            }
            Element::Minus => {
                push_sum(&mut self.nodes, sum)?;
                self.stage = Stage::Wants(after_sign(Sum::Taken(sum_depth(sum, depth))));
                Ok(true)
            }
            Element::Times => {
                self.stage = Stage::Wants(Level {
                    sum,
                    product: Some(depth),
                    minuses: 0,
                });
                Ok(true)
            }
            Element::Close => {
                let Some(level) = self.outer.pop() else {
                    return Ok(false);
                };
                push_sum(&mut self.nodes, sum)?;
                self.complete(level, one_deeper(sum_depth(sum, depth)))?;
                Ok(true)
            }
            Element::Operand(_) | Element::Open => Ok(false),
        }
    }

    /// An operand of this depth is complete, whose nodes have been written.
    #[inline(always)]
    fn complete(&mut self, level: Level, depth: u8) -> Result<(), AllocError>
        ensures { OnOk result (build_of self.new ≡ completed (build_of self.old).outer level (build_of self.old).nodes depth) }
    {
        push_negations(&mut self.nodes, level.minuses)?;
        let negated = negated_depth(level.minuses, depth);
        match level.product {
            None => self.stage = Stage::Has(level.sum, negated),
            Some(left) => {
                self.nodes.push_operator(Operator::Times)?;
                self.stage = Stage::Has(level.sum, joined_depth(left, negated));
            }
        }
        Ok(())
    }
}

/// These bytes as a text.
fn kept_text(bytes: &[u8]) -> Text
    requires { is_text bytes.now ≡ true }
    ensures { result ≡ bytes.now }
{
    match Text::of(bytes) {
        Some(text) => text,
        None => Text::empty(),
    }
}

fn one_more_minus(level: Level) -> Level
    requires { level.minuses + 1 < 2 ^ 64 }
    ensures { result ≡ record level { minuses = suc level.minuses } }
{
    Level {
        sum: level.sum,
        product: level.product,
        minuses: level.minuses + 1,
    }
}

fn after_sign(sum: Sum) -> Level
    ensures { result ≡ after_sign sum }
{
    Level {
        sum,
        product: None,
        minuses: 0,
    }
}

fn one_deeper(depth: u8) -> u8
    ensures { result ≡ min past_depth (suc depth) }
{
    if depth < PAST_DEPTH {
        depth + 1
    } else {
        PAST_DEPTH
    }
}

fn joined_depth(a: u8, b: u8) -> u8
    ensures { result ≡ joined_depth a b }
{
    one_deeper(a.max(b))
}

fn negated_depth(minuses: usize, depth: u8) -> u8
    ensures { result ≡ min past_depth (minuses + depth) }
{
    if minuses < PAST_DEPTH as usize {
        (minuses as u8 + depth.min(PAST_DEPTH)).min(PAST_DEPTH)
    } else {
        PAST_DEPTH
    }
}

fn sum_depth(sum: Sum, depth: u8) -> u8
    ensures { result ≡ sum_depth sum depth }
{
    match sum {
        Sum::Nothing => depth,
        Sum::Added(left) | Sum::Taken(left) => joined_depth(left, depth),
    }
}

fn push_negations(nodes: &mut NodeList, count: usize) -> Result<(), AllocError>
    ensures { OnOk result (nodes.new ≡ nodes.old ++ replicate count Negate) }
{
    for _ in 0..count {
        nodes.push_negate()?;
    }
    Ok(())
}

/// Writes the operator of a sum whose right operand is complete.
#[inline(always)]
fn push_sum(nodes: &mut NodeList, sum: Sum) -> Result<(), AllocError>
    ensures { OnOk result (nodes.new ≡ nodes.old ++ sum_end sum) }
{
    match sum {
        Sum::Nothing => {}
        Sum::Added(_) => nodes.push_operator(Operator::Plus)?,
        Sum::Taken(_) => nodes.push_operator(Operator::Minus)?,
    }
    Ok(())
}

fn both(a: bool, b: bool) -> bool
    ensures { result ≡ (a && b) }
{
    a && b
}
