//! Tokens of expressions.

ghost use Rattle.std.specs.Prelude.{◌≡◌, option_map, Some, None, if◌then◌else◌};
ghost use Rattle.session_language.specs.Phrase.{leaf_of, token_of, operand_in, text_in, expression_symbol, is_read};
ghost use Rattle.session_language.specs.Spelling.{AText};

use crate::lexer::{Piece, Symbol};
use crate::number::Number;
use bottle_values::{Version, is_text};
use text_lines::{ShortName, number, short_name};

/// A number, a variable, or `read` and a record.
#[derive(Clone, Copy)]
pub enum Operand {
    Number(Number),
    Variable(ShortName),
    Record(ShortName),
}

#[derive(Clone, Copy)]
pub enum Token {
    Leaf(Operand),
    Plus,
    Minus,
    Times,
    Open,
    Close,
}

/// What comes next in an expression: a token, or a text by its bytes in the line, or the first piece that is none of it, or a
/// `read` with no name after it.
///
/// A text is no token of the code, so that a number is handed on without the room of a text.
#[derive(Clone, Copy)]
pub enum Next<'a> {
    Token(Token),
    Text(&'a [u8]),
    Stop(Option<Piece<'a>>),
    Wrong,
}

pub(crate) fn is_read(word: &[u8]) -> bool
    ensures { result ≡ is_read word.now }
{
    word == b"read".as_slice()
}

/// A number or a variable's name.
pub(crate) fn operand_in(word: &[u8]) -> Option<Operand>
    ensures { option_map leaf_of result ≡ operand_in word.now }
{
    if let Some(value) = number(word) {
        return Some(Operand::Number(Number { value }));
    }
    match short_name(word) {
        Some(name) => Some(Operand::Variable(name)),
        None => None,
    }
}

/// Whether what stands between two quotation marks is a text, where a plan of this version has texts.
pub(crate) fn is_text_in(version: Version, bytes: &[u8]) -> bool
    ensures { text_in version bytes.now ≡ (if result then Some (AText bytes.now) else None) }
{
    match version {
        Version::One => false,
        Version::Two => is_text(bytes),
    }
}

pub(crate) fn expression_symbol(symbol: Symbol) -> Option<Token>
    ensures { option_map token_of result ≡ expression_symbol symbol }
{
    match symbol {
        Symbol::Plus => Some(Token::Plus),
        Symbol::Minus => Some(Token::Minus),
        Symbol::Times => Some(Token::Times),
        Symbol::Open => Some(Token::Open),
        Symbol::Close => Some(Token::Close),
        _ => None,
    }
}
