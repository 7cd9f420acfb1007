//! Words, symbols and texts of a line.

ghost use Rattle.std.specs.Prelude.{◌≡◌, ◌∷◌, [], ◌≤◌, ◌<◌, length, MatchOption, OnSome, false, true};
ghost use Rattle.text_lines.specs.Text.{is_name_byte};
ghost use Rattle.bottle_values.specs.declared.version.Version.{Version};
ghost use Rattle.session_language.specs.Lexer.{seen, Begins, one_byte, two_bytes, long_symbol, quoted_at, symbol_or_stray, piece_at, pieces_of, word_len, begins_equals, is_quote, AWord, AQuoted};
ghost use Rattle.session_language.specs.Phrase.{run, Tells, IsShorter};

use crate::token::{Next, Operand, Token, expression_symbol, is_read, is_text_in, operand_in};
use office_map::Plan;
use text_lines::{place_of, short_name};

/// A symbol of the language.
#[derive(Clone, Copy, PartialEq, Eq)]
pub enum Symbol {
    Assign,
    Equal,
    NotEqual,
    Less,
    AtMost,
    Greater,
    AtLeast,
    Plus,
    Minus,
    Times,
    Open,
    Close,
}

/// A run of letters, digits and `_`, a symbol, what stands between two quotation marks, or a byte that begins none of these.
///
/// A byte that begins none is a piece too (`AStray`), as a quotation mark after which there is no other, and no form has one.
/// So the lexer is total, and a faulty line needs no case of its own. Whether a text may be what is quoted, and stand there,
/// the reader of expressions looks at.
#[derive(Clone, Copy)]
pub enum Piece<'a> {
    Word(&'a [u8]),
    Symbol(Symbol),
    Quoted(&'a [u8]),
    Stray,
}

/// What is left of a line.
#[derive(Clone, Copy)]
pub struct Pieces<'a> {
    pub rest: &'a [u8],
}

impl<'a> Pieces<'a> {
    /// The next piece. None at the end of the line.
    #[inline(always)]
    pub fn next(&mut self) -> Option<Piece<'a>>
        ensures gives { MatchOption result
            (pieces_of self.old.rest.now ≡ [])
            (λ p. pieces_of self.old.rest.now ≡ seen p ∷ pieces_of self.new.rest.now) }
        ensures shorter { OnSome result (length self.new.rest.now < length self.old.rest.now) }
        ensures within { length self.new.rest.now ≤ length self.old.rest.now }
    {
        while let Some((first, after)) = self.rest.split_first() {
            match start_of(*first) {
                Start::Blank => self.rest = after,
                Start::Word => {
                    let (word, rest) = self.rest.split_at(1 + word_len(after));
                    self.rest = rest;
                    return Some(Piece::Word(word));
                }
                Start::Sign(symbol) => {
                    self.rest = after;
                    return Some(Piece::Symbol(symbol));
                }
                Start::Quote => {
                    let (piece, rest) = quoted_piece(after);
                    self.rest = rest;
                    return Some(piece);
                }
                Start::Other => return Some(self.other_piece(*first, after)),
            }
        }
        None
    }

    /// Takes the piece that begins with a byte of no word, and with no quotation mark.
    #[inline(always)]
    fn other_piece(&mut self, first: u8, after: &'a [u8]) -> Piece<'a>
        requires no_word { is_name_byte first ≡ false }
        requires no_quote { is_quote first ≡ false }
        ensures gives { (seen result, self.new.rest.now) ≡ piece_at first after.entry.now }
        ensures shorter { length self.new.rest.now ≤ length after.entry.now }
    {
        match self.other_symbol(first, after) {
            Some(symbol) => Piece::Symbol(symbol),
            None => Piece::Stray,
        }
    }

    /// Takes that piece, and tells its symbol, or none of a stray byte. It stands apart, and a symbol takes no room: so the
    /// other pieces are taken without the room of this one.
    #[inline(never)]
    fn other_symbol(&mut self, first: u8, after: &'a [u8]) -> Option<Symbol>
        requires no_word { is_name_byte first ≡ false }
        requires no_quote { is_quote first ≡ false }
        ensures gives { (symbol_or_stray result, self.new.rest.now) ≡ piece_at first after.entry.now }
        ensures shorter { length self.new.rest.now ≤ length after.entry.now }
    {
        if let Some(symbol) = long_symbol(first, after) {
            self.rest = after.split_at(1).1;
            return Some(symbol);
        }
        self.rest = after;
        one_byte(first)
    }

    /// The next token of an expression of a session under a plan, or where it stops.
    pub(crate) fn next_token(&mut self, plan: &Plan) -> Next<'a>
        ensures gives { Tells plan.now.version result (run plan.now.version false (pieces_of self.old.rest.now)) (pieces_of self.new.rest.now) }
        ensures shorter { IsShorter result (length self.old.rest.now) (length self.new.rest.now) }
    {
        match self.next() {
            None => Next::Stop(None),
            Some(Piece::Word(word)) => self.after_word(word),
            Some(Piece::Quoted(bytes)) => {
                if is_text_in(plan.version(), bytes) {
                    Next::Text(bytes)
                } else {
                    Next::Stop(Some(Piece::Quoted(bytes)))
                }
            }
            Some(Piece::Symbol(symbol)) => match expression_symbol(symbol) {
                Some(token) => Next::Token(token),
                None => Next::Stop(Some(Piece::Symbol(symbol))),
            },
            Some(Piece::Stray) => Next::Stop(Some(Piece::Stray)),
        }
    }

    /// The token that a word begins.
    fn after_word(&mut self, word: &'a [u8]) -> Next<'a>
        ensures gives { (v : Version) → Tells v result (run v false (AWord word.entry.now ∷ pieces_of self.old.rest.now)) (pieces_of self.new.rest.now) }
        ensures shorter { length self.new.rest.now ≤ length self.old.rest.now }
    {
        if is_read(word) {
            return self.after_read();
        }
        match operand_in(word) {
            Some(operand) => Next::Token(Token::Leaf(operand)),
            None => Next::Stop(Some(Piece::Word(word))),
        }
    }

    /// The record whose name must come after `read`.
    fn after_read(&mut self) -> Next<'a>
        ensures gives { (v : Version) → Tells v result (run v true (pieces_of self.old.rest.now)) (pieces_of self.new.rest.now) }
        ensures shorter { length self.new.rest.now ≤ length self.old.rest.now }
    {
        let Some(Piece::Word(word)) = self.next() else {
            return Next::Wrong;
        };
        match short_name(word) {
            Some(name) => Next::Token(Token::Leaf(Operand::Record(name))),
            None => Next::Wrong,
        }
    }
}

/// What a byte begins.
#[derive(Clone, Copy)]
enum Start {
    Blank,
    Word,
    /// A symbol of one byte, whatever comes after it.
    Sign(Symbol),
    Quote,
    Other,
}

#[inline(always)]
fn start_of(b: u8) -> Start
    ensures { Begins result b }
{
    match b {
        b' ' | b'\t' => Start::Blank,
        b'0'..=b'9' | b'A'..=b'Z' | b'a'..=b'z' | b'_' => Start::Word,
        b'+' => Start::Sign(Symbol::Plus),
        b'-' => Start::Sign(Symbol::Minus),
        b'*' => Start::Sign(Symbol::Times),
        b'(' => Start::Sign(Symbol::Open),
        b')' => Start::Sign(Symbol::Close),
        b'"' => Start::Quote,
        _ => Start::Other,
    }
}

/// The piece that begins with a quotation mark.
#[inline(always)]
fn quoted_piece<'a>(after: &'a [u8]) -> (Piece<'a>, &'a [u8])
    ensures gives { (seen result.0, result.1.now) ≡ quoted_at after.now }
    ensures shorter { length result.1.now ≤ length after.now }
{
    let len = place_of(after, b'"');
    if len < after.len() {
        let (bytes, rest) = after.split_at(len);
        (Piece::Quoted(bytes), rest.split_at(1).1)
    } else {
        (Piece::Stray, after)
    }
}

fn is_name_byte(b: u8) -> bool
    ensures { result ≡ is_name_byte b }
{
    b.is_ascii_alphanumeric() || b == b'_'
}

fn word_len(bytes: &[u8]) -> usize
    ensures value { result ≡ word_len bytes.now }
    ensures within { result ≤ length bytes.now }
{
    for (i, b) in bytes.iter().enumerate() {
        if !is_name_byte(*b) {
            return i;
        }
    }
    bytes.len()
}

fn long_symbol(first: u8, after: &[u8]) -> Option<Symbol>
    ensures value { result ≡ long_symbol first after.now }
    ensures within { OnSome result (0 < length after.now) }
{
    match after {
        [b'=', ..] => two_bytes(first),
        _ => None,
    }
}

fn one_byte(b: u8) -> Option<Symbol>
    ensures { result ≡ one_byte b }
{
    match b {
        b'=' => Some(Symbol::Assign),
        b'<' => Some(Symbol::Less),
        b'>' => Some(Symbol::Greater),
        b'+' => Some(Symbol::Plus),
        b'-' => Some(Symbol::Minus),
        b'*' => Some(Symbol::Times),
        b'(' => Some(Symbol::Open),
        b')' => Some(Symbol::Close),
        _ => None,
    }
}

fn two_bytes(b: u8) -> Option<Symbol>
    ensures { result ≡ two_bytes b }
{
    match b {
        b'=' => Some(Symbol::Equal),
        b'!' => Some(Symbol::NotEqual),
        b'<' => Some(Symbol::AtMost),
        b'>' => Some(Symbol::AtLeast),
        _ => None,
    }
}
