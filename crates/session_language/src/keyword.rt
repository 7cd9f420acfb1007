//! The words that lines begin with.

ghost use Rattle.std.specs.Prelude.{◌≡◌};
ghost use Rattle.session_language.specs.Form.{keyword_of};

/// What the first word of a line says that the line is.
#[derive(Clone, Copy, PartialEq, Eq)]
pub enum Keyword {
    Session,
    Let,
    Set,
    Give,
    Require,
    If,
    Else,
    Repeat,
    End,
    Other,
}

/// The keyword that a word is, if it is one that a line can begin with.
pub fn keyword_of(word: &[u8]) -> Keyword
    ensures { result ≡ keyword_of word.now }
{
    match word {
        b"session" => Keyword::Session,
        b"let" => Keyword::Let,
        b"set" => Keyword::Set,
        b"give" => Keyword::Give,
        b"require" => Keyword::Require,
        b"if" => Keyword::If,
        b"else" => Keyword::Else,
        b"repeat" => Keyword::Repeat,
        b"end" => Keyword::End,
        _ => Keyword::Other,
    }
}
