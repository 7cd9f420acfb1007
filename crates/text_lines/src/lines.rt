//! Lines.

ghost use Rattle.std.specs.Prelude.{◌≡◌, ◌∷◌, ◌<◌, length, ◌==◌};
ghost use Rattle.std.specs.Str.Lines.{strip_carriage_return};
ghost use Rattle.std.specs.List.{list_all, position_or_len};
ghost use Rattle.text_lines.specs.Text.{lines, is_plain};

use memchr::memchr;

/// The first line of a text, and the text after it.
pub fn first_line(text: &[u8]) -> (&[u8], &[u8])
    requires { 0 < length text.now }
    ensures cut { lines text.now ≡ result.0.now ∷ lines result.1.now }
    ensures shorter { length result.1.now < length text.now }
{
    let at = place_of(text, b'\n');
    if at < text.len() {
        (without_return(&text[..at]), text.split_at(at + 1).1)
    } else {
        (text, &[])
    }
}

/// The place of the first such byte, or the length where there is none.
pub fn place_of(text: &[u8], byte: u8) -> usize
    ensures { result ≡ position_or_len (λ b. b == byte) text.now }
{
    memchr(byte, text).unwrap_or(text.len())
}

fn without_return(line: &[u8]) -> &[u8]
    ensures { result.now ≡ strip_carriage_return line.now }
{
    if !line.is_empty() && line[line.len() - 1] == b'\r' {
        &line[..line.len() - 1]
    } else {
        line
    }
}

/// Whether a line holds nothing but tabs and the printable ASCII bytes. It goes to the end of each line, since a loop
/// with one way out takes many bytes at once.
pub fn is_plain(line: &[u8]) -> bool
    ensures { result ≡ list_all is_plain line.now }
{
    let mut all = true;
    for b in line {
        all &= is_plain_byte(*b);
    }
    all
}

/// Whether a byte is a tab or printable ASCII.
pub fn is_plain_byte(b: u8) -> bool
    ensures { result ≡ is_plain b }
{
    b == b'\t' || (b' ' <= b && b <= b'~')
}
