//! Addresses: four octets with dots, a colon and a port.

ghost use Rattle.std.specs.Prelude.{◌≡◌, ◌∷◌, [], ◌==◌, MatchOption, IfSome, IsTrue};
ghost use Rattle.std.specs.Option.{option_copied};
ghost use Rattle.std.specs.List.{list_all, slice_split};
ghost use Rattle.office_map.specs.Address.{is_socket, is_address, is_address_byte, is_host_and_port, is_host, is_dot, is_colon, is_octet, is_port, is_number_within, has_leading_zero, address_of_word};

use text_lines::{number, place_of};

/// A word as text, if it is an address or `-`.
pub(crate) fn address(word: &[u8]) -> Option<&str>
    ensures word { option_copied result ≡ address_of_word word.now }
    ensures address { IfSome result (λ a. IsTrue (is_address a.now)) }
{
    if is_address(word) {
        str::from_utf8(word).ok()
    } else {
        None
    }
}

fn is_address(word: &[u8]) -> bool
    ensures { result ≡ is_address word.now }
{
    word == "-".as_bytes() || is_socket(word)
}

fn is_socket(word: &[u8]) -> bool
    ensures { result ≡ is_socket word.now }
{
    has_address_bytes(word) && is_host_and_port(word)
}

fn has_address_bytes(word: &[u8]) -> bool
    ensures { result ≡ list_all is_address_byte word.now }
{
    word.iter()
        .all(|b| b.is_ascii_digit() || (*b == b'.' || *b == b':'))
}

fn is_host_and_port(word: &[u8]) -> bool
    ensures { result ≡ is_host_and_port (slice_split is_colon word.now) }
{
    let Some((host, port)) = cut(word, b':') else {
        return false;
    };
    match cut(port, b':') {
        Some(_) => false,
        None => is_host(host) && is_port(port),
    }
}

fn is_host(host: &[u8]) -> bool
    ensures { result ≡ is_host (slice_split is_dot host.now) }
{
    let Some((a, rest)) = cut(host, b'.') else {
        return false;
    };
    let Some((b, rest)) = cut(rest, b'.') else {
        return false;
    };
    let Some((c, d)) = cut(rest, b'.') else {
        return false;
    };
    match cut(d, b'.') {
        Some(_) => false,
        None => are_octets(a, b, c, d),
    }
}

/// What stands before the first of these bytes, and what stands after it.
fn cut(word: &[u8], at: u8) -> Option<(&[u8], &[u8])>
    ensures { MatchOption result
        (slice_split (λ b. b == at) word.now ≡ word.now ∷ [])
        (λ p. slice_split (λ b. b == at) word.now ≡ p.0.now ∷ slice_split (λ b. b == at) p.1.now) }
{
    let place = place_of(word, at);
    if place < word.len() {
        Some((&word[..place], word.split_at(place + 1).1))
    } else {
        None
    }
}

fn are_octets(a: &[u8], b: &[u8], c: &[u8], d: &[u8]) -> bool
    ensures { result ≡ is_host (a.now ∷ b.now ∷ c.now ∷ d.now ∷ []) }
{
    (is_octet(a) && is_octet(b)) && (is_octet(c) && is_octet(d))
}

fn is_octet(word: &[u8]) -> bool
    ensures { result ≡ is_octet word.now }
{
    is_number_within(0, 255, word)
}

fn is_port(word: &[u8]) -> bool
    ensures { result ≡ is_port word.now }
{
    is_number_within(1, 65_535, word)
}

fn is_number_within(low: u64, high: u64, word: &[u8]) -> bool
    ensures { result ≡ is_number_within low high word.now }
{
    if has_leading_zero(word) {
        return false;
    }
    match number(word) {
        Some(n) => low <= n && n <= high,
        None => false,
    }
}

fn has_leading_zero(word: &[u8]) -> bool
    ensures { result ≡ has_leading_zero word.now }
{
    match word {
        [first, _, ..] => *first == b'0',
        _ => false,
    }
}
