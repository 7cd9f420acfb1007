//! One input that stands for several texts.

ghost use Rattle.std.specs.Prelude.{◌≡◌, ◌<◌, ◌-◌, ◌↔◌, ◌++◌, [], ◌∷◌, IfNone, IfSome, IsTrue};
ghost use Rattle.host_files.specs.inputs.Cut.{IsLine, IsCutLine, IsCut};

/// The text before the first line that is exactly `---`, and the text after that line. Where there
/// is no such line, all of it is before, and nothing after.
pub(crate) fn cut(text: &[u8]) -> (&[u8], &[u8])
    ensures { IsCut text.now result.0.now result.1.now }
{
    let mut rest = text;
    while let Some((line, after)) = split_line(rest) {
        if is_cut_line(line) {
            return (&text[..text.len() - rest.len()], after);
        }
        rest = after;
    }
    if rest == b"---".as_slice() {
        return (&text[..text.len() - rest.len()], &[]);
    }
    (text, &[])
}

/// The first line that an LF ends, without the LF, and what stands after it.
fn split_line(text: &[u8]) -> Option<(&[u8], &[u8])>
    ensures line { IfSome result (λ x. IsLine x.0.now) }
    ensures split { IfSome result (λ x. text.now ≡ x.0.now ++ 10 ∷ x.1.now) }
    ensures last { IfNone result (IsLine text.now) }
{
    let at = text.iter().position(|b| *b == b'\n')?;
    Some((&text[..at], &text[at + 1..]))
}

fn is_cut_line(line: &[u8]) -> bool
    ensures { IsTrue result ↔ IsCutLine line.now }
{
    line == b"---".as_slice() || line == b"---\r".as_slice()
}
