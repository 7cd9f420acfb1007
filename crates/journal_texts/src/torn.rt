//! A text that was torn.

ghost use Rattle.journal_texts.specs.Growing.{IsCutAfterLines};

/// The text up to its last LF, with it, and what stands after: a line that was torn, or nothing.
///
/// A lost append leaves a beginning of its bytes, and nothing else: so what stands after the last LF is dropped at a
/// start, and a faulty line before it isn't.
pub fn whole_lines(text: &[u8]) -> (&[u8], &[u8])
    ensures { IsCutAfterLines text.now result.0.now result.1.now }
{
    let mut end = text.len();
    while end > 0 && text[end - 1] != b'\n' {
        end -= 1;
    }
    text.split_at(end)
}
