//! Frames in order.

ghost use Rattle.std.specs.Prelude.{◌≡◌, ◌↔◌, IsTrue};
ghost use Rattle.std.specs.Ordering.{is_eq};
ghost use Rattle.frame_codec.specs.Frame.{Fields};
ghost use Rattle.journal_weave.specs.refinement.Keys.{key_of};

use frame_codec::Frame;

/// What a frame says but for its message, ordered by its number and its count, and then by the rest.
///
/// Of frames that were sent this tells one from another, since a number is of one message. Number and count come first, since
/// they tell most frames apart. The narrow fields stand before the run, so that none is padded.
#[derive(Clone, Copy, PartialEq, Eq, PartialOrd, Ord)]
pub(crate) struct FrameKey {
    number: u64,
    count: u64,
    from: u8,
    to: u8,
    version: u8,
    run: u32,
}

impl FrameKey {
    /// Of this frame.
    pub(crate) fn of(frame: &Frame) -> FrameKey
        ensures { result ≡ key_of frame.now }
    {
        FrameKey {
            number: frame.number(),
            count: frame.count(),
            from: frame.from(),
            to: frame.to(),
            version: frame.version().number(),
            run: frame.run(),
        }
    }
}

/// Two keys compare as equal where they are the same.
pub(crate) fn keys_are_told_apart()
    ensures { (f g : Fields) → IsTrue (is_eq (⟦<FrameKey as Ord>⟧.cmp (key_of f) (key_of g))) ↔ (key_of f ≡ key_of g) }
{}
