//! What holds of seals.

ghost use Rattle.datagram_seals.specs.frames.SealLaws.{OneFrameIsSealedSo, SealedOrForged};

/// A datagram is the sealed form of one frame at most.
pub fn one_frame_is_sealed_so()
    ensures { OneFrameIsSealedSo }
{}

/// A frame that a datagram is sealed of is one of those that were sealed, or the datagram is a forgery.
pub fn sealed_or_forged()
    ensures { SealedOrForged }
{}
