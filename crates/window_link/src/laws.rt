//! The law of a link, on two ends and every frame that they made.

ghost use Rattle.window_link.specs.Streams.{StreamsStayLawful};
ghost use Rattle.window_link.specs.Two.{NoFrameIsRefused};

mod event;
mod step;
mod two;

pub use event::{End, LinkEvent, LinkReply, Posted};
pub use two::Two;

/// Over every list of events what each end takes begins what the other sent, what an end knows to be
/// taken was taken, and at most 18 messages wait at it.
pub fn streams_stay_lawful()
    ensures { StreamsStayLawful }
{}

/// Over every list of events an end refuses no frame that the other made, whenever it arrives.
pub fn no_frame_is_refused()
    ensures { NoFrameIsRefused }
{}
