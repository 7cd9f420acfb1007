//! Two linked ends.

ghost use Rattle.std.specs.Prelude.{◌≡◌, [], IfOk, OnErr, IsTrue};
ghost use Rattle.window_link.specs.Two.{at, LedTo, HasLawfulStreams, Happens, makes_frame};

use crate::laws::event::{End, LinkEvent, LinkReply, Posted};
use crate::laws::step::step;
use crate::link::Link;
use bottle_values::Version;
use std::alloc::{AllocError, Global};
use std::marker::Model;

/// Both ends of a link, and every frame that they made. A frame arrives at any time, any number of
/// times or never.
///
/// The links keep no taken messages, so their contracts alone can't say that these begin what was sent. The invariant
/// says that some list of events led here, and each event adds itself to every such list.
#[derive(Drop)]
pub struct Two {
    left: Link,
    right: Link,
    frames: Vec<Posted>,
}

impl Model for Two {
    ghost use Rattle.window_link.specs.Two.{Ends, HasLawfulStreams};
    ghost use Rattle.window_link.specs.refinement.TwoLinksStep.{ends};

    ghost Value = { Ends };

    ghost view = { λ t. ends t.left t.right t.frames.items };

    ghost invariant = { λ t. HasLawfulStreams (ends t.left t.right t.frames.items) };
}

impl Two {
    /// The run's number, the numbers of the offices at the two ends, and the version of their frames.
    pub fn open(alloc: Global, run: u32, left: u8, right: u8, version: Version) -> Two
        ensures { LedTo (record { run = run; left = left; right = right; version = version }) [] result }
    {
        Two {
            left: Link::open(run, left, right, version),
            right: Link::open(run, right, left, version),
            frames: Vec::new(alloc),
        }
    }

    /// What an end keeps. What goes each way is lawful, whatever events came.
    pub fn link(&self, end: End) -> &Link
        ensures link { result.now ≡ at self.now end }
        ensures streams { HasLawfulStreams self.now }
    {
        match end {
            End::Left => &self.left,
            End::Right => &self.right,
        }
    }

    /// Every frame that was made, in order.
    pub fn frames(&self) -> &[Posted]
        ensures { result.now ≡ self.now.frames }
    {
        &self.frames
    }

    /// One event.
    ///
    /// # Errors
    /// Where a growth for a frame was refused. Both ends and the frames are as they were.
    pub fn apply(&mut self, event: &LinkEvent) -> Result<LinkReply, AllocError>
        ensures happens { IfOk result (λ reply. Happens self.old event.now reply self.new) }
        ensures unchanged { OnErr result (self.new ≡ self.old) }
        ensures memory { OnErr result (IsTrue (makes_frame event.now)) }
    {
        step(&mut self.left, &mut self.right, &mut self.frames, event)
    }
}
