//! A state in a box, so that a pass takes and gives an address, however large the state is.

ghost use Rattle.std.specs.Prelude.{◌≡◌, IfOk};

use std::alloc::{AllocError, Global};
use std::marker::Model;

/// A state in a box. Contracts see the state.
///
/// Taking and giving an office is some 48 instructions so, where its bytes took 1,563. No definition speaks of the box,
/// and no call but `open` takes memory.
#[derive(Drop)]
pub struct Boxed<S> {
    pub(crate) at: Box<S>,
}

impl<S> Model for Boxed<S> {
    ghost Value = { S };

    ghost view = { λ b. b.at.value };
}

impl<S> Boxed<S> {
    /// The state, in a box. Where memory runs out, it is dropped.
    pub(crate) fn new(alloc: Global, state: S) -> Result<Boxed<S>, AllocError>
    where
        S: Drop,
        ensures { IfOk result (λ boxed. boxed ≡ state) }
    {
        let at = Box::new(alloc, state)?;
        Ok(Boxed { at })
    }

    pub(crate) fn into_state(self) -> S
        ensures { result ≡ self }
    {
        let Boxed { at } = self;
        Box::into_inner(at)
    }
}
