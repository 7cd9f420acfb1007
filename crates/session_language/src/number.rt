//! Numbers as texts have them.

ghost use Rattle.std.specs.Prelude.{◌<◌, ◌^◌};

/// A number of a text: 0 to the largest i64.
#[derive(Clone, Copy)]
pub struct Number {
    pub value: u64,
    ghost fits: { value < 2 ^ 63 },
}
