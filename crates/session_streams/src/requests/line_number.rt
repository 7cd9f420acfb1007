//! The numbers of lines.

ghost use Rattle.std.specs.Prelude.{◌≡◌, ◌≤◌, ◌^◌};
ghost use Rattle.session_streams.specs.requests.Bytes.{next_number};

/// Lines are numbered up to this.
const LAST: u64 = 1 << 62;

/// The number of a line, from 1. Past the last number lines have that.
#[derive(Clone, Copy)]
pub(crate) struct LineNumber {
    value: u64,
    ghost low: { value ≤ 2 ^ 62 },
}

impl LineNumber {
    /// That of the first line.
    pub(crate) fn first() -> LineNumber
        ensures { result.value ≡ 1 }
    {
        LineNumber { value: 1 }
    }

    /// As a number.
    pub(crate) fn value(self) -> u64
        ensures value { result ≡ self.value }
        ensures low { result ≤ 2 ^ 62 }
    {
        self.value
    }

    /// That of the next line.
    pub(crate) fn next(self) -> LineNumber
        ensures { result.value ≡ next_number self.value }
    {
        if self.value < LAST {
            return LineNumber {
                value: self.value + 1,
            };
        }
        self
    }
}
