//! What is known of an expression.

ghost use Rattle.std.specs.Prelude.{◌≡◌, ◌&&◌, max};

/// What is known of an expression besides its nodes: how deep it is, or 33 past 32, and whether
/// its variables and its records are known.
#[derive(Clone, Copy)]
pub struct Summary {
    pub depth: u8,
    pub knows_variables: bool,
    pub knows_records: bool,
}

impl Summary {
    /// What is known of two expressions together.
    pub fn and(self, other: Summary) -> Summary
        ensures { result ≡ record {
          depth = max self.depth other.depth;
          knows_variables = self.knows_variables && other.knows_variables;
          knows_records = self.knows_records && other.knows_records;
        } }
    {
        Summary {
            depth: self.depth.max(other.depth),
            knows_variables: self.knows_variables && other.knows_variables,
            knows_records: self.knows_records && other.knows_records,
        }
    }
}
