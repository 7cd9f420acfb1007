//! Offices that precede one another in a ring.

use crate::ids::OfficeId;
use std::fmt;

/// Offices each of which precedes the next, and the last the first, beginning with the least
/// number; and their names in the same order, since there is no plan to look them up.
#[derive(Debug, Drop, PartialEq, Eq)]
pub struct Ring {
    pub offices: Vec<OfficeId>,
    pub names: Vec<String>,
}

impl fmt::Display for Ring {
    fn fmt<W: fmt::Write>(&self, f: &mut fmt::Formatter<W>) -> fmt::Result {
        let mut separator = "";
        for name in &self.names {
            let name = name.as_str();
            write!(f, "{separator}{name}")?;
            separator = ", ";
        }
        Ok(())
    }
}
