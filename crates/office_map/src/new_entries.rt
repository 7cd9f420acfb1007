//! What a line of a plan declares.

ghost use Rattle.std.specs.Prelude.{IsTrue};
ghost use Rattle.text_lines.specs.Text.{is_name};
ghost use Rattle.office_map.specs.Address.{is_address};

use bottle_values::Value;
use text_lines::ShortName;

/// An office that a line declares; its address as it stands in the text.
#[derive(Clone, Copy)]
pub(crate) struct NewOffice<'a> {
    pub name: ShortName,
    pub address: &'a str,
    ghost named: { IsTrue (is_name name) },
    ghost addressed: { IsTrue (is_address address.now) },
}

/// A pair that a line declares.
#[derive(Clone, Copy)]
pub(crate) struct NewPair {
    pub a: ShortName,
    pub b: ShortName,
    pub fork_at_first: bool,
}

/// A record that a line declares.
#[derive(Clone, Copy)]
pub(crate) struct NewRecord {
    pub name: ShortName,
    pub a: ShortName,
    pub b: ShortName,
    pub value: Value,
    pub starts_at_first: bool,
    ghost named: { IsTrue (is_name name) },
}
