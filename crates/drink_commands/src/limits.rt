//! The longest text of each input.

ghost use Rattle.std.specs.Prelude.{◌≡◌};
ghost use Rattle.drink_commands.specs.Limits.{limit_of};

use serial_command::reading::Input;

/// The longest text of a journal, in bytes.
pub(crate) const MOST_JOURNAL: usize = u32::MAX as usize;

/// The longest text that is not refused for its length, in bytes.
pub fn limit(input: Input) -> usize
    ensures { result ≡ limit_of input }
{
    match input {
        Input::Plan => office_map::limits::TEXT_LIMIT,
        Input::Sessions => session_language::limits::TEXT_LIMIT,
        Input::Script => simulation::scripts::MAX_BYTES,
        Input::Journal(_) => MOST_JOURNAL,
    }
}
