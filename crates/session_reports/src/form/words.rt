//! What stands around words and numbers that are told.

ghost use Rattle.std.specs.Prelude.{◌≡◌, ◌++◌, OnOk};
ghost use Rattle.std.specs.String.{string_bytes};
ghost use Rattle.session_reports.specs.form.Forms.{closing_as, count_as, opening_as, words_as};

use crate::form::forms::Form;
use std::alloc::AllocError;
use std::fmt::Write;

/// What comes before the words is added.
pub fn add_opening(text: &mut String, form: Form) -> Result<(), AllocError>
    ensures { OnOk result (string_bytes text.new ≡ string_bytes text.old ++ opening_as form) }
{
    match form {
        Form::Plain => Ok(()),
        Form::Json => text.push_str("{\"reply\":\""),
    }
}

/// What comes after them.
pub fn add_closing(text: &mut String, form: Form) -> Result<(), AllocError>
    ensures { OnOk result (string_bytes text.new ≡ string_bytes text.old ++ closing_as form) }
{
    match form {
        Form::Plain => text.push_str("\n"),
        Form::Json => text.push_str("\"}\n"),
    }
}

/// The line of a number under its name is added. Where memory runs out, a part of it may be.
pub fn add_count(text: &mut String, form: Form, name: &str, count: u64) -> Result<(), AllocError>
    ensures { OnOk result (string_bytes text.new ≡ string_bytes text.old ++ count_as form name.now count) }
{
    match form {
        Form::Plain => writeln!(text, "{name} {count}"),
        Form::Json => writeln!(text, "{{\"{name}\":{count}}}"),
    }
}

/// The line of words under their name is added. Where memory runs out, a part of it may be.
pub fn add_words(text: &mut String, form: Form, name: &str, words: &str) -> Result<(), AllocError>
    ensures { OnOk result (string_bytes text.new ≡ string_bytes text.old ++ words_as form name.now words.now) }
{
    match form {
        Form::Plain => writeln!(text, "{name} {words}"),
        Form::Json => writeln!(text, "{{\"{name}\":\"{words}\"}}"),
    }
}
