//! Which of two texts is meant.

ghost use Rattle.std.specs.Prelude.{◌≡◌};
ghost use Rattle.session_reports.specs.form.Forms.{form_of};

/// Which text of a report is meant.
#[derive(Clone, Copy, Debug, PartialEq, Eq)]
pub enum Form {
    /// The one for people.
    Plain,
    /// An object of JSON on each line.
    Json,
}

impl Form {
    /// The one that is asked for.
    pub fn of(json: bool) -> Form
        ensures { result ≡ form_of json }
    {
        if json { Form::Json } else { Form::Plain }
    }
}
