//! Laws of the definitions that the contracts cite.

ghost use Rattle.session_reports.specs.Report.{RowsAreAdded};

/// Rows of one number more are those rows, and then that number's.
pub fn rows_are_added()
    ensures { RowsAreAdded }
{}
