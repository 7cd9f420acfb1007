//! What holds of the lines.

ghost use Rattle.session_reports.specs.json.JsonLaws.{JsonLinesTellOutcomes};

/// Of a plan's outcomes no two have one line.
pub fn json_lines_tell_outcomes()
    ensures { JsonLinesTellOutcomes }
{}
