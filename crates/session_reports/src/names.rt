//! The names of offices and records, for numbers of which it isn't known whether the plan has them.

ghost use Rattle.std.specs.Prelude.{◌≡◌};
ghost use Rattle.session_reports.specs.Names.{office_name, record_name};

use office_map::{OfficeId, Plan, RecordId};

/// An office's name, or nothing where the plan has no such office.
pub fn office_name(plan: &Plan, id: OfficeId) -> &str
    ensures { result.now ≡ office_name plan.now id }
{
    if id.index() < plan.offices() {
        plan.office_name(id)
    } else {
        ""
    }
}

/// A record's name, or nothing where the plan has no such record.
pub fn record_name(plan: &Plan, id: RecordId) -> &str
    ensures { result.now ≡ record_name plan.now id }
{
    if id.index() < plan.records() {
        plan.record_name(id)
    } else {
        ""
    }
}
