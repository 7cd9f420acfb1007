//! The line of a session that is left.

use crate::remarks::left::WaitsFor;
use crate::remarks::way::Way;
use journal_texts::wording::words::{office_name, record_name};
use office_map::{OfficeId, Plan, RecordId};
use site_core::Office;
use std::alloc::{AllocError, Global};

/// The line of the office's session with this ticket is added, which waits for that.
pub(crate) fn add_session(
    alloc: Global,
    text: &mut String,
    office: &Office,
    ways: &[Way],
    ticket: u32,
    waits: &WaitsFor,
) -> Result<(), AllocError> {
    let name = office_name(office.plan(), office.number());
    write!(text, "drink: {name}.{ticket} ")?;
    match waits {
        WaitsFor::Records(records) => {
            text.push_str("waits for ")?;
            add_records(alloc, text, office, ways, records.as_slice())?;
        }
        WaitsFor::Nothing => text.push_str("waits for no neighbour, and would have gone on")?,
        WaitsFor::Session(before) => write!(text, "waits for {name}.{before}")?,
        WaitsFor::Submission => text.push_str("was not submitted yet")?,
    }
    text.push_str("\n")
}

/// The records that it waits for, by the neighbours that they come from.
fn add_records(
    alloc: Global,
    text: &mut String,
    office: &Office,
    ways: &[Way],
    records: &[RecordId],
) -> Result<(), AllocError> {
    let plan = office.plan();
    let mut is_first = true;
    for k in 0..plan.offices() {
        let v = OfficeId::new(k as u8);
        if v == office.number() {
            continue;
        }
        let shared = shared_with(alloc, plan, v, records)?;
        if shared.is_empty() {
            continue;
        }
        if !is_first {
            text.push_str("; and for ")?;
        }
        is_first = false;
        add_from(text, plan, v, shared.as_slice())?;
        if let Some(way) = ways.iter().find(|way| way.to == v) {
            add_silence(text, way.silent)?;
        }
    }
    Ok(())
}

/// Those of the records that are shared with this office.
fn shared_with(
    alloc: Global,
    plan: &Plan,
    v: OfficeId,
    records: &[RecordId],
) -> Result<Vec<RecordId>, AllocError> {
    let mut shared = Vec::new(alloc);
    for r in records {
        if plan.has_end(*r, v) {
            shared.push(*r)?;
        }
    }
    Ok(shared)
}

/// These records, and whom they come from.
fn add_from(
    text: &mut String,
    plan: &Plan,
    v: OfficeId,
    records: &[RecordId],
) -> Result<(), AllocError> {
    for i in 0..records.len() {
        if i > 0 {
            let is_last = records.len() - i == 1;
            text.push_str(if is_last { " and " } else { ", " })?;
        }
        text.push_str(record_name(plan, records[i]))?;
    }
    let neighbour = office_name(plan, v);
    write!(text, " from {neighbour}")
}

/// For how long that one was silent.
fn add_silence(text: &mut String, silent: Option<u64>) -> Result<(), AllocError> {
    let Some(milliseconds) = silent else {
        return text.push_str(", which was never heard");
    };
    match milliseconds / 1000 {
        0 => text.push_str(", which was heard less than a second ago"),
        1 => text.push_str(", silent for 1 second"),
        seconds => write!(text, ", silent for {seconds} seconds"),
    }
}
