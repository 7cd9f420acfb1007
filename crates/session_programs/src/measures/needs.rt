//! The records that a session needs.

ghost use Rattle.std.specs.Prelude.{◌≡◌, ◌≤◌, OnOk, IfSome, MatchOption, insert, length};
ghost use Rattle.session_programs.specs.measures.Needs.{with_record, term_needs, nodes_needs};

use office_map::RecordId;
use session_meaning::{Expression, Nodes, Part};
use std::alloc::AllocError;

/// Adds the records that an expression reads to a list in order, each unless it is there. Where memory runs out, some
/// of them may have been added.
#[tactic(auto, using(crate::proofs::measures_lemmas::PostfixNeeds::nodes_needs_are))]
pub fn add_reads(needs: &mut Vec<RecordId>, e: &Expression) -> Result<(), AllocError>
    ensures { OnOk result (needs.new.items ≡ term_needs e.now needs.old.items) }
{
    add_nodes(needs, &e.nodes())
}

fn add_nodes(needs: &mut Vec<RecordId>, nodes: &Nodes<'_>) -> Result<(), AllocError>
    ensures { OnOk result (needs.new.items ≡ nodes_needs nodes.now needs.old.items) }
{
    for i in 0..nodes.len() {
        if let Part::Read(id) = nodes.part(i) {
            add_record(needs, id)?;
        }
    }
    Ok(())
}

/// Adds a record to a list in order, unless it is there.
pub fn add_record(needs: &mut Vec<RecordId>, id: RecordId) -> Result<(), AllocError>
    ensures { OnOk result (needs.new.items ≡ with_record id needs.old.items) }
{
    if let Some(place) = place_for(needs, id) {
        needs.insert(place, id)?;
    }
    Ok(())
}

/// Where a record belongs in a list in order. None where it is there.
fn place_for(needs: &[RecordId], id: RecordId) -> Option<usize>
    ensures gives { MatchOption result
        (with_record id needs.now ≡ needs.now)
        (λ i. with_record id needs.now ≡ insert needs.now i id) }
    ensures within { IfSome result (λ i. i ≤ length needs.now) }
{
    for i in 0..needs.len() {
        let here = needs[i];
        if id < here {
            return Some(i);
        }
        if id == here {
            return None;
        }
    }
    Some(needs.len())
}
