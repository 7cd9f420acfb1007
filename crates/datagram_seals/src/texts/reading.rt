//! The secrets of an office, from a text.

ghost use Rattle.std.specs.Prelude.{◌≡◌, ◌<◌, ◌≤◌, ℕ, IfOk, find, get_or, is_none, is_some, length, map, None};
ghost use Rattle.std.specs.List.{range_with_len};
ghost use Rattle.bottle_values.specs.Memory.{UnlessMemory};
ghost use Rattle.office_map.specs.PlanValue.{are_neighbours};
ghost use Rattle.datagram_seals.specs.texts.SecretText.{at_line, keys_of, of_office, read_line, secret_between, secrets_of, share};
ghost use Rattle.datagram_seals.specs.texts.refinement.Reader.{Fails};

use crate::frames::Secret;
use crate::texts::fault::{SecretFault, SecretRefusal, SecretRule, refused};
use crate::texts::line::{SecretLine, line_in};
use crate::texts::shared::{SharedKey, has_key, secret_between, share_nothing};
use office_map::{OfficeId, Plan};
use std::alloc::{AllocError, Global};
use text_lines::{Statements, is_plain};

/// What this office shares with each office of the plan, by their numbers: a secret with each neighbour, and nothing with the others.
/// Or the first fault of the text. `Memory` may stand in place of any other answer.
pub fn read(
    alloc: Global,
    plan: &Plan,
    office: OfficeId,
    text: &[u8],
) -> Result<Vec<Option<Secret>>, SecretFault>
    requires { office < length plan.now.offices }
    ensures meaning { UnlessMemory (λ v. v.items) Fails result (secrets_of plan.now office text.now) }
    ensures neighbours { IfOk result (λ v. (other : ℕ) → is_some (get_or v.items other None) ≡ are_neighbours plan.now office other) }
{
    // The plan is consistent: its offices have no neighbours but offices of it.
    let _ = plan.offices();
    let keys = keys_of(alloc, plan, text)?;
    of_office(alloc, plan, office, &keys)
}

/// The keys that the lines of a text share. The first faulty line is refused.
fn keys_of(alloc: Global, plan: &Plan, text: &[u8]) -> Result<Vec<SharedKey>, SecretFault>
    ensures { UnlessMemory (λ v. v.items) Fails result (keys_of plan.now text.now) }
{
    let mut keys = Vec::new(alloc);
    let mut left = Statements {
        rest: text,
        number: 1,
    };
    while let Some((number, line)) = left.next() {
        read_line(alloc, plan, &mut keys, number, line)?;
    }
    Ok(keys)
}

#[tactic(auto, unfolding(crate::specs::texts::SecretText::read_line))]
fn read_line(
    alloc: Global,
    plan: &Plan,
    keys: &mut Vec<SharedKey>,
    number: u64,
    line: &[u8],
) -> Result<(), SecretFault>
    ensures { UnlessMemory (λ _. keys.new.items) Fails result (read_line plan.now keys.old.items (number, line.now)) }
{
    if !is_plain(line) {
        return Err(refused(SecretRule::Secret, number));
    }
    match line_in(alloc, line)? {
        Some(said) => share(plan, keys, number, said),
        None => Err(refused(SecretRule::Secret, number)),
    }
}

/// The key of a line is shared by the two offices that it names.
fn share(
    plan: &Plan,
    keys: &mut Vec<SharedKey>,
    number: u64,
    said: SecretLine,
) -> Result<(), SecretFault>
    ensures { UnlessMemory (λ _. keys.new.items) Fails result (at_line number (share plan.now keys.old.items said)) }
{
    let Some(first) = plan.office_of_name(&said.a) else {
        return Err(refused(SecretRule::NotNeighbours, number));
    };
    let Some(second) = plan.office_of_name(&said.b) else {
        return Err(refused(SecretRule::NotNeighbours, number));
    };
    if !plan.are_neighbours(first, second) {
        return Err(refused(SecretRule::NotNeighbours, number));
    }
    if has_key(keys, first, second) {
        return Err(refused(SecretRule::SecretTwice, number));
    }
    keys.push(SharedKey {
        first,
        second,
        key: said.key,
    })?;
    Ok(())
}

/// What an office shares with each office, unless it shares nothing with a neighbour.
fn of_office(
    alloc: Global,
    plan: &Plan,
    office: OfficeId,
    keys: &[SharedKey],
) -> Result<Vec<Option<Secret>>, SecretFault>
    requires { office < length plan.now.offices }
    ensures { UnlessMemory (λ v. v.items) Fails result (of_office plan.now office keys.now) }
{
    if let Some(neighbour) = first_without(plan.neighbours(office), office, keys) {
        return Err(SecretFault::Refused(SecretRefusal::NoSecret(neighbour)));
    }
    Ok(secrets_with(alloc, plan.offices(), office, keys)?)
}

/// The first of these offices with which this one shares nothing.
fn first_without(others: &[OfficeId], office: OfficeId, keys: &[SharedKey]) -> Option<OfficeId>
    ensures { result ≡ find (λ other. is_none (secret_between keys.now office other)) others.now }
{
    for other in others {
        if share_nothing(keys, office, *other) {
            return Some(*other);
        }
    }
    None
}

/// What an office shares with each of so many.
fn secrets_with(
    alloc: Global,
    count: usize,
    office: OfficeId,
    keys: &[SharedKey],
) -> Result<Vec<Option<Secret>>, AllocError>
    requires { count ≤ 16 }
    ensures { IfOk result (λ v. v.items ≡ map (secret_between keys.now office) (range_with_len 0 count)) }
{
    let mut secrets = Vec::new(alloc);
    for number in 0..count {
        secrets.push(secret_between(keys, office, OfficeId::new(number as u8)))?;
    }
    Ok(secrets)
}
