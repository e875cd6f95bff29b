//! What nodes, and the inputs of nodes, come to.
ghost use Rattle.std.specs.Prelude.{◌≡◌, ℕ, ◌<◌, ◌++◌, false, [], ◌∷◌, length, None, slice_index_or, option_copied, IfOk, OnOk, All};
ghost use Rattle.std.specs.Option.{option_map};
ghost use Rattle.store_turns.specs.Meaning.{outcome_of, ids_of, is_empty};
ghost use Rattle.store_build.specs.Building.{value_in, values_in, cell_outcome, copied};

use cbl_base::{Input, NoMemory, NodeId, NodeRule, NodeValue};
use std::alloc::Global;
use store_turns::{Outcome, copy_of};

/// What a node comes to.
pub fn value_of<N: NodeRule>(node: &N) -> Result<Outcome, NoMemory>
    requires { N.ready node.now }
    ensures { IfOk result (λ o. o ≡ outcome_of ((N.rule node.now).value (N.held node.now))) }
{
    match node.value() {
        Ok(value) => {
            let copy = value.clone()?;
            Ok(Outcome::Value(copy))
        }
        Err(fault) => Ok(Outcome::Fails(fault)),
    }
}

/// The value that an id came to, where it came to one.
fn value_at(outcomes: &[Option<Outcome>], id: NodeId) -> Option<&NodeValue>
    requires { id.0 < length outcomes.now }
    ensures { option_copied result ≡ value_in (slice_index_or outcomes.now id.0 None) }
{
    match &outcomes[id.0 as usize] {
        None => None,
        Some(Outcome::Value(value)) => Some(value),
        Some(Outcome::Fails(_)) => None,
        Some(Outcome::Missing) => None,
    }
}

/// The values that these ids came to, where all came to one.
pub(crate) fn values_at(
    alloc: Global,
    ids: &[NodeId],
    outcomes: &[Option<Outcome>],
) -> Result<Option<Vec<Input>>, NoMemory>
    requires { All (λ i. i.0 < length outcomes.now) ids.now }
    ensures { IfOk result (λ r. option_map (λ v. v.items) r ≡
        values_in outcomes.now (ids_of ids.now)) }
{
    let mut values = Vec::new(alloc);
    for id in ids {
        match value_at(outcomes, *id) {
            None => return Ok(None),
            Some(value) => push_copy(&mut values, value)?,
        }
    }
    Ok(Some(values))
}

/// A copy of a value behind the others.
fn push_copy(values: &mut Vec<Input>, value: &NodeValue) -> Result<(), NoMemory>
    ensures { OnOk result (values.new.items ≡ values.old.items ++ value.now ∷ []) }
{
    values.push(copy_of(value)?)?;
    Ok(())
}

/// What a cell comes to: a free one to its number, another to the value of the one id in its list.
pub(crate) fn cell_outcome(
    ids: &[NodeId],
    number: i64,
    outcomes: &[Option<Outcome>],
) -> Result<Outcome, NoMemory>
    requires within { All (λ i. i.0 < length outcomes.now) ids.now }
    requires one { is_empty (ids_of ids.now) ≡ false → (i : ℕ) × (ids_of ids.now ≡ i ∷ []) }
    ensures { IfOk result (λ o. o ≡ cell_outcome number (ids_of ids.now)
        (values_in outcomes.now (ids_of ids.now))) }
{
    match ids.first() {
        None => Ok(Outcome::Value(Input::Int(number))),
        Some(id) => copied(value_at(outcomes, *id)),
    }
}

/// A copy of what another id came to.
fn copied(value: Option<&NodeValue>) -> Result<Outcome, NoMemory>
    ensures { IfOk result (λ o. o ≡ copied (option_copied value.entry)) }
{
    match value {
        None => Ok(Outcome::Missing),
        Some(value) => {
            let copy = value.clone()?;
            Ok(Outcome::Value(copy))
        }
    }
}
