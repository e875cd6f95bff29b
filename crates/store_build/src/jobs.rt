//! The nodes of a layer that are to be reset.
ghost use Rattle.std.specs.Prelude.{◌≡◌, ◌⊎◌, ℕ, ◌<◌, false, [], ◌∷◌, length, slice_index_or, pos, IsSome, IfOk, OnOk, All};
ghost use Rattle.std.specs.List.{Contains};
ghost use Rattle.store_turns.specs.Meaning.{Each, ids_of, inputs_in, is_empty};
ghost use Rattle.store_build.specs.Groups.{IsItem, ids_in};
ghost use Rattle.store_build.specs.Aims.{Aim, IsAim};
ghost use Rattle.store_build.specs.Building.{values_in, NodeTaken, ItemTaken, HasCome, AreTasks, IsSettled, job_rules, job_values};

use crate::groups::Item;
use crate::values::{cell_outcome, values_at};
use cbl_base::{Input, NoMemory, NodeId, NodeRule};
use std::alloc::Global;
use store_turns::{Frame, Outcome};

/// Nodes, each with the values of its inputs, and their ids in the same order.
#[derive(Drop)]
pub(crate) struct Jobs<N: NodeRule> {
    pub(crate) ids: Vec<u32>,
    pub(crate) jobs: Vec<(N, Vec<Input>)>,
}

/// A node is to be reset where all its inputs have values; else it has none.
fn take_node<N: NodeRule>(
    alloc: Global,
    inputs: &[NodeId],
    outcomes: &mut Vec<Option<Outcome>>,
    jobs: &mut Jobs<N>,
    id: u32,
    node: N,
) -> Result<(), NoMemory>
    requires within { id < length outcomes.old.items }
    requires inputs { All (λ i. i.0 < length outcomes.old.items) inputs.now }
    ensures { OnOk result (NodeTaken N.rule (values_in outcomes.old.items (ids_of inputs.now))
        id node outcomes.old.items outcomes.new.items jobs.old jobs.new) }
{
    match values_at(alloc, inputs, outcomes)? {
        None => {
            outcomes[id as usize] = Some(Outcome::Missing);
            Ok(())
        }
        Some(values) => {
            jobs.ids.push(id)?;
            jobs.jobs.push((node, values))?;
            Ok(())
        }
    }
}

/// A cell comes to its outcome, and a node is to be reset where all its inputs have values.
fn take_item<N: NodeRule>(
    alloc: Global,
    inputs: &[NodeId],
    start: &[i64],
    outcomes: &mut Vec<Option<Outcome>>,
    jobs: &mut Jobs<N>,
    item: Item<N>,
) -> Result<(), NoMemory>
    requires within { item.id < length outcomes.old.items }
    requires inputs { All (λ i. i.0 < length outcomes.old.items) inputs.now }
    requires one { item.id < length start.now → is_empty (ids_of inputs.now) ≡ false →
        (i : ℕ) × (ids_of inputs.now ≡ i ∷ []) }
    requires cell { IsSome item.node ⊎ (item.id < length start.now) }
    ensures { OnOk result (ItemTaken N.rule (ids_of inputs.now)
        (slice_index_or start.now item.id
        (pos 0)) item.id item.node outcomes.old.items outcomes.new.items jobs.old jobs.new) }
{
    let id = item.id;
    match item.node {
        Some(node) => take_node(alloc, inputs, outcomes, jobs, id, node),
        None => {
            let outcome = cell_outcome(inputs, start[id as usize], outcomes)?;
            outcomes[id as usize] = Some(outcome);
            Ok(())
        }
    }
}

/// All of a layer: cells come to their outcomes, and nodes whose inputs all have values are to be reset.
pub(crate) fn gather<N: NodeRule>(
    alloc: Global,
    frame: &Frame,
    start: &[i64],
    outcomes: &mut Vec<Option<Outcome>>,
    group: Vec<Item<N>>,
) -> Result<Jobs<N>, NoMemory>
    ghost aim: { Aim }
    requires aim { IsAim aim frame.now start.now }
    requires places { length outcomes.old.items ≡ length frame.now.inputs.items }
    requires items { All (λ i. IsItem N.rule aim.rules frame.now.first i ×
        (i.id < length frame.now.inputs.items) ×
        Each (HasCome aim.outcome outcomes.old.items) (inputs_in frame.now i.id)) group.items }
    ensures places { OnOk result (length outcomes.new.items ≡ length frame.now.inputs.items) }
    ensures kept { OnOk result ((k : ℕ) → HasCome aim.outcome outcomes.old.items k →
        HasCome aim.outcome outcomes.new.items k) }
    ensures tasks { IfOk result (λ jobs.
        AreTasks aim frame.now jobs.ids.items (job_rules N.rule jobs) (job_values jobs)) }
    ensures all { IfOk result (λ jobs. (k : ℕ) → Contains (ids_in group.items) k →
        IsSettled aim frame.now outcomes.new.items k ⊎ Contains jobs.ids.items k) }
{
    let mut jobs = Jobs {
        ids: Vec::new(alloc),
        jobs: Vec::new(alloc),
    };
    for item in group {
        let inputs = frame.inputs[item.id as usize].as_slice();
        take_item(alloc, inputs, start, outcomes, &mut jobs, item)?;
    }
    Ok(jobs)
}
