//! What a node comes to.
ghost use Rattle.std.specs.Prelude.{◌≡◌, not, IfOk};
ghost use Rattle.cbl_base.specs.Inputs.{kind_of};
ghost use Rattle.cbl_base.specs.Sets.{IsRising};
ghost use Rattle.store_turns.specs.Telling.{LeadsTo};
ghost use Rattle.store_turns.specs.Touch.{differs, same_members};
ghost use Rattle.store_turns.specs.declared.outcome.Outcome.TheVariants.{Value};

use cbl_base::{Input, IntSet, NoMemory, NodeValue, RunFault};

/// A value, a fault of its own, or nothing, where one of its inputs has no value.
#[derive(Drop, Debug)]
pub enum Outcome {
    Value(NodeValue),
    Fails(RunFault),
    Missing,
}

/// Whether two values are the same. Where they are of one kind, there is a change from the one to the other.
#[tactic(auto, using(crate::proofs::SetChanges::leads_numbers, crate::proofs::SetChanges::leads_sets))]
pub fn same(old: &NodeValue, new: &NodeValue) -> bool
    ensures answer { result ≡ not (differs (Value new.now) old.now) }
    ensures leads { kind_of new.now ≡ kind_of old.now → LeadsTo old.now new.now }
{
    match (old, new) {
        (Input::Int(a), Input::Int(b)) => *a == *b,
        (Input::Set(a), Input::Set(b)) => same_set(a, b),
        (Input::Int(_), Input::Set(_)) => false,
        (Input::Set(_), Input::Int(_)) => false,
    }
}

/// Whether two sets are the same.
fn same_set(old: &IntSet, new: &IntSet) -> bool
    ensures answer { result ≡ same_members new.now old.now }
    ensures old { IsRising old.now }
    ensures new { IsRising new.now }
{
    old.as_slice() == new.as_slice()
}

/// A copy of a value.
pub fn copy_of(value: &NodeValue) -> Result<NodeValue, NoMemory>
    ensures { IfOk result (λ copy. copy ≡ value.now) }
{
    Ok(value.clone()?)
}
