//! Whether an operation takes inputs of such kinds.
ghost use Rattle.std.specs.Prelude.{◌≡◌, ℕ, true, false, ◌&&◌, ◌==◌, length, IsTrue};
ghost use Rattle.std.specs.List.{list_all};
ghost use Rattle.cbl_base.specs.Inputs.{all_numbers, kinds_of};
ghost use Rattle.cbl_base.specs.NumberRule.{NumberRule};
ghost use Rattle.cbl_operations.specs.Operations.Card.{is_one_set};
ghost use Rattle.cbl_operations.specs.Operations.Member.{are_number_and_set};
ghost use Rattle.cbl_operations.specs.RuleOf.{rule_of};
ghost use Rattle.cbl_operations.specs.SetForms.{are_two_sets};
ghost use Rattle.node_kinds.specs.OpNodes.{is_user};
ghost use Rattle.node_states.specs.NumberInput.{is_number};

use cbl_base::Input;
use cbl_operations::Op;

/// Whether all inputs are numbers.
#[tactic(auto, using(crate::proofs::NumberKinds::all_numbers_of))]
pub fn are_numbers(inputs: &[Input]) -> bool
    ensures { result ≡ all_numbers (kinds_of inputs.now) }
{
    is_each_number(inputs)
}

fn is_each_number(inputs: &[Input]) -> bool
    ensures { result ≡ list_all is_number inputs.now }
{
    inputs.iter().all(|input| is_number(input))
}

fn is_number(input: &Input) -> bool
    ensures { result ≡ is_number input.now }
{
    matches!(input, Input::Int(_))
}

/// Whether they are so many numbers.
pub fn are_so_many(inputs: &[Input], count: usize) -> bool
    ensures { result ≡ (all_numbers (kinds_of inputs.now) &&
        (length (kinds_of inputs.now) == count)) }
{
    are_numbers(inputs) && inputs.len() == count
}

fn are_two_sets(inputs: &[Input]) -> bool
    ensures { result ≡ are_two_sets (kinds_of inputs.now) }
{
    matches!(inputs, [Input::Set(_), Input::Set(_)])
}

fn is_one_set(inputs: &[Input]) -> bool
    ensures { result ≡ is_one_set (kinds_of inputs.now) }
{
    matches!(inputs, [Input::Set(_)])
}

fn are_number_and_set(inputs: &[Input]) -> bool
    ensures { result ≡ are_number_and_set (kinds_of inputs.now) }
{
    matches!(inputs, [Input::Int(_), Input::Set(_)])
}

/// Whether an operation that isn't a user's constraint takes these inputs.
pub fn takes(op: &Op, inputs: &[Input]) -> bool
    ensures no_user { result ≡ true → is_user op.now ≡ false }
    ensures exact { (users : ℕ → NumberRule) → is_user op.now ≡ false →
        result ≡ (rule_of users op.now).takes (kinds_of inputs.now) }
    ensures takes { result ≡ true → (users : ℕ → NumberRule) →
        IsTrue ((rule_of users op.now).takes (kinds_of inputs.now)) }
{
    match op {
        Op::Unary(_) => are_so_many(inputs, 1),
        Op::Binary(_) => are_so_many(inputs, 2),
        Op::Nary(op) => are_numbers(inputs) && op.takes(inputs.len()),
        Op::Keyed { keys, .. } => are_so_many(inputs, keys.len()),
        Op::Element { len, .. } => are_so_many(inputs, *len as usize + 1),
        Op::Element2 { len1, len2, .. } => {
            are_so_many(inputs, *len1 as usize * *len2 as usize + 2)
        }
        Op::TwoSets(_) => are_two_sets(inputs),
        Op::Card => is_one_set(inputs),
        Op::Member => are_number_and_set(inputs),
        Op::Constraint(constraint) => are_numbers(inputs) && constraint.takes(inputs.len()),
        Op::User { .. } => false,
    }
}
