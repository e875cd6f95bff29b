//! The value of an operation of a list of inputs.
ghost use Rattle.std.specs.Prelude.{◌≡◌, ◌<◌, Some, IsTrue, IfOk, length, pos, slice_get, slice_index_or};
ghost use Rattle.cbl_base.specs.Inputs.{kinds_of, numbers_of, number_of, number_kind, set_kind};
ghost use Rattle.cbl_base.specs.NumberRule.{as_value};
ghost use Rattle.cbl_base.specs.declared.input.Input.TheVariants.{Int, Set};
ghost use Rattle.cbl_operations.specs.Binary.{rule_of_binary};
ghost use Rattle.cbl_operations.specs.RuleOf.{rule_of};
ghost use Rattle.cbl_operations.specs.SetForms.{members_at};
ghost use Rattle.cbl_operations.specs.Unary.{rule_of_unary};
ghost use Rattle.term_model.specs.Users.{user_rules};

use crate::users::UserValues;
use cbl_base::{Input, IntSet, NoMemory, RunFault};
use cbl_operations as operations;
use cbl_operations::{BinaryOp, Op, UnaryOp};
use std::alloc::Global;

/// The numbers of the inputs, 0 for a set.
pub fn numbers_of(alloc: Global, inputs: &[Input]) -> Result<Vec<i64>, NoMemory>
    ensures { IfOk result (λ v. v.items ≡ numbers_of inputs.now) }
{
    Ok(inputs.iter().map(number_of).collect(alloc)?)
}

/// The number of an input, 0 for a set.
pub fn number_of(input: &Input) -> i64
    ensures { result ≡ number_of input.now }
{
    match input {
        Input::Int(x) => *x,
        Input::Set(_) => 0,
    }
}

/// The number at a place, 0 for a set.
fn number_at(inputs: &[Input], place: usize) -> i64
    requires { place < length inputs.now }
    ensures { result ≡ number_of (slice_index_or inputs.now place (Int (pos 0))) }
{
    number_of(&inputs[place])
}

/// The set at a place.
fn set_at(inputs: &[Input], place: usize) -> &IntSet
    requires { slice_get (kinds_of inputs.now) place ≡ Some set_kind }
    ensures { result.now ≡ members_at inputs.now place }
{
    match &inputs[place] {
        Input::Set(set) => set,
        Input::Int(_) => unreachable!(),
    }
}

/// A number, or the fault, as the value of an operation.
fn as_value(value: Result<i64, RunFault>) -> Result<Input, RunFault>
    ensures { result ≡ as_value value }
{
    value.map(Input::Int)
}

/// The value of an operation on one number.
fn of_one(op: UnaryOp, numbers: &[i64]) -> Result<i64, RunFault>
    requires { IsTrue ((rule_of_unary op).takes (length numbers.now)) }
    ensures { result ≡ (rule_of_unary op).value numbers.now }
{
    op.value(numbers[0])
}

/// The value of an operation on two numbers.
fn of_two(op: BinaryOp, numbers: &[i64]) -> Result<i64, RunFault>
    requires { IsTrue ((rule_of_binary op).takes (length numbers.now)) }
    ensures { result ≡ (rule_of_binary op).value numbers.now }
{
    op.value(numbers[0], numbers[1])
}

/// The value of an operation that takes these inputs: the value of its rule.
pub fn value_of<U: UserValues>(
    alloc: Global,
    users: &U,
    op: &Op,
    inputs: &[Input],
) -> Result<Result<Input, RunFault>, NoMemory>
    requires { IsTrue ((rule_of (user_rules (U.viol_of users.now)
        (U.viol_at users.now)) op.now).takes (kinds_of inputs.now)) }
    ensures { IfOk result (λ v. v ≡ (rule_of
        (user_rules (U.viol_of users.now) (U.viol_at users.now)) op.now).value inputs.now) }
{
    let xs = numbers_of(alloc, inputs)?;
    let number = match op {
        Op::Keyed { op, keys } => {
            let set = op.value(alloc, keys.as_slice(), &xs)?;
            return Ok(Ok(Input::Set(set)));
        }
        Op::TwoSets(op) => {
            let set = op.value(alloc, set_at(inputs, 0), set_at(inputs, 1))?;
            return Ok(Ok(Input::Set(set)));
        }
        Op::Card => Ok(operations::card_value(set_at(inputs, 0))),
        Op::Member => Ok(operations::member_value(number_at(inputs, 0), set_at(inputs, 1))),
        Op::Unary(op) => of_one(*op, &xs),
        Op::Binary(op) => of_two(*op, &xs),
        Op::Nary(op) => op.value(&xs),
        Op::Element { low, len } => operations::element_value(*low, *len, &xs),
        Op::Element2 {
            low1,
            len1,
            low2,
            len2,
        } => { operations::element2_value(*low1, *len1, *low2, *len2, &xs) }
        Op::Constraint(constraint) => constraint.violations(&xs),
        Op::User { number } => Ok(users.value(*number, &xs)?),
    };
    Ok(as_value(number))
}
