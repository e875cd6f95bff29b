//! What a node is to answer, by the plain functions, which compute from all inputs.
ghost use Rattle.std.specs.Prelude.{◌≡◌, ℕ, IfOk, IsTrue, length};
ghost use Rattle.cbl_base.specs.Inputs.{kinds_of};
ghost use Rattle.cbl_base.specs.NumberRule.{NumberRule};
ghost use Rattle.cbl_operations.specs.RuleOf.{rule_of};

use crate::answers::{Told, tell, tell_fault};
use crate::subject::Subject;
use cbl_base::{Input, NoMemory, RunFault};
use cbl_operations::Op;
use cbl_violations::{repeat_value, weighted_total_value};
use node_states::takes;
use operation_values::{NoUsers, value_of, violation_at};
use std::alloc::Global;

/// Where there are no such inputs. No node has this fault.
const NO_SUCH_INPUTS: RunFault = RunFault::NotClosed;

/// What a node of these inputs is to answer.
pub(crate) fn told_from_scratch(
    alloc: Global,
    subject: &Subject,
    inputs: &[Input],
) -> Result<Told, NoMemory> {
    match subject {
        Subject::Operation(op) => told_of_operation(alloc, op, inputs),
        Subject::Constant(value) => tell(alloc, value, &[]),
        Subject::Total(members) => tell_number(alloc, total_of(alloc, *members, inputs)?),
        Subject::Repeat => tell_number(alloc, repeat_of(alloc, inputs)?),
        Subject::NoZeros | Subject::Boxed => told_of_zeros(alloc, inputs),
    }
}

fn told_of_operation(alloc: Global, op: &Op, inputs: &[Input]) -> Result<Told, NoMemory> {
    if takes(op, inputs) {
        told_of_taken(alloc, op, inputs)
    } else {
        tell_fault(alloc, NO_SUCH_INPUTS)
    }
}

fn told_of_taken(alloc: Global, op: &Op, inputs: &[Input]) -> Result<Told, NoMemory>
    requires { (users : ℕ → NumberRule) →
        IsTrue ((rule_of users op.now).takes (kinds_of inputs.now)) }
{
    match value_of(alloc, &NoUsers, op, inputs)? {
        Ok(value) => {
            let mut violations = Vec::new(alloc);
            for place in 0..inputs.len() {
                violations.push(violation_at(alloc, &NoUsers, op, inputs, place)?)?;
            }
            tell(alloc, &value, violations.as_slice())
        }
        Err(fault) => tell_fault(alloc, fault),
    }
}

/// The numbers among the inputs.
fn numbers_of(alloc: Global, inputs: &[Input]) -> Result<Vec<i64>, NoMemory> {
    let mut numbers = Vec::new(alloc);
    for input in inputs {
        if let Input::Int(number) = input {
            numbers.push(*number)?;
        }
    }
    Ok(numbers)
}

fn tell_number(alloc: Global, value: Result<i64, RunFault>) -> Result<Told, NoMemory> {
    match value {
        Ok(number) => tell(alloc, &Input::Int(number), &[]),
        Err(fault) => tell_fault(alloc, fault),
    }
}

fn total_of(
    alloc: Global,
    members: u32,
    inputs: &[Input],
) -> Result<Result<i64, RunFault>, NoMemory> {
    let numbers = numbers_of(alloc, inputs)?;
    let members = members as usize;
    if numbers.len() == members + members {
        Ok(weighted_total_value(numbers.as_slice(), members))
    } else {
        Ok(Err(NO_SUCH_INPUTS))
    }
}

fn repeat_of(alloc: Global, inputs: &[Input]) -> Result<Result<i64, RunFault>, NoMemory> {
    let numbers = numbers_of(alloc, inputs)?;
    if numbers.len() == 1 {
        Ok(repeat_value(numbers.as_slice()))
    } else {
        Ok(Err(NO_SUCH_INPUTS))
    }
}

/// How many numbers are 0, and which.
fn told_of_zeros(alloc: Global, inputs: &[Input]) -> Result<Told, NoMemory> {
    let mut count = 0i64;
    let mut violations = Vec::new(alloc);
    for input in inputs {
        let violation = if matches!(input, Input::Int(0)) { 1 } else { 0 };
        count = count.saturating_add(violation);
        violations.push(violation)?;
    }
    tell(alloc, &Input::Int(count), violations.as_slice())
}
