//! Whether two operations are the same.
ghost use Rattle.std.specs.Prelude.{◌≡◌, ◌&&◌, []};
ghost use Rattle.term_model.specs.SameOperations.{first_of, name_of, numbers_of, same_operation, second_of};

use cbl_operations::Op;
use cbl_violations::Fields;

/// The name of an operation, as a number: names differ where the operations do, but for those of one type.
pub fn name_of(op: &Op) -> u8
    ensures { result ≡ name_of op.now }
{
    match op {
        Op::Unary(_) => 0,
        Op::Binary(_) => 1,
        Op::Nary(_) => 2,
        Op::Keyed { op: _, keys: _ } => 3,
        Op::Element { low: _, len: _ } => 4,
        Op::Element2 {
            low1: _,
            len1: _,
            low2: _,
            len2: _,
        } => 5,
        Op::TwoSets(_) => 6,
        Op::Card => 7,
        Op::Member => 8,
        Op::Constraint(_) => 9,
        Op::User { number: _ } => 10,
    }
}

/// Numbers, and no lists.
fn of_numbers<'a>(numbers: [i64; 4]) -> Fields<'a>
    ensures numbers { result.numbers ≡ numbers }
    ensures first { result.first.now ≡ [] }
    ensures second { result.second.now ≡ [] }
{
    Fields {
        numbers,
        first: &[],
        second: &[],
    }
}

/// The numbers and lists that an operation keeps beside its inputs; one of a type of its own first has the
/// number that tells which it is. With its name they tell the operation.
pub fn fields_of(op: &Op) -> Fields<'_>
    ensures numbers { result.numbers ≡ numbers_of op.now }
    ensures first { result.first.now ≡ first_of op.now }
    ensures second { result.second.now ≡ second_of op.now }
{
    match op {
        Op::Unary(op) => of_numbers([i64::from(op.number()), 0, 0, 0]),
        Op::Binary(op) => of_numbers([i64::from(op.number()), 0, 0, 0]),
        Op::Nary(op) => of_numbers([i64::from(op.number()), 0, 0, 0]),
        Op::Keyed { op, keys } => Fields {
            first: keys.as_slice(),
            ..of_numbers([i64::from(op.number()), 0, 0, 0])
        },
        Op::Element { low, len } => of_numbers([*low, i64::from(*len), 0, 0]),
        Op::Element2 {
            low1,
            len1,
            low2,
            len2,
        } => of_numbers([*low1, i64::from(*len1), *low2, i64::from(*len2)]),
        Op::TwoSets(op) => of_numbers([i64::from(op.number()), 0, 0, 0]),
        Op::Card | Op::Member => of_numbers([0; 4]),
        Op::Constraint(constraint) => constraint.fields(),
        Op::User { number } => of_numbers([i64::from(*number), 0, 0, 0]),
    }
}

/// Whether all four hold.
fn all_hold(first: bool, second: bool, third: bool, fourth: bool) -> bool
    ensures { result ≡ (first && second && third && fourth) }
{
    first && second && third && fourth
}

/// Whether two operations are the same: in name, and in what they keep beside their inputs.
#[tactic(auto, unfolding(crate::specs::SameOperations::same_operation))]
pub fn same_operation(a: &Op, b: &Op) -> bool
    ensures { result ≡ same_operation a.now b.now }
{
    let left = fields_of(a);
    let right = fields_of(b);
    let names = name_of(a) == name_of(b);
    let numbers = left.numbers == right.numbers;
    let firsts = left.first == right.first;
    let seconds = left.second == right.second;
    all_hold(names, numbers, firsts, seconds)
}
