//! The variables without a mark, which are free.
ghost use Rattle.std.specs.Prelude.{◌≡◌, ◌<◌, ◌^◌, not, count_by, length, map, slice_get, zip, IfOk, OnOk};
ghost use Rattle.solver_models.specs.FreeVariables.{numbers_at};
ghost use Rattle.solver_models.specs.Unmarked.{id_in, unmarked, with_move, with_number};

use crate::marks::mark_at;
use cbl_base::{NoMemory, VarId};
use std::alloc::Global;

/// How many variables have no mark.
pub fn free_count(marks: &[bool]) -> usize
    ensures { result ≡ count_by not marks.now }
{
    marks.iter().filter(|mark| !**mark).count()
}

/// Puts the number at a place, where there is one, behind the others.
fn push_number(numbers: &mut Vec<i64>, assignment: &[i64], index: u32) -> Result<(), NoMemory>
    ensures { OnOk result (numbers.new.items ≡
        with_number numbers.old.items (slice_get assignment.now index)) }
{
    if let Some(number) = assignment.get(index as usize) {
        numbers.push(*number)?;
    }
    Ok(())
}

/// The numbers of the variables without a mark.
pub fn free_numbers(alloc: Global, marks: &[bool], assignment: &[i64]) -> Result<Vec<i64>, NoMemory>
    requires { length marks.now < 2 ^ 32 }
    ensures { IfOk result (λ numbers. numbers.items ≡
        numbers_at assignment.now (unmarked marks.now)) }
{
    let mut numbers = Vec::new(alloc);
    for index in 0..marks.len() as u32 {
        if mark_at(marks, index) {
            continue;
        }
        push_number(&mut numbers, assignment, index)?;
    }
    Ok(numbers)
}

/// Puts a move behind the others, where there is a value for it.
fn push_move(moves: &mut Vec<(VarId, i64)>, x: VarId, values: &[i64]) -> Result<(), NoMemory>
    ensures { OnOk result (moves.new.items ≡
        with_move moves.old.items x (slice_get values.now (length moves.old.items))) }
{
    if let Some(value) = values.get(moves.len()) {
        moves.push((x, *value))?;
    }
    Ok(())
}

/// The moves that give the variables without a mark these values, one after another.
pub fn free_moves(
    alloc: Global,
    solver: u32,
    marks: &[bool],
    values: &[i64],
) -> Result<Vec<(VarId, i64)>, NoMemory>
    requires { length marks.now < 2 ^ 32 }
    ensures { IfOk result (λ moves. moves.items ≡
        zip (map (id_in solver) (unmarked marks.now)) values.now) }
{
    let mut moves = Vec::new(alloc);
    for index in 0..marks.len() as u32 {
        if mark_at(marks, index) {
            continue;
        }
        push_move(&mut moves, VarId { solver, index }, values)?;
    }
    Ok(moves)
}
