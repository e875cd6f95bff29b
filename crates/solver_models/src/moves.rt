//! Moves of variables.
ghost use Rattle.std.specs.Prelude.{◌≡◌, [], ◌∷◌};
ghost use Rattle.std.specs.List.{list_all, list_any};
ghost use Rattle.solver_models.specs.Ids.{is_given};
ghost use Rattle.solver_models.specs.Kept.{mark_at};
ghost use Rattle.solver_models.specs.Moves.{after_moves};

use crate::ids::is_given;
use crate::marks::mark_at;
use cbl_base::VarId;

/// Whether all moves are of the first so many variables of the solver with a number.
pub fn are_moves_given(number: u32, count: usize, moves: &[(VarId, i64)]) -> bool
    ensures { result ≡ list_all (λ m. is_given number count m.0) moves.now }
{
    moves.iter().all(|m| is_given(number, count, m.0))
}

/// Whether a move is of a variable with a mark.
pub fn any_marked(marks: &[bool], moves: &[(VarId, i64)]) -> bool
    ensures { result ≡ list_any (λ m. mark_at marks.now m.0.index) moves.now }
{
    moves.iter().any(|m| mark_at(marks, m.0.index))
}

/// Writes the number of a move.
fn write_move(assignment: &mut Vec<i64>, m: (VarId, i64))
    ensures { assignment.new.items ≡ after_moves assignment.old.items (m ∷ []) }
{
    let index = m.0.index as usize;
    if index < assignment.len() {
        assignment[index] = m.1;
    }
}

/// Writes the numbers of all moves.
pub fn write_moves(assignment: &mut Vec<i64>, moves: &[(VarId, i64)])
    ensures { assignment.new.items ≡ after_moves assignment.old.items moves.now }
{
    for turn in 0..moves.len() {
        write_move(assignment, moves[turn]);
    }
}
