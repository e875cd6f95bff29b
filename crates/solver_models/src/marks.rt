//! Which variables have a definition.
ghost use Rattle.std.specs.Prelude.{◌≡◌, true, false, Some, slice_set};
ghost use Rattle.std.specs.Bool.{OnFalse, OnTrue};
ghost use Rattle.std.specs.List.{list_any};
ghost use Rattle.cbl_base.specs.Inputs.{number_kind};
ghost use Rattle.solver_models.specs.Kept.{AreMarkedOrNumbers, mark_at};
ghost use Rattle.term_model.specs.Kinds.{kinds_in};

use cbl_base::VarId;
use term_model::{VarDecl, VarKind};

/// Whether a variable has a mark.
pub fn mark_at(marks: &[bool], index: u32) -> bool
    ensures { result ≡ mark_at marks.now index }
{
    marks.get(index as usize).copied().unwrap_or(false)
}

/// Marks a variable.
pub fn mark(marks: &mut Vec<bool>, place: usize)
    ensures { marks.new.items ≡ slice_set marks.old.items place true }
{
    if place < marks.len() {
        marks[place] = true;
    }
}

/// Whether the variable at a place has a mark or is a number.
fn is_marked_or_number(marks: &[bool], vars: &[VarDecl], index: usize) -> bool
    ensures holds { OnTrue result (mark_at marks.now index ≡ false →
        kinds_in vars.now index ≡ Some number_kind) }
    ensures fails { OnFalse result ((mark_at marks.now index ≡ false →
        kinds_in vars.now index ≡ Some number_kind) → ⊥) }
{
    if marks.get(index).copied().unwrap_or(false) {
        return true;
    }
    match vars.get(index) {
        Some(decl) => matches!(decl.kind, VarKind::Number),
        None => false,
    }
}

/// Whether each variable has a mark or is a number.
#[tactic(auto, using(crate::proofs::MarkLaws::below_more))]
pub fn are_marked_or_numbers(marks: &[bool], vars: &[VarDecl]) -> bool
    ensures holds { OnTrue result (AreMarkedOrNumbers marks.now vars.now) }
    ensures fails { OnFalse result (AreMarkedOrNumbers marks.now vars.now → ⊥) }
{
    for index in 0..vars.len() {
        if !is_marked_or_number(marks, vars, index) {
            return false;
        }
    }
    true
}
