//! Which variables depend on a variable, itself among them, also through definitions.
ghost use Rattle.std.specs.Prelude.{◌≡◌, ◌<◌, ◌||◌, ℕ, IfOk, Some, length, map, nat_eq, slice_get};
ghost use Rattle.std.specs.List.{list_any};
ghost use Rattle.term_model.specs.Definitions.{IsAcyclic, definition_of, named_by};
ghost use Rattle.model_values.specs.Dependence.{AreMarks, mark_step, marked};
ghost use Rattle.model_values.specs.Settling.{AreTables};
ghost use Rattle.term_model.specs.Wellformed.{IsWellFormed};

use cbl_base::NoMemory;
use model_values::computing::UserValues;
use model_values::dependence::is_one_marked;
use model_values::settling::Tables;
use term_model::order_of;

/// Whether a variable is `var`, or names one that has a mark.
#[tactic(auto, using(model_values::proofs::VarLaws::names_of_var, model_values::proofs::VarLaws::lists_within))]
fn next_mark<U: UserValues>(tables: &Tables<'_, U>, marks: &[bool], var: u32, index: usize) -> bool
    requires tables { AreTables tables.now.model.now tables.now.definitions.items
        (map (λ names. names.items) tables.now.named.items) }
    requires within { index < length tables.now.model.now.vars.items }
    ensures { result ≡ mark_step tables.now.model.now marks.now var index }
{
    index == var as usize || is_one_marked(marks, &tables.named[index])
}

/// Marks in an order in which each variable comes after those that it names. As the order is a hint, so are
/// they.
fn guessed_marks<U: UserValues>(tables: &Tables<'_, U>, var: u32) -> Result<Vec<bool>, NoMemory>
    requires tables { AreTables tables.now.model.now tables.now.definitions.items
        (map (λ names. names.items) tables.now.named.items) }
{
    let count = tables.model.vars.len();
    let mut marks = vec![in tables.alloc; false; count]?;
    for index in order_of(tables.alloc, &tables.named)? {
        if index < count {
            let mark = next_mark(tables, &marks, var, index);
            if let Some(place) = marks.get_mut(index) {
                *place = mark;
            }
        }
    }
    Ok(marks)
}

/// A mark for each variable that is `var` or names one that has a mark.
fn next_marks<U: UserValues>(
    tables: &Tables<'_, U>,
    marks: &[bool],
    var: u32,
) -> Result<Vec<bool>, NoMemory>
    requires tables { AreTables tables.now.model.now tables.now.definitions.items
        (map (λ names. names.items) tables.now.named.items) }
    ensures each { IfOk result (λ v. (i : ℕ) → i < length tables.now.model.now.vars.items →
        slice_get v.items i ≡ Some (mark_step tables.now.model.now marks.now var i)) }
{
    let mut next = Vec::new(tables.alloc);
    for index in 0..tables.model.vars.len() {
        next.push(next_mark(tables, marks, var, index))?;
    }
    Ok(next)
}

/// A mark for each variable that depends on `var`. The guess is right where the hint is an order, so that one
/// round shows it.
#[tactic(auto, using(model_values::proofs::MarkLaws::mark_more, model_values::proofs::MarkLaws::marks_fixed, model_values::proofs::MarkLaws::marks_through))]
pub(crate) fn marks_of<U: UserValues>(
    tables: &Tables<'_, U>,
    var: u32,
) -> Result<Vec<bool>, NoMemory>
    requires well_formed { IsWellFormed tables.now.model.now }
    requires acyclic { IsAcyclic tables.now.model.now }
    requires tables { AreTables tables.now.model.now tables.now.definitions.items
        (map (λ names. names.items) tables.now.named.items) }
    ensures { IfOk result (λ v. AreMarks tables.now.model.now var v.items) }
{
    let mut marks = guessed_marks(tables, var)?;
    for _round in 0..tables.model.vars.len() {
        let next = next_marks(tables, &marks, var)?;
        if next == marks {
            return Ok(marks);
        }
        marks = next;
    }
    Ok(marks)
}
