//! What expressions stand for in terms.
ghost use Rattle.std.specs.Prelude.{◌≡◌, ℕ, List, pos};
ghost use Rattle.checked_tree.specs.Shape.{shape_of};
ghost use Rattle.comet_meaning.specs.Program.{level};
ghost use Rattle.comet_meaning.specs.TermForms as forms;
ghost use Rattle.run_steps.specs.OfRunState.InTerms.{in_term_seen};
ghost use Rattle.run_steps.specs.OfRunState.Views.{state_seen};
ghost use Rattle.run_steps.specs.Does.{Does};

use crate::aggregates::aggregate_term;
use crate::arrays::{cell_term, index_term, list_term};
use crate::calls::builtin_term;
use crate::operators::{chain_term, compare_term, unary_term};
use cbl_base::Place;
use checked_tree::Form;
use run_steps::inside::Defining;
use run_steps::operands::name_term;
use run_steps::state_of_runs::{InTerm, Outside, State};
use run_values::Stop;
use term_nodes::nodes::{as_in_term, zero};

/// What an expression with incremental variables at a place stands for, by its form.
#[tactic(auto, unfolding(checked_tree::specs::Shape::shape_of, comet_meaning::specs::TermForms::moving_term))]
pub fn moving_term<O: Outside, W: Defining<O>>(
    s: &mut State,
    out: &mut O,
    inside: &W,
    at: Place,
    form: &Form,
) -> Result<InTerm, Stop>
    requires ready { W.is_ready inside.now }
    requires defines { W.can_define inside.now }
    ensures did { Does in_term_seen result (state_seen s.new (O.told out.new))
        (forms.moving_term (level (W.code inside.now) (W.depth inside.now)) at (shape_of form.now)
        (state_seen s.old (O.told out.old))) }
{
    match form {
        Form::Name(slot) => name_term(s, *slot),
        Form::Parentheses(inner) => inside.define(s, out, inner),
        Form::Unary { operator, operand } => {
            as_in_term(unary_term(s, out, inside, at, *operator, operand))
        }
        Form::Chain { first, links } => as_in_term(chain_term(s, out, inside, first, links)),
        Form::Compare {
            comparison,
            left,
            right,
        } => as_in_term(compare_term(s, out, inside, at, *comparison, left, right)),
        Form::Index { array, index } => as_in_term(index_term(s, out, inside, at, array, index)),
        Form::Cell { grid, row, column } => {
            as_in_term(cell_term(s, out, inside, at, grid, row, column))
        }
        Form::List(cells) => list_term(s, out, inside, cells),
        Form::Aggregate {
            aggregate,
            generators,
            condition,
            body,
        } => aggregate_term(s, out, inside, at, *aggregate, generators, condition, body),
        Form::Builtin { builtin, arguments } => {
            as_in_term(builtin_term(s, out, inside, at, *builtin, arguments))
        }
        Form::Number(_) => Ok(zero()),
        Form::Truth(_) => Ok(zero()),
        Form::Text(_) => Ok(zero()),
        Form::Range { .. } => Ok(zero()),
        Form::Conditional { .. } => Ok(zero()),
        Form::Set(_) => Ok(zero()),
        Form::Call { .. } => Ok(zero()),
        Form::Method { .. } => Ok(zero()),
    }
}
