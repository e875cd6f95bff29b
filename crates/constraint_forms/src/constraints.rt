//! What constraints with incremental variables stand for.
ghost use Rattle.std.specs.Prelude.{◌≡◌, ℕ, List};
ghost use Rattle.checked_tree.specs.Shape.{shape_of};
ghost use Rattle.comet_meaning.specs.ConstraintForms as forms;
ghost use Rattle.comet_meaning.specs.Program.{level};
ghost use Rattle.run_steps.specs.OfRunState.InTerms.{in_term_seen};
ghost use Rattle.run_steps.specs.OfRunState.Views.{state_seen};
ghost use Rattle.run_steps.specs.Does.{Does};

use crate::calls::function_form;
use crate::joinings::joining_term;
use crate::operators::{combination_term, negation_term, relation_term};
use cbl_base::Place;
use checked_tree::Form;
use run_steps::inside::Defining;
use run_steps::state_of_runs::{InTerm, Outside, State};
use run_values::Stop;
use term_nodes::nodes::{as_in_term, zero};

/// What a constraint with incremental variables at a place stands for, by its form.
#[tactic(auto, unfolding(checked_tree::specs::Shape::shape_of, comet_meaning::specs::ConstraintForms::constraint_form))]
pub fn constraint_form<O: Outside, W: Defining<O>>(
    s: &mut State,
    out: &mut O,
    inside: &W,
    at: Place,
    form: &Form,
) -> Result<InTerm, Stop>
    requires ready { W.is_ready inside.now }
    requires defines { W.can_define inside.now }
    ensures did { Does in_term_seen result (state_seen s.new (O.told out.new))
        (forms.constraint_form (level (W.code inside.now) (W.depth inside.now)) at
        (shape_of form.now) (state_seen s.old (O.told out.old))) }
{
    match form {
        Form::Parentheses(inner) => inside.define(s, out, inner),
        Form::Unary { operand, .. } => as_in_term(negation_term(s, out, inside, at, operand)),
        Form::Chain { first, links } => {
            as_in_term(combination_term(s, out, inside, first, links))
        }
        Form::Compare {
            comparison,
            left,
            right,
        } => as_in_term(relation_term(s, out, inside, at, *comparison, left, right)),
        Form::Aggregate {
            aggregate,
            generators,
            condition,
            body,
        } => as_in_term(joining_term(s, out, inside, at, *aggregate, generators, condition, body)),
        Form::Builtin { builtin, arguments } => {
            function_form(s, out, inside, at, *builtin, arguments)
        }
        Form::Number(_) => Ok(zero()),
        Form::Truth(_) => Ok(zero()),
        Form::Text(_) => Ok(zero()),
        Form::Name(_) => Ok(zero()),
        Form::Range { .. } => Ok(zero()),
        Form::Conditional { .. } => Ok(zero()),
        Form::Index { .. } => Ok(zero()),
        Form::Cell { .. } => Ok(zero()),
        Form::List(_) => Ok(zero()),
        Form::Set(_) => Ok(zero()),
        Form::Call { .. } => Ok(zero()),
        Form::Method { .. } => Ok(zero()),
    }
}
