//! Calls of the constraint functions, with any number of arguments.
ghost use Rattle.std.specs.Prelude.{◌≡◌, ℕ, List};
ghost use Rattle.checked_tree.specs.declared.expressions.Builtin.TheVariants.{User};
ghost use Rattle.comet_meaning.specs.ConstraintForms as forms;
ghost use Rattle.comet_meaning.specs.Program.{level};
ghost use Rattle.constraint_forms.specs.Steps.{of_four, of_one, of_three, of_two};
ghost use Rattle.run_steps.specs.OfRunState.InTerms.{in_term_seen};
ghost use Rattle.run_steps.specs.OfRunState.Views.{state_seen};
ghost use Rattle.run_steps.specs.Does.{Does};
ghost use Rattle.run_steps.specs.Views.{row};

use crate::functions::{
    all_different_term, bounded_term, knapsack_term, multi_knapsack_term, sequence_term,
    user_places,
};
use cbl_base::Place;
use checked_tree::{Builtin, Typed};
use run_steps::inside::Defining;
use run_steps::solvers_of_runs::Built;
use run_steps::state_of_runs::{InTerm, Outside, State};
use run_values::Stop;
use term_nodes::nodes::as_in_term;

/// A call of a function in a constraint: of a user's constraint the places.
pub(crate) fn function_form<O: Outside, W: Defining<O>>(
    s: &mut State,
    out: &mut O,
    inside: &W,
    at: Place,
    function: Builtin,
    arguments: &[Typed],
) -> Result<InTerm, Stop>
    requires ready { W.is_ready inside.now }
    requires defines { W.can_define inside.now }
    ensures did { Does in_term_seen result (state_seen s.new (O.told out.new))
        (forms.function_form (level (W.code inside.now) (W.depth inside.now)) at function
        (row arguments.now) (state_seen s.old (O.told out.old))) }
{
    match function {
        Builtin::User => user_call(s, out, inside, at, arguments),
        _ => as_in_term(constraint_call(s, out, inside, at, function, arguments)),
    }
}

/// A call of `user`.
fn user_call<O: Outside, W: Defining<O>>(
    s: &mut State,
    out: &mut O,
    inside: &W,
    at: Place,
    arguments: &[Typed],
) -> Result<InTerm, Stop>
    requires ready { W.is_ready inside.now }
    requires defines { W.can_define inside.now }
    ensures did { Does in_term_seen result (state_seen s.new (O.told out.new))
        (forms.function_form (level (W.code inside.now) (W.depth inside.now)) at User
        (row arguments.now) (state_seen s.old (O.told out.old))) }
{
    if arguments.len() != 2 {
        return as_in_term(constraint_call(s, out, inside, at, Builtin::User, arguments));
    }
    user_places(s, out, inside, at, &arguments[1])
}

/// A call of a constraint function, and 0 of any other function.
pub(crate) fn constraint_call<O: Outside, W: Defining<O>>(
    s: &mut State,
    out: &mut O,
    inside: &W,
    at: Place,
    function: Builtin,
    arguments: &[Typed],
) -> Result<Built, Stop>
    requires ready { W.is_ready inside.now }
    requires defines { W.can_define inside.now }
    ensures did { Does (λ t. t) result (state_seen s.new (O.told out.new))
        (forms.constraint_call (level (W.code inside.now) (W.depth inside.now)) at function
        (row arguments.now) (state_seen s.old (O.told out.old))) }
{
    match function {
        Builtin::AllDifferent => all_different_call(s, out, inside, at, arguments),
        Builtin::AtMost => bounded_call(s, out, inside, at, Builtin::AtMost, arguments),
        Builtin::AtLeast => bounded_call(s, out, inside, at, Builtin::AtLeast, arguments),
        Builtin::Exactly => bounded_call(s, out, inside, at, Builtin::Exactly, arguments),
        Builtin::Knapsack => knapsack_call(s, out, inside, at, arguments),
        Builtin::MultiKnapsack => multi_knapsack_call(s, out, inside, at, arguments),
        Builtin::Sequence => sequence_call(s, out, inside, at, arguments),
        _ => Ok(Built::constant(0)),
    }
}

/// A call of `alldifferent`.
fn all_different_call<O: Outside, W: Defining<O>>(
    s: &mut State,
    out: &mut O,
    inside: &W,
    at: Place,
    arguments: &[Typed],
) -> Result<Built, Stop>
    requires defines { W.can_define inside.now }
    ensures did { Does (λ t. t) result (state_seen s.new (O.told out.new))
        (of_one (forms.all_different_form (level (W.code inside.now) (W.depth inside.now)) at)
        (row arguments.now) (state_seen s.old (O.told out.old))) }
{
    if arguments.len() != 1 {
        return Ok(Built::constant(0));
    }
    all_different_term(s, out, inside, at, &arguments[0])
}

/// A call of `atmost`, of `atleast` or of `exactly`.
fn bounded_call<O: Outside, W: Defining<O>>(
    s: &mut State,
    out: &mut O,
    inside: &W,
    at: Place,
    function: Builtin,
    arguments: &[Typed],
) -> Result<Built, Stop>
    requires ready { W.is_ready inside.now }
    requires defines { W.can_define inside.now }
    ensures did { Does (λ t. t) result (state_seen s.new (O.told out.new))
        (of_two (forms.bounded_form (level (W.code inside.now) (W.depth inside.now)) at function)
        (row arguments.now) (state_seen s.old (O.told out.old))) }
{
    if arguments.len() != 2 {
        return Ok(Built::constant(0));
    }
    bounded_term(s, out, inside, at, function, &arguments[0], &arguments[1])
}

/// A call of `knapsack`.
fn knapsack_call<O: Outside, W: Defining<O>>(
    s: &mut State,
    out: &mut O,
    inside: &W,
    at: Place,
    arguments: &[Typed],
) -> Result<Built, Stop>
    requires ready { W.is_ready inside.now }
    requires defines { W.can_define inside.now }
    ensures did { Does (λ t. t) result (state_seen s.new (O.told out.new))
        (of_three (forms.knapsack_form (level (W.code inside.now) (W.depth inside.now)) at)
        (row arguments.now) (state_seen s.old (O.told out.old))) }
{
    if arguments.len() != 3 {
        return Ok(Built::constant(0));
    }
    knapsack_term(
        s,
        out,
        inside,
        at,
        &arguments[0],
        &arguments[1],
        &arguments[2],
    )
}

/// A call of `multiknapsack`.
fn multi_knapsack_call<O: Outside, W: Defining<O>>(
    s: &mut State,
    out: &mut O,
    inside: &W,
    at: Place,
    arguments: &[Typed],
) -> Result<Built, Stop>
    requires ready { W.is_ready inside.now }
    requires defines { W.can_define inside.now }
    ensures did { Does (λ t. t) result (state_seen s.new (O.told out.new))
        (of_three (forms.multi_knapsack_form (level (W.code inside.now) (W.depth inside.now)) at)
        (row arguments.now) (state_seen s.old (O.told out.old))) }
{
    if arguments.len() != 3 {
        return Ok(Built::constant(0));
    }
    multi_knapsack_term(
        s,
        out,
        inside,
        at,
        &arguments[0],
        &arguments[1],
        &arguments[2],
    )
}

/// A call of `sequence`.
fn sequence_call<O: Outside, W: Defining<O>>(
    s: &mut State,
    out: &mut O,
    inside: &W,
    at: Place,
    arguments: &[Typed],
) -> Result<Built, Stop>
    requires ready { W.is_ready inside.now }
    requires defines { W.can_define inside.now }
    ensures did { Does (λ t. t) result (state_seen s.new (O.told out.new))
        (of_four (forms.sequence_form (level (W.code inside.now) (W.depth inside.now)) at)
        (row arguments.now) (state_seen s.old (O.told out.old))) }
{
    if arguments.len() != 4 {
        return Ok(Built::constant(0));
    }
    sequence_term(
        s,
        out,
        inside,
        at,
        &arguments[0],
        &arguments[1],
        &arguments[2],
        &arguments[3],
    )
}
