//! The functions of the language in terms.
ghost use Rattle.std.specs.Prelude.{◌≡◌, ℕ, List, []};
ghost use Rattle.checked_tree.specs.declared.expressions.Builtin.TheVariants.{Count};
ghost use Rattle.comet_meaning.specs.Program.{level};
ghost use Rattle.comet_meaning.specs.TermForms as forms;
ghost use Rattle.run_steps.specs.OfRunState.Views.{state_seen};
ghost use Rattle.run_steps.specs.Does.{Does};
ghost use Rattle.run_steps.specs.Views.{part, row};
ghost use Rattle.term_forms.specs.Steps.{plain_call};

use crate::parts::terms_of;
use cbl_base::Place;
use checked_tree::{Builtin, Typed};
use form_parts::terms::{single_term, term_cells};
use run_steps::inside::Defining;
use run_steps::solvers_of_runs::Built;
use run_steps::state_of_runs::{Outside, State};
use run_values::Stop;
use term_nodes::nodes::{call_with, count_with};

/// A call of a function of the language.
pub fn builtin_term<O: Outside, W: Defining<O>>(
    s: &mut State,
    out: &mut O,
    inside: &W,
    at: Place,
    function: Builtin,
    arguments: &[Typed],
) -> Result<Built, Stop>
    requires defines { W.can_define inside.now }
    ensures did { Does (λ t. t) result (state_seen s.new (O.told out.new))
        (forms.builtin_term (level (W.code inside.now) (W.depth inside.now)) at function
        (row arguments.now) (state_seen s.old (O.told out.old))) }
{
    match function {
        Builtin::Count => count_call(s, out, inside, at, arguments),
        _ => plain_term(s, out, inside, at, function, arguments),
    }
}

/// A call of `count`, with any number of arguments.
fn count_call<O: Outside, W: Defining<O>>(
    s: &mut State,
    out: &mut O,
    inside: &W,
    at: Place,
    arguments: &[Typed],
) -> Result<Built, Stop>
    requires defines { W.can_define inside.now }
    ensures did { Does (λ t. t) result (state_seen s.new (O.told out.new))
        (forms.builtin_term (level (W.code inside.now) (W.depth inside.now)) at Count
        (row arguments.now) (state_seen s.old (O.told out.old))) }
{
    if arguments.len() != 2 {
        return plain_term(s, out, inside, at, Builtin::Count, arguments);
    }
    count_term(s, out, inside, at, &arguments[0], &arguments[1])
}

/// `count(a, e)`: a unit for the call, and then the cells, at the array.
#[tactic(auto, unfolding(comet_meaning::specs::TermForms::count_term))]
fn count_term<O: Outside, W: Defining<O>>(
    s: &mut State,
    out: &mut O,
    inside: &W,
    at: Place,
    array: &Typed,
    number: &Typed,
) -> Result<Built, Stop>
    requires defines { W.can_define inside.now }
    ensures did { Does (λ t. t) result (state_seen s.new (O.told out.new))
        (forms.count_term (level (W.code inside.now) (W.depth inside.now)) at (part array.now)
        (part number.now) (state_seen s.old (O.told out.old))) }
{
    let place = array.place;
    let cells = term_cells(s, out, inside, array)?;
    let number = single_term(s, out, inside, number);
    count_with(s, at, place, cells, number)
}

/// A function of the language whose arguments are all single terms: a unit for the call, and then its operation.
fn plain_term<O: Outside, W: Defining<O>>(
    s: &mut State,
    out: &mut O,
    inside: &W,
    at: Place,
    function: Builtin,
    arguments: &[Typed],
) -> Result<Built, Stop>
    requires defines { W.can_define inside.now }
    ensures did { Does (λ t. t) result (state_seen s.new (O.told out.new))
        (plain_call (level (W.code inside.now) (W.depth inside.now)) at function (row arguments.now)
        (state_seen s.old (O.told out.old))) }
{
    let terms = terms_of(s, out, inside, arguments);
    call_with(s, at, function, terms)
}
