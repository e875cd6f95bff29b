//! The constraint functions: their arguments from the left, and then what they are.
ghost use Rattle.std.specs.Prelude.{◌≡◌, ℕ, List};
ghost use Rattle.comet_meaning.specs.ConstraintForms as forms;
ghost use Rattle.comet_meaning.specs.Program.{level};
ghost use Rattle.run_steps.specs.OfRunState.InTerms.{in_term_seen};
ghost use Rattle.run_steps.specs.OfRunState.Views.{state_seen};
ghost use Rattle.run_steps.specs.Does.{Does};
ghost use Rattle.run_steps.specs.Views.{part};

use crate::function_nodes::{
    all_different_with, bounded_with, knapsack_with, multi_knapsack_with, places_with,
    sequence_with,
};
use crate::kept::{kept_cells, kept_set};
use cbl_base::Place;
use checked_tree::{Builtin, Typed};
use form_parts::terms::term_cells;
use form_parts::values::number_of;
use run_steps::inside::Defining;
use run_steps::solvers_of_runs::Built;
use run_steps::state_of_runs::{InTerm, Outside, State};
use run_values::Stop;

/// `alldifferent(x)`
#[tactic(auto, unfolding(comet_meaning::specs::ConstraintForms::all_different_form))]
pub(crate) fn all_different_term<O: Outside, W: Defining<O>>(
    s: &mut State,
    out: &mut O,
    inside: &W,
    at: Place,
    places: &Typed,
) -> Result<Built, Stop>
    requires defines { W.can_define inside.now }
    ensures did { Does (λ t. t) result (state_seen s.new (O.told out.new))
        (forms.all_different_form (level (W.code inside.now) (W.depth inside.now)) at
        (part places.now) (state_seen s.old (O.told out.old))) }
{
    let place = places.place;
    let cells = term_cells(s, out, inside, places);
    all_different_with(s, at, place, cells)
}

/// `user(name, x)`, of which a constraint has the places
#[tactic(auto, unfolding(comet_meaning::specs::ConstraintForms::user_places))]
pub(crate) fn user_places<O: Outside, W: Defining<O>>(
    s: &mut State,
    out: &mut O,
    inside: &W,
    at: Place,
    places: &Typed,
) -> Result<InTerm, Stop>
    requires defines { W.can_define inside.now }
    ensures did { Does in_term_seen result (state_seen s.new (O.told out.new))
        (forms.user_places (level (W.code inside.now) (W.depth inside.now)) at (part places.now)
        (state_seen s.old (O.told out.old))) }
{
    let place = places.place;
    let cells = term_cells(s, out, inside, places);
    places_with(s, at, place, cells)
}

/// `atmost(b, x)`, `atleast(b, x)` and `exactly(b, x)`
#[tactic(auto, unfolding(comet_meaning::specs::ConstraintForms::bounded_form))]
pub(crate) fn bounded_term<O: Outside, W: Defining<O>>(
    s: &mut State,
    out: &mut O,
    inside: &W,
    at: Place,
    function: Builtin,
    bounds: &Typed,
    places: &Typed,
) -> Result<Built, Stop>
    requires ready { W.is_ready inside.now }
    requires defines { W.can_define inside.now }
    ensures did { Does (λ t. t) result (state_seen s.new (O.told out.new))
        (forms.bounded_form (level (W.code inside.now) (W.depth inside.now)) at function
        (part bounds.now) (part places.now) (state_seen s.old (O.told out.old))) }
{
    let place = bounds.place;
    let other = places.place;
    let bounds = kept_cells(s, out, inside, bounds)?;
    let cells = term_cells(s, out, inside, places);
    bounded_with(s, at, function, place, &bounds, other, cells)
}

/// `knapsack(w, x, c)`
#[tactic(auto, unfolding(comet_meaning::specs::ConstraintForms::knapsack_form))]
pub(crate) fn knapsack_term<O: Outside, W: Defining<O>>(
    s: &mut State,
    out: &mut O,
    inside: &W,
    at: Place,
    weights: &Typed,
    places: &Typed,
    capacity: &Typed,
) -> Result<Built, Stop>
    requires ready { W.is_ready inside.now }
    requires defines { W.can_define inside.now }
    ensures did { Does (λ t. t) result (state_seen s.new (O.told out.new))
        (forms.knapsack_form (level (W.code inside.now) (W.depth inside.now)) at (part weights.now)
        (part places.now) (part capacity.now) (state_seen s.old (O.told out.old))) }
{
    let place = weights.place;
    let other = places.place;
    let weights = kept_cells(s, out, inside, weights)?;
    let cells = term_cells(s, out, inside, places)?;
    let capacity = number_of(s, out, inside, capacity);
    knapsack_with(s, at, place, &weights, other, cells, capacity)
}

/// `multiknapsack(x, w, c)`
#[tactic(auto, unfolding(comet_meaning::specs::ConstraintForms::multi_knapsack_form))]
pub(crate) fn multi_knapsack_term<O: Outside, W: Defining<O>>(
    s: &mut State,
    out: &mut O,
    inside: &W,
    at: Place,
    places: &Typed,
    sizes: &Typed,
    capacities: &Typed,
) -> Result<Built, Stop>
    requires ready { W.is_ready inside.now }
    requires defines { W.can_define inside.now }
    ensures did { Does (λ t. t) result (state_seen s.new (O.told out.new))
        (forms.multi_knapsack_form (level (W.code inside.now) (W.depth inside.now)) at
        (part places.now) (part sizes.now) (part capacities.now)
        (state_seen s.old (O.told out.old))) }
{
    let place = places.place;
    let other = sizes.place;
    let last = capacities.place;
    let cells = term_cells(s, out, inside, places)?;
    let sizes = kept_cells(s, out, inside, sizes)?;
    let capacities = kept_cells(s, out, inside, capacities);
    multi_knapsack_with(s, at, place, cells, other, &sizes, last, capacities)
}

/// `sequence(x, s, p, q)`
#[tactic(auto, unfolding(comet_meaning::specs::ConstraintForms::sequence_form))]
pub(crate) fn sequence_term<O: Outside, W: Defining<O>>(
    s: &mut State,
    out: &mut O,
    inside: &W,
    at: Place,
    places: &Typed,
    members: &Typed,
    most: &Typed,
    window: &Typed,
) -> Result<Built, Stop>
    requires ready { W.is_ready inside.now }
    requires defines { W.can_define inside.now }
    ensures did { Does (λ t. t) result (state_seen s.new (O.told out.new))
        (forms.sequence_form (level (W.code inside.now) (W.depth inside.now)) at (part places.now)
        (part members.now) (part most.now) (part window.now) (state_seen s.old (O.told out.old))) }
{
    let place = places.place;
    let cells = term_cells(s, out, inside, places)?;
    let members = kept_set(s, out, inside, members)?;
    let most = number_of(s, out, inside, most)?;
    let window = number_of(s, out, inside, window);
    sequence_with(s, at, place, cells, members, most, window)
}
