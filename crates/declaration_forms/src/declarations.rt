//! Declarations of names, variables and objects.
ghost use Rattle.std.specs.Prelude.{◌≡◌, ℕ, List, Some, option_map};
ghost use Rattle.checked_tree.specs.Actions.{start_of, variable_of};
ghost use Rattle.checked_tree.specs.Shape.{seen, whole};
ghost use Rattle.comet_meaning.specs.Declarations.{scalar_form};
ghost use Rattle.comet_meaning.specs.Variables.{beginning_form, domain_form, single_form, started_form, variable_form};
ghost use Rattle.comet_meaning.specs.Program.{level};
ghost use Rattle.run_steps.specs.Does.{Does};
ghost use Rattle.run_steps.specs.Parts.{begun_number};
ghost use Rattle.run_steps.specs.OfRunSolvers.Views.{beginning_seen};
ghost use Rattle.run_steps.specs.OfRunState.Views.{state_seen};
ghost use Rattle.run_values.specs.Views.{bounds_seen};

use crate::variable_arrays::declare_variables;
use cbl_base::Place;
use checked_tree::{Kind, Slot, Start, Typed, Variable, Way};
use form_parts::terms::single_term;
use form_parts::values::{bounds_of, number_of, value_of};
use run_effects::declaring::{as_defined, as_free, begin_variable, begins_with, variable_kind};
use run_effects::effects::declare_value;
use run_steps::inside::{Defining, Within};
use run_steps::solvers_of_runs::Beginning;
use run_steps::state_of_runs::{Outside, State};
use run_values::values::first_value;
use run_values::{Bounds, Stop};
use term_model::VarKind;

/// A name of one value, or of an array that is copied.
#[tactic(auto, unfolding(comet_meaning::specs::Declarations::scalar_form))]
pub fn declare<O: Outside, W: Within<O>>(
    s: &mut State,
    out: &mut O,
    inside: &W,
    at: Place,
    slot: Slot,
    kind: Kind,
    start: &Option<Box<Typed>>,
) -> Result<(), Stop>
    requires ready { W.is_ready inside.now }
    ensures did { Does (λ _. tt) result (state_seen s.new (O.told out.new))
        (scalar_form (level (W.code inside.now) (W.depth inside.now)) at slot kind
        (option_map (λ x. seen x.value) start.now) (state_seen s.old (O.told out.old))) }
{
    match start {
        None => s.put(slot, first_value(s.alloc, kind)),
        Some(value) => {
            let value: &Typed = value;
            let place = value.place;
            let value = value_of(s, out, inside, value);
            declare_value(s, out, at, place, slot, kind, value)
        }
    }
}

/// A variable, or an array of variables where it has dimensions.
#[tactic(auto, unfolding(comet_meaning::specs::Variables::variable_form))]
pub fn declare_variable<O: Outside, W: Defining<O>>(
    s: &mut State,
    out: &mut O,
    inside: &W,
    at: Place,
    variable: &Variable,
) -> Result<(), Stop>
    requires ready { W.is_ready inside.now }
    requires defines { W.can_define inside.now }
    ensures did { Does (λ _. tt) result (state_seen s.new (O.told out.new))
        (variable_form (level (W.code inside.now) (W.depth inside.now)) at
        (variable_of variable.now) (state_seen s.old (O.told out.old))) }
{
    let count = variable.dimensions.len();
    if count == 0 {
        declare_single(s, out, inside, at, variable)
    } else {
        declare_variables(s, out, inside, at, variable)
    }
}

/// One variable: its domain, then its number or its definition.
#[tactic(auto, unfolding(comet_meaning::specs::Variables::single_form))]
fn declare_single<O: Outside, W: Defining<O>>(
    s: &mut State,
    out: &mut O,
    inside: &W,
    at: Place,
    variable: &Variable,
) -> Result<(), Stop>
    requires ready { W.is_ready inside.now }
    requires defines { W.can_define inside.now }
    ensures did { Does (λ _. tt) result (state_seen s.new (O.told out.new))
        (single_form (level (W.code inside.now) (W.depth inside.now)) at (variable_of variable.now)
        (state_seen s.old (O.told out.old))) }
{
    let domain = domain_of(s, out, inside, &variable.domain)?;
    let kind = variable_kind(variable.kind);
    let beginning = beginning_of(s, out, inside, kind, &variable.start);
    begin_variable(s, out, at, variable, domain, beginning)
}

/// The domain of a variable; all numbers where it is left out.
#[tactic(auto, unfolding(comet_meaning::specs::Variables::domain_form))]
pub(crate) fn domain_of<O: Outside, W: Within<O>>(
    s: &mut State,
    out: &mut O,
    inside: &W,
    domain: &Option<Typed>,
) -> Result<Bounds, Stop>
    requires ready { W.is_ready inside.now }
    ensures did { Does bounds_seen result (state_seen s.new (O.told out.new))
        (domain_form (level (W.code inside.now) (W.depth inside.now)) (option_map seen domain.now)
        (state_seen s.old (O.told out.old))) }
{
    match domain {
        None => Ok(Bounds {
            low: i64::MIN,
            up: i64::MAX,
        }),
        Some(range) => bounds_of(s, out, inside, range),
    }
}

/// How a variable of this kind begins; with 0 or the empty set where that is left out.
#[tactic(auto, unfolding(comet_meaning::specs::Variables::beginning_form))]
pub(crate) fn beginning_of<O: Outside, W: Defining<O>>(
    s: &mut State,
    out: &mut O,
    inside: &W,
    kind: VarKind,
    start: &Option<Start>,
) -> Result<Beginning, Stop>
    requires ready { W.is_ready inside.now }
    requires defines { W.can_define inside.now }
    ensures did { Does beginning_seen result (state_seen s.new (O.told out.new))
        (beginning_form (level (W.code inside.now) (W.depth inside.now)) kind
        (option_map start_of start.now) (state_seen s.old (O.told out.old))) }
{
    match start {
        None => Ok(begins_with(s.alloc, kind, 0)),
        Some(start) => begin(s, out, inside, kind, start.way, &start.value),
    }
}

/// The number or the definition that a variable of this kind begins with.
#[tactic(auto, unfolding(comet_meaning::specs::Variables::started_form))]
fn begin<O: Outside, W: Defining<O>>(
    s: &mut State,
    out: &mut O,
    inside: &W,
    kind: VarKind,
    way: Way,
    value: &Typed,
) -> Result<Beginning, Stop>
    requires ready { W.is_ready inside.now }
    requires defines { W.can_define inside.now }
    ensures did { Does beginning_seen result (state_seen s.new (O.told out.new))
        (started_form (level (W.code inside.now) (W.depth inside.now)) kind way
        (whole (seen value.now)) (state_seen s.old (O.told out.old))) }
{
    match way {
        Way::Define => as_defined(single_term(s, out, inside, value)),
        Way::Each => begin_number(s, out, inside, kind, value),
        Way::List => begin_number(s, out, inside, kind, value),
    }
}

/// The number that a variable of this kind begins with.
fn begin_number<O: Outside, W: Within<O>>(
    s: &mut State,
    out: &mut O,
    inside: &W,
    kind: VarKind,
    value: &Typed,
) -> Result<Beginning, Stop>
    requires ready { W.is_ready inside.now }
    ensures did { Does beginning_seen result (state_seen s.new (O.told out.new))
        (begun_number (level (W.code inside.now) (W.depth inside.now)) kind (whole (seen value.now))
        (state_seen s.old (O.told out.old))) }
{
    let number = number_of(s, out, inside, value);
    as_free(s.alloc, kind, number)
}
