//! Objects that are declared, or that a name is given by `new`.
ghost use Rattle.std.specs.Prelude.{◌≡◌, ℕ, List, map};
ghost use Rattle.checked_tree.specs.Shape.{seen};
ghost use Rattle.comet_meaning.specs.Declarations as declarations;
ghost use Rattle.comet_meaning.specs.Declarations.{object_form};
ghost use Rattle.comet_meaning.specs.Program.{level};
ghost use Rattle.comet_meaning.specs.Solutions.{make_solution};
ghost use Rattle.comet_meaning.specs.Systems.{make_sum, make_system};
ghost use Rattle.run_steps.specs.Does.{Does};
ghost use Rattle.run_steps.specs.OfRunState.Views.{state_seen};
ghost use Rattle.run_values.specs.Views.{value_seen};

use cbl_base::Place;
use checked_tree::{Kind, Slot, Typed};
use form_parts::terms::single_term;
use form_parts::values::value_of;
use run_effects::effects::{
    distribution_made, input_made, objective_made, put_made, selector_made, solution_made,
    solver_made, sum_made, system_made,
};
use run_steps::inside::{Defining, Within};
use run_steps::state_of_runs::{Outside, State};
use run_values::{Stop, Value};

/// A name gets a new object of this kind: a system, a sum and a solution are made in the solver that stands among the
/// arguments, an objective of the term there, and a distribution of the range there. Where it is no object nothing is done.
pub fn declare_object<O: Outside, W: Defining<O>>(
    s: &mut State,
    out: &mut O,
    inside: &W,
    at: Place,
    slot: Slot,
    kind: Kind,
    arguments: &[Typed],
) -> Result<(), Stop>
    requires ready { W.is_ready inside.now }
    requires defines { W.can_define inside.now }
    ensures did { Does (λ _. tt) result (state_seen s.new (O.told out.new))
        (object_form (level (W.code inside.now) (W.depth inside.now)) at slot kind
        (map seen arguments.now) (state_seen s.old (O.told out.old))) }
{
    match kind {
        Kind::Solver => {
            let made = solver_made(out, s.alloc);
            put_made(s, slot, made)
        }
        Kind::Input => {
            let made = input_made(s);
            put_made(s, slot, made)
        }
        Kind::System => {
            let made = new_system(s, out, inside, at, arguments);
            put_made(s, slot, made)
        }
        Kind::Total => {
            let made = new_sum(s, out, inside, at, arguments);
            put_made(s, slot, made)
        }
        Kind::Objective => {
            let made = new_objective(s, out, inside, at, arguments);
            put_made(s, slot, made)
        }
        Kind::Distribution => {
            let made = new_distribution(s, out, inside, arguments);
            put_made(s, slot, made)
        }
        Kind::Selector => {
            let made = selector_made(s);
            put_made(s, slot, made)
        }
        Kind::Solution => {
            let made = new_solution(s, out, inside, at, arguments);
            put_made(s, slot, made)
        }
        _ => Ok(()),
    }
}

/// A system in the solver that stands among the arguments.
#[tactic(auto, unfolding(comet_meaning::specs::Declarations::made_in))]
fn new_system<O: Outside, W: Within<O>>(
    s: &mut State,
    out: &mut O,
    inside: &W,
    at: Place,
    arguments: &[Typed],
) -> Result<Value, Stop>
    requires ready { W.is_ready inside.now }
    ensures did { Does value_seen result (state_seen s.new (O.told out.new))
        (declarations.made_in (level (W.code inside.now) (W.depth inside.now)) (make_system at)
        (map seen arguments.now) (state_seen s.old (O.told out.old))) }
{
    if arguments.len() != 1 {
        return Ok(Value::Nothing);
    }
    let solver = value_of(s, out, inside, &arguments[0]);
    system_made(out, at, solver)
}

/// A sum in the solver that stands among the arguments.
#[tactic(auto, unfolding(comet_meaning::specs::Declarations::made_in))]
fn new_sum<O: Outside, W: Within<O>>(
    s: &mut State,
    out: &mut O,
    inside: &W,
    at: Place,
    arguments: &[Typed],
) -> Result<Value, Stop>
    requires ready { W.is_ready inside.now }
    ensures did { Does value_seen result (state_seen s.new (O.told out.new))
        (declarations.made_in (level (W.code inside.now) (W.depth inside.now)) (make_sum at)
        (map seen arguments.now) (state_seen s.old (O.told out.old))) }
{
    if arguments.len() != 1 {
        return Ok(Value::Nothing);
    }
    let solver = value_of(s, out, inside, &arguments[0]);
    sum_made(out, at, solver)
}

/// An objective of the term that stands among the arguments.
#[tactic(auto, unfolding(comet_meaning::specs::Declarations::made_of_term))]
fn new_objective<O: Outside, W: Defining<O>>(
    s: &mut State,
    out: &mut O,
    inside: &W,
    at: Place,
    arguments: &[Typed],
) -> Result<Value, Stop>
    requires defines { W.can_define inside.now }
    ensures did { Does value_seen result (state_seen s.new (O.told out.new))
        (declarations.made_of_term (level (W.code inside.now) (W.depth inside.now)) at
        (map seen arguments.now) (state_seen s.old (O.told out.old))) }
{
    if arguments.len() != 1 {
        return Ok(Value::Nothing);
    }
    let term = single_term(s, out, inside, &arguments[0]);
    objective_made(out, at, term)
}

/// A solution of the solver that stands among the arguments.
#[tactic(auto, unfolding(comet_meaning::specs::Declarations::made_in))]
fn new_solution<O: Outside, W: Within<O>>(
    s: &mut State,
    out: &mut O,
    inside: &W,
    at: Place,
    arguments: &[Typed],
) -> Result<Value, Stop>
    requires ready { W.is_ready inside.now }
    ensures did { Does value_seen result (state_seen s.new (O.told out.new))
        (declarations.made_in (level (W.code inside.now) (W.depth inside.now)) (make_solution at)
        (map seen arguments.now) (state_seen s.old (O.told out.old))) }
{
    if arguments.len() != 1 {
        return Ok(Value::Nothing);
    }
    let solver = value_of(s, out, inside, &arguments[0]);
    solution_made(s, out, at, solver)
}

/// A distribution over the range that stands among the arguments.
#[tactic(auto, unfolding(comet_meaning::specs::Declarations::made_of_range))]
fn new_distribution<O: Outside, W: Within<O>>(
    s: &mut State,
    out: &mut O,
    inside: &W,
    arguments: &[Typed],
) -> Result<Value, Stop>
    requires ready { W.is_ready inside.now }
    ensures did { Does value_seen result (state_seen s.new (O.told out.new))
        (declarations.made_of_range (level (W.code inside.now) (W.depth inside.now))
        (map seen arguments.now) (state_seen s.old (O.told out.old))) }
{
    if arguments.len() != 1 {
        return Ok(Value::Nothing);
    }
    let range = value_of(s, out, inside, &arguments[0]);
    distribution_made(range)
}
