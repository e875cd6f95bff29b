//! One level of a run: a part is executed by its form, with room for one part fewer inside it.
ghost use Rattle.std.specs.Prelude.{◌≡◌, ℕ, List, map};
ghost use Rattle.checked_tree.specs.Tasks.{work_of};
ghost use Rattle.comet_meaning.specs.InTerms.{is_constraint};
ghost use Rattle.comet_meaning.specs.Limits.{most_depth};
ghost use Rattle.comet_meaning.specs.Loops.{tasks_form};
ghost use Rattle.comet_meaning.specs.Program.{level};
ghost use Rattle.run_steps.specs.OfRunState.InTerms.{in_term_seen};
ghost use Rattle.run_steps.specs.OfRunState.Targets.{target_seen};
ghost use Rattle.run_steps.specs.OfRunState.Views.{state_seen};
ghost use Rattle.run_steps.specs.Does.{Does};
ghost use Rattle.run_steps.specs.Views.{code_seen, flow_seen, part};
ghost use Rattle.run_values.specs.Views.{value_seen};

use cbl_base::RunFault;
use cbl_base::limits::MAX_RUNNING_DEPTH;
use checked_tree::{Kind, Task, Typed};
use constraint_forms::constraints::constraint_form;
use expression_forms::constants::constant_term;
use expression_forms::expressions::evaluate_form;
use run_steps::code::{Code, Flow};
use run_steps::inside::Inside;
use run_steps::state_of_runs::{InTerm, Outside, State, Target};
use run_values::{Stop, Value};
use statement_forms::statements::{execute_act, execute_all};
use term_forms::terms::moving_term;
use write_forms::targets::target_of_form;

/// How many statements and expressions may be executed inside each other.
const MOST_DEPTH: u32 = MAX_RUNNING_DEPTH;

/// The value of an expression; of a variable the variable itself. `room` tells how many parts may still be executed
/// inside each other: the fault `Depth` comes at the place of an expression for which there is none.
#[cycle(run)]
pub fn evaluate<O: Outside>(
    s: &mut State,
    out: &mut O,
    code: &Code<'_>,
    room: u32,
    e: &Typed,
) -> Result<Value, Stop>
    ensures did { Does value_seen result (state_seen s.new (O.told out.new))
        ((level (code_seen code.now) room).expr (part e.now) (state_seen s.old (O.told out.old))) }
{
    if room == 0 {
        return Err(Stop::Fault(e.place, RunFault::Depth));
    }
    let room = room - 1;
    let value = |s: &mut State, out: &mut O, e: &Typed| -> Result<Value, Stop>
        ensures did { Does value_seen result (state_seen s.new (O.told out.new))
            ((level (code_seen code.entry.now) room).expr (part e.now)
            (state_seen s.old (O.told out.old))) }
    { evaluate(s, out, code, room, e) };
    let statement = |s: &mut State, out: &mut O, t: &Task| -> Result<Flow, Stop>
        ensures did { Does flow_seen result (state_seen s.new (O.told out.new))
            ((level (code_seen code.entry.now) room).stmt (work_of t.now)
            (state_seen s.old (O.told out.old))) }
    { execute(s, out, code, room, t) };
    let term = |s: &mut State, out: &mut O, e: &Typed| -> Result<InTerm, Stop>
        ensures did { Does in_term_seen result (state_seen s.new (O.told out.new))
            ((level (code_seen code.entry.now) room).term (part e.now)
            (state_seen s.old (O.told out.old))) }
    { define(s, out, code, room, e) };
    let inside = Inside {
        code,
        room,
        evaluate: value,
        execute: statement,
        define: term,
        locate: (),
    };
    evaluate_form(s, out, &inside, code, e.place, e.kind, &e.form)
}

/// What an expression stands for where it is written, with the same room and fault.
#[cycle(run)]
fn locate<O: Outside>(
    s: &mut State,
    out: &mut O,
    code: &Code<'_>,
    room: u32,
    e: &Typed,
) -> Result<Target, Stop>
    ensures did { Does target_seen result (state_seen s.new (O.told out.new))
        ((level (code_seen code.now) room).target (part e.now)
        (state_seen s.old (O.told out.old))) }
{
    if room == 0 {
        return Err(Stop::Fault(e.place, RunFault::Depth));
    }
    let room = room - 1;
    let value = |s: &mut State, out: &mut O, e: &Typed| -> Result<Value, Stop>
        ensures did { Does value_seen result (state_seen s.new (O.told out.new))
            ((level (code_seen code.entry.now) room).expr (part e.now)
            (state_seen s.old (O.told out.old))) }
    { evaluate(s, out, code, room, e) };
    let statement = |s: &mut State, out: &mut O, t: &Task| -> Result<Flow, Stop>
        ensures did { Does flow_seen result (state_seen s.new (O.told out.new))
            ((level (code_seen code.entry.now) room).stmt (work_of t.now)
            (state_seen s.old (O.told out.old))) }
    { execute(s, out, code, room, t) };
    let inside = Inside {
        code,
        room,
        evaluate: value,
        execute: statement,
        define: (),
        locate: (),
    };
    let target = |s: &mut State, out: &mut O, e: &Typed| -> Result<Target, Stop>
        ensures did { Does target_seen result (state_seen s.new (O.told out.new))
            ((level (code_seen code.entry.now) room).target (part e.now)
            (state_seen s.old (O.told out.old))) }
    { locate(s, out, code, room, e) };
    target_of_form(s, out, &inside, &target, e.place, e.kind, &e.form)
}

/// What an expression stands for in a term, with the same room and fault: a part without incremental variables for its
/// value now.
#[cycle(run)]
fn define<O: Outside>(
    s: &mut State,
    out: &mut O,
    code: &Code<'_>,
    room: u32,
    e: &Typed,
) -> Result<InTerm, Stop>
    ensures did { Does in_term_seen result (state_seen s.new (O.told out.new))
        ((level (code_seen code.now) room).term (part e.now) (state_seen s.old (O.told out.old))) }
{
    if room == 0 {
        return Err(Stop::Fault(e.place, RunFault::Depth));
    }
    let room = room - 1;
    let value = |s: &mut State, out: &mut O, e: &Typed| -> Result<Value, Stop>
        ensures did { Does value_seen result (state_seen s.new (O.told out.new))
            ((level (code_seen code.entry.now) room).expr (part e.now)
            (state_seen s.old (O.told out.old))) }
    { evaluate(s, out, code, room, e) };
    let statement = |s: &mut State, out: &mut O, t: &Task| -> Result<Flow, Stop>
        ensures did { Does flow_seen result (state_seen s.new (O.told out.new))
            ((level (code_seen code.entry.now) room).stmt (work_of t.now)
            (state_seen s.old (O.told out.old))) }
    { execute(s, out, code, room, t) };
    let term = |s: &mut State, out: &mut O, e: &Typed| -> Result<InTerm, Stop>
        ensures did { Does in_term_seen result (state_seen s.new (O.told out.new))
            ((level (code_seen code.entry.now) room).term (part e.now)
            (state_seen s.old (O.told out.old))) }
    { define(s, out, code, room, e) };
    let inside = Inside {
        code,
        room,
        evaluate: value,
        execute: statement,
        define: term,
        locate: (),
    };
    if e.moving {
        if is_constraint(e.kind) {
            constraint_form(s, out, &inside, e.place, &e.form)
        } else {
            moving_term(s, out, &inside, e.place, &e.form)
        }
    } else {
        constant_term(s, out, &inside, code, e.place, e.kind, &e.form)
    }
}

/// What a statement does, and how it ends, with the same room and fault. It costs a unit of fuel.
#[cycle(run)]
fn execute<O: Outside>(
    s: &mut State,
    out: &mut O,
    code: &Code<'_>,
    room: u32,
    t: &Task,
) -> Result<Flow, Stop>
    ensures did { Does flow_seen result (state_seen s.new (O.told out.new))
        ((level (code_seen code.now) room).stmt (work_of t.now)
        (state_seen s.old (O.told out.old))) }
{
    if room == 0 {
        return Err(Stop::Fault(t.place, RunFault::Depth));
    }
    s.charge(1, t.place)?;
    let room = room - 1;
    let value = |s: &mut State, out: &mut O, e: &Typed| -> Result<Value, Stop>
        ensures did { Does value_seen result (state_seen s.new (O.told out.new))
            ((level (code_seen code.entry.now) room).expr (part e.now)
            (state_seen s.old (O.told out.old))) }
    { evaluate(s, out, code, room, e) };
    let statement = |s: &mut State, out: &mut O, t: &Task| -> Result<Flow, Stop>
        ensures did { Does flow_seen result (state_seen s.new (O.told out.new))
            ((level (code_seen code.entry.now) room).stmt (work_of t.now)
            (state_seen s.old (O.told out.old))) }
    { execute(s, out, code, room, t) };
    let term = |s: &mut State, out: &mut O, e: &Typed| -> Result<InTerm, Stop>
        ensures did { Does in_term_seen result (state_seen s.new (O.told out.new))
            ((level (code_seen code.entry.now) room).term (part e.now)
            (state_seen s.old (O.told out.old))) }
    { define(s, out, code, room, e) };
    let target = |s: &mut State, out: &mut O, e: &Typed| -> Result<Target, Stop>
        ensures did { Does target_seen result (state_seen s.new (O.told out.new))
            ((level (code_seen code.entry.now) room).target (part e.now)
            (state_seen s.old (O.told out.old))) }
    { locate(s, out, code, room, e) };
    let inside = Inside {
        code,
        room,
        evaluate: value,
        execute: statement,
        define: term,
        locate: target,
    };
    execute_act(s, out, &inside, t.place, &t.act)
}

/// Whether an expression of this kind is a constraint.
fn is_constraint(kind: Kind) -> bool
    ensures { result ≡ is_constraint kind }
{
    matches!(kind, Kind::Constraint)
}

/// What statements do in order, from this state on, with room for 1000 parts inside each other. The state and what was
/// printed are then those of their meaning, and so is the flow, or the fault and its place, or the place where the fuel
/// is spent. `NoMemory` where there is none, and `Output` where the output stops: then a front of what they print was
/// printed.
pub fn run<O: Outside>(
    s: &mut State,
    out: &mut O,
    code: &Code<'_>,
    tasks: &[Task],
) -> Result<Flow, Stop>
    ensures did { Does flow_seen result (state_seen s.new (O.told out.new))
        (tasks_form (level (code_seen code.now) most_depth) (map work_of tasks.now)
        (state_seen s.old (O.told out.old))) }
{
    let room = MOST_DEPTH;
    let value = |s: &mut State, out: &mut O, e: &Typed| -> Result<Value, Stop>
        ensures did { Does value_seen result (state_seen s.new (O.told out.new))
            ((level (code_seen code.entry.now) room).expr (part e.now)
            (state_seen s.old (O.told out.old))) }
    { evaluate(s, out, code, room, e) };
    let statement = |s: &mut State, out: &mut O, t: &Task| -> Result<Flow, Stop>
        ensures did { Does flow_seen result (state_seen s.new (O.told out.new))
            ((level (code_seen code.entry.now) room).stmt (work_of t.now)
            (state_seen s.old (O.told out.old))) }
    { execute(s, out, code, room, t) };
    let inside = Inside {
        code,
        room,
        evaluate: value,
        execute: statement,
        define: (),
        locate: (),
    };
    execute_all(s, out, &inside, tasks)
}
