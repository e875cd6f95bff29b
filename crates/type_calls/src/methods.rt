//! Calls of methods.
ghost use Rattle.std.specs.Prelude.{◌≡◌, ◌++◌, map};
ghost use Rattle.tree_makers.specs.Makes.{Makes};
ghost use Rattle.checked_tree.specs.Shape.{shape_of, seen, whole};
ghost use Rattle.type_rules.specs.declared.rows.Writes.TheVariants as writes;
ghost use Rattle.type_scopes.specs.Did.{Did};
ghost use Rattle.type_scopes.specs.Names as names;
ghost use Rattle.type_calls.specs.Methods as calls;
ghost use Rattle.type_calls.specs.Roots as roots_in;

use crate::arguments::{any_moving, arguments_fault};
use crate::doing::{act_on, no_root};
use crate::roots::{is_name, push_solvers, roots_of};
use cbl_base::Place;
use checked_tree::{Builtin, Cause, Form, Kind, Method, Slot, Stop, Typed};
use tree_makers::make_expressions::make_method;
use type_rules::kinds::is_same;
use type_rules::rows::{method_row, method_wants};
use type_rules::rules::is_term;
use type_rules::{Context, Row, Writes};
use type_scopes::{Checker, Doing, Scope};

#[tactic(auto, unfolding(checked_tree::specs::Shape::shape_of))]
fn is_user(form: &Form) -> bool
    ensures { result ≡ calls.is_user (shape_of form.now) }
{
    matches!(
        form,
        Form::Builtin {
            builtin: Builtin::User,
            ..
        }
    )
}

fn posts_user(values: &[Typed]) -> bool
    ensures { result ≡ calls.posts_user (map seen values.now) }
{
    match values.first() {
        None => false,
        Some(value) => is_user(&value.form),
    }
}

/// What the first argument of a method stands for.
pub fn first_context(method: Option<Method>, context: Context) -> Context
    ensures { result ≡ calls.first_context method context }
{
    match method {
        Some(Method::Post) => Context::Posted,
        Some(Method::PostPart) => Context::Term,
        _ => context,
    }
}

fn method_doing(row: Row, scope: Scope, object: &Typed, values: &[Typed]) -> Doing
    ensures { result ≡ calls.method_doing row scope (seen object.now) (map seen values.now) }
{
    let moving = object.moving || any_moving(values);
    Doing {
        impure: row.impure,
        not_in_term: is_term(scope.context) && (row.left_out || moving),
        global: false,
        through: true,
        forbidden: row.forbidden || posts_user(values),
    }
}

/// The cells through which a solution is reached, and those of its solvers.
fn solution_roots(checker: &Checker, scope: Scope, object: &Typed) -> Result<Vec<Slot>, Stop>
    ensures { Makes (λ roots. roots.items) result
        (calls.solution_roots scope checker.now.names (whole (seen object.now))) }
{
    let roots = roots_of(checker.alloc(), object)?;
    let mut all = roots_of(checker.alloc(), object)?;
    push_solvers(checker, scope, &roots, &mut all)?;
    Ok(all)
}

fn write_name(
    checker: &mut Checker,
    place: Place,
    scope: Scope,
    doing: Doing,
    object: &Typed,
) -> Result<(), Stop>
    ensures { Did (λ _. tt) result checker.new
        (calls.method_done writes.Name place scope doing (seen object.now) checker.old) }
{
    if is_name(&object.form) && is_same(object.kind, Kind::Set) {
        let roots = roots_of(checker.alloc(), object)?;
        let doing = Doing {
            through: false,
            ..doing
        };
        act_on(checker, place, scope, doing, &roots)
    } else {
        act_on(checker, place, scope, doing, no_root())?;
        Err(Stop::Fault(place, Cause::NotAssignable))
    }
}

fn method_done(
    checker: &mut Checker,
    writes: Writes,
    place: Place,
    scope: Scope,
    doing: Doing,
    object: &Typed,
) -> Result<(), Stop>
    ensures { Did (λ _. tt) result checker.new
        (calls.method_done writes place scope doing (seen object.now) checker.old) }
{
    match writes {
        Writes::Nothing => act_on(checker, place, scope, doing, no_root()),
        Writes::Object => {
            let roots = roots_of(checker.alloc(), object)?;
            act_on(checker, place, scope, doing, &roots)
        }
        Writes::Solver => {
            let roots = solution_roots(checker, scope, object)?;
            act_on(checker, place, scope, doing, &roots)
        }
        Writes::Name => write_name(checker, place, scope, doing, object),
    }
}

fn method_made(
    checker: &mut Checker,
    place: Place,
    object: Typed,
    scope: Scope,
    values: Vec<Typed>,
    method: Method,
    fault: Option<Cause>,
) -> Result<Typed, Stop>
    ensures { Did seen result checker.new
        (calls.method_made place (seen object) scope
        (map seen values.items) method fault checker.old) }
{
    match fault {
        Some(cause) => Err(Stop::Fault(place, cause)),
        None => {
            let row = method_row(method);
            let doing = method_doing(row, scope, &object, &values);
            method_done(checker, row.writes, place, scope, doing, &object)?;
            let start = object.start;
            let form = make_method(checker.alloc(), method, object, values)?;
            Ok(Typed {
                start,
                place,
                kind: row.result,
                moving: false,
                form,
            })
        }
    }
}

fn unknown_method(context: Context, moving: bool) -> Cause
    ensures { result ≡ calls.unknown_method context moving }
{
    if is_term(context) && moving {
        Cause::NotInTerm
    } else {
        Cause::UnknownMethod
    }
}

/// A method is called.
#[tactic(auto, unfolding(crate::specs::Methods::method_called))]
pub fn method_called(
    checker: &mut Checker,
    place: Place,
    object: Typed,
    scope: Scope,
    values: Vec<Typed>,
    method: Option<Method>,
) -> Result<Typed, Stop>
    ensures { Did seen result checker.new
        (calls.method_called place (seen object) scope (map seen values.items) method checker.old) }
{
    match method {
        None => {
            let moving = object.moving || any_moving(&values);
            Err(Stop::Fault(place, unknown_method(scope.context, moving)))
        }
        Some(method) => {
            let least = method_row(method).least;
            let fault = arguments_fault(method_wants(method), least, &values);
            method_made(checker, place, object, scope, values, method, fault)
        }
    }
}
