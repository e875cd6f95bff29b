//! Calls of the functions of the language and of constraints.
ghost use Rattle.std.specs.Prelude.{◌≡◌, map};
ghost use Rattle.checked_tree.specs.Shape.{seen};
ghost use Rattle.type_scopes.specs.Did.{Did};
ghost use Rattle.type_calls.specs.Builtins as calls;

use crate::arguments::{any_moving, any_unfixed, arguments_fault, made};
use cbl_base::Place;
use checked_tree::{Builtin, Cause, Kind, Stop, Typed};
use tree_makers::make_expressions::make_builtin_call;
use type_rules::kinds::is_same;
use type_rules::rows::{builtin_row, builtin_wants};
use type_rules::rules::{is_term, wants_constraint, with_moving};
use type_rules::{Context, Note};
use type_scopes::{Checker, Scope};

fn may_stand(builtin: Builtin, context: Context) -> bool
    ensures { result ≡ calls.may_stand builtin context }
{
    match builtin {
        Builtin::User => matches!(context, Context::Posted),
        _ => !is_same(builtin_row(builtin).result, Kind::Constraint) || wants_constraint(context),
    }
}

fn builtin_made(builtin: Builtin, values: &[Typed], fault: Option<Cause>) -> Result<Note, Cause>
    ensures { result ≡ calls.builtin_made builtin (map seen values.now) fault }
{
    match fault {
        Some(cause) => Err(cause),
        None => {
            let result = builtin_row(builtin).result;
            if any_unfixed(builtin_wants(builtin), values) {
                Err(Cause::NotInTerm)
            } else {
                with_moving(
                    result,
                    is_same(result, Kind::Constraint) || any_moving(values),
                )
            }
        }
    }
}

fn not_here(context: Context) -> Cause
    ensures { result ≡ calls.not_here context }
{
    if is_term(context) {
        Cause::NotInTerm
    } else {
        Cause::WrongType
    }
}

#[tactic(auto, unfolding(crate::specs::Builtins::builtin_rule))]
fn builtin_rule(builtin: Builtin, context: Context, values: &[Typed]) -> Result<Note, Cause>
    ensures { result ≡ calls.builtin_rule builtin context (map seen values.now) }
{
    if may_stand(builtin, context) {
        let fault = arguments_fault(builtin_wants(builtin), builtin_row(builtin).least, values);
        builtin_made(builtin, values, fault)
    } else {
        Err(not_here(context))
    }
}

fn builtin_ruling(builtin: Builtin, context: Context, values: &Vec<Typed>) -> Result<Note, Cause>
    ensures { result ≡ calls.builtin_rule builtin context (map seen values.now.items) }
{
    builtin_rule(builtin, context, values)
}

/// Why a name that is no function is not called.
pub fn unknown(visible: bool) -> Cause
    ensures { result ≡ calls.unknown visible }
{
    if visible {
        Cause::WrongType
    } else {
        Cause::UnknownName
    }
}

/// A function of the language is called, or a constraint.
pub fn builtin_called(
    checker: &Checker,
    place: Place,
    scope: Scope,
    values: Vec<Typed>,
    visible: bool,
    builtin: Option<Builtin>,
) -> Result<Typed, Stop>
    ensures { Did seen result checker.now
        (calls.builtin_called place scope (map seen values.items) visible builtin checker.now) }
{
    match builtin {
        None => Err(Stop::Fault(place, unknown(visible))),
        Some(builtin) => {
            let ruling = builtin_ruling(builtin, scope.context, &values);
            made(place, place, make_builtin_call(builtin, values), ruling)
        }
    }
}
