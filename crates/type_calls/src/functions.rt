//! Calls of the program's functions, and calls by name.
ghost use Rattle.std.specs.Prelude.{◌≡◌, map, slice_get};
ghost use Rattle.checked_tree.specs.Shape.{seen};
ghost use Rattle.type_scopes.specs.Did.{Did};
ghost use Rattle.type_scopes.specs.State as acts;
ghost use Rattle.type_calls.specs.Functions as calls;
ghost use Rattle.type_calls.specs.View.{calling_of};

use crate::arguments::{all_fit, any_moving};
use crate::builtins::builtin_called;
use crate::doing::act_on;
use crate::roots::written_roots;
use cbl_base::Place;
use checked_tree::{Cause, Kind, Slot, Stop, Typed};
use comet_syntax::tree::Name;
use std::alloc::Global;
use tree_makers::make_expressions::make_call;
use type_rules::kinds::is_same;
use type_rules::rows::builtin_named;
use type_scopes::{Checker, Doing, Scope, Signature};

fn function_fault(parameters: &[Kind], values: &[Typed]) -> Option<Cause>
    ensures { result ≡ calls.function_fault parameters.now (map seen values.now) }
{
    if parameters.len() != values.len() {
        Some(Cause::WrongCount)
    } else if all_fit(parameters, values) {
        None
    } else {
        Some(Cause::WrongType)
    }
}

/// A call: what it gives, what it does, and through which names it writes.
#[derive(Drop)]
struct Calling {
    result: Kind,
    doing: Doing,
    roots: Vec<Slot>,
}

fn call_doing(signature: &Signature, values: &[Typed]) -> Doing
    ensures { result ≡ calls.call_doing signature.now (map seen values.now) }
{
    Doing {
        impure: !signature.is_single || signature.effects.impure,
        not_in_term: any_moving(values),
        global: signature.effects.writes_global,
        through: true,
        forbidden: signature.effects.forbidden,
    }
}

fn call_so(
    alloc: Global,
    place: Place,
    signature: &Signature,
    values: &[Typed],
) -> Result<Calling, Stop>
    ensures { (s : acts.State) → Did calling_of result s
        (calls.call_so place signature.now (map seen values.now)
        (calls.function_fault signature.now.parameters (map seen values.now)) s) }
{
    match function_fault(signature.parameters.as_slice(), values) {
        Some(cause) => Err(Stop::Fault(place, cause)),
        None => {
            let roots = written_roots(alloc, signature.effects.written.as_slice(), values)?;
            Ok(Calling {
                result: signature.result,
                doing: call_doing(signature, values),
                roots,
            })
        }
    }
}

fn call_of(
    checker: &Checker,
    place: Place,
    values: &[Typed],
    function: usize,
) -> Result<Calling, Stop>
    ensures { (s : acts.State) → Did calling_of result s
        (calls.call_of place (map seen values.now) (slice_get checker.now.signatures function) s) }
{
    match checker.signature(function) {
        None => Err(Stop::Fault(place, Cause::UnknownName)),
        Some(signature) => call_so(checker.alloc(), place, signature, values),
    }
}

#[tactic(auto, unfolding(crate::specs::Functions::function_called))]
fn function_called(
    checker: &mut Checker,
    name: &Name,
    scope: Scope,
    values: Vec<Typed>,
    function: usize,
) -> Result<Typed, Stop>
    ensures { Did seen result checker.new
        (calls.function_called name.now scope (map seen values.items) function checker.old) }
{
    let call = call_of(checker, name.place, &values, function)?;
    act_on(checker, name.place, scope, call.doing, &call.roots)?;
    Ok(Typed {
        start: name.place,
        place: name.place,
        kind: call.result,
        moving: false,
        form: make_call(function, values),
    })
}

/// A function is called: one of the program that is visible under the name, else one of the language.
#[tactic(auto, unfolding(crate::specs::Functions::called))]
pub fn called(
    checker: &mut Checker,
    name: &Name,
    scope: Scope,
    values: Vec<Typed>,
) -> Result<Typed, Stop>
    ensures { Did seen result checker.new
        (calls.called name.now scope (map seen values.items) checker.old) }
{
    match checker.look(name.text.as_slice()) {
        None => builtin_called(
            checker,
            name.place,
            scope,
            values,
            false,
            builtin_named(name.text.as_slice()),
        ),
        Some(found) => {
            if is_same(found.kind, Kind::Function) {
                function_called(checker, name, scope, values, found.function)
            } else {
                builtin_called(
                    checker,
                    name.place,
                    scope,
                    values,
                    true,
                    builtin_named(name.text.as_slice()),
                )
            }
        }
    }
}
