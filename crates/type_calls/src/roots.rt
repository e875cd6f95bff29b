//! The names through which an array, a variable or an object is reached.
ghost use Rattle.std.specs.Prelude.{◌≡◌, ◌++◌, [], length, map, OnOk, IfErr, if◌then◌else◌};
ghost use Rattle.tree_makers.specs.Makes.{Makes};
ghost use Rattle.checked_tree.specs.Shape.{shape_of, seen, whole};
ghost use Rattle.checked_tree.specs.declared.stop.Stop.TheVariants as stops;
ghost use Rattle.type_scopes.specs.Names as names;
ghost use Rattle.type_calls.specs.Roots as calls;

use checked_tree::{Form, Method, Slot, Stop, Typed};
use std::alloc::Global;
use type_scopes::{Checker, Scope};

/// Adds the cells of the names through which an array, a variable or an object is reached.
#[tactic(auto, unfolding(checked_tree::specs::Shape::shape_of))]
pub fn push_roots(typed: &Typed, roots: &mut Vec<Slot>) -> Result<(), Stop>
    ensures ok { OnOk result (roots.new.items ≡
        roots.old.items ++ calls.roots_of (whole (seen typed.now))) }
    ensures err { IfErr result (λ stop. stop ≡ stops.NoMemory) }
{
    match &typed.form {
        Form::Name(slot) => {
            roots.push(*slot)?;
            Ok(())
        }
        Form::Parentheses(inner) => push_roots(inner, roots),
        Form::Index { array, .. } => push_roots(array, roots),
        Form::Cell { grid, .. } => push_roots(grid, roots),
        Form::Conditional {
            then,
            otherwise,
            ..
        } => {
            push_roots(then, roots)?;
            push_roots(otherwise, roots)
        }
        Form::Method {
            method: Method::GetMove,
            object,
            ..
        } => push_roots(object, roots),
        _ => Ok(()),
    }
}

/// The cells of the names through which it is reached.
pub fn roots_of(alloc: Global, object: &Typed) -> Result<Vec<Slot>, Stop>
    ensures { Makes (λ roots. roots.items) result (calls.roots_of (whole (seen object.now))) }
{
    let mut roots = Vec::new(alloc);
    push_roots(object, &mut roots)?;
    Ok(roots)
}

#[tactic(auto, unfolding(checked_tree::specs::Shape::shape_of))]
/// Whether it is a name.
pub fn is_name(form: &Form) -> bool
    ensures { result ≡ calls.is_name (shape_of form.now) }
{
    matches!(form, Form::Name(_))
}

fn is_flagged(flags: &[bool], index: usize) -> bool
    ensures { result ≡ calls.is_flagged flags.now index }
{
    flags.get(index).copied().unwrap_or(false)
}

/// Adds the cells of an argument, where its parameter is written through.
fn push_flagged(
    flags: &[bool],
    index: usize,
    value: &Typed,
    roots: &mut Vec<Slot>,
) -> Result<(), Stop>
    ensures ok { OnOk result (roots.new.items ≡
        roots.old.items ++ (if calls.is_flagged flags.now index then calls.roots_of
        (whole (seen value.now)) else [])) }
    ensures err { IfErr result (λ stop. stop ≡ stops.NoMemory) }
{
    if is_flagged(flags, index) {
        push_roots(value, roots)
    } else {
        Ok(())
    }
}

/// The cells of the arguments at the parameters that are written through.
pub(crate) fn written_roots(
    alloc: Global,
    flags: &[bool],
    values: &[Typed],
) -> Result<Vec<Slot>, Stop>
    ensures { Makes (λ roots. roots.items) result
        (calls.written_roots 0 flags.now (map seen values.now)) }
{
    let mut roots = Vec::new(alloc);
    let mut index = 0;
    for value in values {
        push_flagged(flags, index, value, &mut roots)?;
        index += 1;
    }
    Ok(roots)
}

/// The cells of the solvers of the name whose cell this is.
fn solvers_of_one(checker: &Checker, scope: Scope, slot: Slot) -> &[Slot]
    ensures { result.now ≡ names.solvers_at checker.now.names (names.index_of scope slot) }
{
    let count = checker.count();
    match slot {
        Slot::Global(index) => checker.solvers_at(index),
        Slot::Local(number) => {
            if number >= count || scope.globals >= count - number {
                &[]
            } else {
                checker.solvers_at(scope.globals + number)
            }
        }
    }
}

/// Adds the cells of the solvers of the name whose cell this is.
fn push_solvers_of(
    checker: &Checker,
    scope: Scope,
    slot: &Slot,
    roots: &mut Vec<Slot>,
) -> Result<(), Stop>
    ensures ok { OnOk result (roots.new.items ≡
        roots.old.items ++ names.solvers_at checker.now.names (names.index_of scope slot.now)) }
    ensures err { IfErr result (λ stop. stop ≡ stops.NoMemory) }
{
    roots.extend_from_slice(solvers_of_one(checker, scope, *slot))?;
    Ok(())
}

/// Adds the cells of the solvers of the names whose cells these are.
pub(crate) fn push_solvers(
    checker: &Checker,
    scope: Scope,
    slots: &[Slot],
    roots: &mut Vec<Slot>,
) -> Result<(), Stop>
    ensures ok { OnOk result (roots.new.items ≡
        roots.old.items ++ names.solvers_of scope checker.now.names slots.now) }
    ensures err { IfErr result (λ stop. stop ≡ stops.NoMemory) }
{
    for slot in slots {
        push_solvers_of(checker, scope, slot, roots)?;
    }
    Ok(())
}
