//! What simple statements are.
ghost use Rattle.std.specs.Prelude.{◌≡◌, ◌++◌, [], ◌∷◌, map, option_map, OnOk, IfErr, if◌then◌else◌};
ghost use Rattle.std.specs.List.{list_all, list_any};
ghost use Rattle.tree_makers.specs.Makes.{Makes};
ghost use Rattle.checked_tree.specs.Shape.{shape_of, seen, whole};
ghost use Rattle.checked_tree.specs.Actions as deeds;
ghost use Rattle.checked_tree.specs.Actions.{deed_of, printed_of};
ghost use Rattle.checked_tree.specs.declared.stop.Stop.TheVariants as stops;
ghost use Rattle.type_scopes.specs.Did.{Did};
ghost use Rattle.type_scopes.specs.Names as names;
ghost use Rattle.type_calls.specs.Roots as roots_in;
ghost use Rattle.type_expressions.specs.Expressions.{judge};
ghost use Rattle.type_simples.specs.Simples as simples;
ghost use Rattle.type_declarations.specs.View.{handing_of};
ghost use Rattle.type_simples.specs.View.{acted_of, printed_list};

use cbl_base::{Place, Text};
use checked_tree::{Action, Cause, Form, Kind, Printed, Slot, Stop, Typed};
use comet_syntax::tree::{Expression, Item, Name, NewObject, Simple, Step, WriteOperator};
use std::alloc::Global;
use tree_makers::kept::{behind, beside, pushed};
use tree_makers::make_actions::{
    make_alone, make_choice, make_object, make_print, make_return, make_step, make_swap, make_write,
};
use type_calls::{act_on, is_name, no_root, push_roots, roots_of};
use type_declarations::{
    Handing, check_handed, check_start, kept_solvers, ls_fault, making_fault, making_roots,
    object_doing, rule, wrong_unless,
};
use type_expressions::{check_expression, check_name};
use type_rules::Context;
use type_rules::classes::{class_is_ls, class_kind};
use type_rules::kinds::{asked_of, fits, is_incremental, is_number, is_printed, is_same, is_set};
use type_scopes::{Checker, Doing, Found, Frame, Scope};

/// Where a simple statement stands. That of a `for` is no part of its own: its refusals stand at the `for`,
/// behind those of the `for`'s own rule.
#[derive(Clone, Copy)]
pub struct Standing {
    /// The place of the `for`.
    pub at: Option<Place>,
    /// The `for`'s own rule holds.
    pub holds: bool,
}

/// A statement that holds no statement, and its place.
#[derive(Drop)]
pub struct Acted {
    pub place: Place,
    pub action: Action,
}

fn place_at(at: Option<Place>, own: Place) -> Place
    ensures { result ≡ simples.place_at at own }
{
    match at {
        None => own,
        Some(place) => place,
    }
}

fn is_plain(kind: Kind) -> bool
    ensures { result ≡ simples.is_plain kind }
{
    matches!(kind, Kind::Int | Kind::Bool | Kind::Range | Kind::Set)
}

#[tactic(auto, unfolding(checked_tree::specs::Shape::shape_of))]
fn is_index(form: &Form) -> bool
    ensures { result ≡ simples.is_index (shape_of form.now) }
{
    matches!(form, Form::Index { .. } | Form::Cell { .. })
}

fn is_empty(slots: &[Slot]) -> bool
    ensures { result ≡ simples.is_empty slots.now }
{
    slots.is_empty()
}

fn is_bare(target: &Typed, roots: &[Slot]) -> bool
    ensures { result ≡ simples.is_bare_with (seen target.now) roots.now }
{
    is_name(&target.form) || (is_index(&target.form) && !is_empty(roots))
}

fn value_context(operator: WriteOperator, context: Context) -> Context
    ensures { result ≡ simples.value_context operator context }
{
    match operator {
        WriteOperator::Define => Context::Term,
        _ => context,
    }
}

fn assigned_fault(is_bare: bool, target: Kind, value: Kind) -> Option<Cause>
    ensures { result ≡ simples.assigned_fault is_bare target value }
{
    if is_bare && is_plain(target) {
        wrong_unless(fits(asked_of(target), value))
    } else {
        Some(Cause::NotAssignable)
    }
}

fn added_fault(is_bare: bool, target: Kind, fit: bool) -> Option<Cause>
    ensures { result ≡ simples.added_fault is_bare target fit }
{
    if is_bare && is_plain(target) {
        wrong_unless(is_same(target, Kind::Int) && fit)
    } else {
        Some(Cause::NotAssignable)
    }
}

fn moved_fault(target: Kind, value: Kind) -> Option<Cause>
    ensures { result ≡ simples.moved_fault target value }
{
    if is_same(target, Kind::Variable) {
        wrong_unless(is_number(value))
    } else {
        Some(Cause::NotAssignable)
    }
}

fn defined_fault(target: Kind, value: Kind) -> Option<Cause>
    ensures { result ≡ simples.defined_fault target value }
{
    match target {
        Kind::Variable => wrong_unless(is_number(value)),
        Kind::SetVariable => wrong_unless(is_set(value)),
        _ => Some(Cause::NotAssignable),
    }
}

fn write_fault(operator: WriteOperator, is_bare: bool, target: Kind, value: Kind) -> Option<Cause>
    ensures { result ≡ simples.write_fault operator is_bare target value }
{
    match operator {
        WriteOperator::Set => assigned_fault(is_bare, target, value),
        WriteOperator::Add => added_fault(is_bare, target, is_number(value)),
        WriteOperator::Subtract => added_fault(is_bare, target, is_number(value)),
        WriteOperator::Assign => moved_fault(target, value),
        WriteOperator::Define => defined_fault(target, value),
    }
}

fn writing_doing(target: &Typed) -> Doing
    ensures { result ≡ simples.writing_doing (seen target.now) }
{
    Doing {
        impure: true,
        not_in_term: false,
        global: false,
        through: !is_name(&target.form) || is_incremental(target.kind),
        forbidden: false,
    }
}

/// What a statement does that writes through what it is handed, as a swap or a `call`.
pub fn through_doing() -> Doing
    ensures { result ≡ simples.through_doing }
{
    Doing {
        impure: true,
        not_in_term: false,
        global: false,
        through: true,
        forbidden: false,
    }
}

fn own_doing() -> Doing
    ensures { result ≡ simples.own_doing }
{
    Doing {
        impure: true,
        not_in_term: false,
        global: false,
        through: false,
        forbidden: false,
    }
}

#[tactic(auto, unfolding(crate::specs::Simples::write_form))]
fn check_write(
    checker: &mut Checker,
    scope: Scope,
    standing: Standing,
    target: &Expression,
    operator: WriteOperator,
    value: &Expression,
) -> Result<Acted, Stop>
    ensures { Did acted_of result checker.new
        (simples.write_form (judge target.now) operator
        (judge value.now) standing scope checker.old) }
{
    let target = check_expression(checker, scope, target)?;
    let context = value_context(operator, scope.context);
    let value = check_expression(checker, scope.within(context), value);
    let kept = beside(target, value)?;
    let place = place_at(standing.at, kept.0.start);
    let kept = behind(rule(place, wrong_unless(standing.holds)), kept)?;
    let roots = roots_of(checker.alloc(), &kept.0);
    let (kept, roots) = beside(kept, roots)?;
    let bare = is_bare(&kept.0, &roots);
    let fault = write_fault(operator, bare, kept.0.kind, kept.1.kind);
    let kept = behind(rule(place, fault), kept)?;
    let done = act_on(checker, place, scope, writing_doing(&kept.0), &roots);
    let (target, value) = behind(done, kept)?;
    let action = make_write(checker.alloc(), target, operator, value)?;
    Ok(Acted { place, action })
}

fn swap_fault(left: Kind, right: Kind) -> Option<Cause>
    ensures { result ≡ simples.swap_fault left right }
{
    if is_same(left, Kind::Variable) && is_same(right, Kind::Variable) {
        None
    } else {
        Some(Cause::NotAssignable)
    }
}

fn roots_of_both(alloc: Global, left: &Typed, right: &Typed) -> Result<Vec<Slot>, Stop>
    ensures { Makes (λ roots. roots.items) result
        (roots_in.roots_of (whole (seen left.now)) ++ roots_in.roots_of (whole (seen right.now))) }
{
    let mut roots = roots_of(alloc, left)?;
    push_roots(right, &mut roots)?;
    Ok(roots)
}

#[tactic(auto, unfolding(crate::specs::Simples::swap_form))]
fn check_swap(
    checker: &mut Checker,
    scope: Scope,
    standing: Standing,
    left: &Expression,
    right: &Expression,
) -> Result<Acted, Stop>
    ensures { Did acted_of result checker.new
        (simples.swap_form (judge left.now) (judge right.now) standing scope checker.old) }
{
    let left = check_expression(checker, scope, left)?;
    let kept = beside(left, check_expression(checker, scope, right))?;
    let place = place_at(standing.at, kept.0.start);
    let kept = behind(rule(place, wrong_unless(standing.holds)), kept)?;
    let kept = behind(rule(place, swap_fault(kept.0.kind, kept.1.kind)), kept)?;
    let roots = roots_of_both(checker.alloc(), &kept.0, &kept.1);
    let (kept, roots) = beside(kept, roots)?;
    let done = act_on(checker, place, scope, through_doing(), &roots);
    let (left, right) = behind(done, kept)?;
    let action = make_swap(checker.alloc(), left, right)?;
    Ok(Acted { place, action })
}

#[tactic(auto, unfolding(crate::specs::Simples::step_form))]
fn check_step(
    checker: &mut Checker,
    scope: Scope,
    standing: Standing,
    target: &Expression,
    step: Step,
) -> Result<Acted, Stop>
    ensures { Did acted_of result checker.new
        (simples.step_form (judge target.now) step standing scope checker.old) }
{
    let target = check_expression(checker, scope, target)?;
    let place = place_at(standing.at, target.start);
    let target = behind(rule(place, wrong_unless(standing.holds)), target)?;
    let roots = roots_of(checker.alloc(), &target);
    let (target, roots) = beside(target, roots)?;
    let fault = added_fault(is_bare(&target, &roots), target.kind, true);
    let target = behind(rule(place, fault), target)?;
    let done = act_on(checker, place, scope, writing_doing(&target), &roots);
    let target = behind(done, target)?;
    let action = make_step(target, step);
    Ok(Acted { place, action })
}

#[tactic(auto, unfolding(crate::specs::Simples::alone_form))]
fn check_alone(
    checker: &mut Checker,
    scope: Scope,
    standing: Standing,
    expression: &Expression,
) -> Result<Acted, Stop>
    ensures { Did acted_of result checker.new
        (simples.alone_form (judge expression.now) standing scope checker.old) }
{
    let value = check_expression(checker, scope, expression)?;
    let place = place_at(standing.at, value.start);
    let value = behind(rule(place, wrong_unless(standing.holds)), value)?;
    let fault = wrong_unless(!is_same(value.kind, Kind::Move));
    let value = behind(rule(place, fault), value)?;
    let action = make_alone(value);
    Ok(Acted { place, action })
}

fn is_object(kind: Kind) -> bool
    ensures { result ≡ simples.is_object kind }
{
    matches!(
        kind,
        Kind::Solver
            | Kind::System
            | Kind::Objective
            | Kind::Total
            | Kind::Distribution
            | Kind::Input
            | Kind::Selector
            | Kind::Monitor
            | Kind::Solution
    )
}

fn new_fault(target: Kind, kind: Kind, arguments: &[Typed]) -> Option<Cause>
    ensures { result ≡ simples.new_fault target kind (map seen arguments.now) }
{
    if is_plain(target) || is_object(target) {
        if is_same(target, kind) {
            making_fault(kind, arguments)
        } else {
            Some(Cause::WrongType)
        }
    } else {
        Some(Cause::NotAssignable)
    }
}

fn is_same_slot(one: Slot, other: Slot) -> bool
    ensures { result ≡ simples.same_slot one other }
{
    match (one, other) {
        (Slot::Global(one), Slot::Global(other)) => one == other,
        (Slot::Local(one), Slot::Local(other)) => one == other,
        (Slot::Global(_), Slot::Local(_)) => false,
        (Slot::Local(_), Slot::Global(_)) => false,
    }
}

fn is_kept(kept: &[Slot], slot: Slot) -> bool
    ensures { result ≡ list_any (simples.same_slot slot) kept.now }
{
    kept.iter().any(|other| is_same_slot(slot, *other))
}

fn push_other(kept: &[Slot], slot: &Slot, roots: &mut Vec<Slot>) -> Result<(), Stop>
    ensures ok { OnOk result (roots.new.items ≡ roots.old.items ++ (if list_any (simples.same_slot slot.now) kept.now then [] else slot.now ∷ [])) }
    ensures err { IfErr result (λ stop. stop ≡ stops.NoMemory) }
{
    if !is_kept(kept, *slot) {
        roots.push(*slot)?;
    }
    Ok(())
}

/// Adds those cells that are not among the kept ones.
fn push_others(kept: &[Slot], slots: &[Slot], roots: &mut Vec<Slot>) -> Result<(), Stop>
    ensures ok { OnOk result (roots.new.items ≡
        roots.old.items ++ simples.others kept.now slots.now) }
    ensures err { IfErr result (λ stop. stop ≡ stops.NoMemory) }
{
    for slot in slots {
        push_other(kept, slot, roots)?;
    }
    Ok(())
}

fn solvers_found(checker: &Checker, found: Option<Found>) -> &[Slot]
    ensures { result.now ≡ simples.solvers_found checker.now.names found }
{
    match found {
        None => &[],
        Some(found) => checker.solvers_at(found.index),
    }
}

/// What the new object writes.
fn renewing_roots(
    checker: &Checker,
    name: &Name,
    kind: Kind,
    handed: &Handing,
) -> Result<Vec<Slot>, Stop>
    ensures { Makes (λ roots. roots.items) result
        (simples.renewing_roots (simples.solvers_found checker.now.names
        (names.look name.now.text checker.now.names)) kind (handing_of handed.now)) }
{
    let kept = solvers_found(checker, checker.look(name.text.as_slice()));
    let mut roots = making_roots(checker.alloc(), kind, handed)?;
    let solvers = kept_solvers(checker.alloc(), kind, handed)?;
    push_others(kept, &solvers, &mut roots)?;
    Ok(roots)
}

#[tactic(auto, unfolding(checked_tree::specs::Shape::shape_of))]
fn slot_in(form: &Form) -> Slot
    ensures { result ≡ simples.slot_in (shape_of form.now) }
{
    match form {
        Form::Name(slot) => *slot,
        _ => Slot::Global(0),
    }
}

fn renew(
    checker: &mut Checker,
    place: Place,
    name: &Name,
    is_ls: bool,
    target: &Typed,
    kind: Kind,
    handed: Handing,
    scope: Scope,
) -> Result<Action, Stop>
    ensures { Did deed_of result checker.new
        (simples.renewed place name.now is_ls (seen target.now) kind
        (handing_of handed) scope checker.old) }
{
    let fault = new_fault(target.kind, kind, &handed.arguments);
    let handed = behind(rule(place, fault), handed)?;
    let (handed, own) = beside(handed, roots_of(checker.alloc(), target))?;
    let done = act_on(checker, place, scope, own_doing(), &own);
    let handed = behind(done, handed)?;
    let roots = renewing_roots(checker, name, kind, &handed);
    let (handed, roots) = beside(handed, roots)?;
    let done = act_on(checker, place, scope, object_doing(kind), &roots);
    let handed = behind(done, handed)?;
    let handed = behind(rule(place, ls_fault(is_ls)), handed)?;
    Ok(make_object(slot_in(&target.form), kind, handed.arguments))
}

#[tactic(auto, unfolding(crate::specs::Simples::new_form))]
fn check_new(
    checker: &mut Checker,
    scope: Scope,
    standing: Standing,
    object: &NewObject,
) -> Result<Acted, Stop>
    ensures { Did acted_of result checker.new
        (simples.new_form object.now standing scope checker.old) }
{
    let target = check_name(checker, scope, &object.name)?;
    let kind = class_kind(&object.class.kind);
    let handed = check_handed(checker, scope, kind, &object.arguments);
    let kept = beside(target, handed)?;
    let place = place_at(standing.at, object.name.place);
    let kept = behind(rule(place, wrong_unless(standing.holds)), kept)?;
    let (target, handed) = kept;
    let is_ls = class_is_ls(&object.class.kind);
    let action = renew(
        checker,
        place,
        &object.name,
        is_ls,
        &target,
        kind,
        handed,
        scope,
    );
    drop(target);
    let action = action?;
    Ok(Acted { place, action })
}

fn printed_text(alloc: Global, text: &Text) -> Result<Printed, Stop>
    ensures { Makes printed_of result (deeds.text text.now) }
{
    let text = Text::from_slice(alloc, text.as_slice())?;
    Ok(Printed::Text(text))
}

#[tactic(auto, unfolding(crate::specs::Simples::item_form))]
fn check_item(checker: &mut Checker, scope: Scope, item: &Item) -> Result<Printed, Stop>
    ensures { Did printed_of result checker.new (simples.item_form item.now scope checker.old) }
{
    match item {
        Item::Expression(expression) => {
            let value = check_expression(checker, scope, expression)?;
            Ok(Printed::Value(value))
        }
        Item::Str(text) => printed_text(checker.alloc(), text),
        Item::EndLine => Ok(Printed::EndLine),
    }
}

#[tactic(auto, unfolding(crate::specs::Simples::shown_form))]
fn check_next_item(
    checker: &mut Checker,
    scope: Scope,
    printed: Vec<Printed>,
    item: &Item,
) -> Result<Vec<Printed>, Stop>
    ensures { Did printed_list result checker.new
        (simples.shown_form scope (map printed_of printed.items)
        (simples.item_form item.now) checker.old) }
{
    let (printed, item) = beside(printed, check_item(checker, scope, item))?;
    let printed = pushed(printed, item)?;
    Ok(printed)
}

fn check_items(checker: &mut Checker, scope: Scope, items: &[Item]) -> Result<Vec<Printed>, Stop>
    ensures { Did printed_list result checker.new
        (simples.items_form (map simples.item_form items.now) scope checker.old) }
{
    let mut printed = Vec::new(checker.alloc());
    for item in items {
        printed = check_next_item(checker, scope, printed, item)?;
    }
    Ok(printed)
}

fn is_shown(printed: &Printed) -> bool
    ensures { result ≡ simples.is_shown (printed_of printed.now) }
{
    match printed {
        Printed::Value(value) => is_printed(value.kind),
        Printed::Text(_) => true,
        Printed::EndLine => true,
    }
}

fn all_shown_of(printed: &[Printed]) -> bool
    ensures { result ≡ list_all (λ p. simples.is_shown (printed_of p)) printed.now }
{
    printed.iter().all(|item| is_shown(item))
}

fn all_shown(printed: &[Printed]) -> bool
    ensures { result ≡ simples.all_shown (map printed_of printed.now) }
{
    all_shown_of(printed)
}

#[tactic(auto, unfolding(crate::specs::Simples::print_form))]
fn check_print(
    checker: &mut Checker,
    scope: Scope,
    standing: Standing,
    own: Place,
    items: &[Item],
) -> Result<Acted, Stop>
    ensures { Did acted_of result checker.new
        (simples.print_form own items.now standing scope checker.old) }
{
    let printed = check_items(checker, scope, items)?;
    let place = place_at(standing.at, own);
    let printed = behind(rule(place, wrong_unless(standing.holds)), printed)?;
    let fault = wrong_unless(all_shown(&printed));
    let printed = behind(rule(place, fault), printed)?;
    let done = act_on(checker, place, scope, own_doing(), no_root());
    let printed = behind(done, printed)?;
    let action = make_print(printed);
    Ok(Acted { place, action })
}

#[tactic(auto, unfolding(crate::specs::Simples::choice_form))]
fn check_choice(
    checker: &mut Checker,
    scope: Scope,
    standing: Standing,
    own: Place,
    chosen: &Expression,
) -> Result<Acted, Stop>
    ensures { Did acted_of result checker.new
        (simples.choice_form own (judge chosen.now) standing scope checker.old) }
{
    let chosen = check_expression(checker, scope, chosen)?;
    let place = place_at(standing.at, own);
    let chosen = behind(rule(place, wrong_unless(standing.holds)), chosen)?;
    let fault = wrong_unless(is_same(chosen.kind, Kind::Move));
    let chosen = behind(rule(place, fault), chosen)?;
    let roots = roots_of(checker.alloc(), &chosen);
    let (chosen, roots) = beside(chosen, roots)?;
    let done = act_on(checker, place, scope, through_doing(), &roots);
    let chosen = behind(done, chosen)?;
    let action = make_choice(chosen);
    Ok(Acted { place, action })
}

/// Judges a simple statement. Refused at the first part in it that is, and else where it stands; `NoMemory` where
/// memory runs out.
#[tactic(auto, unfolding(crate::specs::Simples::simple_form))]
pub fn check_simple(
    checker: &mut Checker,
    scope: Scope,
    standing: Standing,
    simple: &Simple,
) -> Result<Acted, Stop>
    ensures { Did acted_of result checker.new
        (simples.simple_form simple.now standing scope checker.old) }
{
    match simple {
        Simple::Write {
            target,
            operator,
            value,
        } => check_write(checker, scope, standing, target, *operator, value),
        Simple::Swap { left, right } => check_swap(checker, scope, standing, left, right),
        Simple::Step { target, step } => check_step(checker, scope, standing, target, *step),
        Simple::Postfix(expression) => check_alone(checker, scope, standing, expression),
        Simple::New(object) => check_new(checker, scope, standing, object),
        Simple::Print { place, items } => check_print(checker, scope, standing, *place, items),
        Simple::Call { place, chosen } => check_choice(checker, scope, standing, *place, chosen),
    }
}

fn return_in(given: Kind, is_apart: bool, value: &Option<Typed>) -> Option<Cause>
    ensures { result ≡ simples.return_in given is_apart (option_map seen value.now) }
{
    match value {
        None => {
            if is_apart || !is_same(given, Kind::Nothing) {
                Some(Cause::MisplacedReturn)
            } else {
                None
            }
        }
        Some(value) => {
            if is_same(given, Kind::Nothing) {
                Some(Cause::MisplacedReturn)
            } else if !fits(asked_of(given), value.kind) {
                Some(Cause::WrongType)
            } else if is_apart {
                Some(Cause::MisplacedReturn)
            } else {
                None
            }
        }
    }
}

fn return_fault(function: Option<Frame>, is_apart: bool, value: &Option<Typed>) -> Option<Cause>
    ensures { result ≡ simples.return_fault function is_apart (option_map seen value.now) }
{
    match function {
        None => Some(Cause::MisplacedReturn),
        Some(frame) => return_in(frame.result, is_apart, value),
    }
}

/// Judges a `return`. Refused exactly as its value is, and else at this place; `NoMemory` where memory runs out.
#[tactic(auto, unfolding(crate::specs::Simples::return_form))]
pub fn check_return(
    checker: &mut Checker,
    scope: Scope,
    place: Place,
    value: Option<&Expression>,
) -> Result<Action, Stop>
    ensures { Did deed_of result checker.new
        (simples.return_form place (option_map (λ e. judge e.now) value.entry) scope checker.old) }
{
    let value = check_start(checker, scope, value)?;
    let fault = return_fault(scope.function, scope.no_return, &value);
    let value = behind(rule(place, fault), value)?;
    Ok(make_return(value))
}
