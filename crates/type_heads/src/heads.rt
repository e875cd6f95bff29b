//! Statements that hold no statement, and the heads of those that hold some.
ghost use Rattle.std.specs.Prelude.{◌≡◌, ◌&&◌, map, option_map};
ghost use Rattle.checked_tree.specs.Shape.{seen, whole, shape_of_generator};
ghost use Rattle.checked_tree.specs.Actions.{deed_of};
ghost use Rattle.checked_tree.specs.Actions as deeds;
ghost use Rattle.checked_tree.specs.Tasks as works;
ghost use Rattle.checked_tree.specs.Tasks.{counter_of, work_of};
ghost use Rattle.type_scopes.specs.Did.{Did};
ghost use Rattle.type_scopes.specs.Names as names;
ghost use Rattle.type_scopes.specs.State as acts;
ghost use Rattle.type_scopes.specs.State.{Went};
ghost use Rattle.type_expressions.specs.Expressions.{judge, judge_generators};
ghost use Rattle.type_declarations.specs.Parts as parts;
ghost use Rattle.type_declarations.specs.Declarations as declarations;
ghost use Rattle.type_simples.specs.Simples as simples;
ghost use Rattle.type_heads.specs.Heads as heads;
ghost use Rattle.type_heads.specs.View.{head_of, choice_of};

use cbl_base::Place;
use checked_tree::{
    Action, Cause, Choice, Counter, EventSlots, Head, Kind, Slot, Stop, Task, Typed,
};
use comet_syntax::tree::{
    Declaration, Events, Expression, ForHead, ForStart, Generators, Name, Simple, Watched,
};
use tree_makers::kept::{behind, beside};
use tree_makers::make_actions::make_nothing;
use tree_makers::make_tasks::make_action;
use type_calls::{act_on, no_root, roots_of};
use type_declarations::{check_declaration, check_start, declaration_place, rule, wrong_unless};
use type_expressions::{check_condition, check_expression, condition_note, generated};
use type_rules::kinds::{is_number, is_range, is_same, is_set, is_truth};
use type_scopes::{Checker, Doing, Found, Scope};
use type_simples::{Standing, check_return, check_simple, through_doing};

/// A statement that does nothing.
#[tactic(auto, unfolding(crate::specs::Heads::deed_form))]
pub fn check_empty(place: Place) -> Task
    ensures { (scope : Scope) (s : acts.State) →
        heads.deed_form place (λ at. acts.give deeds.nothing) scope s ≡ Went (work_of result) s }
{
    make_action(place, make_nothing())
}

/// Judges a declaration as a statement. Refused exactly as it is; `NoMemory` where memory runs out.
#[tactic(auto, unfolding(crate::specs::Heads::deed_form))]
pub fn check_declared(
    checker: &mut Checker,
    scope: Scope,
    declaration: &Declaration,
) -> Result<Task, Stop>
    ensures { Did work_of result checker.new
        (heads.deed_form (declarations.declaration_place declaration.now)
        (declarations.declaration_form declaration.now) scope checker.old) }
{
    let place = declaration_place(declaration);
    let action = check_declaration(checker, scope, declaration)?;
    Ok(make_action(place, action))
}

/// Judges a simple statement that is no part of a `for`. Refused exactly as it is; `NoMemory` where memory runs out.
#[tactic(auto, unfolding(crate::specs::Heads::acted_form))]
pub fn check_acted(checker: &mut Checker, scope: Scope, simple: &Simple) -> Result<Task, Stop>
    ensures { Did work_of result checker.new
        (heads.acted_form (simples.simple_form simple.now) scope checker.old) }
{
    let standing = Standing {
        at: None,
        holds: true,
    };
    let acted = check_simple(checker, scope, standing, simple)?;
    Ok(make_action(acted.place, acted.action))
}

/// Judges a `return` as a statement. Refused exactly as it is; `NoMemory` where memory runs out.
#[tactic(auto, unfolding(crate::specs::Heads::deed_form))]
pub fn check_returned(
    checker: &mut Checker,
    scope: Scope,
    place: Place,
    value: Option<&Expression>,
) -> Result<Task, Stop>
    ensures { Did work_of result checker.new
        (heads.deed_form place (simples.return_form place
        (option_map (λ e. judge e.now) value.entry)) scope checker.old) }
{
    let action = check_return(checker, scope, place, value)?;
    Ok(make_action(place, action))
}

/// The fault of a test of this kind, if it has one.
pub fn truth_fault(kind: Kind) -> Option<Cause>
    ensures { result ≡ heads.truth_fault kind }
{
    wrong_unless(is_truth(kind))
}

#[tactic(auto, unfolding(crate::specs::Heads::counter_form))]
fn check_counter(
    checker: &mut Checker,
    scope: Scope,
    start: &Option<ForStart>,
) -> Result<Option<Counter>, Stop>
    ensures { Did (option_map counter_of) result checker.new
        (heads.counter_form start.now scope checker.old) }
{
    match start {
        None => Ok(None),
        Some(start) => {
            let value = check_expression(checker, scope, &start.value)?;
            let slot = scope.slot_of(checker.count());
            let declared = checker.declare(start.name.text.as_slice(), Kind::Int);
            let value = behind(declared, value)?;
            Ok(Some(Counter { slot, start: value }))
        }
    }
}

fn counter_fits(counter: &Option<Counter>) -> bool
    ensures { result ≡ heads.counter_fits (option_map counter_of counter.now) }
{
    match counter {
        None => true,
        Some(counter) => is_number(counter.start.kind),
    }
}

fn test_fits(test: &Option<Typed>) -> bool
    ensures { result ≡ heads.test_fits (option_map seen test.now) }
{
    match test {
        None => true,
        Some(test) => is_truth(test.kind),
    }
}

#[tactic(auto, unfolding(crate::specs::Heads::step_part))]
fn check_step(
    checker: &mut Checker,
    scope: Scope,
    place: Place,
    holds: bool,
    step: &Option<Simple>,
) -> Result<Option<Action>, Stop>
    ensures { Did (option_map deed_of) result checker.new
        (heads.step_part place holds step.now scope checker.old) }
{
    match step {
        None => Ok(None),
        Some(step) => {
            let standing = Standing {
                at: Some(place),
                holds,
            };
            let acted = check_simple(checker, scope, standing, step)?;
            Ok(Some(acted.action))
        }
    }
}

fn head_fits(counter: &Option<Counter>, test: &Option<Typed>) -> bool
    ensures { result ≡ (heads.counter_fits (option_map counter_of counter.now) && heads.test_fits
        (option_map seen test.now)) }
{
    counter_fits(counter) && test_fits(test)
}

fn head_fault(counter: &Option<Counter>, test: &Option<Typed>) -> Option<Cause>
    ensures { result ≡ parts.wrong_unless
        (heads.counter_fits (option_map counter_of counter.now) && heads.test_fits
        (option_map seen test.now)) }
{
    wrong_unless(head_fits(counter, test))
}

/// The parts of a `for`, where its own rule holds.
fn held(place: Place, fault: Option<Cause>, head: Head) -> Result<Head, Stop>
    ensures { (s : acts.State) → Did head_of result s (heads.held place fault (head_of head) s) }
{
    match fault {
        None => Ok(head),
        Some(cause) => {
            drop(head);
            Err(Stop::Fault(place, cause))
        }
    }
}

/// Judges what stands in a `for` before its body. Refused exactly as its parts are, and else at this place;
/// `NoMemory` where memory runs out.
#[tactic(auto, unfolding(crate::specs::Heads::head_form))]
pub fn check_head(
    checker: &mut Checker,
    scope: Scope,
    place: Place,
    head: &ForHead,
) -> Result<Head, Stop>
    ensures { Did head_of result checker.new (heads.head_form place head.now scope checker.old) }
{
    let counter = check_counter(checker, scope, &head.start)?;
    let test = check_start(checker, scope, head.test.as_ref())?;
    let holds = head_fits(&counter, &test);
    let step = check_step(checker, scope, place, holds, &head.step)?;
    let fault = head_fault(&counter, &test);
    held(
        place,
        fault,
        Head {
            counter,
            test,
            step,
        },
    )
}

/// Judges generators, and their condition in a scope of its own. Refused exactly as these are; `NoMemory` where
/// memory runs out.
#[tactic(auto, unfolding(crate::specs::Heads::chosen_form))]
pub fn check_choice(
    checker: &mut Checker,
    at: Scope,
    scope: Scope,
    generators: &Generators,
) -> Result<Choice, Stop>
    ensures { Did choice_of result checker.new
        (heads.chosen_form (judge_generators generators.now) at scope checker.old) }
{
    let checked = generated(checker, scope, generators)?;
    let (generators, condition) = beside(checked, check_condition(checker, at, generators))?;
    Ok(Choice {
        generators,
        condition,
    })
}

/// The fault of a condition, if it has one.
pub fn condition_fault(condition: &Option<Typed>) -> Option<Cause>
    ensures { result ≡ heads.condition_fault (option_map seen condition.now) }
{
    truth_fault(condition_note(condition).kind)
}

/// The fault of a condition and a key of this kind, if they have one.
pub fn key_fault(condition: &Option<Typed>, kind: Kind) -> Option<Cause>
    ensures { result ≡ heads.key_fault (option_map seen condition.now) kind }
{
    wrong_unless(is_truth(condition_note(condition).kind) && is_number(kind))
}

fn write_found(
    checker: &mut Checker,
    place: Place,
    kind: Kind,
    fit: bool,
    scope: Scope,
    found: Option<Found>,
) -> Result<Slot, Stop>
    ensures { Did (λ slot. slot) result checker.new
        (heads.written_found place kind fit scope found checker.old) }
{
    match found {
        None => Err(Stop::Fault(place, Cause::UnknownName)),
        Some(found) => {
            rule(place, wrong_unless(is_same(found.kind, kind) && fit))?;
            let slot = scope.slot_of(found.index);
            act_on(checker, place, scope, through_doing(), &[slot])?;
            Ok(slot)
        }
    }
}

/// Judges a name that is no expression, and is written. Refused at this place; `NoMemory` where memory runs out.
#[tactic(auto, unfolding(crate::specs::Heads::written_name))]
pub fn write_name(
    checker: &mut Checker,
    place: Place,
    kind: Kind,
    fit: bool,
    name: &Name,
    scope: Scope,
) -> Result<Slot, Stop>
    ensures { Did (λ slot. slot) result checker.new
        (heads.written_name place kind fit name.now scope checker.old) }
{
    let found = checker.look(name.text.as_slice());
    write_found(checker, place, kind, fit, scope, found)
}

/// Where statements run later or apart.
pub fn apart(scope: Scope) -> Scope
    ensures { result ≡ heads.apart scope }
{
    Scope {
        no_return: true,
        ..scope
    }
}

fn same_events(names: &Option<Events>) -> bool
    ensures { result ≡ heads.same_events names.now }
{
    match names {
        None => false,
        Some(names) => names.old.text.as_slice() == names.new.text.as_slice(),
    }
}

fn is_change(event: &Name) -> bool
    ensures { result ≡ heads.is_change event.now }
{
    event.text.as_slice() == "changes".as_bytes()
}

fn watch_fault(watched: &Watched, kind: Kind) -> Option<Cause>
    ensures { result ≡ heads.watch_fault watched.now kind }
{
    if same_events(&watched.names) {
        Some(Cause::DeclaredTwice)
    } else {
        wrong_unless(is_change(&watched.event) && is_same(kind, Kind::Variable))
    }
}

/// Judges what a `whenever` watches. Refused exactly as the variable is, and else at this place; `NoMemory` where
/// memory runs out.
#[tactic(auto, unfolding(crate::specs::Heads::watched_form))]
pub fn check_watched(
    checker: &mut Checker,
    scope: Scope,
    place: Place,
    watched: &Watched,
) -> Result<Typed, Stop>
    ensures { Did seen result checker.new (heads.watched_form place watched.now scope checker.old) }
{
    let variable = check_expression(checker, scope, &watched.variable)?;
    let variable = behind(rule(place, watch_fault(watched, variable.kind)), variable)?;
    let roots = roots_of(checker.alloc(), &variable);
    let (variable, roots) = beside(variable, roots)?;
    let written = act_on(checker, place, scope, through_doing(), &roots);
    let variable = behind(written, variable)?;
    Ok(variable)
}

/// Declares the names of a `whenever`, where it has them. `NoMemory` where memory runs out.
#[tactic(auto, unfolding(crate::specs::Heads::events_form))]
pub fn declare_events(
    checker: &mut Checker,
    scope: Scope,
    names: &Option<Events>,
) -> Result<Option<EventSlots>, Stop>
    ensures { Did (λ slots. slots) result checker.new
        (heads.events_form names.now scope checker.old) }
{
    match names {
        None => Ok(None),
        Some(names) => {
            let old = scope.slot_of(checker.count());
            checker.declare(names.old.text.as_slice(), Kind::Int)?;
            let new = scope.slot_of(checker.count());
            checker.declare(names.new.text.as_slice(), Kind::Int)?;
            Ok(Some(EventSlots { old, new }))
        }
    }
}

fn parall_doing() -> Doing
    ensures { result ≡ heads.parall_doing }
{
    Doing {
        impure: true,
        not_in_term: false,
        global: false,
        through: false,
        forbidden: true,
    }
}

fn domain_fault(kind: Kind) -> Option<Cause>
    ensures { result ≡ heads.domain_fault kind }
{
    wrong_unless(is_range(kind) || is_set(kind))
}

/// Judges what a `parall` ranges over. Refused exactly as that is, and else at this place; `NoMemory` where memory
/// runs out.
#[tactic(auto, unfolding(crate::specs::Heads::shared_form))]
pub fn check_shared(
    checker: &mut Checker,
    scope: Scope,
    place: Place,
    domain: &Expression,
) -> Result<Typed, Stop>
    ensures { Did seen result checker.new
        (heads.shared_form place (judge domain.now) scope checker.old) }
{
    let domain = check_expression(checker, scope, domain)?;
    let domain = behind(rule(place, domain_fault(domain.kind)), domain)?;
    let done = act_on(checker, place, scope, parall_doing(), no_root());
    let domain = behind(done, domain)?;
    Ok(domain)
}

/// In a `parall`, behind so many names.
pub fn in_parall(count: usize, scope: Scope) -> Scope
    ensures { result ≡ heads.in_parall count scope }
{
    Scope {
        parall: Some(count.saturating_sub(scope.globals)),
        no_return: true,
        ..scope
    }
}
