//! What names, numbers and truths are.
ghost use Rattle.std.specs.Prelude.{◌≡◌, false};
ghost use Rattle.checked_tree.specs.Shape as shapes;
ghost use Rattle.checked_tree.specs.Shape.{seen};
ghost use Rattle.checked_tree.specs.declared.kind.Kind.TheVariants as kind;
ghost use Rattle.type_scopes.specs.Did.{Did};
ghost use Rattle.type_expressions.specs.Expressions as expressions;

use cbl_base::Place;
use checked_tree::{Cause, Kind, Slot, Stop, Typed};
use comet_syntax::tree::Name;
use tree_makers::kept::behind;
use tree_makers::make_expressions::{make_name, make_number, make_truth};
use type_calls::made;
use type_rules::kinds::{is_incremental, is_same};
use type_rules::rules::{is_term, with_moving};
use type_rules::{Context, Note};
use type_scopes::{Checker, Found, Scope};

fn name_rule(context: Context, kind: Kind) -> Result<Note, Cause>
    ensures { result ≡ expressions.name_rule context kind }
{
    if is_same(kind, Kind::Function) {
        Err(Cause::WrongType)
    } else {
        with_moving(kind, is_term(context) && is_incremental(kind))
    }
}

/// Notes an incremental variable that a term names.
fn noted(checker: &mut Checker, slot: Slot, typed: Typed) -> Result<Typed, Stop>
    ensures { Did seen result checker.new (expressions.noted slot (seen typed) checker.old) }
{
    if typed.moving {
        let typed = behind(checker.name_in_term(slot), typed)?;
        Ok(typed)
    } else {
        Ok(typed)
    }
}

fn named(
    checker: &mut Checker,
    place: Place,
    scope: Scope,
    found: Option<Found>,
) -> Result<Typed, Stop>
    ensures { Did seen result checker.new (expressions.named place scope found checker.old) }
{
    match found {
        None => Err(Stop::Fault(place, Cause::UnknownName)),
        Some(found) => {
            let slot = scope.slot_of(found.index);
            let typed = made(
                place,
                place,
                make_name(slot),
                name_rule(scope.context, found.kind),
            )?;
            noted(checker, slot, typed)
        }
    }
}

/// What a name is.
#[tactic(auto, unfolding(crate::specs::Expressions::name_form))]
pub fn check_name(checker: &mut Checker, scope: Scope, name: &Name) -> Result<Typed, Stop>
    ensures { Did seen result checker.new (expressions.name_form name.now scope checker.old) }
{
    let found = checker.look(name.text.as_slice());
    named(checker, name.place, scope, found)
}

pub(crate) fn check_number(value: &i64, place: Place) -> Typed
    ensures { seen result ≡ record { start = place; place = place; kind = kind.Int; moving = false; form = shapes.number value.now } }
{
    Typed {
        start: place,
        place,
        kind: Kind::Int,
        moving: false,
        form: make_number(value),
    }
}

pub(crate) fn check_truth(value: bool, place: Place) -> Typed
    ensures { seen result ≡ record { start = place; place = place; kind = kind.Bool; moving = false; form = shapes.truth value } }
{
    Typed {
        start: place,
        place,
        kind: Kind::Bool,
        moving: false,
        form: make_truth(value),
    }
}
