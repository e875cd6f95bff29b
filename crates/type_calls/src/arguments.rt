//! What every form of an expression ends with.
ghost use Rattle.std.specs.Prelude.{◌≡◌, ◌&&◌, map, zip};
ghost use Rattle.std.specs.List.{list_all, list_any};
ghost use Rattle.type_rules.specs.Kinds as kinds_of;
ghost use Rattle.type_scopes.specs.Did.{Did};
ghost use Rattle.checked_tree.specs.Shape.{shape_of, seen};
ghost use Rattle.type_scopes.specs.State.{State};
ghost use Rattle.type_calls.specs.Arguments as calls;

use cbl_base::Place;
use checked_tree::{Cause, Form, Kind, Stop, Typed};
use type_rules::kinds::{asked_of, fits, is_number};
use type_rules::rules::is_constraint;
use type_rules::{Asked, Note, Want};

/// An expression as its rule gives it.
pub fn made(
    start: Place,
    place: Place,
    form: Form,
    ruling: Result<Note, Cause>,
) -> Result<Typed, Stop>
    ensures { (s : State) → Did seen result s (calls.made start place (shape_of form) ruling s) }
{
    match ruling {
        Ok(note) => Ok(Typed {
            start,
            place,
            kind: note.kind,
            moving: note.moving,
            form,
        }),
        Err(cause) => Err(Stop::Fault(place, cause)),
    }
}

pub fn note_of(typed: &Typed) -> Note
    ensures { result ≡ calls.note_of (seen typed.now) }
{
    Note {
        kind: typed.kind,
        moving: typed.moving,
    }
}

fn all_numbers_of(values: &[Typed]) -> bool
    ensures { result ≡ list_all (λ e. kinds_of.is_number e.kind) values.now }
{
    values.iter().all(|value| is_number(value.kind))
}

pub fn all_numbers(values: &[Typed]) -> bool
    ensures { result ≡ calls.all_numbers (map seen values.now) }
{
    all_numbers_of(values)
}

fn any_moving_of(values: &[Typed]) -> bool
    ensures { result ≡ list_any (λ e. e.moving) values.now }
{
    values.iter().any(|value| value.moving)
}

pub fn any_moving(values: &[Typed]) -> bool
    ensures { result ≡ calls.any_moving (map seen values.now) }
{
    any_moving_of(values)
}

pub fn suits(asked: Asked, note: Note) -> bool
    ensures { result ≡ calls.suits asked note }
{
    match asked {
        Asked::Constraint => is_constraint(note),
        _ => fits(asked, note.kind),
    }
}

fn all_suit_of(wants: &[Want], values: &[Typed]) -> bool
    ensures { result ≡ list_all (λ (w, e). calls.suits w.asked (calls.note_of (seen e)))
        (zip wants.now values.now) }
{
    wants
        .iter()
        .zip(values)
        .all(|(want, value)| suits(want.asked, note_of(value)))
}

pub fn all_suit(wants: &[Want], values: &[Typed]) -> bool
    ensures { result ≡ calls.all_suit wants.now (map seen values.now) }
{
    all_suit_of(wants, values)
}

fn any_unfixed_of(wants: &[Want], values: &[Typed]) -> bool
    ensures { result ≡ list_any (λ (w, e). w.fixed && e.moving) (zip wants.now values.now) }
{
    wants
        .iter()
        .zip(values)
        .any(|(want, value)| want.fixed && value.moving)
}

pub fn any_unfixed(wants: &[Want], values: &[Typed]) -> bool
    ensures { result ≡ calls.any_unfixed wants.now (map seen values.now) }
{
    any_unfixed_of(wants, values)
}

fn all_fit_of(kinds: &[Kind], values: &[Typed]) -> bool
    ensures { result ≡ list_all (λ (k, e). kinds_of.fits (kinds_of.asked_of k) e.kind)
        (zip kinds.now values.now) }
{
    kinds
        .iter()
        .zip(values)
        .all(|(kind, value)| fits(asked_of(*kind), value.kind))
}

pub fn all_fit(kinds: &[Kind], values: &[Typed]) -> bool
    ensures { result ≡ calls.all_fit kinds.now (map seen values.now) }
{
    all_fit_of(kinds, values)
}

pub fn arguments_fault(wants: &[Want], least: usize, values: &[Typed]) -> Option<Cause>
    ensures { result ≡ calls.arguments_fault wants.now least (map seen values.now) }
{
    if values.len() < least || wants.len() < values.len() {
        Some(Cause::WrongCount)
    } else if all_suit(wants, values) {
        None
    } else {
        Some(Cause::WrongType)
    }
}
