//! The scan of the candidates of a selector.
ghost use Rattle.std.specs.Prelude.{◌≡◌, ◌+◌, ℕ, List, [], None, IfOk, map};
ghost use Rattle.checked_tree.specs.Shape.{optional, shape_of_generator};
ghost use Rattle.comet_meaning.specs.Candidates.{named};
ghost use Rattle.comet_meaning.specs.Generators.{bind, generated};
ghost use Rattle.comet_meaning.specs.Program.{level};
ghost use Rattle.comet_meaning.specs.Selection as selection;
ghost use Rattle.comet_meaning.specs.Selection.{Rated, rated_form, scanned};
ghost use Rattle.ls_select.specs.Candidates.{stop_in};
ghost use Rattle.run_steps.specs.OfRunState.Views.{state_seen};
ghost use Rattle.run_steps.specs.Does.{Does};
ghost use Rattle.run_steps.specs.Views.{part};
ghost use Rattle.run_steps.specs.OfRunOutside.Told.{Told};
ghost use Rattle.run_values.specs.Did.{Did};
ghost use Rattle.search_forms.specs.Asking.{condition_of, key_of, want_of};
ghost use Rattle.search_forms.specs.Scans.{ScansTo, rated_by};
ghost use Rattle.search_forms.specs.Tables.{AreRows, candidates_seen};

use crate::candidates::Candidates;
use cbl_base::Place;
use checked_tree::{Generator, Typed};
use comet_syntax::tree::Extreme;
use form_parts::values::{condition, number_of};
use ls_select::{End, Part, Scored, Want};
use run_steps::inside::Within;
use run_steps::state_of_runs::{Outside, State};
use run_values::{Stop, Value};

/// What is asked of candidates: the condition, and the key; where none is asked each has the same one.
#[derive(Clone, Copy)]
pub(crate) struct Asked<'a> {
    pub(crate) extreme: Option<Extreme>,
    pub(crate) condition: Option<&'a Typed>,
    pub(crate) key: Option<&'a Typed>,
}

/// All candidates of a selector, and what their scan gives.
#[derive(Drop)]
pub(crate) struct Scanned {
    pub(crate) candidates: Candidates,
    pub(crate) part: Part,
}

/// The scan of all candidates in order: each costs a unit, is tested, and gets its key.
pub(crate) fn scan<O: Outside, W: Within<O>>(
    s: &mut State,
    out: &mut O,
    inside: &W,
    at: Place,
    generators: &[Generator],
    candidates: &Candidates,
    asked: Asked<'_>,
) -> Result<Part, Stop>
    requires ready { W.is_ready inside.now }
    requires rows { AreRows candidates.now candidates.now.width }
    ensures did { ScansTo asked.entry.extreme result (state_seen s.new (O.told out.new))
        (scanned (level (W.code inside.now) (W.depth inside.now)) at
        (map shape_of_generator generators.now) (condition_of asked.entry) (key_of asked.entry) 0
        (candidates_seen candidates.now) [] (state_seen s.old (O.told out.old))) }
{
    let _start = s.fuel;
    let want = wanted(asked.extreme);
    let mut part = Part::new(s.alloc, 0);
    for number in 0..candidates.len() {
        let values = candidates.get(number);
        let scored = score(s, out, inside, at, generators, values, asked)?;
        part.add(want, scored)?;
    }
    Ok(part)
}

/// Which candidates are wanted.
fn wanted(extreme: Option<Extreme>) -> Want
    ensures { result ≡ want_of extreme }
{
    match extreme {
        None => Want::Any,
        Some(Extreme::Min) => Want::Least,
        Some(Extreme::Max) => Want::Greatest,
    }
}

/// How a candidate with these values is scored: what it costs, and whether it is kept, with its key.
fn score<O: Outside, W: Within<O>>(
    s: &mut State,
    out: &mut O,
    inside: &W,
    at: Place,
    generators: &[Generator],
    values: &[i64],
    asked: Asked<'_>,
) -> Result<Scored, Stop>
    requires ready { W.is_ready inside.now }
    ensures did { (n : ℕ) (xs : List Rated) →
        Does (λ x. rated_by n x.end xs) result (state_seen s.new (O.told out.new))
        (generated at (named (map shape_of_generator generators.now) values.now)
        (rated_form (level (W.code inside.now) (W.depth inside.now)) (condition_of asked.entry)
        (key_of asked.entry) n xs) (state_seen s.old (O.told out.old))) }
    ensures cost { IfOk result (λ x. x.cost + s.new.fuel ≡ s.old.fuel) }
    ensures goes_on { IfOk result (λ x. stop_in x.end ≡ None) }
{
    let fuel = s.fuel;
    s.charge(1, at)?;
    bind_values(s, generators, values)?;
    let end = rate(s, out, inside, asked)?;
    Ok(Scored {
        cost: fuel - s.fuel,
        end,
    })
}

/// Whether a candidate whose names have their values is kept, with its key.
fn rate<O: Outside, W: Within<O>>(
    s: &mut State,
    out: &mut O,
    inside: &W,
    asked: Asked<'_>,
) -> Result<End, Stop>
    requires ready { W.is_ready inside.now }
    ensures did { (n : ℕ) (xs : List Rated) →
        Does (λ end. rated_by n end xs) result (state_seen s.new (O.told out.new))
        (rated_form (level (W.code inside.now) (W.depth inside.now)) (condition_of asked.entry)
        (key_of asked.entry) n xs (state_seen s.old (O.told out.old))) }
    ensures goes_on { IfOk result (λ end. stop_in end ≡ None) }
{
    let passes = condition(s, out, inside, asked.condition)?;
    if !passes {
        return Ok(End::Skipped);
    }
    let key = key_asked(s, out, inside, asked.key)?;
    Ok(End::Kept(key))
}

/// The key of a candidate.
#[tactic(auto, unfolding(comet_meaning::specs::Selection::key_form))]
fn key_asked<O: Outside, W: Within<O>>(
    s: &mut State,
    out: &mut O,
    inside: &W,
    key: Option<&Typed>,
) -> Result<i64, Stop>
    requires ready { W.is_ready inside.now }
    ensures did { Does (λ z. z) result (state_seen s.new (O.told out.new))
        (selection.key_form (level (W.code inside.now) (W.depth inside.now))
        (optional (λ e. part e.now) key.entry) (state_seen s.old (O.told out.old))) }
{
    match key {
        None => Ok(0),
        Some(key) => number_of(s, out, inside, key),
    }
}

/// The names of generators get these values.
pub(crate) fn bind_values(
    s: &mut State,
    generators: &[Generator],
    values: &[i64],
) -> Result<(), Stop>
    ensures did { (told : Told) → Did (λ _.
        tt) result (state_seen s.new told)
        (bind (named (map shape_of_generator generators.now) values.now) (state_seen s.old told)) }
    ensures fuel { s.new.fuel ≡ s.old.fuel }
{
    for (generator, value) in generators.iter().zip(values.iter()) {
        s.put(generator.slot, Value::Number(*value))?;
    }
    Ok(())
}
