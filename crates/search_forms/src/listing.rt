//! The list of the candidates of a selector.
ghost use Rattle.std.specs.Prelude.{◌≡◌, ◌<◌, ◌+◌, ℕ, List, IfErr, IfOk, OnOk, length, map};
ghost use Rattle.checked_tree.specs.Shape.{shape_of_generator};
ghost use Rattle.comet_meaning.specs.Candidates as meaning;
ghost use Rattle.comet_meaning.specs.Candidates.{candidates_form, last_form};
ghost use Rattle.comet_meaning.specs.Program.{level};
ghost use Rattle.comet_meaning.specs.State as states;
ghost use Rattle.run_steps.specs.OfRunState.Views.{state_seen};
ghost use Rattle.run_steps.specs.Does.{Does};
ghost use Rattle.run_steps.specs.OfRunOutside.Told.{Told};
ghost use Rattle.run_values.specs.Did.{Did, IsFaultOrMemory};
ghost use Rattle.run_values.specs.Views.{value_seen};
ghost use Rattle.run_values.specs.declared.stop.Stop.TheVariants.{NoMemory};
ghost use Rattle.search_forms.specs.Fronts.{behind_front, values_behind};
ghost use Rattle.search_forms.specs.Tables.{AreRows, candidates_seen};

use crate::candidates::Candidates;
use cbl_base::Place;
use checked_tree::Generator;
use form_parts::tuples::next_tuple;
use form_parts::values::value_of;
use run_steps::inside::Within;
use run_steps::state_of_runs::{Outside, State};
use run_steps::tuples::{Tuples, pending_of, take_value};
use run_values::{Stop, Value};

/// All candidates: the tuples of the generators, the last one fastest. A value of a generator before the last one costs a
/// unit at its name.
pub(crate) fn candidates_of<O: Outside, W: Within<O>>(
    s: &mut State,
    out: &mut O,
    inside: &W,
    at: Place,
    generators: &[Generator],
) -> Result<Candidates, Stop>
    requires ready { W.is_ready inside.now }
    ensures did { Does candidates_seen result (state_seen s.new (O.told out.new))
        (candidates_form (level (W.code inside.now) (W.depth inside.now)) at
        (map shape_of_generator generators.now) (state_seen s.old (O.told out.old))) }
    ensures rows { IfOk result (λ c. AreRows c (length generators.now)) }
{
    let count = generators.len();
    let mut found = Candidates::new(s.alloc, count);
    if count == 0 {
        return Ok(found);
    }
    let front = &generators[..count - 1];
    let last = &generators[count - 1];
    if count == 1 {
        list_last(s, out, inside, at, front, last, &mut found)?;
        return Ok(found);
    }
    list_behind(s, out, inside, at, front, last, &mut found)?;
    Ok(found)
}

/// The candidates for each tuple of the generators before the last one.
fn list_behind<O: Outside, W: Within<O>>(
    s: &mut State,
    out: &mut O,
    inside: &W,
    at: Place,
    front: &[Generator],
    last: &Generator,
    found: &mut Candidates,
) -> Result<(), Stop>
    requires ready { W.is_ready inside.now }
    requires some { 0 < length front.now }
    requires rows { AreRows found.old (length front.now + 1) }
    ensures did { Does (λ _. candidates_seen found.new) result (state_seen s.new (O.told out.new))
        (behind_front (level (W.code inside.now) (W.depth inside.now)) at
        (map shape_of_generator front.now) (shape_of_generator last.now) (candidates_seen found.old)
        (state_seen s.old (O.told out.old))) }
    ensures rows { OnOk result (AreRows found.new (length front.now + 1)) }
{
    let first = &front[0];
    let domain = value_of(s, out, inside, &first.domain)?;
    let place = front[front.len() - 1].place;
    let mut tuples = Tuples {
        top: pending_of(domain),
        below: Vec::new(s.alloc),
    };
    'tuples: loop {
        let found_next = next_tuple(s, out, inside, place, front, &mut tuples)?;
        match found_next {
            None => return Ok(()),
            Some(_value) => list_last(s, out, inside, at, front, last, found)?,
        }
    }
}

/// The candidates for the values that the generators before the last one have now.
fn list_last<O: Outside, W: Within<O>>(
    s: &mut State,
    out: &mut O,
    inside: &W,
    at: Place,
    front: &[Generator],
    last: &Generator,
    found: &mut Candidates,
) -> Result<(), Stop>
    requires ready { W.is_ready inside.now }
    requires rows { AreRows found.old (length front.now + 1) }
    ensures did { Does (λ _. candidates_seen found.new) result (state_seen s.new (O.told out.new))
        (last_form (level (W.code inside.now) (W.depth inside.now)) at
        (map shape_of_generator front.now) (shape_of_generator last.now) (candidates_seen found.old)
        (state_seen s.old (O.told out.old))) }
    ensures rows { OnOk result (AreRows found.new (length front.now + 1)) }
{
    let domain = value_of(s, out, inside, &last.domain)?;
    let known = values_now(s, front)?;
    add_values(at, &known, domain, found)
}

/// A candidate for each value of the last generator, behind these values of those before it.
fn add_values(at: Place, known: &[i64], domain: Value, found: &mut Candidates) -> Result<(), Stop>
    requires rows { AreRows found.old (length known.now + 1) }
    ensures did { (s : states.State) →
        Did (λ _. candidates_seen found.new) result s
        (values_behind at known.now (value_seen domain) (candidates_seen found.old) s) }
    ensures rows { OnOk result (AreRows found.new (length known.now + 1)) }
    ensures stop { IfErr result IsFaultOrMemory }
{
    let mut pending = pending_of(domain);
    'values: loop {
        match take_value(&mut pending) {
            None => return Ok(()),
            Some(value) => found.add(at, known, value)?,
        }
    }
}

/// The values that the names of generators have now.
fn values_now(s: &State, generators: &[Generator]) -> Result<Vec<i64>, Stop>
    ensures did { (told : Told) → Did (λ v.
        v.items) result (state_seen s.now told)
        (meaning.values_now (map shape_of_generator generators.now) (state_seen s.now told)) }
    ensures many { IfOk result (λ v. length v.items ≡ length generators.now) }
    ensures memory { IfErr result (λ stop. stop ≡ NoMemory) }
{
    let mut values = Vec::new(s.alloc);
    for generator in generators {
        let value = s.look(generator.slot)?;
        values.push(value.number())?;
    }
    Ok(values)
}
