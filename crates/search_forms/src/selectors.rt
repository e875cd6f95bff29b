//! `select`, `selectMin` and `selectMax`.
ghost use Rattle.std.specs.Prelude.{◌≡◌, ℕ, List, IfErr, IfOk, map, option_map};
ghost use Rattle.checked_tree.specs.Shape.{seen, shape_of_generator};
ghost use Rattle.checked_tree.specs.Tasks.{work_of};
ghost use Rattle.comet_meaning.specs.Program.{level};
ghost use Rattle.comet_meaning.specs.Selection as selection;
ghost use Rattle.comet_meaning.specs.Selection.{candidate_at};
ghost use Rattle.run_steps.specs.OfRunState.Views.{state_seen};
ghost use Rattle.run_steps.specs.Does.{Does};
ghost use Rattle.run_steps.specs.Views.{flow_seen};
ghost use Rattle.run_values.specs.declared.stop.Stop.TheVariants.{NoMemory};
ghost use Rattle.search_forms.specs.Asking.{condition_of, key_of};
ghost use Rattle.search_forms.specs.Scans.{ScansAs};
ghost use Rattle.search_forms.specs.Tables.{AreRows, candidates_seen};

use crate::candidates::Candidates;
use crate::listing::candidates_of;
use crate::scanning::{Asked, Scanned, bind_values, scan};
use cbl_base::Place;
use checked_tree::{Generator, Task, Typed};
use comet_syntax::tree::Extreme;
use run_steps::code::Flow;
use run_steps::inside::Within;
use run_steps::state_of_runs::{Outside, State};
use run_values::Stop;
use std::alloc::Global;

/// A `select`: the body for one of the candidates that pass the condition.
#[tactic(auto, unfolding(comet_meaning::specs::Selection::select_form))]
pub fn execute_select<O: Outside, W: Within<O>>(
    s: &mut State,
    out: &mut O,
    inside: &W,
    at: Place,
    generators: &[Generator],
    condition: &Option<Typed>,
    body: &Task,
) -> Result<Flow, Stop>
    requires ready { W.is_ready inside.now }
    ensures did { Does flow_seen result (state_seen s.new (O.told out.new))
        (selection.select_form (level (W.code inside.now) (W.depth inside.now)) at
        (map shape_of_generator generators.now) (option_map seen condition.now) (work_of body.now)
        (state_seen s.old (O.told out.old))) }
{
    let asked = Asked {
        extreme: None,
        condition: condition.as_ref(),
        key: None,
    };
    let chosen = choose(s, out, inside, at, generators, asked)?;
    execute_chosen(s, out, inside, generators, chosen, body)
}

/// A `selectMin` or `selectMax`: the body for one of the candidates that pass the condition and have the best key.
#[tactic(auto, unfolding(comet_meaning::specs::Selection::select_by_form))]
pub fn execute_select_by<O: Outside, W: Within<O>>(
    s: &mut State,
    out: &mut O,
    inside: &W,
    at: Place,
    extreme: Extreme,
    generators: &[Generator],
    condition: &Option<Typed>,
    key: &Typed,
    body: &Task,
) -> Result<Flow, Stop>
    requires ready { W.is_ready inside.now }
    ensures did { Does flow_seen result (state_seen s.new (O.told out.new))
        (selection.select_by_form (level (W.code inside.now) (W.depth inside.now)) at extreme
        (map shape_of_generator generators.now) (option_map seen condition.now) (seen key.now)
        (work_of body.now) (state_seen s.old (O.told out.old))) }
{
    let asked = Asked {
        extreme: Some(extreme),
        condition: condition.as_ref(),
        key: Some(key),
    };
    let chosen = choose(s, out, inside, at, generators, asked)?;
    execute_chosen(s, out, inside, generators, chosen, body)
}

/// The values of the chosen candidate; `None` exactly where none is kept. One word chooses where there are several.
fn choose<O: Outside, W: Within<O>>(
    s: &mut State,
    out: &mut O,
    inside: &W,
    at: Place,
    generators: &[Generator],
    asked: Asked<'_>,
) -> Result<Option<Vec<i64>>, Stop>
    requires ready { W.is_ready inside.now }
    ensures did { Does (option_map (λ v. v.items)) result (state_seen s.new (O.told out.new))
        (selection.choice_form (level (W.code inside.now)
        (W.depth inside.now)) at asked.entry.extreme (map shape_of_generator generators.now)
        (condition_of asked.entry) (key_of asked.entry) (state_seen s.old (O.told out.old))) }
{
    let scan = scan_all(s, out, inside, at, generators, asked)?;
    let number = s.pick(&scan.part.ties);
    chosen_in(s.alloc, &scan.candidates, number)
}

/// The values of the candidate with a number, where one is chosen.
fn chosen_in(
    alloc: Global,
    candidates: &Candidates,
    number: Option<u64>,
) -> Result<Option<Vec<i64>>, Stop>
    requires { AreRows candidates.now candidates.now.width }
    ensures same { IfOk result (λ chosen.
        option_map (λ v. v.items) chosen ≡ candidate_at (candidates_seen candidates.now) number) }
    ensures memory { IfErr result (λ stop. stop ≡ NoMemory) }
{
    match number {
        None => Ok(None),
        Some(number) => candidates.copied(alloc, number as usize),
    }
}

/// All candidates, and their scan. The names of the generators end with it.
fn scan_all<O: Outside, W: Within<O>>(
    s: &mut State,
    out: &mut O,
    inside: &W,
    at: Place,
    generators: &[Generator],
    asked: Asked<'_>,
) -> Result<Scanned, Stop>
    requires ready { W.is_ready inside.now }
    ensures did { ScansAs asked.entry.extreme result (state_seen s.new (O.told out.new))
        (selection.scan_form (level (W.code inside.now) (W.depth inside.now)) at
        (map shape_of_generator generators.now) (condition_of asked.entry) (key_of asked.entry)
        (state_seen s.old (O.told out.old))) }
    ensures rows { IfOk result (λ scan. AreRows scan.candidates scan.candidates.width) }
{
    let frame = s.copied_frame()?;
    let candidates = candidates_of(s, out, inside, at, generators)?;
    let part = scan(s, out, inside, at, generators, &candidates, asked)?;
    s.frame = frame;
    Ok(Scanned { candidates, part })
}

/// The body with the names of the chosen candidate, where there is one.
fn execute_chosen<O: Outside, W: Within<O>>(
    s: &mut State,
    out: &mut O,
    inside: &W,
    generators: &[Generator],
    chosen: Option<Vec<i64>>,
    body: &Task,
) -> Result<Flow, Stop>
    requires ready { W.is_ready inside.now }
    ensures did { Does flow_seen result (state_seen s.new (O.told out.new))
        (selection.with_chosen (level (W.code inside.now) (W.depth inside.now))
        (map shape_of_generator generators.now) (work_of body.now)
        (option_map (λ v. v.items) chosen) (state_seen s.old (O.told out.old))) }
{
    match chosen {
        None => Ok(Flow::Next),
        Some(values) => {
            bind_values(s, generators, &values)?;
            inside.execute(s, out, body)
        }
    }
}
