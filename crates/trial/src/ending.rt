//! What a trial tells when the target has come to its outcome.
ghost use Rattle.std.specs.Prelude.{◌≡◌, ℕ, ◌+◌, ◌-ℤ◌, ◌<◌, ◌≤◌, length, Ok, Err, MatchResult, IfOk, IfErr};
ghost use Rattle.std.specs.BTreeMap.{get};
ghost use Rattle.std.specs.Ordering.{nat_cmp};
ghost use Rattle.cbl_base.specs.Arithmetic.{exact};
ghost use Rattle.cbl_base.specs.Inputs.{number_kind, kind_of, number_of};
ghost use Rattle.store_build.specs.Kept.{IsKept};
ghost use Rattle.inc_store.specs.Views.{IsUsable, value_at, count_of};
ghost use Rattle.trial.specs.Differences.{IsDifference, IsStopped};
ghost use Rattle.trial.specs.Overlays.{new_or, root_in};
ghost use Rattle.trial.specs.Parts.{Query, IsFound, after_in, part_graph, value_in};

use crate::asking::newest;
use crate::fault::DifferenceFault;
use crate::overlay::Overlay;
use cbl_base::{Input, NodeId, NodeRule, NodeValue, RunFault, Steps, sub};
use inc_store::Store;
use std::sync::ledger::Ledger;

/// The target's number after the moves less its number now, or why there is none. At most three steps.
pub(crate) fn conclude<N: NodeRule, L: Ledger>(
    store: &Store<N>,
    overlay: &Overlay,
    target: NodeId,
    steps: &mut Steps<L>,
) -> Result<i64, DifferenceFault>
    ghost query: { Query }
    requires usable { IsUsable N.rule N.held N.ready store.now }
    requires kept { IsKept query.part.rules query.part.helds query.part.frame query.part.cells }
    requires within { target.0 < length query.part.frame.inputs.items }
    requires target { target.0 < count_of store.now }
    requires value { value_in query.part target.0 ≡ value_at store.now target.0 }
    requires number { kind_of (value_at store.now target.0) ≡ number_kind }
    requires known { IsFound query overlay.now target.0 }
    ensures difference { IfOk result (λ d.
        IsDifference (part_graph query.part) (value_in query.part) (after_in query) target.0 d) }
    ensures fault { IfErr result (λ stop.
        IsStopped (part_graph query.part) (value_in query.part) (after_in query) target.0 stop) }
    ensures steps { steps.new ≤ steps.old + 3 }
{
    match root_of(overlay, target.0, steps) {
        Some((id, fault)) => Err(DifferenceFault::Node(NodeId(id), fault)),
        None => match difference(store, overlay, target, steps) {
            Ok(number) => Ok(number),
            Err(fault) => Err(DifferenceFault::Difference(fault)),
        },
    }
}

/// The least failing node on which an id stands, where it is lost. At most two steps, and one where it isn't.
fn root_of<L: Ledger>(overlay: &Overlay, id: u32, steps: &mut Steps<L>) -> Option<(u32, RunFault)>
    ensures root { result ≡ root_in overlay.now.lost overlay.now.roots id }
    ensures steps { steps.new ≤ steps.old + 2 }
    ensures none { get nat_cmp overlay.now.lost id ≡ None → steps.new ≤ steps.old + 1 }
{
    match overlay.lost(id, steps) {
        None => None,
        Some(Some(fault)) => Some((id, fault)),
        Some(None) => overlay.root(id, steps),
    }
}

/// The target's number after the moves less its number now. Two steps.
fn difference<N: NodeRule, L: Ledger>(
    store: &Store<N>,
    overlay: &Overlay,
    target: NodeId,
    steps: &mut Steps<L>,
) -> Result<i64, RunFault>
    requires usable { IsUsable N.rule N.held N.ready store.now }
    requires target { target.0 < count_of store.now }
    ensures difference { result ≡ exact
        (number_of (new_or (get nat_cmp overlay.now.changes target.0)
        (value_at store.now target.0)) -ℤ number_of (value_at store.now target.0)) }
    ensures steps { steps.new ≡ steps.old + 2 }
{
    let now = store.read(target, steps);
    let after = newest(overlay.changed(target.0, steps), now);
    sub(number_of(after), number_of(now))
}

/// The number, and 0 for a set.
fn number_of(value: &NodeValue) -> i64
    ensures { result ≡ number_of value.now }
{
    match value {
        Input::Int(number) => *number,
        Input::Set(_) => 0,
    }
}
