//! The new outcome of a node is told to those that use it.
ghost use Rattle.std.specs.Prelude.{◌≡◌, ◌+◌, ◌*◌, ◌<◌, ◌≤◌, true, length, IfOk, OnOk, All};
ghost use Rattle.cbl_base.specs.Inputs.{kind_of};
ghost use Rattle.cbl_base.specs.declared.input.Input.{Input};
ghost use Rattle.cbl_base.specs.declared.input.Input.TheVariants.{Int};
ghost use Rattle.store_turns.specs.declared.outcome.Outcome.TheVariants.{Value};
ghost use Rattle.store_turns.specs.Waits.{waits};
ghost use Rattle.store_turns.specs.Cones.{has};
ghost use Rattle.store_turns.specs.Telling.{change_to, layer_in, users_among, ArePushed, AreBlocked, Tells};

use crate::outcome::{Outcome, same};
use crate::set_changes::change_to;
use crate::waiting::{Turn, Waiting};
use cbl_base::{Input, NoMemory, NodeId, NodeValue, Steps};
use std::sync::ledger::Ledger;

/// Tells those members that use an id that it came to the outcome, where its value was the old one, and answers
/// whether the outcome is another. At most two steps for each such use, and none where it isn't.
#[inline(always)]
pub fn tell<L: Ledger>(
    waiting: &mut Waiting,
    layers: &[u32],
    uses: &[(NodeId, u32)],
    members: &[bool],
    old: &NodeValue,
    outcome: &Outcome,
    steps: &mut Steps<L>,
) -> Result<bool, NoMemory>
    requires users { All (λ u. u.0.0 < length layers.now) uses.now }
    requires kinds { (x : Input) → outcome.now ≡ Value x → kind_of x ≡ kind_of old.now }
    ensures { Tells (layer_in layers.now) (users_among members.now uses.now) old.now outcome.now
        result (waits waiting.old) (waits waiting.new) steps.old steps.new }
{
    match outcome {
        Outcome::Value(new) => tell_value(waiting, layers, uses, members, old, new, steps),
        Outcome::Fails(_) => block_all(waiting, layers, uses, members, steps),
        Outcome::Missing => block_all(waiting, layers, uses, members, steps),
    }
}

/// Tells those members that use an id that its value was the old one and is the new one, and answers
/// whether that is another.
fn tell_value<L: Ledger>(
    waiting: &mut Waiting,
    layers: &[u32],
    uses: &[(NodeId, u32)],
    members: &[bool],
    old: &NodeValue,
    new: &NodeValue,
    steps: &mut Steps<L>,
) -> Result<bool, NoMemory>
    requires users { All (λ u. u.0.0 < length layers.now) uses.now }
    requires kinds { kind_of new.now ≡ kind_of old.now }
    ensures { Tells (layer_in layers.now) (users_among members.now uses.now) old.now (Value new.now)
        result (waits waiting.old) (waits waiting.new) steps.old steps.new }
{
    match (old, new) {
        (Input::Int(a), Input::Int(b)) => tell_number(waiting, layers, uses, members, a, b, steps),
        _ => tell_any(waiting, layers, uses, members, old, new, steps),
    }
}

/// The same of two numbers, of which no value is made or copied.
fn tell_number<L: Ledger>(
    waiting: &mut Waiting,
    layers: &[u32],
    uses: &[(NodeId, u32)],
    members: &[bool],
    old: &i64,
    new: &i64,
    steps: &mut Steps<L>,
) -> Result<bool, NoMemory>
    requires users { All (λ u. u.0.0 < length layers.now) uses.now }
    ensures { Tells (layer_in layers.now) (users_among members.now uses.now)
        (Int old.now) (Value (Int new.now))
        result (waits waiting.old) (waits waiting.new) steps.old steps.new }
{
    if *old == *new {
        return Ok(false);
    }
    push_numbers(waiting, layers, uses, members, old, new, steps)?;
    Ok(true)
}

/// Each use of an id by a member gets the change from its old number to its new one. Two steps each.
fn push_numbers<L: Ledger>(
    waiting: &mut Waiting,
    layers: &[u32],
    uses: &[(NodeId, u32)],
    members: &[bool],
    old: &i64,
    new: &i64,
    steps: &mut Steps<L>,
) -> Result<(), NoMemory>
    requires users { All (λ u. u.0.0 < length layers.now) uses.now }
    ensures told { OnOk result (ArePushed (layer_in layers.now) (users_among members.now uses.now)
        (λ p. change_to p (Int old.now) (Int new.now)) (waits waiting.old) (waits waiting.new)) }
    ensures steps { steps.new ≤ steps.old + 2 * length (users_among members.now uses.now) }
{
    for (id, place) in uses {
        if !has(members, *id) {
            continue;
        }
        waiting.push_number(turn_of(layers, *id), *place, old, new, steps)?;
    }
    Ok(())
}

/// The same of any two values.
fn tell_any<L: Ledger>(
    waiting: &mut Waiting,
    layers: &[u32],
    uses: &[(NodeId, u32)],
    members: &[bool],
    old: &NodeValue,
    new: &NodeValue,
    steps: &mut Steps<L>,
) -> Result<bool, NoMemory>
    requires users { All (λ u. u.0.0 < length layers.now) uses.now }
    requires kinds { kind_of new.now ≡ kind_of old.now }
    ensures { Tells (layer_in layers.now) (users_among members.now uses.now) old.now (Value new.now)
        result (waits waiting.old) (waits waiting.new) steps.old steps.new }
{
    if same(old, new) {
        return Ok(false);
    }
    push_all(waiting, layers, uses, members, old, new, steps)?;
    Ok(true)
}

/// Each use of an id by a member gets the change from its old value to its new one. Two steps each.
fn push_all<L: Ledger>(
    waiting: &mut Waiting,
    layers: &[u32],
    uses: &[(NodeId, u32)],
    members: &[bool],
    old: &NodeValue,
    new: &NodeValue,
    steps: &mut Steps<L>,
) -> Result<(), NoMemory>
    requires users { All (λ u. u.0.0 < length layers.now) uses.now }
    requires kinds { kind_of new.now ≡ kind_of old.now }
    ensures told { OnOk result (ArePushed (layer_in layers.now) (users_among members.now uses.now)
        (λ p. change_to p old.now new.now) (waits waiting.old) (waits waiting.new)) }
    ensures steps { steps.new ≤ steps.old + 2 * length (users_among members.now uses.now) }
{
    let alloc = waiting.alloc();
    for (id, place) in uses {
        if !has(members, *id) {
            continue;
        }
        let turn = turn_of(layers, *id);
        let change = change_to(alloc, *place, old, new)?;
        waiting.push(turn, change, steps)?;
    }
    Ok(())
}

/// Each use of an id by a member hears that it has no value. One step each.
fn block_all<L: Ledger>(
    waiting: &mut Waiting,
    layers: &[u32],
    uses: &[(NodeId, u32)],
    members: &[bool],
    steps: &mut Steps<L>,
) -> Result<bool, NoMemory>
    requires users { All (λ u. u.0.0 < length layers.now) uses.now }
    ensures answer { IfOk result (λ r. r ≡ true) }
    ensures told { OnOk result (AreBlocked (layer_in layers.now)
        (users_among members.now uses.now) (waits waiting.old) (waits waiting.new)) }
    ensures steps { steps.new ≤ steps.old + length (users_among members.now uses.now) }
{
    for (id, _) in uses {
        if !has(members, *id) {
            continue;
        }
        waiting.block(turn_of(layers, *id), steps)?;
    }
    Ok(true)
}

/// Whether a list of entries by id has an id; one past its end it has.
pub fn has(members: &[bool], id: NodeId) -> bool
    ensures { result ≡ has members.now id.0 }
{
    match members.get(id.0 as usize) {
        Some(entry) => *entry,
        None => true,
    }
}

/// The turn of a node.
fn turn_of(layers: &[u32], id: NodeId) -> Turn
    requires { id.0 < length layers.now }
    ensures layer { result.layer ≡ layer_in layers.now id.0 }
    ensures id { result.id ≡ id.0 }
{
    Turn {
        layer: layers[id.0 as usize],
        id: id.0,
    }
}
