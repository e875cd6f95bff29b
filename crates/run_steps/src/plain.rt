//! Parts that are evaluated without a change of the state: numbers, names whose cells hold a value that is read as it is,
//! chains of these with arithmetic operators, cells of arrays that names hold, and relations of these. They cost no fuel. What is answered is the part's
//! value; where anything else stands in a part, or an operation fails, nothing is answered.
ghost use Rattle.std.specs.Prelude.{◌≡◌, ℕ, List};
ghost use Rattle.comet_meaning.specs.Arrays.{index_form};
ghost use Rattle.comet_meaning.specs.Levels as levels;
ghost use Rattle.comet_meaning.specs.Operators as operators;
ghost use Rattle.comet_meaning.specs.Parts as parts;
ghost use Rattle.comet_meaning.specs.Program.{level};
ghost use Rattle.comet_meaning.specs.State as states;
ghost use Rattle.comet_meaning.specs.Writes.{name_target};
ghost use Rattle.run_objects.specs.OfRunState.Acts.{indexed};
ghost use Rattle.run_objects.specs.OfRunOutside.Told.{Told};
ghost use Rattle.run_objects.specs.OfRunState.Views.{state_seen};
ghost use Rattle.run_steps.specs.Plainly.{GivesName, GivesNumber, GivesTarget, GivesTruth, GivesValue, GivesWhole, ResultsIn};
ghost use Rattle.run_steps.specs.Views.{links_seen, part};
ghost use Rattle.run_values.specs.Views.{value_seen};

use cbl_base::{Place, add, div, mul, rem, sub};
use checked_tree::{Form, Kind, Link, Slot, Typed};
use comet_syntax::tree::ChainOperator;
use run_objects::state_of_runs::{State, Target};
use run_values::Value;
use run_values::operators::compare;

/// How many chains inside each other are looked at: a part in which something else stands deeper is evaluated otherwise.
const MOST_CHAINS: u32 = 4;

/// The value of a part, where it is plain and there is room for it.
pub fn plain_value(s: &State, room: u32, e: &Typed) -> Option<Value>
    ensures given { (code : levels.Code) (told : Told) →
        GivesValue result (state_seen s.now told)
        (parts.value (level code room) (part e.now) (state_seen s.now told)) }
{
    match number_within(s, room, MOST_CHAINS, e) {
        Some(number) => Some(Value::Number(number)),
        None => plain_name(s, room, e),
    }
}

/// What a name's cell holds, where it is a value that is read as it is.
pub fn plain_name(s: &State, room: u32, e: &Typed) -> Option<Value>
    ensures given { (code : levels.Code) (told : Told) →
        GivesValue result (state_seen s.now told)
        (parts.value (level code room) (part e.now) (state_seen s.now told)) }
{
    if room == 0 {
        return None;
    }
    match &e.form {
        Form::Name(slot) => s.plain_value(*slot),
        _ => None,
    }
}

/// The number that a part gives, where it is plain and there is room for it.
pub fn plain_number(s: &State, room: u32, e: &Typed) -> Option<i64>
    ensures given { (code : levels.Code) (told : Told) →
        GivesWhole result (state_seen s.now told)
        (parts.number (level code room) (part e.now) (state_seen s.now told)) }
{
    number_within(s, room, MOST_CHAINS, e)
}

/// The number that is a part's value, where it is plain and there is room for it.
pub fn number_itself(s: &State, room: u32, e: &Typed) -> Option<i64>
    ensures given { (code : levels.Code) (told : Told) →
        GivesNumber result (state_seen s.now told)
        (parts.value (level code room) (part e.now) (state_seen s.now told)) }
{
    number_within(s, room, MOST_CHAINS, e)
}

/// What a name of a number or a truth value stands for where it is written, where there is room for it: its own cell.
pub fn plain_target(room: u32, e: &Typed) -> Option<Target>
    ensures given { (code : levels.Code) (s : states.State) →
        GivesTarget result s ((level code room).target (part e.now) s) }
{
    if room == 0 {
        return None;
    }
    match &e.form {
        Form::Name(slot) => cell_of(e.kind, *slot),
        _ => None,
    }
}

/// The cell of a name, where its kind is that of a number or a truth value.
#[tactic(auto, unfolding(comet_meaning::specs::Writes::name_target))]
fn cell_of(kind: Kind, slot: Slot) -> Option<Target>
    ensures { (s : states.State) → GivesTarget result s (name_target kind slot s) }
{
    match kind {
        Kind::Int => Some(Target::Name(slot)),
        Kind::Bool => Some(Target::Name(slot)),
        _ => None,
    }
}

/// The name of a number that a part is, where there is room for it: its own cell is what is written.
pub fn plain_slot(room: u32, e: &Typed) -> Option<Slot>
    ensures given { (code : levels.Code) (s : states.State) →
        GivesName result e.now.kind s ((level code room).target (part e.now) s) }
{
    if room == 0 {
        return None;
    }
    match &e.form {
        Form::Name(slot) => slot_of(e.kind, *slot),
        _ => None,
    }
}

/// The name itself, where its kind is that of a number.
#[tactic(auto, unfolding(comet_meaning::specs::Writes::name_target))]
fn slot_of(kind: Kind, slot: Slot) -> Option<Slot>
    ensures { (s : states.State) → GivesName result kind s (name_target kind slot s) }
{
    match kind {
        Kind::Int => Some(slot),
        _ => None,
    }
}

/// The truth value of a relation of plain numbers, where there is room for it.
pub fn plain_truth(s: &State, room: u32, e: &Typed) -> Option<bool>
    ensures given { (code : levels.Code) (told : Told) →
        GivesTruth result (state_seen s.now told)
        (parts.truth (level code room) (part e.now) (state_seen s.now told)) }
{
    if room == 0 {
        return None;
    }
    match &e.form {
        Form::Compare {
            comparison,
            left,
            right,
        } => {
            let left = number_within(s, room - 1, MOST_CHAINS, left)?;
            let right = number_within(s, room - 1, MOST_CHAINS, right)?;
            Some(compare(*comparison, left, right))
        }
        _ => None,
    }
}

/// The number of a part, where it is plain and there is room for it, with at most so many chains inside each other.
#[cycle(plain)]
#[inline(always)]
fn number_within(s: &State, room: u32, chains: u32, e: &Typed) -> Option<i64>
    ensures given { (code : levels.Code) (told : Told) →
        GivesNumber result (state_seen s.now told)
        (parts.value (level code room) (part e.now) (state_seen s.now told)) }
{
    if room == 0 {
        return None;
    }
    match &e.form {
        Form::Number(number) => Some(*number),
        Form::Name(slot) => s.plain_number(*slot),
        _ => number_inside(s, room, chains, e),
    }
}

/// The same of a part that has parts inside it.
#[cycle(plain)]
fn number_inside(s: &State, room: u32, chains: u32, e: &Typed) -> Option<i64>
    ensures given { (code : levels.Code) (told : Told) →
        GivesNumber result (state_seen s.now told)
        (parts.value (level code room) (part e.now) (state_seen s.now told)) }
{
    if room == 0 {
        return None;
    }
    match &e.form {
        Form::Chain { first, links } => chain_within(s, room - 1, chains, first, links),
        Form::Index { array, index } => cell_within(s, room - 1, chains, e.place, array, index),
        _ => None,
    }
}

/// The number in the cell of a plain index, in an array that a name holds.
#[cycle(plain)]
fn cell_within(
    s: &State,
    room: u32,
    chains: u32,
    at: Place,
    array: &Typed,
    index: &Typed,
) -> Option<i64>
    ensures given { (code : levels.Code) (told : Told) →
        GivesNumber result (state_seen s.now told)
        (index_form (level code room) at (part array.now) (part index.now)
        (state_seen s.now told)) }
{
    if chains == 0 {
        return None;
    }
    let array = plain_name(s, room, array)?;
    let index = number_within(s, room, chains - 1, index)?;
    number_in(s, at, &array, index)
}

/// The number in the cell of an index, where there is such a cell and it holds a number.
fn number_in(s: &State, at: Place, array: &Value, index: i64) -> Option<i64>
    ensures given { (told : Told) → GivesNumber result (state_seen s.now told)
        (indexed at (value_seen array.now) index (state_seen s.now told)) }
{
    match s.index(at, array, index) {
        Ok(Value::Number(number)) => Some(number),
        _ => None,
    }
}

/// The number of a chain of plain numbers.
#[cycle(plain)]
fn chain_within(s: &State, room: u32, chains: u32, first: &Typed, links: &[Link]) -> Option<i64>
    ensures given { (code : levels.Code) (told : Told) →
        GivesNumber result (state_seen s.now told)
        (operators.chain_form (level code room) (part first.now) (links_seen links.now)
        (state_seen s.now told)) }
{
    if chains == 0 {
        return None;
    }
    let mut number = number_within(s, room, chains - 1, first)?;
    for link in links {
        let next = number_within(s, room, chains - 1, &link.operand)?;
        number = result_of(link.operator, number, next)?;
    }
    Some(number)
}

/// The result of an arithmetic operator, where it fits and no divisor is 0.
#[inline]
pub(crate) fn result_of(operator: ChainOperator, a: i64, b: i64) -> Option<i64>
    ensures { ResultsIn operator a b result }
{
    match operator {
        ChainOperator::Or => None,
        ChainOperator::And => None,
        ChainOperator::Add => add(a, b).ok(),
        ChainOperator::Subtract => sub(a, b).ok(),
        ChainOperator::Multiply => mul(a, b).ok(),
        ChainOperator::Divide => div(a, b).ok(),
        ChainOperator::Remainder => rem(a, b).ok(),
    }
}
