//! Values.
ghost use Rattle.std.specs.Prelude.{◌≡◌, IfErr, IfOk, map};
ghost use Rattle.comet_meaning.specs.Values as values;
ghost use Rattle.comet_meaning.specs.Values.{number_of, truth_of, bounds_of, members_of, solver_of, as_kind, first_value, value_of_input};
ghost use Rattle.run_values.specs.Views.{bounds_seen, value_seen};
ghost use Rattle.run_values.specs.declared.stop.Stop.TheVariants.{NoMemory};

use crate::stop::Stop;
use cbl_base::{Input, IntSet, VarId};
use checked_tree::Kind;
use std::alloc::Global;

/// The numbers from `low` to `up`, and none where `up` is below `low`.
#[derive(Clone, Copy)]
pub struct Bounds {
    pub low: i64,
    pub up: i64,
}

/// The bounds of an array's first index, and of its second one where it has two.
#[derive(Clone, Copy)]
pub struct Extent {
    pub rows: Bounds,
    pub columns: Option<Bounds>,
}

/// What an expression gives, and what the cell of a name holds. Arrays, variables and objects are known by their
/// numbers from 0.
#[derive(Drop)]
pub enum Value {
    /// What gives no value.
    Nothing,
    Number(i64),
    Truth(bool),
    Range(Bounds),
    Set(IntSet),
    Array(usize),
    /// Numbers in a row that are no array yet.
    Row(Vec<i64>),
    /// A variable that isn't read yet.
    Variable(VarId),
    /// An array of variables.
    Variables(usize),
    Solver(usize),
    /// A constraint system: the number of its solver, and its own number there.
    System { solver: u32, index: u32 },
    /// An objective or a sum of terms, likewise.
    Objective { solver: u32, index: u32 },
    Input(usize),
    /// The numbers that a distribution gives.
    Distribution(Bounds),
    /// A `MinNeighborSelector`, and the move that it keeps.
    Selector(usize),
    Move(usize),
    Solution(usize),
}

/// An array of numbers with one dimension or two, row by row.
#[derive(Drop)]
pub struct Cells {
    pub rows: Bounds,
    pub columns: Option<Bounds>,
    pub numbers: Vec<i64>,
}

/// An array of variables with one dimension or two, row by row.
#[derive(Drop)]
pub struct VariableCells {
    pub rows: Bounds,
    pub columns: Option<Bounds>,
    pub variables: Vec<VarId>,
}

impl Value {
    /// The value that a variable of a model has. `NoMemory` where there is none for a copy; there is no other stop.
    pub fn from_input(alloc: Global, input: &Input) -> Result<Value, Stop>
        ensures same { IfOk result (λ value. value_seen value ≡ value_of_input input.now) }
        ensures memory { IfErr result (λ stop. stop ≡ NoMemory) }
    {
        match input {
            Input::Int(number) => Ok(Value::Number(*number)),
            Input::Set(set) => Ok(Value::Set(set.clone()?)),
        }
    }

    /// A copy. `NoMemory` where there is none for it; there is no other stop.
    pub fn copied(&self, alloc: Global) -> Result<Value, Stop>
        ensures same { IfOk result (λ value. value_seen value ≡ value_seen self.now) }
        ensures memory { IfErr result (λ stop. stop ≡ NoMemory) }
    {
        match self {
            Value::Nothing => Ok(Value::Nothing),
            Value::Number(number) => Ok(Value::Number(*number)),
            Value::Truth(truth) => Ok(Value::Truth(*truth)),
            Value::Range(bounds) => Ok(Value::Range(*bounds)),
            Value::Set(set) => Ok(Value::Set(set.clone()?)),
            Value::Array(array) => Ok(Value::Array(*array)),
            Value::Row(numbers) => copied_row(alloc, numbers),
            Value::Variable(variable) => Ok(Value::Variable(*variable)),
            Value::Variables(array) => Ok(Value::Variables(*array)),
            Value::Solver(solver) => Ok(Value::Solver(*solver)),
            Value::System { solver, index } => Ok(Value::System {
                solver: *solver,
                index: *index,
            }),
            Value::Objective { solver, index } => Ok(Value::Objective {
                solver: *solver,
                index: *index,
            }),
            Value::Input(input) => Ok(Value::Input(*input)),
            Value::Distribution(bounds) => Ok(Value::Distribution(*bounds)),
            Value::Selector(selector) => Ok(Value::Selector(*selector)),
            Value::Move(selector) => Ok(Value::Move(*selector)),
            Value::Solution(solution) => Ok(Value::Solution(*solution)),
        }
    }

    /// The number that stands where a number is asked: a truth value stands as 1 or 0, and what is no number as 0.
    pub fn number(&self) -> i64
        ensures { result ≡ number_of (value_seen self.now) }
    {
        match self {
            Value::Number(number) => *number,
            Value::Truth(true) => 1,
            _ => 0,
        }
    }

    /// The truth value, and false of what is none.
    pub fn truth(&self) -> bool
        ensures { result ≡ truth_of (value_seen self.now) }
    {
        match self {
            Value::Truth(truth) => *truth,
            _ => false,
        }
    }

    /// The bounds of a range, and of what is none bounds that hold no number.
    pub fn bounds(&self) -> Bounds
        ensures { bounds_seen result ≡ bounds_of (value_seen self.now) }
    {
        match self {
            Value::Range(bounds) => *bounds,
            _ => Bounds { low: 0, up: -1 },
        }
    }

    /// The members of a set, which rise, and none of what is no set.
    pub fn members(&self) -> &[i64]
        ensures { result.now ≡ members_of (value_seen self.now) }
    {
        match self {
            Value::Set(set) => set.as_slice(),
            _ => &[],
        }
    }

    /// The solver's number, and 0 of what is no solver.
    pub fn solver(&self) -> usize
        ensures { result ≡ solver_of (value_seen self.now) }
    {
        match self {
            Value::Solver(solver) => *solver,
            _ => 0,
        }
    }
}

/// A copy of numbers in a row.
fn copied_row(alloc: Global, numbers: &Vec<i64>) -> Result<Value, Stop>
    ensures same { IfOk result (λ value. value_seen value ≡ values.Row numbers.now.items) }
    ensures memory { IfErr result (λ stop. stop ≡ NoMemory) }
{
    let numbers = Vec::from_slice(alloc, numbers)?;
    Ok(Value::Row(numbers))
}

/// The value as a name of this kind holds it: an `int` holds a truth value as 1 or 0.
pub fn as_kind(kind: Kind, value: Value) -> Value
    ensures { value_seen result ≡ as_kind kind (value_seen value) }
{
    match kind {
        Kind::Int => Value::Number(value.number()),
        _ => value,
    }
}

/// The value of a name of this kind without a start, and of a function that ends without `return`.
pub fn first_value(alloc: Global, kind: Kind) -> Value
    ensures { value_seen result ≡ first_value kind }
{
    match kind {
        Kind::Int => Value::Number(0),
        Kind::Bool => Value::Truth(false),
        Kind::Set => Value::Set(IntSet::new(alloc)),
        _ => Value::Nothing,
    }
}

/// The number of each value. `NoMemory` where there is none for them; there is no other stop.
pub fn numbers_of(alloc: Global, values: &[Value]) -> Result<Vec<i64>, Stop>
    ensures numbers { IfOk result (λ numbers.
        numbers.items ≡ map number_of (map value_seen values.now)) }
    ensures memory { IfErr result (λ stop. stop ≡ NoMemory) }
{
    let mut numbers = Vec::new(alloc);
    for value in values {
        numbers.push(value.number())?;
    }
    Ok(numbers)
}

/// A copy of each value. `NoMemory` where there is none for them; there is no other stop.
pub fn copied_values(alloc: Global, values: &[Value]) -> Result<Vec<Value>, Stop>
    ensures same { IfOk result (λ copies. map value_seen copies.items ≡ map value_seen values.now) }
    ensures memory { IfErr result (λ stop. stop ≡ NoMemory) }
{
    let mut copies = Vec::new(alloc);
    for value in values {
        copies.push(value.copied(alloc)?)?;
    }
    Ok(copies)
}
