//! What the parts of a program are executed with, and how they end.
ghost use Rattle.std.specs.Prelude.{◌≡◌, IfOk, map, slice_get, slice_index_or, false};
ghost use Rattle.std.specs.Option.{option_copied, option_map};
ghost use Rattle.checked_tree.specs.Tasks.{function_of};
ghost use Rattle.comet_meaning.specs.Calls as calls;
ghost use Rattle.run_steps.specs.Parts.{is_handed_itself};
ghost use Rattle.run_steps.specs.Views.{code_seen, flow_seen};
ghost use Rattle.run_values.specs.Views.{value_seen};

use cbl_base::NoMemory;
use checked_tree::{Function, Kind};
use run_values::Value;
use run_values::values::{as_kind, first_value};
use std::alloc::Global;

/// The functions of a program by their numbers from 0, and for each whether it is pure. They lie behind a box, so that
/// what holds this is small.
#[derive(Drop)]
pub struct Code<'a> {
    lists: Box<Lists<'a>>,
}

/// The lists themselves.
#[derive(Clone, Copy)]
struct Lists<'a> {
    functions: &'a [Function],
    pure: &'a [bool],
}

impl<'a> Code<'a> {
    /// These functions, of which these are pure. `Err` only where there is no memory.
    pub fn new(
        alloc: Global,
        functions: &'a [Function],
        pure: &'a [bool],
    ) -> Result<Code<'a>, NoMemory>
        ensures { IfOk result (λ c. code_seen c ≡
            record { functions = map function_of functions.now; pure = pure.now }) }
    {
        let lists = Box::new(alloc, Lists { functions, pure })?;
        Ok(Code { lists })
    }
}

/// How a statement ends: the next one follows, or the call returns, with a value or without.
#[derive(Drop)]
pub enum Flow {
    Next,
    Returned(Option<Value>),
}

/// The function with this number.
pub fn function_at<'a>(code: &Code<'a>, function: usize) -> Option<&'a Function>
    ensures { option_map function_of (option_copied result) ≡
        slice_get (code_seen code.now).functions function }
{
    code.lists.functions.get(function)
}

/// Whether a function is known to be pure.
pub fn is_pure(code: &Code<'_>, function: usize) -> bool
    ensures { result ≡ slice_index_or (code_seen code.now).pure function false }
{
    match code.lists.pure.get(function) {
        Some(pure) => *pure,
        None => false,
    }
}

/// The kind of the parameter at this index.
pub fn parameter_at(parameters: &[Kind], index: usize) -> Option<Kind>
    ensures { result ≡ slice_get parameters.now index }
{
    match parameters.get(index) {
        Some(kind) => Some(*kind),
        None => None,
    }
}

/// Whether a parameter of this kind is a variable itself.
pub fn is_handed_itself(kind: Kind) -> bool
    ensures { result ≡ is_handed_itself kind }
{
    matches!(kind, Kind::Variable | Kind::SetVariable)
}

/// What a function of this kind gives, as its body ended.
pub fn given(alloc: Global, kind: Kind, flow: Flow) -> Value
    ensures { value_seen result ≡ calls.given kind (flow_seen flow) }
{
    match flow {
        Flow::Returned(Some(value)) => as_kind(kind, value),
        Flow::Returned(None) => first_value(alloc, kind),
        Flow::Next => first_value(alloc, kind),
    }
}
