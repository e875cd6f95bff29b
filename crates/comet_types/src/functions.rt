//! What functions are, with their effects.
ghost use Rattle.std.specs.Prelude.{◌≡◌, map};
ghost use Rattle.checked_tree.specs.Tasks.{work_of, function_of};
ghost use Rattle.tree_makers.specs.Makes.{Makes};
ghost use Rattle.type_scopes.specs.Did.{Did};
ghost use Rattle.type_scopes.specs.Names as names;
ghost use Rattle.type_expressions.specs.Expressions as expressions;
ghost use Rattle.comet_types.specs.Functions as functions;
ghost use Rattle.type_statements.specs.Statements.{block_of};
ghost use Rattle.comet_types.specs.View.{kinds_in};

use cbl_base::Text;
use checked_tree::{Cause, Function as CheckedFunction, Kind, Stop, Task};
use comet_syntax::tree::{Block, Function, Parameter, ResultKind, Statement};
use std::alloc::Global;
use type_declarations::rule;
use type_rules::Context;
use type_rules::classes::{parameter_is_ls, parameter_kind};
use type_scopes::{Checker, Effects, Frame, Kinds, Scope, Signature, Slots};
use type_statements::check_block;

/// At the top of a program.
pub(crate) fn top() -> Scope
    ensures { result ≡ functions.top }
{
    Scope {
        context: Context::Plain,
        block: 0,
        at_top: true,
        globals: 0,
        function: None,
        parall: None,
        no_return: false,
    }
}

fn result_kind(given: ResultKind) -> Kind
    ensures { result ≡ functions.result_kind given }
{
    match given {
        ResultKind::Void => Kind::Nothing,
        ResultKind::Int => Kind::Int,
        ResultKind::Bool => Kind::Bool,
    }
}

#[tactic(auto, unfolding(crate::specs::Functions::gives_value))]
fn gives_value(statement: &Statement) -> bool
    ensures { result ≡ functions.gives_value statement.now }
{
    matches!(statement, Statement::Return { value: Some(_), .. })
}

fn first_gives(statements: &[Statement]) -> bool
    ensures { result ≡ functions.first_gives statements.now }
{
    match statements.first() {
        None => false,
        Some(statement) => gives_value(statement),
    }
}

fn is_one(statements: &[Statement]) -> bool
    ensures { result ≡ expressions.is_one statements.now }
{
    statements.len() == 1
}

/// Whether a body is one `return` of an expression.
fn is_single(statements: &[Statement]) -> bool
    ensures { result ≡ functions.is_single statements.now }
{
    is_one(statements) && first_gives(statements)
}

fn parameter_fault(is_new: bool, is_ls: bool) -> Option<Cause>
    ensures { result ≡ functions.parameter_fault is_new is_ls }
{
    if !is_new {
        Some(Cause::DeclaredTwice)
    } else if is_ls {
        None
    } else {
        Some(Cause::OnlyLs)
    }
}

fn is_new_parameter(checker: &Checker, scope: Scope, parameter: &Parameter) -> bool
    ensures { result ≡ names.is_new parameter.now.name.text scope.block checker.now.names }
{
    checker.is_new(parameter.name.text.as_slice(), scope.block)
}

#[tactic(auto, unfolding(crate::specs::Functions::parameter_form))]
fn check_parameter(checker: &mut Checker, scope: Scope, parameter: &Parameter) -> Result<Kind, Stop>
    ensures { Did (λ kind. kind) result checker.new
        (functions.parameter_form parameter.now scope checker.old) }
{
    let is_new = is_new_parameter(checker, scope, parameter);
    rule(
        parameter.place,
        parameter_fault(is_new, parameter_is_ls(&parameter.kind)),
    )?;
    let kind = parameter_kind(&parameter.kind);
    checker.declare(parameter.name.text.as_slice(), kind)?;
    Ok(kind)
}

#[tactic(auto, unfolding(crate::specs::Functions::next_parameter))]
fn check_next_parameter(
    checker: &mut Checker,
    scope: Scope,
    mut kinds: Vec<Kind>,
    parameter: &Parameter,
) -> Result<Vec<Kind>, Stop>
    ensures { Did kinds_in result checker.new
        (functions.next_parameter scope kinds.items
        (functions.parameter_form parameter.now) checker.old) }
{
    let kind = check_parameter(checker, scope, parameter)?;
    kinds.push(kind)?;
    Ok(kinds)
}

fn check_parameters(
    checker: &mut Checker,
    scope: Scope,
    parameters: &[Parameter],
) -> Result<Vec<Kind>, Stop>
    ensures { Did kinds_in result checker.new (functions.parameters_form (map functions.parameter_form parameters.now) scope checker.old) }
{
    let mut kinds = Vec::new(checker.alloc());
    for parameter in parameters {
        kinds = check_next_parameter(checker, scope, kinds, parameter)?;
    }
    Ok(kinds)
}

fn kinds_of(alloc: Global, parameters: &[Parameter]) -> Result<Vec<Kind>, Stop>
    ensures { Makes kinds_in result (functions.kinds_of parameters.now) }
{
    let mut kinds = Vec::new(alloc);
    for parameter in parameters {
        kinds.push(parameter_kind(&parameter.kind))?;
    }
    Ok(kinds)
}

/// A body, judged with the effects that are known of its own function.
#[tactic(auto, unfolding(crate::specs::Functions::turn_form))]
fn take_turn(
    checker: &mut Checker,
    parameters: usize,
    body: &Block,
    scope: Scope,
) -> Result<Task, Stop>
    ensures { Did work_of result checker.new
        (functions.turn_form parameters (block_of body.now) scope checker.old) }
{
    checker.begin(parameters)?;
    check_block(checker, scope, body)
}

/// The body is judged again with the effects that it had, until they stay.
fn settle(
    checker: &mut Checker,
    turns: usize,
    function: usize,
    parameters: usize,
    body: &Block,
    scope: Scope,
) -> Result<Task, Stop>
    ensures { Did work_of result checker.new
        (functions.settled_form turns function parameters (block_of body.now) scope checker.old) }
{
    let mut left = turns;
    while left > 0 {
        let task = take_turn(checker, parameters, body, scope)?;
        if checker.is_settled(function) {
            return Ok(task);
        }
        checker.settle(function)?;
        left -= 1;
    }
    take_turn(checker, parameters, body, scope)
}

fn body_scope(parameters: usize, given: Kind, scope: Scope) -> Scope
    ensures { result ≡ functions.body_scope parameters given scope }
{
    Scope {
        function: Some(Frame {
            parameters,
            result: given,
        }),
        ..scope
    }
}

fn make_function(
    alloc: Global,
    function: &Function,
    parameters: Vec<Kind>,
    body: Task,
) -> Result<CheckedFunction, Stop>
    ensures { Makes function_of result
        (functions.coded function.now parameters.items (work_of body)) }
{
    Ok(CheckedFunction {
        place: function.place,
        name: Text::from_slice(alloc, function.name.text.as_slice())?,
        result: result_kind(function.result),
        parameters,
        body,
    })
}

#[tactic(auto, unfolding(crate::specs::Functions::function_within))]
fn function_within(
    checker: &mut Checker,
    function: &Function,
    number: usize,
    scope: Scope,
) -> Result<CheckedFunction, Stop>
    ensures { Did function_of result checker.new
        (functions.function_within function.now number scope checker.old) }
{
    let kinds = check_parameters(checker, scope, &function.parameters)?;
    let count = kinds.len();
    let scope = body_scope(count, result_kind(function.result), scope);
    let body = settle(checker, count + 4, number, count, &function.body, scope)?;
    make_function(checker.alloc(), function, kinds, body)
}

fn new_fault(is_new: bool) -> Option<Cause>
    ensures { result ≡ functions.new_fault is_new }
{
    if is_new {
        None
    } else {
        Some(Cause::DeclaredTwice)
    }
}

fn is_new_function(checker: &Checker, function: &Function) -> bool
    ensures { result ≡ names.is_new function.now.name.text 0 checker.now.names }
{
    checker.is_new(function.name.text.as_slice(), 0)
}

fn make_signature(alloc: Global, function: &Function) -> Result<Signature, Stop>
    ensures { Makes (λ s. s) result (functions.signature_of function.now) }
{
    let kinds = kinds_of(alloc, &function.parameters)?;
    let effects = Effects::none(alloc, function.parameters.len())?;
    Ok(Signature {
        result: result_kind(function.result),
        parameters: Kinds::new(kinds),
        is_single: is_single(&function.body.statements),
        effects,
    })
}

/// The name of a function is global, and visible in its body.
#[tactic(auto, unfolding(crate::specs::Functions::named_form))]
fn name_function(checker: &mut Checker, function: &Function) -> Result<usize, Stop>
    ensures { Did (λ n. n) result checker.new (functions.named_form function.now checker.old) }
{
    let is_new = is_new_function(checker, function);
    rule(function.place, new_fault(is_new))?;
    let number = checker.function_count();
    let solvers = Slots::none(checker.alloc());
    checker.declare_with(
        function.name.text.as_slice(),
        Kind::Function,
        number,
        solvers,
    )?;
    let signature = make_signature(checker.alloc(), function)?;
    checker.learn(signature)?;
    Ok(number)
}

#[tactic(auto, unfolding(crate::specs::Functions::opened_form))]
fn check_opened(
    checker: &mut Checker,
    function: &Function,
    number: usize,
) -> Result<CheckedFunction, Stop>
    ensures { Did function_of result checker.new
        (functions.opened_form function.now number checker.old) }
{
    let count = checker.count();
    let checked = function_within(checker, function, number, top().opened(count))?;
    checker.close(count);
    Ok(checked)
}

/// What a function is.
#[tactic(auto, unfolding(crate::specs::Functions::function_form))]
pub(crate) fn check_function(
    checker: &mut Checker,
    function: &Function,
) -> Result<CheckedFunction, Stop>
    ensures { Did function_of result checker.new
        (functions.function_form function.now checker.old) }
{
    let number = name_function(checker, function)?;
    check_opened(checker, function, number)
}
