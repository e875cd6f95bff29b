//! Statements with a test.
ghost use Rattle.checked_tree.specs.Tasks.{work_of};
ghost use Rattle.type_scopes.specs.Did.{Did};
ghost use Rattle.type_expressions.specs.Expressions.{judge};
ghost use Rattle.type_statements.specs.Statements as statements;
ghost use Rattle.type_statements.specs.Statements.{statement_of};

use crate::inside::{Within, check_own};
use cbl_base::Place;
use checked_tree::{Stop, Task};
use comet_syntax::tree::{Expression, Statement};
use tree_makers::kept::{behind, beside};
use tree_makers::make_tasks::{make_if, make_if_else, make_while};
use type_declarations::rule;
use type_expressions::check_expression;
use type_heads::truth_fault;
use type_scopes::{Checker, Scope};

#[tactic(auto, unfolding(crate::specs::Statements::if_form))]
pub(crate) fn check_if<W: Within>(
    checker: &mut Checker,
    scope: Scope,
    inside: &W,
    place: Place,
    test: &Expression,
    then: &Statement,
) -> Result<Task, Stop>
    requires { W.may_judge inside.now «then».now }
    ensures { Did work_of result checker.new
        (statements.if_form place (judge test.now) (statement_of «then».now) scope checker.old) }
{
    let test = check_expression(checker, scope, test)?;
    let test = behind(rule(place, truth_fault(test.kind)), test)?;
    let (test, then) = beside(test, check_own(checker, scope, inside, then))?;
    Ok(make_if(place, test, then))
}

#[tactic(auto, unfolding(crate::specs::Statements::if_else_form))]
pub(crate) fn check_if_else<W: Within>(
    checker: &mut Checker,
    scope: Scope,
    inside: &W,
    place: Place,
    test: &Expression,
    then: &Statement,
    otherwise: &Statement,
) -> Result<Task, Stop>
    requires first { W.may_judge inside.now «then».now }
    requires second { W.may_judge inside.now otherwise.now }
    ensures { Did work_of result checker.new
        (statements.if_else_form place (judge test.now) (statement_of «then».now)
        (statement_of otherwise.now) scope checker.old) }
{
    let test = check_expression(checker, scope, test)?;
    let test = behind(rule(place, truth_fault(test.kind)), test)?;
    let kept = beside(test, check_own(checker, scope, inside, then))?;
    let (kept, otherwise) = beside(kept, check_own(checker, scope, inside, otherwise))?;
    let (test, then) = kept;
    Ok(make_if_else(place, test, then, otherwise))
}

#[tactic(auto, unfolding(crate::specs::Statements::while_form))]
pub(crate) fn check_while<W: Within>(
    checker: &mut Checker,
    scope: Scope,
    inside: &W,
    place: Place,
    test: &Expression,
    body: &Statement,
) -> Result<Task, Stop>
    requires { W.may_judge inside.now body.now }
    ensures { Did work_of result checker.new
        (statements.while_form place (judge test.now) (statement_of body.now) scope checker.old) }
{
    let test = check_expression(checker, scope, test)?;
    let test = behind(rule(place, truth_fault(test.kind)), test)?;
    let (test, body) = beside(test, check_own(checker, scope, inside, body))?;
    Ok(make_while(place, test, body))
}
