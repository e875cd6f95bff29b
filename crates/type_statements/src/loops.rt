//! Loops.
ghost use Rattle.checked_tree.specs.Tasks.{work_of};
ghost use Rattle.type_scopes.specs.Did.{Did};
ghost use Rattle.type_expressions.specs.Expressions.{judge_generators};
ghost use Rattle.type_statements.specs.Statements as statements;
ghost use Rattle.type_statements.specs.Statements.{statement_of};

use crate::inside::{Within, check_own};
use cbl_base::Place;
use checked_tree::{Stop, Task};
use comet_syntax::tree::{ForHead, Generators, Statement};
use tree_makers::kept::{behind, beside};
use tree_makers::make_tasks::{make_for, make_for_all};
use type_declarations::rule;
use type_heads::{check_choice, check_head, condition_fault};
use type_scopes::{Checker, Scope};

#[tactic(auto, unfolding(crate::specs::Statements::for_form, crate::specs::Statements::for_within, crate::specs::Statements::within_own))]
pub(crate) fn check_for<W: Within>(
    checker: &mut Checker,
    scope: Scope,
    inside: &W,
    place: Place,
    head: &ForHead,
    body: &Statement,
) -> Result<Task, Stop>
    requires { W.may_judge inside.now body.now }
    ensures { Did work_of result checker.new
        (statements.for_form place head.now (statement_of body.now) scope checker.old) }
{
    let count = checker.count();
    let at = scope.opened(count);
    let head = check_head(checker, at, place, head)?;
    let (head, body) = beside(head, check_own(checker, at, inside, body))?;
    checker.close(count);
    make_for(checker.alloc(), place, head, body)
}

#[tactic(auto, unfolding(crate::specs::Statements::for_all_form, crate::specs::Statements::for_all_within, crate::specs::Statements::within_own))]
pub(crate) fn check_for_all<W: Within>(
    checker: &mut Checker,
    scope: Scope,
    inside: &W,
    place: Place,
    generators: &Generators,
    body: &Statement,
) -> Result<Task, Stop>
    requires { W.may_judge inside.now body.now }
    ensures { Did work_of result checker.new
        (statements.for_all_form place (judge_generators generators.now)
        (statement_of body.now) scope checker.old) }
{
    let count = checker.count();
    let at = scope.opened(count);
    let choice = check_choice(checker, at, at, generators)?;
    let ruled = rule(place, condition_fault(&choice.condition));
    let choice = behind(ruled, choice)?;
    let (choice, body) = beside(choice, check_own(checker, at, inside, body))?;
    checker.close(count);
    make_for_all(checker.alloc(), place, choice, body)
}
