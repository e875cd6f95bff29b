//! Selectors.
ghost use Rattle.checked_tree.specs.Tasks.{work_of};
ghost use Rattle.type_scopes.specs.Did.{Did};
ghost use Rattle.type_expressions.specs.Expressions.{judge, judge_generators};
ghost use Rattle.type_statements.specs.Statements as statements;
ghost use Rattle.type_statements.specs.Statements.{statement_of};

use crate::inside::{Within, check_own};
use cbl_base::Place;
use checked_tree::{Stop, Task};
use comet_syntax::tree::{Expression, Extreme, Generators, Statement};
use tree_makers::kept::{behind, beside};
use tree_makers::make_tasks::{make_select, make_select_by};
use type_declarations::rule;
use type_expressions::check_expression;
use type_heads::{check_choice, condition_fault, key_fault};
use type_rules::Context;
use type_scopes::{Checker, Scope};

#[tactic(auto, unfolding(crate::specs::Statements::select_form, crate::specs::Statements::select_within, crate::specs::Statements::within_own))]
pub(crate) fn check_select<W: Within>(
    checker: &mut Checker,
    scope: Scope,
    inside: &W,
    place: Place,
    generators: &Generators,
    body: &Statement,
) -> Result<Task, Stop>
    requires { W.may_judge inside.now body.now }
    ensures { Did work_of result checker.new
        (statements.select_form place (judge_generators generators.now)
        (statement_of body.now) scope checker.old) }
{
    let count = checker.count();
    let at = scope.opened(count);
    let choice = check_choice(checker, at.within(Context::Pure), at, generators)?;
    let ruled = rule(place, condition_fault(&choice.condition));
    let choice = behind(ruled, choice)?;
    let (choice, body) = beside(choice, check_own(checker, at, inside, body))?;
    checker.close(count);
    make_select(checker.alloc(), place, choice, body)
}

#[tactic(auto, unfolding(crate::specs::Statements::select_by_form, crate::specs::Statements::select_by_within, crate::specs::Statements::within_own))]
pub(crate) fn check_select_by<W: Within>(
    checker: &mut Checker,
    scope: Scope,
    inside: &W,
    place: Place,
    extreme: Extreme,
    generators: &Generators,
    key: &Expression,
    body: &Statement,
) -> Result<Task, Stop>
    requires { W.may_judge inside.now body.now }
    ensures { Did work_of result checker.new
        (statements.select_by_form place extreme (judge_generators generators.now) (judge key.now)
        (statement_of body.now) scope checker.old) }
{
    let count = checker.count();
    let at = scope.opened(count);
    let pure = at.within(Context::Pure);
    let choice = check_choice(checker, pure, at, generators)?;
    let kept = beside(choice, check_expression(checker, pure, key))?;
    let ruled = rule(place, key_fault(&kept.0.condition, kept.1.kind));
    let kept = behind(ruled, kept)?;
    let (kept, body) = beside(kept, check_own(checker, at, inside, body))?;
    checker.close(count);
    let (choice, key) = kept;
    make_select_by(checker.alloc(), place, extreme, choice, key, body)
}
