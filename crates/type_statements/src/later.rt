//! Statements whose body runs later or apart.
ghost use Rattle.std.specs.Prelude.{◌<◌};
ghost use Rattle.comet_syntax.specs.declared.tree.statements.Block.{size-Block};
ghost use Rattle.comet_syntax.specs.declared.tree.statements.Statement.{Statement, size-Statement};
ghost use Rattle.checked_tree.specs.Shape.{seen};
ghost use Rattle.checked_tree.specs.Tasks.{work_of};
ghost use Rattle.type_scopes.specs.Did.{Did};
ghost use Rattle.type_expressions.specs.Expressions.{judge};
ghost use Rattle.type_statements.specs.Statements as statements;
ghost use Rattle.type_statements.specs.Statements.{block_of, statement_of};

use crate::blocks::check_own_block;
use crate::inside::{Within, check_own};
use cbl_base::Place;
use checked_tree::{Kind, Stop, Task, Typed};
use comet_syntax::tree::{Block, Events, Expression, Name, Statement, Watched, WithMode};
use tree_makers::kept::{behind, beside};
use tree_makers::make_tasks::{box_task, make_neighbor, make_parall, make_whenever, make_with};
use type_expressions::check_expression;
use type_heads::{apart, check_shared, check_watched, declare_events, in_parall, write_name};
use type_rules::kinds::is_number;
use type_scopes::{Checker, Scope};

#[tactic(auto, unfolding(crate::specs::Statements::neighbor_form))]
pub(crate) fn check_neighbor<W: Within>(
    checker: &mut Checker,
    scope: Scope,
    inside: &W,
    place: Place,
    key: &Expression,
    selector: &Name,
    body: &Statement,
) -> Result<Task, Stop>
    requires { W.may_judge inside.now body.now }
    ensures { Did work_of result checker.new
        (statements.neighbor_form place (judge key.now) selector.now
        (statement_of body.now) scope checker.old) }
{
    let key = check_expression(checker, scope, key)?;
    let fit = is_number(key.kind);
    let slot = write_name(checker, place, Kind::Selector, fit, selector, scope);
    let (key, slot) = beside(key, slot)?;
    let (key, body) = beside(key, check_own(checker, apart(scope), inside, body))?;
    make_neighbor(checker.alloc(), place, key, slot, body)
}

#[tactic(auto, unfolding(crate::specs::Statements::with_form))]
pub(crate) fn check_with<W: Within>(
    checker: &mut Checker,
    scope: Scope,
    inside: &W,
    place: Place,
    mode: WithMode,
    solver: &Name,
    body: &Block,
) -> Result<Task, Stop>
    requires { (part : Statement) → size-Statement part < size-Block body.now →
        W.may_judge inside.now part }
    ensures { Did work_of result checker.new
        (statements.with_form place mode solver.now (block_of body.now) scope checker.old) }
{
    let slot = write_name(checker, place, Kind::Solver, true, solver, scope)?;
    let body = check_own_block(checker, apart(scope), inside, body)?;
    let body = box_task(checker.alloc(), body)?;
    Ok(make_with(place, mode, slot, body))
}

#[tactic(auto, unfolding(crate::specs::Statements::whenever_form, crate::specs::Statements::watching_within, crate::specs::Statements::within_own))]
pub(crate) fn check_whenever<W: Within>(
    checker: &mut Checker,
    scope: Scope,
    inside: &W,
    place: Place,
    watched: &Watched,
    body: &Statement,
) -> Result<Task, Stop>
    requires { W.may_judge inside.now body.now }
    ensures { Did work_of result checker.new
        (statements.whenever_form place watched.now (statement_of body.now) scope checker.old) }
{
    let variable = check_watched(checker, scope, place, watched)?;
    let count = checker.count();
    let at = apart(scope).opened(count);
    let (variable, slots) = beside(variable, declare_events(checker, at, &watched.names))?;
    let (variable, body) = beside(variable, check_own(checker, at, inside, body))?;
    checker.close(count);
    make_whenever(checker.alloc(), place, variable, slots, body)
}

#[tactic(auto, unfolding(crate::specs::Statements::parall_form, crate::specs::Statements::parall_within, crate::specs::Statements::within_own))]
pub(crate) fn check_parall<W: Within>(
    checker: &mut Checker,
    scope: Scope,
    inside: &W,
    place: Place,
    name: &Name,
    domain: &Expression,
    body: &Statement,
) -> Result<Task, Stop>
    requires { W.may_judge inside.now body.now }
    ensures { Did work_of result checker.new
        (statements.parall_form place name.now (judge domain.now)
        (statement_of body.now) scope checker.old) }
{
    let domain = check_shared(checker, scope, place, domain)?;
    let count = checker.count();
    let at = scope.opened(count);
    let slot = at.slot_of(count);
    let declared = checker.declare(name.text.as_slice(), Kind::Int);
    let domain = behind(declared, domain)?;
    let body = check_own(checker, in_parall(count, at), inside, body);
    let (domain, body) = beside(domain, body)?;
    checker.close(count);
    Ok(make_parall(place, slot, domain, body))
}
