//! What a statement is, by its form.
ghost use Rattle.std.specs.Prelude.{◌<◌};
ghost use Rattle.comet_syntax.specs.declared.tree.statements.Statement.{Statement, size-Statement};
ghost use Rattle.checked_tree.specs.Tasks.{work_of};
ghost use Rattle.type_scopes.specs.Did.{Did};
ghost use Rattle.type_statements.specs.Statements.{statement_of};

use crate::blocks::check_own_block;
use crate::branches::{check_if, check_if_else, check_while};
use crate::inside::Within;
use crate::later::{check_neighbor, check_parall, check_whenever, check_with};
use crate::loops::{check_for, check_for_all};
use crate::selectors::{check_select, check_select_by};
use checked_tree::{Stop, Task};
use comet_syntax::tree::Statement;
use type_heads::{check_acted, check_declared, check_empty, check_returned};
use type_scopes::{Checker, Scope};

/// A statement, by its form.
#[tactic(auto, unfolding(crate::specs::Statements::statement_of, crate::specs::Statements::block_of))]
pub(crate) fn check_form<W: Within>(
    checker: &mut Checker,
    scope: Scope,
    inside: &W,
    statement: &Statement,
) -> Result<Task, Stop>
    requires { (part : Statement) → size-Statement part < size-Statement statement.now →
        W.may_judge inside.now part }
    ensures { Did work_of result checker.new (statement_of statement.now scope checker.old) }
{
    match statement {
        Statement::Block(block) => check_own_block(checker, scope, inside, block),
        Statement::Empty(place) => Ok(check_empty(*place)),
        Statement::Declaration(declaration) => check_declared(checker, scope, declaration),
        Statement::Simple(simple) => check_acted(checker, scope, simple),
        Statement::Return { place, value: None } => check_returned(checker, scope, *place, None),
        Statement::Return {
            place,
            value: Some(value),
        } => check_returned(checker, scope, *place, Some(value)),
        Statement::If {
            place,
            test,
            then,
            otherwise: None,
        } => check_if(checker, scope, inside, *place, test, then),
        Statement::If {
            place,
            test,
            then,
            otherwise: Some(otherwise),
        } => check_if_else(checker, scope, inside, *place, test, then, otherwise),
        Statement::While { place, test, body } => check_while(
            checker, scope, inside, *place, test, body,
        ),
        Statement::For { place, head, body } => check_for(
            checker, scope, inside, *place, head, body,
        ),
        Statement::ForAll {
            place,
            generators,
            body,
        } => check_for_all(checker, scope, inside, *place, generators, body),
        Statement::Select {
            place,
            generators,
            body,
        } => check_select(checker, scope, inside, *place, generators, body),
        Statement::SelectBy {
            place,
            extreme,
            generators,
            key,
            body,
        } => check_select_by(
            checker, scope, inside, *place, *extreme, generators, key, body,
        ),
        Statement::Neighbor {
            place,
            key,
            selector,
            body,
        } => check_neighbor(checker, scope, inside, *place, key, selector, body),
        Statement::Whenever {
            place,
            watched,
            body,
        } => check_whenever(checker, scope, inside, *place, watched, body),
        Statement::With {
            place,
            mode,
            solver,
            body,
        } => check_with(checker, scope, inside, *place, *mode, solver, body),
        Statement::Parall {
            place,
            name,
            domain,
            body,
        } => check_parall(checker, scope, inside, *place, name, domain, body),
    }
}
