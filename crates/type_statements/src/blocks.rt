//! Blocks.
ghost use Rattle.std.specs.Prelude.{All, map, ◌<◌, []};
ghost use Rattle.comet_syntax.specs.declared.tree.statements.Block.{size-Block};
ghost use Rattle.comet_syntax.specs.declared.tree.statements.Statement.{Statement, size-Statement};
ghost use Rattle.checked_tree.specs.Tasks.{work_of};
ghost use Rattle.tree_makers.specs.Makes.{Makes};
ghost use Rattle.type_scopes.specs.Did.{Did};
ghost use Rattle.type_statements.specs.Statements as statements;
ghost use Rattle.type_statements.specs.Statements.{block_of, statement_of};
ghost use Rattle.type_statements.specs.View.{tasks_of};

use crate::inside::Within;
use cbl_base::Place;
use checked_tree::{Stop, Task};
use comet_syntax::tree::{Block, Statement};
use std::alloc::Global;
use tree_makers::make_tasks::make_block;
use type_scopes::{Checker, Scope};

#[tactic(auto, unfolding(crate::specs::Statements::task_form))]
fn check_next<W: Within>(
    checker: &mut Checker,
    scope: Scope,
    inside: &W,
    statement: &Statement,
    mut tasks: Vec<Task>,
) -> Result<Vec<Task>, Stop>
    requires { W.may_judge inside.now statement.now }
    ensures { Did tasks_of result checker.new
        (statements.task_form scope (map work_of tasks.items)
        (statement_of statement.now) checker.old) }
{
    let task = inside.judge(checker, scope, statement)?;
    tasks.push(task)?;
    Ok(tasks)
}

/// An empty list with room for so many statements, so that a block of one takes no room for four.
fn room_for(alloc: Global, count: usize) -> Result<Vec<Task>, Stop>
    ensures { Makes (λ v. v.items) result [] }
{
    let room = Vec::with_capacity(alloc, count)?;
    Ok(room)
}

#[tactic(auto, unfolding(crate::specs::Statements::tasks_form))]
fn check_tasks<W: Within>(
    checker: &mut Checker,
    scope: Scope,
    inside: &W,
    all: &[Statement],
) -> Result<Vec<Task>, Stop>
    requires { All (W.may_judge inside.now) all.now }
    ensures { Did tasks_of result checker.new
        (statements.tasks_form (map statement_of all.now) scope checker.old) }
{
    let room = room_for(checker.alloc(), all.len())?;
    let mut tasks = room;
    for statement in all {
        tasks = check_next(checker, scope, inside, statement, tasks)?;
    }
    Ok(tasks)
}

/// A block, in a scope of its own.
#[tactic(auto, using(crate::proofs::Folded::block_is), unfolding(crate::specs::Statements::opened_tasks, crate::specs::Statements::within_own))]
pub(crate) fn check_own_block<W: Within>(
    checker: &mut Checker,
    scope: Scope,
    inside: &W,
    block: &Block,
) -> Result<Task, Stop>
    requires { (part : Statement) → size-Statement part < size-Block block.now →
        W.may_judge inside.now part }
    ensures { Did work_of result checker.new
        (statements.within_own (block_of block.now) scope checker.old) }
{
    let count = checker.count();
    let tasks = check_tasks(checker, scope.opened(count), inside, &block.statements)?;
    checker.close(count);
    Ok(make_block(block.place, tasks))
}
