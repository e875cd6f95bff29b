//! What statements are.
ghost use Rattle.std.specs.Prelude.{◌<◌};
ghost use Rattle.comet_syntax.specs.declared.tree.statements.Statement.{size-Statement};
ghost use Rattle.checked_tree.specs.Tasks.{work_of};
ghost use Rattle.type_scopes.specs.Did.{Did};
ghost use Rattle.type_statements.specs.Statements as statements;
ghost use Rattle.type_statements.specs.Statements.{block_of, statement_of};

use crate::blocks::check_own_block;
use crate::forms::check_form;
use crate::inside::Inside;
use checked_tree::{Stop, Task};
use comet_syntax::tree::{Block, Statement};
use type_scopes::{Checker, Scope};

/// Judges a statement. Refused exactly where the first of its parts that has no case is; `NoMemory` where memory
/// runs out.
#[cycle(statement)]
pub fn check_statement(
    checker: &mut Checker,
    scope: Scope,
    statement: &Statement,
) -> Result<Task, Stop>
    ensures { Did work_of result checker.new (statement_of statement.now scope checker.old) }
{
    let smaller = |checker: &mut Checker, scope: Scope, part: &Statement| -> Result<Task, Stop>
        requires { size-Statement part.now < size-Statement statement.now }
        ensures { Did work_of result checker.new (statement_of part.now scope checker.old) }
    {
        let _whole = statement;
        check_statement(checker, scope, part)
    };
    let inside = Inside { judge: smaller };
    check_form(checker, scope, &inside, statement)
}

/// Judges a block, in a scope of its own. Refused exactly as its statements are; `NoMemory` where memory runs out.
pub fn check_block(checker: &mut Checker, scope: Scope, block: &Block) -> Result<Task, Stop>
    ensures { Did work_of result checker.new
        (statements.within_own (block_of block.now) scope checker.old) }
{
    let inside = Inside {
        judge: check_statement,
    };
    check_own_block(checker, scope, &inside, block)
}
