//! How the statements inside a statement are judged. The functions of all forms are generic in it, so that none of them is
//! in a cycle with another: only what makes an `Inside` is.
ghost use Rattle.std.specs.Prelude.{◌≡◌};
ghost use Rattle.comet_syntax.specs.declared.tree.statements.Statement.{Statement};
ghost use Rattle.checked_tree.specs.Tasks.{work_of};
ghost use Rattle.type_scopes.specs.Did.{Did};
ghost use Rattle.type_statements.specs.Inside.{IsCallable, Judges};
ghost use Rattle.type_statements.specs.Statements.{statement_of, within_own};
ghost use Rattle.type_statements.specs.View.{boxed_of};

use checked_tree::{Stop, Task};
use comet_syntax::tree::Statement;
use tree_makers::make_tasks::box_task;
use type_scopes::{Checker, Scope};

/// How statements are judged.
pub(crate) trait Within {
    ghost use Rattle.comet_syntax.specs.declared.tree.statements.Statement.{Statement};

    /// Whether a statement may be judged.
    ghost may_judge: { Self → Statement → Type 0 };

    /// Judges a statement. Refused exactly where the first of its parts that has no case is; `NoMemory` where memory
    /// runs out.
    fn judge(
        &self,
        checker: &mut Checker,
        scope: Scope,
        statement: &Statement,
    ) -> Result<Task, Stop>
        requires { may_judge self.now statement.now }
        ensures { Did work_of result checker.new (statement_of statement.now scope checker.old) };
}

/// The same, by a function.
#[derive(Drop)]
pub(crate) struct Inside<J> {
    pub(crate) judge: J,
}

impl<J: Fn(&mut Checker, Scope, &Statement) -> Result<Task, Stop>> Within for Inside<J> {
    ghost may_judge = { λ i s. IsCallable (J.pre i.judge) s × Judges (J.post i.judge) };

    fn judge(
        &self,
        checker: &mut Checker,
        scope: Scope,
        statement: &Statement,
    ) -> Result<Task, Stop> {
        (self.judge)(checker, scope, statement)
    }
}

/// A statement inside another one, in a scope of its own.
#[tactic(auto, unfolding(crate::specs::Statements::within_own))]
pub(crate) fn check_own<W: Within>(
    checker: &mut Checker,
    scope: Scope,
    inside: &W,
    statement: &Statement,
) -> Result<Box<Task>, Stop>
    requires { W.may_judge inside.now statement.now }
    ensures { Did boxed_of result checker.new
        (within_own (statement_of statement.now) scope checker.old) }
{
    let count = checker.count();
    let task = inside.judge(checker, scope.opened(count), statement)?;
    checker.close(count);
    let task = box_task(checker.alloc(), task)?;
    Ok(task)
}
