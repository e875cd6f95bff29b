//! The programs that run by now.
ghost use Rattle.std.specs.Prelude.{◌≡◌, map};
ghost use Rattle.std.specs.List.{list_all};
ghost use Rattle.checked_tree.specs.Tasks.{function_of, program_of, work_of};
ghost use Rattle.comet_meaning.specs.Built as built;

use crate::tasks::is_built_task;
use checked_tree::{Checked, Function, Kind, Task};

fn is_built_parameter(kind: Kind) -> bool
    ensures { result ≡ built.is_built_parameter kind }
{
    !matches!(kind, Kind::Monitor)
}

fn are_built_parameters(kinds: &[Kind]) -> bool
    ensures { result ≡ list_all built.is_built_parameter kinds.now }
{
    for kind in kinds {
        if !is_built_parameter(*kind) {
            return false;
        }
    }
    true
}

fn is_built_function(function: &Function) -> bool
    ensures { result ≡ built.is_built_function (function_of function.now) }
{
    are_built_parameters(&function.parameters) && is_built_task(&function.body)
}

fn are_built_functions(functions: &[Function]) -> bool
    ensures { result ≡ list_all built.is_built_function (map function_of functions.now) }
{
    for function in functions {
        if !is_built_function(function) {
            return false;
        }
    }
    true
}

fn are_built_statements(tasks: &[Task]) -> bool
    ensures { result ≡ list_all built.is_built_work (map work_of tasks.now) }
{
    for task in tasks {
        if !is_built_task(task) {
            return false;
        }
    }
    true
}

/// Whether a program holds only forms that run by now.
#[tactic(auto, unfolding(comet_meaning::specs::Built::is_built))]
pub fn is_built(program: &Checked) -> bool
    ensures { result ≡ built.is_built (program_of program.now) }
{
    are_built_functions(&program.functions) && are_built_statements(&program.tasks)
}
