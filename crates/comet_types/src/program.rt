//! Programs.
ghost use Rattle.std.specs.Prelude.{◌≡◌, map};
ghost use Rattle.checked_tree.specs.Tasks.{program_of};
ghost use Rattle.type_scopes.specs.Did.{Did};
ghost use Rattle.type_scopes.specs.State as acts;
ghost use Rattle.comet_types.specs.Program as program;
ghost use Rattle.comet_types.specs.Program.{Answers, judged};

use crate::functions::{check_function, top};
use cbl_base::Place;
use checked_tree::{Cause, Checked, Stop};
use comet_syntax::tree::{Program, TopPart};
use std::alloc::Global;
use type_scopes::Checker;
use type_statements::check_statement;

/// Why a program has no checked tree: it is refused at a place, with a code from 1 to 12, or for want of memory.
#[derive(Clone, Copy, PartialEq, Eq, Debug)]
pub enum CheckStop {
    Fault(Place, u8),
    NoMemory,
}

#[tactic(auto, unfolding(crate::specs::Program::part_form))]
fn check_part(checker: &mut Checker, mut checked: Checked, part: &TopPart) -> Result<Checked, Stop>
    ensures { Did program_of result checker.new
        (program.part_form part.now (program_of checked) checker.old) }
{
    match part {
        TopPart::Import(_) => Ok(checked),
        TopPart::Include(_) => Ok(checked),
        TopPart::Function(function) => {
            let function = check_function(checker, function)?;
            checked.functions.push(function)?;
            Ok(checked)
        }
        TopPart::Statement(statement) => {
            let task = check_statement(checker, top(), statement)?;
            checked.tasks.push(task)?;
            Ok(checked)
        }
    }
}

fn check_parts(checker: &mut Checker, alloc: Global, parts: &[TopPart]) -> Result<Checked, Stop>
    ensures { Did program_of result checker.new (acts.each program.next_part (map program.part_form parts.now) program.no_part checker.old) }
{
    let mut checked = Checked {
        functions: Vec::new(alloc),
        tasks: Vec::new(alloc),
    };
    for part in parts {
        checked = check_part(checker, checked, part)?;
    }
    Ok(checked)
}

fn code_of(cause: Cause) -> u8
    ensures { result ≡ program.code_of cause }
{
    match cause {
        Cause::UnknownName => 1,
        Cause::DeclaredTwice => 2,
        Cause::WrongType => 3,
        Cause::WrongCount => 4,
        Cause::NotPure => 5,
        Cause::NotInTerm => 6,
        Cause::WritesOuter => 7,
        Cause::NotInParall => 8,
        Cause::MisplacedReturn => 9,
        Cause::NotAssignable => 10,
        Cause::UnknownMethod => 11,
        Cause::OnlyLs => 12,
    }
}

/// The checked tree of a program, or the first part in order of checking whose rule has no case.
pub fn check(alloc: Global, tree: Program) -> Result<Checked, CheckStop>
    ensures { Answers result (judged tree) }
{
    let mut checker = match Checker::new(alloc) {
        Ok(checker) => checker,
        Err(_) => return Err(CheckStop::NoMemory),
    };
    match check_parts(&mut checker, alloc, &tree.parts) {
        Ok(checked) => Ok(checked),
        Err(Stop::Fault(place, cause)) => Err(CheckStop::Fault(place, code_of(cause))),
        Err(Stop::NoMemory) => Err(CheckStop::NoMemory),
    }
}
