//! What is put behind the others of a model.
ghost use Rattle.std.specs.Prelude.{◌≡◌, ◌<◌, ◌^◌, [], ◌∷◌, ◌++◌, false, length, OnOk, OnErr};
ghost use Rattle.solver_models.specs.Declaring.{GetsVariable};
ghost use Rattle.solver_models.specs.Defining.{GetsDefinition};
ghost use Rattle.solver_models.specs.State.{IsSameModel};

use cbl_base::NoMemory;
use term_model::{Definition, Model, Posted, VarDecl};

/// Puts a variable behind the others of a model.
fn push_declaration(model: &mut Model, decl: VarDecl) -> Result<(), NoMemory>
    ensures ok { OnOk result (GetsVariable model.old model.new decl) }
    ensures err { OnErr result (IsSameModel model.old model.new) }
{
    model.vars.push(decl)?;
    Ok(())
}

/// Puts a number and a mark behind the others.
fn push_start(assignment: &mut Vec<i64>, marks: &mut Vec<bool>, start: i64) -> Result<(), NoMemory>
    ensures assigned { OnOk result (assignment.new.items ≡ assignment.old.items ++ start ∷ []) }
    ensures marked { OnOk result (marks.new.items ≡ marks.old.items ++ false ∷ []) }
    ensures same_assignment { OnErr result (assignment.new.items ≡ assignment.old.items) }
    ensures same_marks { OnErr result (marks.new.items ≡ marks.old.items) }
{
    assignment.push(start)?;
    if marks.push(false).is_err() {
        let _start = assignment.pop();
        return Err(NoMemory);
    }
    Ok(())
}

/// Puts a variable with its number and its mark behind the others. With `NoMemory` all is as before.
pub fn push_variable(
    model: &mut Model,
    assignment: &mut Vec<i64>,
    marks: &mut Vec<bool>,
    decl: VarDecl,
    start: i64,
) -> Result<(), NoMemory>
    ensures declared { OnOk result (GetsVariable model.old model.new decl) }
    ensures assigned { OnOk result (assignment.new.items ≡ assignment.old.items ++ start ∷ []) }
    ensures marked { OnOk result (marks.new.items ≡ marks.old.items ++ false ∷ []) }
    ensures same_model { OnErr result (IsSameModel model.old model.new) }
    ensures same_assignment { OnErr result (assignment.new.items ≡ assignment.old.items) }
    ensures same_marks { OnErr result (marks.new.items ≡ marks.old.items) }
{
    push_start(assignment, marks, start)?;
    if push_declaration(model, decl).is_err() {
        let _start = assignment.pop();
        let _mark = marks.pop();
        return Err(NoMemory);
    }
    Ok(())
}

/// Puts a definition behind the others, and posts it last. With `NoMemory` all is as before.
pub fn push_definition(model: &mut Model, definition: Definition) -> Result<(), NoMemory>
    requires { length model.old.defs.items < 2 ^ 32 }
    ensures ok { OnOk result (GetsDefinition model.old model.new definition) }
    ensures err { OnErr result (IsSameModel model.old model.new) }
{
    let number = model.defs.len() as u32;
    model.posted.push(Posted::Define(number))?;
    if model.defs.push(definition).is_err() {
        let _posted = model.posted.pop();
        return Err(NoMemory);
    }
    Ok(())
}
