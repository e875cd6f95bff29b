//! The code of a term, from the names of its arguments.
ghost use Rattle.std.specs.Prelude.{◌≡◌, ◌++◌, [], ◌∷◌, negsuc, IfOk, OnOk};
ghost use Rattle.term_count.specs.Codes.{counted, operation_code};

use cbl_base::NoMemory;
use std::alloc::Global;
use term_model::{Op, fields_of, name_of};

/// Puts a list, behind its length, behind the numbers.
fn push_counted(numbers: &[i64], into: &mut Vec<i64>) -> Result<(), NoMemory>
    ensures { OnOk result (into.new.items ≡ into.old.items ++ counted numbers.now) }
{
    into.push(numbers.len() as i64)?;
    into.extend_from_slice(numbers)?;
    Ok(())
}

/// The code of an operation of arguments with these names.
pub fn node_code(alloc: Global, op: &Op, names: &[i64]) -> Result<Vec<i64>, NoMemory>
    ensures { IfOk result (λ code. code.items ≡ operation_code op.now ++ names.now) }
{
    let fields = fields_of(op);
    let mut code = Vec::new(alloc);
    code.push(i64::from(name_of(op)))?;
    code.extend_from_slice(&fields.numbers)?;
    push_counted(fields.first, &mut code)?;
    push_counted(fields.second, &mut code)?;
    code.extend_from_slice(names)?;
    Ok(code)
}

/// The code of a number.
pub fn number_code(alloc: Global, number: &i64) -> Result<Vec<i64>, NoMemory>
    ensures { IfOk result (λ code. code.items ≡ negsuc 0 ∷ number.now ∷ []) }
{
    let mut code = Vec::new(alloc);
    code.push(-1)?;
    code.push(*number)?;
    Ok(code)
}

/// The code of a set.
pub fn set_code(alloc: Global, members: &[i64]) -> Result<Vec<i64>, NoMemory>
    ensures { IfOk result (λ code. code.items ≡ negsuc 1 ∷ members.now) }
{
    let mut code = Vec::new(alloc);
    code.push(-2)?;
    code.extend_from_slice(members)?;
    Ok(code)
}
