//! Of which kind a term is.
ghost use Rattle.std.specs.Prelude.{◌≡◌, [], Some, IfOk};
ghost use Rattle.std.specs.Bool.{OnFalse, OnTrue};
ghost use Rattle.cbl_base.specs.Inputs.{number_kind};
ghost use Rattle.term_model.specs.Kinds.{kind_of_term, kinds_in};
ghost use Rattle.term_model.specs.Naming.{users_of};

use cbl_base::NoMemory;
use std::alloc::Global;
use term_model::{Term, VarDecl, VarKind, kind_at, kind_within, push_users};

/// Whether a term holds a user's constraint.
pub fn holds_user(alloc: Global, term: &Term) -> Result<bool, NoMemory>
    ensures { IfOk result (λ holds. OnFalse holds (users_of term.now ≡ [])) }
{
    let mut users = Vec::new(alloc);
    push_users(term, &mut users)?;
    Ok(!users.is_empty())
}

/// Whether two kinds are the same.
fn are_same(left: VarKind, right: VarKind) -> bool
    ensures { OnTrue result (left ≡ right) }
{
    match (left, right) {
        (VarKind::Number, VarKind::Number) => true,
        (VarKind::Set, VarKind::Set) => true,
        _ => false,
    }
}

/// Whether a term is of the kind of the variable at a place.
pub fn is_of_kind(
    alloc: Global,
    vars: &[VarDecl],
    index: u32,
    term: &Term,
) -> Result<bool, NoMemory>
    ensures { IfOk result (λ is. OnTrue is (kind_of_term (kinds_in vars.now) term.now ≡
        kinds_in vars.now index)) }
{
    let Some(wanted) = kind_at(vars, index) else {
        return Ok(false);
    };
    match kind_within(alloc, vars, usize::MAX, term)? {
        Some(kind) => Ok(are_same(kind, wanted)),
        None => Ok(false),
    }
}

/// Whether a term is a number.
pub fn is_number(alloc: Global, vars: &[VarDecl], term: &Term) -> Result<bool, NoMemory>
    ensures { IfOk result (λ is. OnTrue is (kind_of_term (kinds_in vars.now) term.now ≡
        Some number_kind)) }
{
    match kind_within(alloc, vars, usize::MAX, term)? {
        Some(VarKind::Number) => Ok(true),
        Some(VarKind::Set) => Ok(false),
        None => Ok(false),
    }
}
