//! Whether ids are a solver's own, and how deep a term is.
ghost use Rattle.std.specs.Prelude.{◌≡◌, ◌&&◌, nat_le};
ghost use Rattle.std.specs.List.{list_all};
ghost use Rattle.solver_models.specs.Ids.{is_given, names_only};
ghost use Rattle.term_model.specs.Depth.{depth_of};

use cbl_base::VarId;
use term_model::Term;

/// Whether an id is one of the first so many of the solver with a number.
pub fn is_given(number: u32, count: usize, x: VarId) -> bool
    ensures { result ≡ is_given number count x }
{
    x.solver == number && (x.index as usize) < count
}

/// Whether all of these are.
pub fn are_given(number: u32, count: usize, vars: &[VarId]) -> bool
    ensures { result ≡ list_all (is_given number count) vars.now }
{
    vars.iter().all(|x| is_given(number, count, *x))
}

/// Whether all ids in a term are.
pub fn names_given(number: u32, count: usize, term: &Term) -> bool
    ensures { result ≡ names_only (is_given number count) term.now }
{
    match term {
        Term::Const(_) => true,
        Term::ConstSet(_) => true,
        Term::Var(var) => is_given(number, count, *var),
        Term::Node {
            op: _,
            args,
            place: _,
        } => {
            for arg in args {
                if !names_given(number, count, arg) {
                    return false;
                }
            }
            true
        }
    }
}

/// Whether a variable and all ids in a term are.
pub fn defines_given(number: u32, count: usize, x: VarId, term: &Term) -> bool
    ensures { result ≡ (is_given number count x && names_only (is_given number count) term.now) }
{
    is_given(number, count, x) && names_given(number, count, term)
}

/// Whether a term is no deeper than a limit.
pub fn is_within(term: &Term, limit: u32) -> bool
    ensures { result ≡ nat_le (depth_of term.now) limit }
{
    match term {
        Term::Const(_) => true,
        Term::ConstSet(_) => true,
        Term::Var(_) => true,
        Term::Node {
            op: _,
            args,
            place: _,
        } => {
            if limit == 0 {
                return false;
            }
            for arg in args {
                if !is_within(arg, limit - 1) {
                    return false;
                }
            }
            true
        }
    }
}
