//! Whether two terms are equal, with places left aside.
ghost use Rattle.std.specs.Prelude.{◌≡◌, Bool, List};
ghost use Rattle.cbl_operations.specs.declared.op.Op.{Op};
ghost use Rattle.term_model.specs.SameParts.{is_node_of};
ghost use Rattle.term_model.specs.SameTerms.{is_node, is_number, is_set, is_variable, same_term};
ghost use Rattle.term_model.specs.declared.term.Term.{Term};
ghost use Rattle.term_model.specs.declared.term.Term.TheViews.{out-Term};

use crate::equal_operations::same_operation;
use crate::term::Term;
use cbl_base::IntSet;
use cbl_operations::Op;

/// Whether a term is this number.
fn is_number(term: &Term, number: i64) -> bool
    ensures { result ≡ is_number (out-Term term.now) number }
{
    match term {
        Term::Const(x) => *x == number,
        Term::ConstSet(_) => false,
        Term::Var(_) => false,
        Term::Node {
            op: _,
            args: _,
            place: _,
        } => false,
    }
}

/// Whether a term is this set.
fn is_set(term: &Term, set: &IntSet) -> bool
    ensures { result ≡ is_set (out-Term term.now) set.now }
{
    match term {
        Term::Const(_) => false,
        Term::ConstSet(s) => s.as_slice() == set.as_slice(),
        Term::Var(_) => false,
        Term::Node {
            op: _,
            args: _,
            place: _,
        } => false,
    }
}

/// Whether a term is the variable with this index.
fn is_variable(term: &Term, index: u32) -> bool
    ensures { result ≡ is_variable (out-Term term.now) index }
{
    match term {
        Term::Const(_) => false,
        Term::ConstSet(_) => false,
        Term::Var(v) => v.index == index,
        Term::Node {
            op: _,
            args: _,
            place: _,
        } => false,
    }
}

/// The operation of a node, and its arguments.
#[derive(Clone, Copy)]
struct Parts<'a> {
    op: &'a Op,
    args: &'a [Term],
}

/// The operation and the arguments of a term that is a node.
fn parts_of(term: &Term) -> Option<Parts<'_>>
    ensures { (op : Op) (tests : List (Term → Bool)) →
        is_node (out-Term term.now) op tests ≡ is_node_of result op tests }
{
    match term {
        Term::Const(_) => None,
        Term::ConstSet(_) => None,
        Term::Var(_) => None,
        Term::Node { op, args, place: _ } => Some(Parts { op, args }),
    }
}

/// Whether two terms are equal, with places left aside.
pub fn same_term(term: &Term, other: &Term) -> bool
    ensures { result ≡ same_term term.now other.now }
{
    match term {
        Term::Const(x) => is_number(other, *x),
        Term::ConstSet(set) => is_set(other, set),
        Term::Var(v) => is_variable(other, v.index),
        Term::Node { op, args, place: _ } => {
            let Some(parts) = parts_of(other) else {
                return false;
            };
            if !same_operation(parts.op, op) {
                return false;
            }
            if args.len() != parts.args.len() {
                return false;
            }
            for i in 0..args.len() {
                if !same_term(&args[i], &parts.args[i]) {
                    return false;
                }
            }
            true
        }
    }
}
