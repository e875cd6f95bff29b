//! Which operation a node computes.

use crate::binary::BinaryOp;
use crate::keyed::KeyedOp;
use crate::nary::NaryOp;
use crate::two_sets::TwoSetsOp;
use crate::unary::UnaryOp;
use cbl_base::Numbers;
use cbl_violations::Constraint;

/// An operation of a term, or a constraint, with what it keeps beside its inputs. An array that the inputs
/// are counts from `low`; `keys` has a number for each input.
#[derive(Clone, Drop, Debug)]
pub enum Op {
    Unary(UnaryOp),
    Binary(BinaryOp),
    Nary(NaryOp),
    Keyed {
        op: KeyedOp,
        keys: Numbers,
    },
    /// The index, and then the `len` cells.
    Element {
        low: i64,
        len: u32,
    },
    /// The row, the column, and then the cells, row by row: `len1` rows of `len2`.
    Element2 {
        low1: i64,
        len1: u32,
        low2: i64,
        len2: u32,
    },
    TwoSets(TwoSetsOp),
    Card,
    /// The number, and then the set.
    Member,
    Constraint(Constraint),
    /// The user's constraint with this number, counted from 0 in order of posting.
    User {
        number: u32,
    },
}
