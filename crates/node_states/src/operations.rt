//! Operations by their names.

use cbl_operations::{BinaryOp, NaryOp, Op, TwoSetsOp, UnaryOp};
use cbl_violations::Constraint;

/// The operation of this name that keeps nothing beside its inputs.
pub fn plain_operation(name: &str) -> Option<Op> {
    if let Some(op) = unary_operation(name) {
        return Some(Op::Unary(op));
    }
    if let Some(op) = binary_operation(name) {
        return Some(Op::Binary(op));
    }
    if let Some(op) = nary_operation(name) {
        return Some(Op::Nary(op));
    }
    match name {
        "Union" => Some(Op::TwoSets(TwoSetsOp::Union)),
        "Inter" => Some(Op::TwoSets(TwoSetsOp::Inter)),
        "Minus" => Some(Op::TwoSets(TwoSetsOp::Minus)),
        "Card" => Some(Op::Card),
        "Member" => Some(Op::Member),
        _ => Some(Op::Constraint(plain_constraint(name)?)),
    }
}

/// The operation on one number of this name.
fn unary_operation(name: &str) -> Option<UnaryOp> {
    match name {
        "Neg" => Some(UnaryOp::Neg),
        "Abs" => Some(UnaryOp::Abs),
        "Not" => Some(UnaryOp::Not),
        _ => None,
    }
}

/// The operation on two numbers of this name.
fn binary_operation(name: &str) -> Option<BinaryOp> {
    match name {
        "Add" => Some(BinaryOp::Add),
        "Sub" => Some(BinaryOp::Sub),
        "Mul" => Some(BinaryOp::Mul),
        "Div" => Some(BinaryOp::Div),
        "Rem" => Some(BinaryOp::Rem),
        "Eq" => Some(BinaryOp::Eq),
        "Ne" => Some(BinaryOp::Ne),
        "Le" => Some(BinaryOp::Le),
        "Lt" => Some(BinaryOp::Lt),
        _ => None,
    }
}

/// The operation on a list of numbers of this name.
fn nary_operation(name: &str) -> Option<NaryOp> {
    match name {
        "Least" => Some(NaryOp::Least),
        "Greatest" => Some(NaryOp::Greatest),
        "Sum" => Some(NaryOp::Sum),
        "Count" => Some(NaryOp::Count),
        "And" => Some(NaryOp::And),
        "Or" => Some(NaryOp::Or),
        _ => None,
    }
}

/// The constraint of this name that keeps nothing beside its inputs.
fn plain_constraint(name: &str) -> Option<Constraint> {
    match name {
        "ViolEq" => Some(Constraint::Eq),
        "ViolNe" => Some(Constraint::Ne),
        "ViolLe" => Some(Constraint::Le),
        "ViolLt" => Some(Constraint::Lt),
        "AllDifferent" => Some(Constraint::AllDifferent),
        "AllOf" => Some(Constraint::AllOf),
        "AnyOf" => Some(Constraint::AnyOf),
        "NotHeld" => Some(Constraint::NotHeld),
        _ => None,
    }
}
