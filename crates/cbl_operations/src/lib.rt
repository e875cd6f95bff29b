//! The operations of terms and the constraints by their names (`Op`), and what each means: its rule as
//! a node. Those on one number, on two, on a list, on keys with numbers and on two sets are types of
//! their own (`UnaryOp`, `BinaryOp`, `NaryOp`, `KeyedOp`, `TwoSetsOp`), of which `Op` has one variant each,
//! as it has one for all constraints. Beside the definition of each operation stands a plain function that gives
//! exactly the rule's value, from scratch; those of the constraints stand in `cbl_violations`.
//!
//! It knows nothing of nodes that are kept up to date, of terms, solvers or programs. The layers above
//! use the rule of each `Op` (`rule_of`), that all its values are of one kind, that an operation has no
//! violation, that the functions here give the rules exactly, and the laws, which say what the formulas
//! mean: the least of some numbers is one of them and below all, the members of a union are those of
//! either set, and so on.
#![tactic(auto)]

mod binary;
mod counting;
mod elements;
mod keyed;
mod laws;
mod nary;
mod op;
mod order;
mod sets;
mod sums;
mod truth;
mod two_sets;
mod unary;

pub use binary::BinaryOp;
pub use elements::{element_value, element2_value};
pub use keyed::KeyedOp;
pub use laws::{
    cells_by_index, cells_by_row_and_column, count_of_cells, keys_of_numbers, least_and_greatest,
    members_of_sets, operations_by_number, operations_have_no_violation, quotient_and_remainder,
    relations_hold, truth_of_parts, values_of_one_kind,
};
pub use nary::NaryOp;
pub use op::Op;
pub use sets::{card_value, member_value};
pub use two_sets::TwoSetsOp;
pub use unary::UnaryOp;
