//! All kinds of nodes in one type, and the node of each operation and constraint.
//!
//! It knows nothing of how a node keeps its value, nor of terms or solvers. The layers above use that
//! whatever `KindOf::of` makes is a `NodeRule` whose rule is that of the operation, and that a constant,
//! a total and the repeat of one input are nodes too. Nodes of operations on numbers stand in one group,
//! nodes of constraints in another.
#![tactic(auto)]

mod constant;
mod constraint_kind;
mod kind;
mod making;
mod operation_kind;
mod solver_node;

pub use constant::Constant;
pub use constraint_kind::ConstraintKind;
pub use kind::{Kind, KindOf};
pub use operation_kind::OperationKind;
pub use solver_node::SolverNode;
