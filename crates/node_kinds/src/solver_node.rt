//! What a solver makes its nodes of.
ghost use Rattle.std.specs.Prelude.{◌≡◌, false, None, IfOk};
ghost use Rattle.cbl_operations.specs.RuleOf.{rule_of};
ghost use Rattle.cbl_violations.specs.Violations.Repeat.{repeat};
ghost use Rattle.cbl_violations.specs.Violations.WeightedTotal.{weighted_total};
ghost use Rattle.node_kinds.specs.ConstantRule.{rule_of_constant};
ghost use Rattle.node_kinds.specs.OpNodes.{is_user, users_of};

use crate::kind::KindOf;
use cbl_base::{NoMemory, NodeRule, NodeValue};
use cbl_operations::Op;
use std::alloc::Global;
use user_constraint::LocalConstraint;

/// A node that can be made of an operation, a constant, a total and a repeat. A solver makes its nodes by it; the nodes of
/// users' constraints it is given.
pub trait SolverNode: NodeRule + Sized {
    /// The node of an operation or a constraint that isn't a user's. `NoMemory` where there is none for it.
    fn of_operation(alloc: Global, op: &Op) -> Result<Self, NoMemory>
        requires { is_user op.now ≡ false }
        ensures { IfOk result (λ node. ⟦<Self as NodeRule>⟧.rule node ≡
            rule_of (users_of None) op.now) };

    /// A node without inputs that always has this value.
    fn of_constant(value: NodeValue) -> Self
        ensures { ⟦<Self as NodeRule>⟧.rule result ≡ rule_of_constant value };

    /// The node of the total of so many members, whose weights are the inputs behind them.
    fn of_total(alloc: Global, members: u32) -> Self
        ensures { ⟦<Self as NodeRule>⟧.rule result ≡ weighted_total members };

    /// The node that has its one input as value.
    fn of_repeat(alloc: Global) -> Self
        ensures { ⟦<Self as NodeRule>⟧.rule result ≡ repeat };
}

impl<U: LocalConstraint> SolverNode for KindOf<U> {
    fn of_operation(alloc: Global, op: &Op) -> Result<KindOf<U>, NoMemory> {
        KindOf::of_named(alloc, op)
    }

    fn of_constant(value: NodeValue) -> KindOf<U> {
        KindOf::constant(value)
    }

    fn of_total(alloc: Global, members: u32) -> KindOf<U> {
        KindOf::total(alloc, members)
    }

    fn of_repeat(alloc: Global) -> KindOf<U> {
        KindOf::repeat(alloc)
    }
}
