//! The node of each operation, of a constant, a total and a repeat.
ghost use Rattle.std.specs.Prelude.{◌≡◌, false, None, IfOk};
ghost use Rattle.std.specs.Option.{is_some, option_map};
ghost use Rattle.cbl_base.specs.NumberRule.{rule_of_numbers};
ghost use Rattle.cbl_violations.specs.Violations.Repeat.{repeat};
ghost use Rattle.cbl_violations.specs.Violations.WeightedTotal.{weighted_total};
ghost use Rattle.cbl_operations.specs.Keyed.{rule_of_keyed};
ghost use Rattle.cbl_operations.specs.RuleOf.{rule_of};
ghost use Rattle.node_kinds.specs.ConstantRule.{rule_of_constant};
ghost use Rattle.node_kinds.specs.OpNodes.{is_user, users_of};
ghost use Rattle.user_constraint.specs.KeptRule.{kept, rule_of_kept};

use crate::constant::Constant;
use crate::constraint_kind::ConstraintKind;
use crate::kind::KindOf;
use crate::operation_kind::OperationKind;
use cbl_base::{NoMemory, NodeRule, NodeValue, Numbers};
use cbl_operations::{KeyedOp, Op};
use diff_comb::{OfOne, WeightedTotal};
use node_base::{NumberNode, OverNumbers};
use node_count::{Element, Element2};
use node_num::{Binary, Unary};
use node_order::ArgExtreme;
use node_set::{Card, Member, SetOf, TwoSets};
use std::alloc::Global;
use user_constraint::{LocalConstraint, UserNode};

impl<U: LocalConstraint> KindOf<U> {
    /// A node without inputs that always has this value.
    pub fn constant(value: NodeValue) -> KindOf<U>
        ensures { ⟦<KindOf<U> as NodeRule>⟧.rule result ≡ rule_of_constant value }
    {
        KindOf::Constant(Constant::new(value))
    }

    /// The node of the total of so many members, whose weights are the inputs behind them.
    pub fn total(alloc: Global, members: u32) -> KindOf<U>
        ensures { ⟦<KindOf<U> as NodeRule>⟧.rule result ≡ weighted_total members }
    {
        KindOf::constraint(
            alloc,
            ConstraintKind::Total(WeightedTotal::new(alloc, members)),
        )
    }

    /// The node that has its one input as value.
    pub fn repeat(alloc: Global) -> KindOf<U>
        ensures { ⟦<KindOf<U> as NodeRule>⟧.rule result ≡ repeat }
    {
        KindOf::constraint(alloc, ConstraintKind::OfOne(OfOne::repeat()))
    }

    /// The node of a user's constraint: its rule is what is kept of the constraint's.
    pub fn user(alloc: Global, user: U) -> KindOf<U>
        ensures { ⟦<KindOf<U> as NodeRule>⟧.rule result ≡
            rule_of_numbers (rule_of_kept (kept (U.user_rule user))) }
    {
        KindOf::constraint(alloc, ConstraintKind::User(UserNode::new(alloc, user)))
    }

    /// The node of an operation or a constraint. A user's constraint is the one that is handed in, which is
    /// there exactly where the operation is one.
    pub fn of(alloc: Global, op: &Op, user: Option<U>) -> Result<KindOf<U>, NoMemory>
        requires { is_user op.now ≡ is_some user }
        ensures { IfOk result (λ kind. ⟦<KindOf<U> as NodeRule>⟧.rule kind ≡
            rule_of (users_of (option_map U.user_rule user)) op.now) }
    {
        match user {
            Some(user) => Ok(KindOf::user(alloc, user)),
            None => KindOf::of_named(alloc, op),
        }
    }

    /// The node of an operation or a constraint that isn't a user's.
    pub(crate) fn of_named(alloc: Global, op: &Op) -> Result<KindOf<U>, NoMemory>
        requires { is_user op.now ≡ false }
        ensures { IfOk result (λ kind. ⟦<KindOf<U> as NodeRule>⟧.rule kind ≡
            rule_of (users_of None) op.now) }
    {
        match op {
            Op::Unary(op) => Ok(KindOf::operation(alloc, OperationKind::Unary(Unary::new(*op)))),
            Op::Binary(op) => Ok(KindOf::operation(alloc, OperationKind::Binary(Binary::new(*op)))),
            Op::Nary(op) => Ok(KindOf::operation(alloc, OperationKind::of_nary(alloc, *op))),
            Op::Keyed { op, keys } => Ok(KindOf::of_keyed(alloc, *op, keys.clone()?)),
            Op::Element { low, len } => {
                let node = Element::new(alloc, *low, *len);
                Ok(KindOf::operation(alloc, OperationKind::Element(node)))
            }
            Op::Element2 {
                low1,
                len1,
                low2,
                len2,
            } => {
                let node = Element2::new(alloc, *low1, *len1, *low2, *len2);
                Ok(KindOf::operation(alloc, OperationKind::Element2(node)))
            }
            Op::TwoSets(op) => Ok(KindOf::TwoSets(TwoSets::new(alloc, *op))),
            Op::Card => Ok(KindOf::Card(Card::new(alloc))),
            Op::Member => Ok(KindOf::Member(Member::new(alloc))),
            Op::Constraint(constraint) => {
                let node = ConstraintKind::of(alloc, constraint)?;
                Ok(KindOf::constraint(alloc, node))
            }
            Op::User { .. } => unreachable!(),
        }
    }

    /// The node of an operation on keys that each have a number.
    fn of_keyed(alloc: Global, op: KeyedOp, keys: Numbers) -> KindOf<U>
        ensures { ⟦<KindOf<U> as NodeRule>⟧.rule result ≡ rule_of_keyed op keys }
    {
        match op {
            KeyedOp::ArgMin => KindOf::ArgExtreme(ArgExtreme::least(alloc, keys)),
            KeyedOp::ArgMax => KindOf::ArgExtreme(ArgExtreme::greatest(alloc, keys)),
            KeyedOp::SetOf => KindOf::SetOf(SetOf::new(alloc, keys)),
        }
    }

    /// A node of an operation on numbers.
    fn operation(alloc: Global, node: OperationKind) -> KindOf<U>
        ensures { ⟦<KindOf<U> as NodeRule>⟧.rule result ≡
            rule_of_numbers (⟦<OperationKind as NumberNode>⟧.number_rule node) }
    {
        KindOf::Operation(OverNumbers::new(alloc, node))
    }

    /// A node of a constraint.
    fn constraint(alloc: Global, node: ConstraintKind<U>) -> KindOf<U>
        ensures { ⟦<KindOf<U> as NodeRule>⟧.rule result ≡
            rule_of_numbers (⟦<ConstraintKind<U> as NumberNode>⟧.number_rule node) }
    {
        KindOf::Constraint(OverNumbers::new(alloc, node))
    }
}
