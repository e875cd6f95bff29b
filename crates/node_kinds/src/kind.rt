//! All kinds of nodes in one type.
use crate::constant::Constant;
use crate::constraint_kind::ConstraintKind;
use crate::operation_kind::OperationKind;
use cbl_base::{Change, Input, NoMemory, NodeFault, NodeRule, NodeValue, RunFault};
use node_base::{NumberNode, OverNumbers};
use node_order::ArgExtreme;
use node_set::{Card, Member, SetOf, TwoSets};
use user_constraint::{LocalConstraint, UserConstraint};

/// A node of some kind. Its rule is that of the node inside. `U` is what users' constraints are.
#[derive(Drop)]
pub enum KindOf<U: LocalConstraint> {
    Constant(Constant),
    Operation(OverNumbers<OperationKind>),
    Constraint(OverNumbers<ConstraintKind<U>>),
    SetOf(SetOf),
    ArgExtreme(ArgExtreme),
    TwoSets(TwoSets),
    Card(Card),
    Member(Member),
}

/// A node of some kind, where users' constraints are boxed.
pub type Kind = KindOf<Box<dyn UserConstraint>>;

impl<U: LocalConstraint> NodeRule for KindOf<U> {
    ghost use Rattle.std.specs.Prelude.{[]};
    ghost use Rattle.node_kinds.specs.ConstantRule.{rule_of_constant};
    ghost use Rattle.node_kinds.specs.declared.kind.KindOf.TheVariants.{Constant, Operation, Constraint, SetOf, ArgExtreme, TwoSets, Card, Member};

    ghost rule = { elim [
      | Constant s ↦ rule_of_constant s.value
      | Operation s ↦ ⟦<OverNumbers<OperationKind> as NodeRule>⟧.rule s
      | Constraint s ↦ ⟦<OverNumbers<ConstraintKind<U>> as NodeRule>⟧.rule s
      | SetOf s ↦ ⟦<SetOf as NodeRule>⟧.rule s
      | ArgExtreme s ↦ ⟦<ArgExtreme as NodeRule>⟧.rule s
      | TwoSets s ↦ ⟦<TwoSets as NodeRule>⟧.rule s
      | Card s ↦ ⟦<Card as NodeRule>⟧.rule s
      | Member s ↦ ⟦<Member as NodeRule>⟧.rule s
    ] };

    ghost ready = { elim [
      | Constant _ ↦ Unit {0}
      | Operation s ↦ ⟦<OverNumbers<OperationKind> as NodeRule>⟧.ready s
      | Constraint s ↦ ⟦<OverNumbers<ConstraintKind<U>> as NodeRule>⟧.ready s
      | SetOf s ↦ ⟦<SetOf as NodeRule>⟧.ready s
      | ArgExtreme s ↦ ⟦<ArgExtreme as NodeRule>⟧.ready s
      | TwoSets s ↦ ⟦<TwoSets as NodeRule>⟧.ready s
      | Card s ↦ ⟦<Card as NodeRule>⟧.ready s
      | Member s ↦ ⟦<Member as NodeRule>⟧.ready s
    ] };

    ghost held = { elim [
      | Constant _ ↦ []
      | Operation s ↦ ⟦<OverNumbers<OperationKind> as NodeRule>⟧.held s
      | Constraint s ↦ ⟦<OverNumbers<ConstraintKind<U>> as NodeRule>⟧.held s
      | SetOf s ↦ ⟦<SetOf as NodeRule>⟧.held s
      | ArgExtreme s ↦ ⟦<ArgExtreme as NodeRule>⟧.held s
      | TwoSets s ↦ ⟦<TwoSets as NodeRule>⟧.held s
      | Card s ↦ ⟦<Card as NodeRule>⟧.held s
      | Member s ↦ ⟦<Member as NodeRule>⟧.held s
    ] };

    ghost use Rattle.cbl_base.specs.Sets.{set_of};
    ghost use Rattle.cbl_base.specs.NumberRule.{one_kind_of_numbers};
    ghost use Rattle.cbl_operations.specs.Truth.{is_one};
    ghost use Rattle.cbl_operations.specs.SetForms.{keys_where, one_kind_of_keys, one_kind_of_two_sets};
    ghost use Rattle.cbl_operations.specs.Operations.Card.{one_kind_of_card};
    ghost use Rattle.cbl_operations.specs.Operations.Member.{one_kind_of_member};
    ghost use Rattle.node_order.specs.Extremes.{extreme_keys};
    ghost use Rattle.node_set.specs.Combining.{combined};
    ghost use Rattle.node_kinds.specs.ConstantRule.{one_kind_of_constant};

    ghost one_kind = { elim [
      | Constant s ↦ one_kind_of_constant s.value
      | Operation s ↦ one_kind_of_numbers (⟦<OperationKind as NumberNode>⟧.number_rule s.node)
      | Constraint s ↦ one_kind_of_numbers (⟦<ConstraintKind<U> as NumberNode>⟧.number_rule s.node)
      | SetOf s ↦ one_kind_of_keys s.keys (λ xs. set_of (keys_where is_one s.keys xs))
      | ArgExtreme s ↦ one_kind_of_keys s.least.keys (extreme_keys s.extreme s.least.keys)
      | TwoSets s ↦ one_kind_of_two_sets (combined s.combining)
      | Card _ ↦ one_kind_of_card
      | Member _ ↦ one_kind_of_member
    ] };

    fn reset(&mut self, inputs: &[Input]) -> Result<(), NoMemory> {
        match self {
            KindOf::Constant(node) => node.reset(inputs),
            KindOf::Operation(node) => node.reset(inputs),
            KindOf::Constraint(node) => node.reset(inputs),
            KindOf::SetOf(node) => node.reset(inputs),
            KindOf::ArgExtreme(node) => node.reset(inputs),
            KindOf::TwoSets(node) => node.reset(inputs),
            KindOf::Card(node) => node.reset(inputs),
            KindOf::Member(node) => node.reset(inputs),
        }
    }

    fn apply(&mut self, changes: &[Change]) -> Result<(), NoMemory> {
        match self {
            KindOf::Constant(node) => node.apply(changes),
            KindOf::Operation(node) => node.apply(changes),
            KindOf::Constraint(node) => node.apply(changes),
            KindOf::SetOf(node) => node.apply(changes),
            KindOf::ArgExtreme(node) => node.apply(changes),
            KindOf::TwoSets(node) => node.apply(changes),
            KindOf::Card(node) => node.apply(changes),
            KindOf::Member(node) => node.apply(changes),
        }
    }

    fn probe(&self, changes: &[Change]) -> Result<NodeValue, NodeFault> {
        match self {
            KindOf::Constant(node) => node.probe(),
            KindOf::Operation(node) => node.probe(changes),
            KindOf::Constraint(node) => node.probe(changes),
            KindOf::SetOf(node) => node.probe(changes),
            KindOf::ArgExtreme(node) => node.probe(changes),
            KindOf::TwoSets(node) => node.probe(changes),
            KindOf::Card(node) => node.probe(changes),
            KindOf::Member(node) => node.probe(changes),
        }
    }

    fn value(&self) -> Result<&NodeValue, RunFault> {
        match self {
            KindOf::Constant(node) => Ok(node.value()),
            KindOf::Operation(node) => node.value(),
            KindOf::Constraint(node) => node.value(),
            KindOf::SetOf(node) => node.value(),
            KindOf::ArgExtreme(node) => node.value(),
            KindOf::TwoSets(node) => node.value(),
            KindOf::Card(node) => node.value(),
            KindOf::Member(node) => node.value(),
        }
    }

    fn place_violation(&self, place: u32) -> i64 {
        match self {
            KindOf::Constant(_) => 0,
            KindOf::Operation(node) => node.place_violation(place),
            KindOf::Constraint(node) => node.place_violation(place),
            KindOf::SetOf(node) => node.place_violation(place),
            KindOf::ArgExtreme(node) => node.place_violation(place),
            KindOf::TwoSets(node) => node.place_violation(place),
            KindOf::Card(node) => node.place_violation(place),
            KindOf::Member(node) => node.place_violation(place),
        }
    }
}
