//! All nodes of constraints in one type, and the node of each constraint.
ghost use Rattle.std.specs.Prelude.{◌≡◌, IfOk};
ghost use Rattle.cbl_violations.specs.Constraints.{rule_of_constraint};
ghost use Rattle.diff_global.specs.NumberRules.{cardinality_rule};

use cbl_base::{NoMemory, NodeFault, Numbers, RunFault};
use cbl_violations::Constraint;
use diff_comb::{AllOf, AnyOf, OfOne, Relation, WeightedTotal};
use diff_global::{AllDifferent, Cardinality, Demand};
use diff_load_seq::{Knapsack, MultiKnapsack, Sequence};
use node_base::{NumberChange, NumberNode};
use std::alloc::Global;
use user_constraint::{LocalConstraint, UserNode};

/// The node of a constraint, of a total or of a repeat. Its rule is that of the node inside. `U` is what
/// users' constraints are.
#[derive(Drop)]
pub enum ConstraintKind<U: LocalConstraint> {
    AllDifferent(AllDifferent),
    Cardinality(Cardinality),
    Knapsack(Knapsack),
    MultiKnapsack(MultiKnapsack),
    Sequence(Sequence),
    Relation(Relation),
    AllOf(AllOf),
    AnyOf(AnyOf),
    OfOne(OfOne),
    Total(WeightedTotal),
    User(UserNode<U>),
}

impl<U: LocalConstraint> ConstraintKind<U> {
    /// The node of a constraint. `NoMemory` where there is none for it.
    pub fn of(alloc: Global, constraint: &Constraint) -> Result<ConstraintKind<U>, NoMemory>
        ensures { IfOk result (λ kind. ⟦<ConstraintKind<U> as NumberNode>⟧.number_rule kind ≡
            rule_of_constraint constraint.now) }
    {
        match constraint {
            Constraint::Eq => Ok(ConstraintKind::Relation(Relation::eq())),
            Constraint::Ne => Ok(ConstraintKind::Relation(Relation::ne())),
            Constraint::Le => Ok(ConstraintKind::Relation(Relation::le())),
            Constraint::Lt => Ok(ConstraintKind::Relation(Relation::lt())),
            Constraint::AllDifferent => Ok(ConstraintKind::AllDifferent(AllDifferent::new(alloc))),
            Constraint::AtMost { low, bounds } => {
                ConstraintKind::cardinality(alloc, Demand::AtMost, *low, bounds)
            }
            Constraint::AtLeast { low, bounds } => {
                ConstraintKind::cardinality(alloc, Demand::AtLeast, *low, bounds)
            }
            Constraint::Exactly { low, bounds } => {
                ConstraintKind::cardinality(alloc, Demand::Exactly, *low, bounds)
            }
            Constraint::Knapsack { weights, capacity } => {
                let node = Knapsack::new(alloc, weights.clone()?, *capacity);
                Ok(ConstraintKind::Knapsack(node))
            }
            Constraint::MultiKnapsack {
                sizes,
                low,
                capacities,
            } => {
                let sizes = sizes.clone()?;
                let node = MultiKnapsack::new(alloc, sizes, *low, capacities.clone()?);
                Ok(ConstraintKind::MultiKnapsack(node))
            }
            Constraint::Sequence {
                values,
                most,
                window,
            } => {
                let node = Sequence::new(alloc, values.clone()?, *most, *window);
                Ok(ConstraintKind::Sequence(node))
            }
            Constraint::AllOf => Ok(ConstraintKind::AllOf(AllOf::new(alloc))),
            Constraint::AnyOf => Ok(ConstraintKind::AnyOf(AnyOf::new(alloc))),
            Constraint::NotHeld => Ok(ConstraintKind::OfOne(OfOne::not_held())),
        }
    }

    /// The node of a constraint on how often values stand in a list.
    fn cardinality(
        alloc: Global,
        demand: Demand,
        low: i64,
        bounds: &Numbers,
    ) -> Result<ConstraintKind<U>, NoMemory>
        ensures { IfOk result (λ kind. ⟦<ConstraintKind<U> as NumberNode>⟧.number_rule kind ≡
            cardinality_rule demand low bounds.now) }
    {
        let node = Cardinality::new(alloc, demand, low, bounds.clone()?);
        Ok(ConstraintKind::Cardinality(node))
    }
}

impl<U: LocalConstraint> NumberNode for ConstraintKind<U> {
    ghost use Rattle.node_kinds.specs.declared.constraint_kind.ConstraintKind.TheVariants.{AllDifferent, Cardinality, Knapsack, MultiKnapsack, Sequence, Relation, AllOf, AnyOf, OfOne, Total, User};

    ghost number_rule = { elim [
      | AllDifferent s ↦ ⟦<AllDifferent as NumberNode>⟧.number_rule s
      | Cardinality s ↦ ⟦<Cardinality as NumberNode>⟧.number_rule s
      | Knapsack s ↦ ⟦<Knapsack as NumberNode>⟧.number_rule s
      | MultiKnapsack s ↦ ⟦<MultiKnapsack as NumberNode>⟧.number_rule s
      | Sequence s ↦ ⟦<Sequence as NumberNode>⟧.number_rule s
      | Relation s ↦ ⟦<Relation as NumberNode>⟧.number_rule s
      | AllOf s ↦ ⟦<AllOf as NumberNode>⟧.number_rule s
      | AnyOf s ↦ ⟦<AnyOf as NumberNode>⟧.number_rule s
      | OfOne s ↦ ⟦<OfOne as NumberNode>⟧.number_rule s
      | Total s ↦ ⟦<WeightedTotal as NumberNode>⟧.number_rule s
      | User s ↦ ⟦<UserNode<U> as NumberNode>⟧.number_rule s
    ] };

    ghost settled = { elim [
      | AllDifferent s ↦ ⟦<AllDifferent as NumberNode>⟧.settled s
      | Cardinality s ↦ ⟦<Cardinality as NumberNode>⟧.settled s
      | Knapsack s ↦ ⟦<Knapsack as NumberNode>⟧.settled s
      | MultiKnapsack s ↦ ⟦<MultiKnapsack as NumberNode>⟧.settled s
      | Sequence s ↦ ⟦<Sequence as NumberNode>⟧.settled s
      | Relation s ↦ ⟦<Relation as NumberNode>⟧.settled s
      | AllOf s ↦ ⟦<AllOf as NumberNode>⟧.settled s
      | AnyOf s ↦ ⟦<AnyOf as NumberNode>⟧.settled s
      | OfOne s ↦ ⟦<OfOne as NumberNode>⟧.settled s
      | Total s ↦ ⟦<WeightedTotal as NumberNode>⟧.settled s
      | User s ↦ ⟦<UserNode<U> as NumberNode>⟧.settled s
    ] };

    ghost held_numbers = { elim [
      | AllDifferent s ↦ ⟦<AllDifferent as NumberNode>⟧.held_numbers s
      | Cardinality s ↦ ⟦<Cardinality as NumberNode>⟧.held_numbers s
      | Knapsack s ↦ ⟦<Knapsack as NumberNode>⟧.held_numbers s
      | MultiKnapsack s ↦ ⟦<MultiKnapsack as NumberNode>⟧.held_numbers s
      | Sequence s ↦ ⟦<Sequence as NumberNode>⟧.held_numbers s
      | Relation s ↦ ⟦<Relation as NumberNode>⟧.held_numbers s
      | AllOf s ↦ ⟦<AllOf as NumberNode>⟧.held_numbers s
      | AnyOf s ↦ ⟦<AnyOf as NumberNode>⟧.held_numbers s
      | OfOne s ↦ ⟦<OfOne as NumberNode>⟧.held_numbers s
      | Total s ↦ ⟦<WeightedTotal as NumberNode>⟧.held_numbers s
      | User s ↦ ⟦<UserNode<U> as NumberNode>⟧.held_numbers s
    ] };

    fn reset(&mut self, numbers: &[i64]) -> Result<(), NoMemory> {
        match self {
            ConstraintKind::AllDifferent(node) => node.reset(numbers),
            ConstraintKind::Cardinality(node) => node.reset(numbers),
            ConstraintKind::Knapsack(node) => node.reset(numbers),
            ConstraintKind::MultiKnapsack(node) => node.reset(numbers),
            ConstraintKind::Sequence(node) => node.reset(numbers),
            ConstraintKind::Relation(node) => node.reset(numbers),
            ConstraintKind::AllOf(node) => node.reset(numbers),
            ConstraintKind::AnyOf(node) => node.reset(numbers),
            ConstraintKind::OfOne(node) => node.reset(numbers),
            ConstraintKind::Total(node) => node.reset(numbers),
            ConstraintKind::User(node) => node.reset(numbers),
        }
    }

    fn set(&mut self, change: NumberChange) -> Result<(), NoMemory> {
        match self {
            ConstraintKind::AllDifferent(node) => node.set(change),
            ConstraintKind::Cardinality(node) => node.set(change),
            ConstraintKind::Knapsack(node) => node.set(change),
            ConstraintKind::MultiKnapsack(node) => node.set(change),
            ConstraintKind::Sequence(node) => node.set(change),
            ConstraintKind::Relation(node) => node.set(change),
            ConstraintKind::AllOf(node) => node.set(change),
            ConstraintKind::AnyOf(node) => node.set(change),
            ConstraintKind::OfOne(node) => node.set(change),
            ConstraintKind::Total(node) => node.set(change),
            ConstraintKind::User(node) => node.set(change),
        }
    }

    fn probe(&self, changes: &[NumberChange]) -> Result<i64, NodeFault> {
        match self {
            ConstraintKind::AllDifferent(node) => node.probe(changes),
            ConstraintKind::Cardinality(node) => node.probe(changes),
            ConstraintKind::Knapsack(node) => node.probe(changes),
            ConstraintKind::MultiKnapsack(node) => node.probe(changes),
            ConstraintKind::Sequence(node) => node.probe(changes),
            ConstraintKind::Relation(node) => node.probe(changes),
            ConstraintKind::AllOf(node) => node.probe(changes),
            ConstraintKind::AnyOf(node) => node.probe(changes),
            ConstraintKind::OfOne(node) => node.probe(changes),
            ConstraintKind::Total(node) => node.probe(changes),
            ConstraintKind::User(node) => node.probe(changes),
        }
    }

    fn value(&self) -> Result<i64, RunFault> {
        match self {
            ConstraintKind::AllDifferent(node) => node.value(),
            ConstraintKind::Cardinality(node) => node.value(),
            ConstraintKind::Knapsack(node) => node.value(),
            ConstraintKind::MultiKnapsack(node) => node.value(),
            ConstraintKind::Sequence(node) => node.value(),
            ConstraintKind::Relation(node) => node.value(),
            ConstraintKind::AllOf(node) => node.value(),
            ConstraintKind::AnyOf(node) => node.value(),
            ConstraintKind::OfOne(node) => node.value(),
            ConstraintKind::Total(node) => node.value(),
            ConstraintKind::User(node) => node.value(),
        }
    }

    fn place_violation(&self, place: usize) -> i64 {
        match self {
            ConstraintKind::AllDifferent(node) => node.place_violation(place),
            ConstraintKind::Cardinality(node) => node.place_violation(place),
            ConstraintKind::Knapsack(node) => node.place_violation(place),
            ConstraintKind::MultiKnapsack(node) => node.place_violation(place),
            ConstraintKind::Sequence(node) => node.place_violation(place),
            ConstraintKind::Relation(node) => node.place_violation(place),
            ConstraintKind::AllOf(node) => node.place_violation(place),
            ConstraintKind::AnyOf(node) => node.place_violation(place),
            ConstraintKind::OfOne(node) => node.place_violation(place),
            ConstraintKind::Total(node) => node.place_violation(place),
            ConstraintKind::User(node) => node.place_violation(place),
        }
    }
}
