//! All nodes of operations on numbers in one type, and the node of each operation on a list.
ghost use Rattle.std.specs.Prelude.{◌≡◌};
ghost use Rattle.cbl_operations.specs.Nary.{rule_of_nary};

use cbl_base::{NoMemory, NodeFault, RunFault};
use cbl_operations::NaryOp;
use node_base::{NumberChange, NumberNode};
use node_count::{Count, Element, Element2};
use node_num::{Binary, Junction, JunctionKind, Sum, Unary};
use node_order::{Greatest, Least};
use std::alloc::Global;

/// The node of an operation that takes numbers and has a number as its value. Its rule is that of the
/// node inside.
#[derive(Drop)]
pub enum OperationKind {
    Sum(Sum),
    Junction(Junction),
    Binary(Binary),
    Unary(Unary),
    Count(Count),
    Element(Element),
    Element2(Element2),
    Least(Least),
    Greatest(Greatest),
}

impl OperationKind {
    /// The node of an operation on a list of numbers.
    pub fn of_nary(alloc: Global, op: NaryOp) -> OperationKind
        ensures { ⟦<OperationKind as NumberNode>⟧.number_rule result ≡ rule_of_nary op }
    {
        match op {
            NaryOp::Least => OperationKind::Least(Least::new(alloc)),
            NaryOp::Greatest => OperationKind::Greatest(Greatest::new(alloc)),
            NaryOp::Sum => OperationKind::Sum(Sum::new(alloc)),
            NaryOp::Count => OperationKind::Count(Count::new(alloc)),
            NaryOp::And => OperationKind::Junction(Junction::new(alloc, JunctionKind::And)),
            NaryOp::Or => OperationKind::Junction(Junction::new(alloc, JunctionKind::Or)),
        }
    }
}

impl NumberNode for OperationKind {
    ghost use Rattle.node_kinds.specs.declared.operation_kind.OperationKind.TheVariants.{Sum, Junction, Binary, Unary, Count, Element, Element2, Least, Greatest};

    ghost number_rule = { elim [
      | Sum s ↦ ⟦<Sum as NumberNode>⟧.number_rule s
      | Junction s ↦ ⟦<Junction as NumberNode>⟧.number_rule s
      | Binary s ↦ ⟦<Binary as NumberNode>⟧.number_rule s
      | Unary s ↦ ⟦<Unary as NumberNode>⟧.number_rule s
      | Count s ↦ ⟦<Count as NumberNode>⟧.number_rule s
      | Element s ↦ ⟦<Element as NumberNode>⟧.number_rule s
      | Element2 s ↦ ⟦<Element2 as NumberNode>⟧.number_rule s
      | Least s ↦ ⟦<Least as NumberNode>⟧.number_rule s
      | Greatest s ↦ ⟦<Greatest as NumberNode>⟧.number_rule s
    ] };

    ghost settled = { elim [
      | Sum s ↦ ⟦<Sum as NumberNode>⟧.settled s
      | Junction s ↦ ⟦<Junction as NumberNode>⟧.settled s
      | Binary s ↦ ⟦<Binary as NumberNode>⟧.settled s
      | Unary s ↦ ⟦<Unary as NumberNode>⟧.settled s
      | Count s ↦ ⟦<Count as NumberNode>⟧.settled s
      | Element s ↦ ⟦<Element as NumberNode>⟧.settled s
      | Element2 s ↦ ⟦<Element2 as NumberNode>⟧.settled s
      | Least s ↦ ⟦<Least as NumberNode>⟧.settled s
      | Greatest s ↦ ⟦<Greatest as NumberNode>⟧.settled s
    ] };

    ghost held_numbers = { elim [
      | Sum s ↦ ⟦<Sum as NumberNode>⟧.held_numbers s
      | Junction s ↦ ⟦<Junction as NumberNode>⟧.held_numbers s
      | Binary s ↦ ⟦<Binary as NumberNode>⟧.held_numbers s
      | Unary s ↦ ⟦<Unary as NumberNode>⟧.held_numbers s
      | Count s ↦ ⟦<Count as NumberNode>⟧.held_numbers s
      | Element s ↦ ⟦<Element as NumberNode>⟧.held_numbers s
      | Element2 s ↦ ⟦<Element2 as NumberNode>⟧.held_numbers s
      | Least s ↦ ⟦<Least as NumberNode>⟧.held_numbers s
      | Greatest s ↦ ⟦<Greatest as NumberNode>⟧.held_numbers s
    ] };

    fn reset(&mut self, numbers: &[i64]) -> Result<(), NoMemory> {
        match self {
            OperationKind::Sum(node) => node.reset(numbers),
            OperationKind::Junction(node) => node.reset(numbers),
            OperationKind::Binary(node) => node.reset(numbers),
            OperationKind::Unary(node) => node.reset(numbers),
            OperationKind::Count(node) => node.reset(numbers),
            OperationKind::Element(node) => node.reset(numbers),
            OperationKind::Element2(node) => node.reset(numbers),
            OperationKind::Least(node) => node.reset(numbers),
            OperationKind::Greatest(node) => node.reset(numbers),
        }
    }

    fn set(&mut self, change: NumberChange) -> Result<(), NoMemory> {
        match self {
            OperationKind::Sum(node) => node.set(change),
            OperationKind::Junction(node) => node.set(change),
            OperationKind::Binary(node) => node.set(change),
            OperationKind::Unary(node) => node.set(change),
            OperationKind::Count(node) => node.set(change),
            OperationKind::Element(node) => node.set(change),
            OperationKind::Element2(node) => node.set(change),
            OperationKind::Least(node) => node.set(change),
            OperationKind::Greatest(node) => node.set(change),
        }
    }

    fn probe(&self, changes: &[NumberChange]) -> Result<i64, NodeFault> {
        match self {
            OperationKind::Sum(node) => node.probe(changes),
            OperationKind::Junction(node) => node.probe(changes),
            OperationKind::Binary(node) => node.probe(changes),
            OperationKind::Unary(node) => node.probe(changes),
            OperationKind::Count(node) => node.probe(changes),
            OperationKind::Element(node) => node.probe(changes),
            OperationKind::Element2(node) => node.probe(changes),
            OperationKind::Least(node) => node.probe(changes),
            OperationKind::Greatest(node) => node.probe(changes),
        }
    }

    fn value(&self) -> Result<i64, RunFault> {
        match self {
            OperationKind::Sum(node) => node.value(),
            OperationKind::Junction(node) => node.value(),
            OperationKind::Binary(node) => node.value(),
            OperationKind::Unary(node) => node.value(),
            OperationKind::Count(node) => node.value(),
            OperationKind::Element(node) => node.value(),
            OperationKind::Element2(node) => node.value(),
            OperationKind::Least(node) => node.value(),
            OperationKind::Greatest(node) => node.value(),
        }
    }

    fn place_violation(&self, place: usize) -> i64 {
        match self {
            OperationKind::Sum(node) => node.place_violation(place),
            OperationKind::Junction(node) => node.place_violation(place),
            OperationKind::Binary(node) => node.place_violation(place),
            OperationKind::Unary(node) => node.place_violation(place),
            OperationKind::Count(node) => node.place_violation(place),
            OperationKind::Element(node) => node.place_violation(place),
            OperationKind::Element2(node) => node.place_violation(place),
            OperationKind::Least(node) => node.place_violation(place),
            OperationKind::Greatest(node) => node.place_violation(place),
        }
    }
}
