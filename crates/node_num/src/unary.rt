//! The node of an operation on one number.
ghost use Rattle.std.specs.Prelude.{◌≡◌};
ghost use Rattle.cbl_operations.specs.Unary.{rule_of_unary};

use cbl_base::{NoMemory, NodeFault, RunFault};
use cbl_operations::UnaryOp;
use node_base::{NumberChange, NumberNode, probe_answer};

/// A node that computes an operation on one number.
#[derive(Drop)]
pub struct Unary {
    operation: UnaryOp,
    operands: [i64; 1],
}

impl Unary {
    /// A node with the rule of this operation.
    pub fn new(operation: UnaryOp) -> Unary
        ensures rule { ⟦<Unary as NumberNode>⟧.number_rule result ≡ rule_of_unary operation }
    {
        Unary {
            operation,
            operands: [0],
        }
    }
}

impl NumberNode for Unary {
    ghost use Rattle.cbl_operations.specs.Unary.{rule_of_unary};

    ghost number_rule = { λ s. rule_of_unary s.operation };

    ghost settled = { λ _. Unit {0} };

    ghost held_numbers = { λ s. s.operands };

    fn reset(&mut self, numbers: &[i64]) -> Result<(), NoMemory> {
        self.operands = [numbers[0]];
        Ok(())
    }

    fn set(&mut self, change: NumberChange) -> Result<(), NoMemory> {
        self.operands[change.place] = change.new;
        Ok(())
    }

    fn probe(&self, changes: &[NumberChange]) -> Result<i64, NodeFault> {
        let mut operands = self.operands;
        for change in changes {
            operands[change.place] = change.new;
        }
        probe_answer(self.operation.value(operands[0]))
    }

    fn value(&self) -> Result<i64, RunFault> {
        self.operation.value(self.operands[0])
    }

    fn place_violation(&self, _place: usize) -> i64 {
        0
    }
}
