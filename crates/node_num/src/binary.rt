//! The node of an operation on two numbers.
ghost use Rattle.std.specs.Prelude.{◌≡◌};
ghost use Rattle.cbl_operations.specs.Binary.{rule_of_binary};

use cbl_base::{NoMemory, NodeFault, RunFault};
use cbl_operations::BinaryOp;
use node_base::{NumberChange, NumberNode, probe_answer};

/// A node that computes an operation on two numbers.
#[derive(Drop)]
pub struct Binary {
    operation: BinaryOp,
    operands: [i64; 2],
}

impl Binary {
    /// A node with the rule of this operation.
    pub fn new(operation: BinaryOp) -> Binary
        ensures rule { ⟦<Binary as NumberNode>⟧.number_rule result ≡ rule_of_binary operation }
    {
        Binary {
            operation,
            operands: [0, 0],
        }
    }
}

impl NumberNode for Binary {
    ghost use Rattle.cbl_operations.specs.Binary.{rule_of_binary};

    ghost number_rule = { λ s. rule_of_binary s.operation };

    ghost settled = { λ _. Unit {0} };

    ghost held_numbers = { λ s. s.operands };

    fn reset(&mut self, numbers: &[i64]) -> Result<(), NoMemory> {
        self.operands = [numbers[0], numbers[1]];
        Ok(())
    }

    fn set(&mut self, change: NumberChange) -> Result<(), NoMemory> {
        self.operands[change.place] = change.new;
        Ok(())
    }

    fn probe(&self, changes: &[NumberChange]) -> Result<i64, NodeFault> {
        let mut operands = self.operands;
        for change in changes {
            operands[change.place] = change.new;
        }
        probe_answer(self.operation.value(operands[0], operands[1]))
    }

    fn value(&self) -> Result<i64, RunFault> {
        self.operation.value(self.operands[0], self.operands[1])
    }

    fn place_violation(&self, _place: usize) -> i64 {
        0
    }
}
