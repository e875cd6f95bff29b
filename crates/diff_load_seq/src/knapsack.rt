//! A load that is to stay within a capacity, as a node.
ghost use Rattle.std.specs.Prelude.{◌≡◌, ◌<◌, length};
ghost use Rattle.cbl_violations.specs.Violations.Knapsack.{knapsack};
ghost use Rattle.diff_load_seq.specs.Parts.{joined_of, HasRoom, IsReplaced, IsSumOf};
ghost use Rattle.diff_load_seq.specs.Products.{product_of, products, above_capacity};

use crate::running_sum::{RunningSum, answer};
use cbl_base::{NoMemory, NodeFault, Numbers, RunFault, mul, sub};
use node_base::{NumberChange, NumberNode};
use std::alloc::Global;

/// The node of `knapsack`: how far the load, each number times its weight, is above the capacity. The
/// load is kept.
#[derive(Drop)]
pub struct Knapsack {
    weights: Numbers,
    capacity: i64,
    numbers: Vec<i64>,
    load: RunningSum,
}

impl Knapsack {
    /// The node with these weights, one for each number that it takes, and this capacity.
    pub fn new(alloc: Global, weights: Numbers, capacity: i64) -> Knapsack
        ensures { ⟦<Knapsack as NumberNode>⟧.number_rule result ≡ knapsack weights capacity }
    {
        Knapsack {
            weights,
            capacity,
            numbers: Vec::new(alloc),
            load: RunningSum::empty(),
        }
    }

    /// The load once a number has changed.
    fn moved(&self, load: RunningSum, change: NumberChange) -> RunningSum
        requires within { change.place < length self.now.weights }
        requires room { HasRoom load (product_of self.now.weights change.place change.old) }
        ensures { IsReplaced load (product_of self.now.weights change.place change.old)
            (product_of self.now.weights change.place change.new) result }
    {
        let weight = self.weights.as_slice()[change.place];
        load.replaced(mul(weight, change.old), mul(weight, change.new))
    }

    /// How far a load is above the capacity. `Overflow` exactly where a product, the load or the
    /// difference doesn't fit.
    fn above(&self, load: RunningSum) -> Result<i64, RunFault>
        ensures { result ≡ above_capacity (joined_of load) self.now.capacity }
    {
        let load = load.number()?;
        Ok(sub(load, self.capacity)?.max(0))
    }
}

/// The load of these numbers.
fn load_of(weights: &[i64], numbers: &[i64]) -> RunningSum
    requires { length numbers.now ≡ length weights.now }
    ensures { IsSumOf result (products weights.now numbers.now) }
{
    let mut load = RunningSum::empty();
    for k in 0..numbers.len() {
        load = load.replaced(Ok(0), mul(weights[k], numbers[k]));
    }
    load
}

impl NumberNode for Knapsack {
    ghost use Rattle.std.specs.Prelude.{◌≡◌, length};
    ghost use Rattle.cbl_violations.specs.Violations.Knapsack.{knapsack};
    ghost use Rattle.diff_load_seq.specs.Parts.{IsSumOf};
    ghost use Rattle.diff_load_seq.specs.Products.{products};

    ghost number_rule = { λ s. knapsack s.weights s.capacity };

    ghost settled = { λ s. (length s.numbers.items ≡ length s.weights) ×
        IsSumOf s.load (products s.weights s.numbers.items) };

    ghost held_numbers = { λ s. s.numbers.items };

    fn reset(&mut self, numbers: &[i64]) -> Result<(), NoMemory> {
        self.numbers.clear();
        self.numbers.extend_from_slice(numbers)?;
        self.load = load_of(self.weights.as_slice(), numbers);
        Ok(())
    }

    fn set(&mut self, change: NumberChange) -> Result<(), NoMemory> {
        self.load = self.moved(self.load, change);
        self.numbers[change.place] = change.new;
        Ok(())
    }

    fn probe(&self, changes: &[NumberChange]) -> Result<i64, NodeFault> {
        let mut load = self.load;
        for change in changes {
            load = self.moved(load, *change);
        }
        answer(self.above(load))
    }

    fn value(&self) -> Result<i64, RunFault> {
        self.above(self.load)
    }

    fn place_violation(&self, place: usize) -> i64 {
        let violations = self.above(self.load).unwrap_or(0);
        let part = mul(self.weights.as_slice()[place], self.numbers[place]).unwrap_or(0);
        violations.min(part).max(0)
    }
}
