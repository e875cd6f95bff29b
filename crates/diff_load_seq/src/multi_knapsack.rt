//! Items in bins, whose loads are to stay within their capacities, as a node.
ghost use Rattle.std.specs.Prelude.{◌≡◌, ◌<◌, pos, length, slice_index_or};
ghost use Rattle.cbl_violations.specs.Violations.MultiKnapsack.{multi_knapsack};

use crate::bins::{filled_bins, move_item, move_item_over, place_of_bin};
use crate::levels::Levels;
use crate::levels_over::LevelsOver;
use crate::running_sum::answer;
use cbl_base::{NoMemory, NodeFault, Numbers, RunFault};
use node_base::{NumberChange, NumberNode};
use std::alloc::Global;

/// The node of `multiknapsack`: over the bins, how far each one's load is above its capacity. A place is
/// an item, and its number is the item's bin. The loads are kept.
#[derive(Drop)]
pub struct MultiKnapsack {
    sizes: Numbers,
    low: i64,
    capacities: Numbers,
    numbers: Vec<i64>,
    bins: Levels,
    alloc: Global,
}

impl MultiKnapsack {
    /// The node with these sizes, one for each number that it takes, and these capacities: the first is
    /// that of the bin `low`, and each next one that of the bin one above.
    pub fn new(alloc: Global, sizes: Numbers, low: i64, capacities: Numbers) -> MultiKnapsack
        ensures { ⟦<MultiKnapsack as NumberNode>⟧.number_rule result ≡
            multi_knapsack sizes low capacities }
    {
        MultiKnapsack {
            sizes,
            low,
            capacities,
            numbers: Vec::new(alloc),
            bins: Levels::new(alloc),
            alloc,
        }
    }

    /// The size of an item, whose place counts from 0.
    fn size_at(&self, place: usize) -> i64
        requires { place < length self.now.sizes }
        ensures { result ≡ slice_index_or self.now.sizes place (pos 0) }
    {
        self.sizes.as_slice()[place]
    }
}

impl NumberNode for MultiKnapsack {
    ghost use Rattle.std.specs.Prelude.{◌≡◌, length};
    ghost use Rattle.cbl_violations.specs.Violations.MultiKnapsack.{multi_knapsack};
    ghost use Rattle.diff_load_seq.specs.Levels.{IsKept};
    ghost use Rattle.diff_load_seq.specs.Bins.{bins_of, AllFit};

    ghost number_rule = { λ s. multi_knapsack s.sizes s.low s.capacities };

    ghost settled = { λ s. (length s.numbers.items ≡ length s.sizes) ×
        (s.bins.each.items ≡ bins_of s.sizes s.low s.capacities s.numbers.items) × IsKept s.bins ×
        AllFit (length s.numbers.items) s.sizes };

    ghost held_numbers = { λ s. s.numbers.items };

    fn reset(&mut self, numbers: &[i64]) -> Result<(), NoMemory> {
        self.numbers.clear();
        self.numbers.extend_from_slice(numbers)?;
        self.bins = filled_bins(
            self.alloc,
            self.sizes.as_slice(),
            self.low,
            self.capacities.as_slice(),
            numbers,
        )?;
        Ok(())
    }

    fn set(&mut self, change: NumberChange) -> Result<(), NoMemory> {
        let size = self.size_at(change.place);
        move_item(&mut self.bins, self.low, size, change);
        self.numbers[change.place] = change.new;
        Ok(())
    }

    fn probe(&self, changes: &[NumberChange]) -> Result<i64, NodeFault> {
        let mut over = LevelsOver::new(self.alloc, &self.bins);
        for change in changes {
            let size = self.size_at(change.place);
            move_item_over(&mut over, &self.bins, self.low, size, *change)?;
        }
        answer(over.total(&self.bins))
    }

    fn value(&self) -> Result<i64, RunFault> {
        self.bins.total()
    }

    fn place_violation(&self, place: usize) -> i64 {
        match place_of_bin(self.low, self.bins.each.len(), self.numbers[place]) {
            Some(bin) => self.bins.excess_at(bin),
            None => 0,
        }
    }
}
