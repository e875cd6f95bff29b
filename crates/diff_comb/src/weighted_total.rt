//! The total of a system or an objective.
ghost use Rattle.std.specs.Prelude.{◌≡◌, ◌+◌, ◌<◌, ◌≤◌, ◌^◌, ◌+ℤ◌, ◌-ℤ◌, ◌*ℤ◌, ℕ, ℤ, pos, List, length, false};
ghost use Rattle.std.specs.Int.{w64};
ghost use Rattle.cbl_base.specs.Arithmetic.{exact};
ghost use Rattle.cbl_base.specs.NumberRule.{rule_of_numbers};
ghost use Rattle.cbl_violations.specs.Violations.WeightedTotal.{weighted_total, weighted_total_value};
ghost use Rattle.diff_comb.specs.Products.{part, misfit, products_of, other_place, AreTotals, IsSmall};

use crate::new_numbers::NewNumbers;
use cbl_base::{NoMemory, NodeFault, RunFault, mul};
use node_base::{NumberChange, NumberNode, probe_answer};
use std::alloc::Global;

/// The total of so many members, each times its weight: it takes the members, and behind them as many
/// weights.
#[derive(Drop)]
pub struct WeightedTotal {
    members: u32,
    numbers: Vec<i64>,
    products: Products,
    alloc: Global,
}

/// The total of the products that fit 64 bits, and how many don't.
#[derive(Clone, Copy)]
struct Products {
    fitting: i128,
    unfit: u64,
}

/// What a product adds to the total, and 1 where it doesn't fit 64 bits.
#[derive(Clone, Copy)]
struct Share {
    part: i64,
    unfit: u64,
}

impl WeightedTotal {
    /// The node of the total of so many members: the sum of the members, each times its weight.
    pub fn new(alloc: Global, members: u32) -> WeightedTotal
        ensures { rule_of_numbers (⟦<WeightedTotal as NumberNode>⟧.number_rule result) ≡
            weighted_total members }
    {
        WeightedTotal {
            members,
            numbers: Vec::new(alloc),
            products: Products {
                fitting: 0,
                unfit: 0,
            },
            alloc,
        }
    }

    /// The place of the weight of a member, or of the member of a weight.
    fn other(&self, place: usize) -> usize
        requires { place < self.now.members + self.now.members }
        ensures other { result ≡ other_place self.now.members place }
        ensures within { result < self.now.members + self.now.members }
    {
        let members = self.members as usize;
        if place < members {
            place + members
        } else {
            place - members
        }
    }
}

impl NumberNode for WeightedTotal {
    ghost use Rattle.std.specs.Prelude.{◌≡◌, ◌+◌, length};
    ghost use Rattle.diff_comb.specs.Combined.{total_of_members};
    ghost use Rattle.diff_comb.specs.Products.{products_of, AreTotals};

    ghost number_rule = { λ s. total_of_members s.members };

    ghost settled = { λ s. AreTotals s.products (products_of s.members s.numbers.items) ×
        (length s.numbers.items ≡ s.members + s.members) };

    ghost held_numbers = { λ s. s.numbers.items };

    fn reset(&mut self, numbers: &[i64]) -> Result<(), NoMemory> {
        self.numbers.clear();
        self.numbers.extend_from_slice(numbers)?;
        self.products = products_from(self.members, numbers);
        Ok(())
    }

    fn set(&mut self, change: NumberChange) -> Result<(), NoMemory> {
        let other = self.other(change.place);
        let factor = self.numbers[other];
        self.products = self.products.replaced(factor, change.old, change.new);
        self.numbers[change.place] = change.new;
        Ok(())
    }

    fn probe(&self, changes: &[NumberChange]) -> Result<i64, NodeFault> {
        let mut earlier = NewNumbers::new(self.alloc, changes);
        let mut products = self.products;
        for i in 0..changes.len() {
            let change = changes[i];
            let other = self.other(change.place);
            let factor = earlier.number_at(changes, i, other, self.numbers[other]);
            products = products.replaced(factor, change.old, change.new);
            earlier.add(changes, i)?;
        }
        probe_answer(products.total())
    }

    fn value(&self) -> Result<i64, RunFault> {
        self.products.total()
    }

    fn place_violation(&self, _place: usize) -> i64 {
        0
    }
}

impl Products {
    /// The total. `Overflow` exactly where a product or the total doesn't fit.
    fn total(self) -> Result<i64, RunFault>
        ensures { (members : ℕ) → (inputs : List ℤ) → AreTotals self (products_of members inputs) →
            result ≡ weighted_total_value members inputs }
    {
        if self.unfit == 0 {
            self.narrowed()
        } else {
            Err(RunFault::Overflow)
        }
    }

    /// The total of those that fit. `Overflow` exactly where it doesn't fit.
    fn narrowed(self) -> Result<i64, RunFault>
        ensures { result ≡ exact self.fitting }
    {
        i64::try_from(self.fitting).map_err(|_| RunFault::Overflow)
    }

    /// With one more product.
    fn plus(self, member: i64, weight: i64) -> Products
        requires small { IsSmall self.fitting }
        requires few { self.unfit < 2 ^ 63 }
        ensures fitting { result.fitting ≡ self.fitting +ℤ part (member *ℤ weight) }
        ensures unfit { result.unfit ≡ self.unfit + misfit (member *ℤ weight) }
    {
        let come = share_of(member, weight);
        Products {
            fitting: self.fitting + i128::from(come.part),
            unfit: self.unfit + come.unfit,
        }
    }

    /// With another number in the place of an old one, in a product with this factor.
    fn replaced(self, factor: i64, old: i64, new: i64) -> Products
        requires small { IsSmall self.fitting }
        requires few { self.unfit < 2 ^ 63 }
        requires counted { misfit (old *ℤ factor) ≤ self.unfit }
        ensures fitting { result.fitting ≡
            (self.fitting -ℤ part (old *ℤ factor)) +ℤ part (new *ℤ factor) }
        ensures unfit { result.unfit + misfit (old *ℤ factor) ≡
            self.unfit + misfit (new *ℤ factor) }
    {
        let gone = share_of(old, factor);
        let come = share_of(new, factor);
        Products {
            fitting: self.fitting - i128::from(gone.part) + i128::from(come.part),
            unfit: self.unfit + come.unfit - gone.unfit,
        }
    }
}

/// The product of two numbers, as a part of the total.
fn share_of(a: i64, b: i64) -> Share
    ensures part { result.part ≡ part (a *ℤ b) }
    ensures unfit { result.unfit ≡ misfit (a *ℤ b) }
    ensures one { result.unfit ≤ 1 }
{
    match mul(a, b) {
        Ok(product) => Share {
            part: product,
            unfit: 0,
        },
        Err(_) => Share { part: 0, unfit: 1 },
    }
}

/// The products of so many members and weights.
fn products_from(members: u32, numbers: &[i64]) -> Products
    requires { length numbers.now ≡ members + members }
    ensures { AreTotals result (products_of members numbers.now) }
{
    let members = members as usize;
    let mut products = Products {
        fitting: 0,
        unfit: 0,
    };
    for k in 0..members {
        products = products.plus(numbers[k], numbers[members + k]);
    }
    products
}
