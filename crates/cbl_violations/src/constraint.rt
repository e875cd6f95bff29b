//! The constraints in one type.
ghost use Rattle.std.specs.Prelude.{◌≡◌, ◌<◌, [], ◌∷◌, pos, IsOk, IsTrue, length};
ghost use Rattle.cbl_violations.specs.Constraints.{constraint_numbers, first_kept, is_proper, rule_of_constraint, second_kept};

use crate::all_different::{all_different_violation_at, all_different_violations};
use crate::cardinality::{
    at_least_violation_at, at_least_violations, at_most_violation_at, at_most_violations,
    exactly_violation_at, exactly_violations,
};
use crate::combined::{
    all_of_violations, any_of_violations, combined_violation_at, not_held_violations,
};
use crate::knapsack::{knapsack_violation_at, knapsack_violations};
use crate::multi_knapsack::{multi_knapsack_violation_at, multi_knapsack_violations};
use crate::relations::{
    eq_violation_at, eq_violations, le_violation_at, le_violations, lt_violation_at, lt_violations,
    ne_violation_at, ne_violations,
};
use crate::sequence::{sequence_violation_at, sequence_violations};
use cbl_base::{IntSet, Numbers, RunFault};

/// A constraint, with what it keeps beside its inputs. An array that it keeps counts from `low`.
#[derive(Clone, Drop, Debug)]
pub enum Constraint {
    /// The first input is the second.
    Eq,
    /// The two inputs differ.
    Ne,
    /// The first input is at most the second.
    Le,
    /// The first input is below the second.
    Lt,
    AllDifferent,
    AtMost {
        low: i64,
        bounds: Numbers,
    },
    AtLeast {
        low: i64,
        bounds: Numbers,
    },
    Exactly {
        low: i64,
        bounds: Numbers,
    },
    Knapsack {
        weights: Numbers,
        capacity: i64,
    },
    MultiKnapsack {
        sizes: Numbers,
        low: i64,
        capacities: Numbers,
    },
    Sequence {
        values: IntSet,
        most: i64,
        window: i64,
    },
    /// The inputs are the violations of other constraints, which are all to hold.
    AllOf,
    /// The same, of which one is to hold.
    AnyOf,
    /// The input is the violations of another constraint, which is not to hold.
    NotHeld,
}

/// What a constraint or an operation is as numbers.
#[derive(Clone, Copy)]
pub struct Fields<'a> {
    pub numbers: [i64; 4],
    pub first: &'a [i64],
    pub second: &'a [i64],
}

impl<'a> Fields<'a> {
    /// Numbers, and no lists.
    fn plain(number: i64) -> Fields<'a>
        ensures numbers { result.numbers ≡ number ∷ pos 0 ∷ pos 0 ∷ pos 0 ∷ [] }
        ensures first { result.first.now ≡ [] }
        ensures second { result.second.now ≡ [] }
    {
        Fields::kept([number, 0, 0, 0], &[])
    }

    /// Numbers, and one list.
    fn kept(numbers: [i64; 4], first: &'a [i64]) -> Fields<'a>
        ensures numbers { result.numbers ≡ numbers }
        ensures first { result.first.now ≡ first.now }
        ensures second { result.second.now ≡ [] }
    {
        Fields {
            numbers,
            first,
            second: &[],
        }
    }
}

impl Constraint {
    /// Whether it takes so many inputs.
    pub fn takes(&self, inputs: usize) -> bool
        ensures { result ≡ (rule_of_constraint self.now).takes inputs }
    {
        match self {
            Constraint::Eq | Constraint::Ne | Constraint::Le | Constraint::Lt => inputs == 2,
            Constraint::Knapsack { weights, .. } => inputs == weights.len(),
            Constraint::MultiKnapsack { sizes, .. } => inputs == sizes.len(),
            Constraint::NotHeld => inputs == 1,
            _ => true,
        }
    }

    /// Whether what it keeps is as it must be: of `Sequence` the bound is not below 0, and the windows have
    /// one place or more.
    pub fn is_proper(&self) -> bool
        ensures { result ≡ is_proper self.now }
    {
        match self {
            Constraint::Sequence { most, window, .. } => 0 <= *most && 1 <= *window,
            _ => true,
        }
    }

    /// Its violations of inputs that it takes. `Overflow` exactly where its rule says so.
    pub fn violations(&self, inputs: &[i64]) -> Result<i64, RunFault>
        requires { IsTrue ((rule_of_constraint self.now).takes (length inputs.now)) }
        ensures { result ≡ (rule_of_constraint self.now).value inputs.now }
    {
        match self {
            Constraint::Eq => eq_violations(inputs),
            Constraint::Ne => ne_violations(inputs),
            Constraint::Le => le_violations(inputs),
            Constraint::Lt => lt_violations(inputs),
            Constraint::AllDifferent => all_different_violations(inputs),
            Constraint::AtMost { low, bounds } => {
                at_most_violations(inputs, *low, bounds.as_slice())
            }
            Constraint::AtLeast { low, bounds } => {
                at_least_violations(inputs, *low, bounds.as_slice())
            }
            Constraint::Exactly { low, bounds } => {
                exactly_violations(inputs, *low, bounds.as_slice())
            }
            Constraint::Knapsack { weights, capacity } => {
                knapsack_violations(inputs, weights.as_slice(), *capacity)
            }
            Constraint::MultiKnapsack {
                sizes,
                low,
                capacities,
            } => multi_knapsack_violations(inputs, sizes.as_slice(), *low, capacities.as_slice()),
            Constraint::Sequence {
                values,
                most,
                window,
            } => sequence_violations(inputs, values.as_slice(), *most, *window),
            Constraint::AllOf => all_of_violations(inputs),
            Constraint::AnyOf => any_of_violations(inputs),
            Constraint::NotHeld => not_held_violations(inputs),
        }
    }

    /// The violation at a place, counted from 0, where it has violations of the inputs.
    pub fn violation_at(&self, inputs: &[i64], place: usize) -> i64
        requires takes { IsTrue ((rule_of_constraint self.now).takes (length inputs.now)) }
        requires within { place < length inputs.now }
        requires valued { IsOk ((rule_of_constraint self.now).value inputs.now) }
        ensures { result ≡ (rule_of_constraint self.now).violation_at inputs.now place }
    {
        match self {
            Constraint::Eq => eq_violation_at(inputs, place),
            Constraint::Ne => ne_violation_at(inputs, place),
            Constraint::Le => le_violation_at(inputs, place),
            Constraint::Lt => lt_violation_at(inputs, place),
            Constraint::AllDifferent => all_different_violation_at(inputs, place),
            Constraint::AtMost { low, bounds } => {
                at_most_violation_at(inputs, place, *low, bounds.as_slice())
            }
            Constraint::AtLeast { low, bounds } => {
                at_least_violation_at(inputs, place, *low, bounds.as_slice())
            }
            Constraint::Exactly { low, bounds } => {
                exactly_violation_at(inputs, place, *low, bounds.as_slice())
            }
            Constraint::Knapsack { weights, capacity } => {
                knapsack_violation_at(inputs, place, weights.as_slice(), *capacity)
            }
            Constraint::MultiKnapsack {
                sizes,
                low,
                capacities,
            } => {
                let capacities = capacities.as_slice();
                multi_knapsack_violation_at(inputs, place, sizes.as_slice(), *low, capacities)
            }
            Constraint::Sequence {
                values,
                most,
                window,
            } => sequence_violation_at(inputs, place, values.as_slice(), *most, *window),
            Constraint::AllOf | Constraint::AnyOf | Constraint::NotHeld => {
                combined_violation_at(inputs, place)
            }
        }
    }

    /// What it is as numbers, by which it is told from the others.
    pub fn fields(&self) -> Fields<'_>
        ensures numbers { result.numbers ≡ constraint_numbers self.now }
        ensures first { result.first.now ≡ first_kept self.now }
        ensures second { result.second.now ≡ second_kept self.now }
    {
        match self {
            Constraint::Eq => Fields::plain(0),
            Constraint::Ne => Fields::plain(1),
            Constraint::Le => Fields::plain(2),
            Constraint::Lt => Fields::plain(3),
            Constraint::AllDifferent => Fields::plain(4),
            Constraint::AtMost { low, bounds } => Fields::kept([5, *low, 0, 0], bounds.as_slice()),
            Constraint::AtLeast { low, bounds } => Fields::kept([6, *low, 0, 0], bounds.as_slice()),
            Constraint::Exactly { low, bounds } => Fields::kept([7, *low, 0, 0], bounds.as_slice()),
            Constraint::Knapsack { weights, capacity } => {
                Fields::kept([8, *capacity, 0, 0], weights.as_slice())
            }
            Constraint::MultiKnapsack {
                sizes,
                low,
                capacities,
            } => Fields {
                second: capacities.as_slice(),
                ..Fields::kept([9, *low, 0, 0], sizes.as_slice())
            },
            Constraint::Sequence {
                values,
                most,
                window,
            } => Fields::kept([10, *most, *window, 0], values.as_slice()),
            Constraint::AllOf => Fields::plain(11),
            Constraint::AnyOf => Fields::plain(12),
            Constraint::NotHeld => Fields::plain(13),
        }
    }
}
