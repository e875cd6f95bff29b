//! All numbers are to be equal.
ghost use Rattle.std.specs.Prelude.{◌≡◌, pos, IfOk, OnOk, length, codes};
ghost use Rattle.user_constraint.specs.Moves.{AreMoves, after_moves};
ghost use Rattle.main_constraints.specs.AllEqual.{all_equal, most_equal};

use crate::moves::make_moves;
use crate::whole::capped;
use cbl_base::NoMemory;
use node_base::Tally;
use std::alloc::Global;
use user_constraint::UserConstraint;

/// The constraint `allequal`: all numbers are to be equal. It keeps its violations beside its numbers,
/// and each change costs a count of them all.
#[derive(Drop)]
pub struct AllEqual {
    list: Vec<i64>,
    violations: i64,
    alloc: Global,
}

impl AllEqual {
    /// The constraint over no numbers.
    pub fn new(alloc: Global) -> AllEqual
        ensures rule { ⟦<AllEqual as UserConstraint>⟧.user_rule result ≡ all_equal }
        ensures name { ⟦<AllEqual as UserConstraint>⟧.user_name result ≡ codes "allequal" }
    {
        AllEqual {
            list: Vec::new(alloc),
            violations: 0,
            alloc,
        }
    }
}

impl UserConstraint for AllEqual {
    ghost use Rattle.std.specs.Prelude.{◌≡◌, pos, codes};
    ghost use Rattle.main_constraints.specs.AllEqual.{all_equal};

    ghost user_rule = { λ _. all_equal };

    ghost user_name = { λ _. codes "allequal" };

    ghost usable = { λ s. s.violations ≡ pos (all_equal.viol_of s.list.items) };

    ghost held = { λ s. s.list.items };

    fn name(&self) -> &str {
        "allequal"
    }

    fn reset(&mut self, values: &[i64]) -> Result<(), NoMemory> {
        self.violations = violations_of(self.alloc, values)?;
        self.list.clear();
        self.list.extend_from_slice(values)?;
        Ok(())
    }

    fn assign(&mut self, place: usize, value: i64) -> Result<(), NoMemory> {
        self.list[place] = value;
        self.violations = violations_of(self.alloc, self.list.as_slice())?;
        Ok(())
    }

    fn violations(&self) -> i64 {
        self.violations
    }

    fn probe(&self, moves: &[(usize, i64)]) -> Result<i64, NoMemory> {
        let mut list = Vec::from_slice(self.alloc, self.list.as_slice())?;
        make_moves(&mut list, moves);
        violations_of(self.alloc, list.as_slice())
    }

    fn place_violation(&self, _place: usize) -> i64 {
        self.violations
    }
}

/// The violations of the numbers.
fn violations_of(alloc: Global, numbers: &[i64]) -> Result<i64, NoMemory>
    ensures { IfOk result (λ violations. violations ≡ pos (all_equal.viol_of numbers.now)) }
{
    let most = most_equal(alloc, numbers)?;
    Ok(capped((numbers.len() - most) as u128))
}

/// The greatest number of equal ones among the numbers, in near-linear time.
fn most_equal(alloc: Global, numbers: &[i64]) -> Result<usize, NoMemory>
    ensures { IfOk result (λ most. most ≡ most_equal numbers.now) }
{
    let mut seen = Tally::for_numbers(alloc, numbers)?;
    let mut most = 0;
    for number in numbers {
        let before = seen.push(*number)?;
        most = most.max(before + 1);
    }
    Ok(most)
}
