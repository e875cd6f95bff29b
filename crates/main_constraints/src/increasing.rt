//! No number is to be below the one before it.
ghost use Rattle.std.specs.Prelude.{◌≡◌, ◌^◌, ◌<◌, pos, IfOk, OnOk, length, codes};
ghost use Rattle.user_constraint.specs.Moves.{AreMoves, after_moves};
ghost use Rattle.main_constraints.specs.Increasing.{increasing, fall, falls};

use crate::moves::make_moves;
use crate::whole::capped;
use cbl_base::NoMemory;
use std::alloc::Global;
use user_constraint::UserConstraint;

/// The constraint `increasing`: no number is to be below the one before it. It keeps its violations beside
/// its numbers, and each change costs a sum over them all.
#[derive(Drop)]
pub struct Increasing {
    list: Vec<i64>,
    violations: i64,
    alloc: Global,
}

impl Increasing {
    /// The constraint over no numbers.
    pub fn new(alloc: Global) -> Increasing
        ensures rule { ⟦<Increasing as UserConstraint>⟧.user_rule result ≡ increasing }
        ensures name { ⟦<Increasing as UserConstraint>⟧.user_name result ≡ codes "increasing" }
    {
        Increasing {
            list: Vec::new(alloc),
            violations: 0,
            alloc,
        }
    }
}

impl UserConstraint for Increasing {
    ghost use Rattle.std.specs.Prelude.{◌≡◌, pos, codes};
    ghost use Rattle.main_constraints.specs.Increasing.{increasing};

    ghost user_rule = { λ _. increasing };

    ghost user_name = { λ _. codes "increasing" };

    ghost usable = { λ s. s.violations ≡ pos (increasing.viol_of s.list.items) };

    ghost held = { λ s. s.list.items };

    fn name(&self) -> &str {
        "increasing"
    }

    fn reset(&mut self, values: &[i64]) -> Result<(), NoMemory> {
        self.violations = violations_of(values);
        self.list.clear();
        self.list.extend_from_slice(values)?;
        Ok(())
    }

    fn assign(&mut self, place: usize, value: i64) -> Result<(), NoMemory> {
        self.list[place] = value;
        self.violations = violations_of(self.list.as_slice());
        Ok(())
    }

    fn violations(&self) -> i64 {
        self.violations
    }

    fn probe(&self, moves: &[(usize, i64)]) -> Result<i64, NoMemory> {
        let mut list = Vec::from_slice(self.alloc, self.list.as_slice())?;
        make_moves(&mut list, moves);
        Ok(violations_of(list.as_slice()))
    }

    fn place_violation(&self, _place: usize) -> i64 {
        self.violations
    }
}

/// The violations of the numbers.
fn violations_of(numbers: &[i64]) -> i64
    ensures { result ≡ pos (increasing.viol_of numbers.now) }
{
    let mut sum: u128 = 0;
    for place in 1..numbers.len() {
        sum += u128::from(fall(numbers[place - 1], numbers[place]));
    }
    capped(sum)
}

/// How far the second number is below the first, 0 where it isn't.
fn fall(first: i64, second: i64) -> u64
    ensures { result ≡ fall first second }
{
    if second < first {
        first.abs_diff(second)
    } else {
        0
    }
}
