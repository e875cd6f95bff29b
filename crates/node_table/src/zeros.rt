//! A user's constraint: no number is to be 0.
ghost use Rattle.std.specs.Prelude.{◌≡◌, ◌<◌, ◌≤◌, ◌^◌, pos, List, length, min, IfOk, OnOk, [], ◌∷◌};
ghost use Rattle.user_constraint.specs.Moves.{AreMoves, after_moves};
ghost use Rattle.node_table.specs.Zeros.{zeros, zeros_at};

use cbl_base::NoMemory;
use std::alloc::Global;
use user_constraint::{LocalConstraint, UserConstraint};

/// The numbers, of which none is to be 0.
#[derive(Drop)]
pub(crate) struct NoZeros {
    list: Vec<i64>,
    alloc: Global,
}

impl NoZeros {
    /// The constraint over no numbers.
    pub(crate) fn new(alloc: Global) -> NoZeros {
        NoZeros {
            list: Vec::new(alloc),
            alloc,
        }
    }
}

impl UserConstraint for NoZeros {
    ghost use Rattle.std.specs.Prelude.{codes};
    ghost use Rattle.node_table.specs.Zeros.{no_zeros};

    ghost user_rule = { λ _. no_zeros };

    ghost user_name = { λ _. codes "nozeros" };

    ghost usable = { λ _. Unit {0} };

    ghost held = { λ s. s.list.items };

    fn name(&self) -> &str {
        "nozeros"
    }

    fn reset(&mut self, values: &[i64]) -> Result<(), NoMemory> {
        self.list.clear();
        self.list.extend_from_slice(values)?;
        Ok(())
    }

    fn assign(&mut self, place: usize, value: i64) -> Result<(), NoMemory> {
        self.list[place] = value;
        Ok(())
    }

    fn violations(&self) -> i64 {
        zeros_in(self.list.as_slice())
    }

    fn probe(&self, moves: &[(usize, i64)]) -> Result<i64, NoMemory> {
        let mut list = Vec::from_slice(self.alloc, self.list.as_slice())?;
        make_moves(&mut list, moves);
        Ok(zeros_in(list.as_slice()))
    }

    fn place_violation(&self, place: usize) -> i64 {
        zeros_in(&[self.list[place]])
    }
}

/// As it is, without a box, it says the same.
impl LocalConstraint for NoZeros {
    ghost use Rattle.std.specs.Prelude.{codes};
    ghost use Rattle.node_table.specs.Zeros.{no_zeros};

    ghost user_rule = { λ _. no_zeros };

    ghost user_name = { λ _. codes "nozeros" };

    ghost usable = { λ _. Unit {0} };

    ghost held = { λ s. s.list.items };

    fn name(&self) -> &str {
        UserConstraint::name(self)
    }

    fn reset(&mut self, values: &[i64]) -> Result<(), NoMemory> {
        UserConstraint::reset(self, values)
    }

    fn assign(&mut self, place: usize, value: i64) -> Result<(), NoMemory> {
        UserConstraint::assign(self, place, value)
    }

    fn violations(&self) -> i64 {
        UserConstraint::violations(self)
    }

    fn probe(&self, moves: &[(usize, i64)]) -> Result<i64, NoMemory> {
        UserConstraint::probe(self, moves)
    }

    fn place_violation(&self, place: usize) -> i64 {
        UserConstraint::place_violation(self, place)
    }
}

/// How many of the numbers are 0.
fn zeros_in(numbers: &[i64]) -> i64
    ensures { result ≡ pos (zeros numbers.now) }
{
    let count = numbers.iter().filter(|x| **x == 0).count();
    count.min(1 << 40) as i64
}

/// Makes the number at the place of each move its new one.
fn make_moves(list: &mut Vec<i64>, moves: &[(usize, i64)])
    requires { AreMoves (length list.old.items) moves.now }
    ensures { list.new.items ≡ after_moves list.old.items moves.now }
{
    for change in moves {
        list[change.0] = change.1;
    }
}
