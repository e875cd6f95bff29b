//! The law of a user's constraint.
ghost use Rattle.std.specs.Prelude.{◌≡◌, ℕ, ℤ, pos, ◌<◌, List, length, slice_set, OnOk, IfOk};
ghost use Rattle.user_constraint.specs.Moves.{AreMoves, after_moves};
ghost use Rattle.user_constraint.specs.UserRule.{UserRule};

use cbl_base::NoMemory;

/// A constraint that a user of the library writes: it holds a list of numbers, and tells how much they
/// violate it, in whole and at each place, by its rule. Places count from 0.
pub trait UserConstraint: Send + Sync + Drop {
    /// The violations of a list of numbers, and those at a place, all at most 2^40. No call changes it.
    ghost user_rule: { Self → UserRule };

    /// The bytes of its name. No call changes them.
    ghost user_name: { Self → List ℕ };

    /// It was reset, and found memory ever since.
    ghost usable: { Self → Type 0 };

    /// The numbers that it holds.
    ghost held: { Self → List ℤ };

    /// Its name, by which a program posts it.
    fn name(&self) -> &str
        ensures { result.now ≡ user_name self.now };

    /// Takes these numbers in place of all that it holds. After `NoMemory` it is used no more.
    fn reset(&mut self, values: &[i64]) -> Result<(), NoMemory>
        ensures usable { OnOk result (usable self.new) }
        ensures held { OnOk result (held self.new ≡ values.now) }
        ensures rule { user_rule self.new ≡ user_rule self.old }
        ensures name { user_name self.new ≡ user_name self.old };

    /// Makes the number at a place, below the length, another. After `NoMemory` it is used no more.
    fn assign(&mut self, place: usize, value: i64) -> Result<(), NoMemory>
        requires usable { usable self.old }
        requires within { place < length (held self.old) }
        ensures usable { OnOk result (usable self.new) }
        ensures held { OnOk result (held self.new ≡ slice_set (held self.old) place value) }
        ensures rule { user_rule self.new ≡ user_rule self.old }
        ensures name { user_name self.new ≡ user_name self.old };

    /// The violations of the numbers that it holds.
    fn violations(&self) -> i64
        requires { usable self.now }
        ensures { result ≡ pos ((user_rule self.now).viol_of (held self.now)) };

    /// The violations of the numbers as these moves would make them, each a place below the length and
    /// its new number, and no two at one place. It changes nothing.
    fn probe(&self, moves: &[(usize, i64)]) -> Result<i64, NoMemory>
        requires usable { usable self.now }
        requires moves { AreMoves (length (held self.now)) moves.now }
        ensures { IfOk result (λ violations.
            violations ≡ pos ((user_rule self.now).viol_of
            (after_moves (held self.now) moves.now))) };

    /// The violations at a place, below the length, of the numbers that it holds.
    fn place_violation(&self, place: usize) -> i64
        requires usable { usable self.now }
        requires within { place < length (held self.now) }
        ensures { result ≡ pos ((user_rule self.now).viol_at (held self.now) place) };
}

/// A call goes to the constraint in the box.
impl UserConstraint for Box<dyn UserConstraint> {
    ghost user_rule = { λ b. (UserConstraint-box b).user_rule b.value };

    ghost user_name = { λ b. (UserConstraint-box b).user_name b.value };

    ghost usable = { λ b. (UserConstraint-box b).usable b.value };

    ghost held = { λ b. (UserConstraint-box b).held b.value };

    fn name(&self) -> &str {
        (**self).name()
    }

    fn reset(&mut self, values: &[i64]) -> Result<(), NoMemory> {
        (**self).reset(values)
    }

    fn assign(&mut self, place: usize, value: i64) -> Result<(), NoMemory> {
        (**self).assign(place, value)
    }

    fn violations(&self) -> i64 {
        (**self).violations()
    }

    fn probe(&self, moves: &[(usize, i64)]) -> Result<i64, NoMemory> {
        (**self).probe(moves)
    }

    fn place_violation(&self, place: usize) -> i64 {
        (**self).place_violation(place)
    }
}
