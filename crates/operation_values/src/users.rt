//! The constraints of users, as what gives their values.
ghost use Rattle.std.specs.Prelude.{◌≡◌, ◌<◌, ℕ, ℤ, List, IfOk, length};

use cbl_base::NoMemory;

/// What computes the users' constraints, named by their numbers from 0 in order of posting.
pub trait UserValues {
    /// The violations of a constraint over the numbers of its list.
    ghost viol_of: { Self → ℕ → List ℤ → ℤ };

    /// The violation of a constraint at a place of its list, counted from 0.
    ghost viol_at: { Self → ℕ → List ℤ → ℕ → ℤ };

    /// The violations of the constraint over these numbers.
    fn value(&self, user: u32, list: &[i64]) -> Result<i64, NoMemory>
        ensures { IfOk result (λ v. v ≡ viol_of self.now user list.now) };

    /// The violation of the constraint at a place of these numbers, counted from 0.
    fn violation_at(&self, user: u32, list: &[i64], place: usize) -> Result<i64, NoMemory>
        requires { place < length list.now }
        ensures { IfOk result (λ v. v ≡ viol_at self.now user list.now place) };
}

/// No constraints of users.
#[derive(Clone, Copy, Debug)]
pub struct NoUsers;

impl UserValues for NoUsers {
    ghost use Rattle.std.specs.Prelude.{pos};

    ghost viol_of = { λ _ _ _. pos 0 };

    ghost viol_at = { λ _ _ _ _. pos 0 };

    fn value(&self, _user: u32, _list: &[i64]) -> Result<i64, NoMemory> {
        Ok(0)
    }

    fn violation_at(&self, _user: u32, _list: &[i64], _place: usize) -> Result<i64, NoMemory> {
        Ok(0)
    }
}
