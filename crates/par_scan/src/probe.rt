//! What scores candidates.
ghost use Rattle.std.specs.Prelude.{◌≡◌, ◌≤◌, ◌^◌, ℕ, IfOk};
ghost use Rattle.ls_select.specs.Candidates.{Candidate, score};

use cbl_base::NoMemory;
use ls_select::Scored;

/// What scores the candidates of a selector, which are numbered from 0. Workers share it, and no call changes what it
/// says of them.
///
/// Its meaning is `candidate`: what scoring the candidate with a number costs, how it ends, and where less fuel is
/// spent.
pub trait Probe {
    ghost candidate: { Self → ℕ → Candidate };

    /// Scores a candidate with so much fuel.
    fn key(&self, index: u64, fuel: u64) -> Result<Scored, NoMemory>
        requires { fuel ≤ 2 ^ 62 }
        ensures { IfOk result (λ scored. scored ≡ score (candidate self.now index) fuel) };
}
