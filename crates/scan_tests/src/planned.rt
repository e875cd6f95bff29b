//! Candidates as a list plans them.
ghost use Rattle.std.specs.Prelude.{◌≡◌, ◌≤◌, ◌^◌, slice_get};
ghost use Rattle.ls_select.specs.Candidates.{end_of, score};
ghost use Rattle.scan_tests.specs.Planned.{candidate_of, ending_of};

use cbl_base::{NoMemory, Place, RunFault};
use ls_select::{End, Scored, Stop};
use par_scan::Probe;

const HERE: Place = Place { line: 1, col: 1 };

/// A candidate that is skipped, or is kept with a key, or meets a fault.
pub(crate) type Plan = Result<Option<i64>, RunFault>;

/// Candidates that cost one unit each. Behind those of the list all are skipped.
#[derive(Drop)]
pub(crate) struct Planned {
    pub(crate) plans: Vec<Plan>,
}

impl Probe for Planned {
    ghost candidate = { λ planned k. candidate_of (slice_get planned.plans.items k) };

    fn key(&self, index: u64, fuel: u64) -> Result<Scored, NoMemory> {
        Ok(scored(self.plans.get(index as usize).copied(), fuel))
    }
}

/// A candidate with this plan, scored with so much fuel.
pub(crate) fn scored(plan: Option<Plan>, fuel: u64) -> Scored
    requires { fuel ≤ 2 ^ 62 }
    ensures { result ≡ score (candidate_of plan) fuel }
{
    if fuel < 1 {
        return Scored {
            cost: fuel + 1,
            end: End::Stopped(Stop::Spent(HERE)),
        };
    }
    Scored {
        cost: 1,
        end: end_of(plan),
    }
}

// How a candidate with this plan ends where there is fuel.
fn end_of(plan: Option<Plan>) -> End
    ensures { result ≡ end_of (ending_of plan) }
{
    match plan {
        None | Some(Ok(None)) => End::Skipped,
        Some(Ok(Some(key))) => End::Kept(key),
        Some(Err(fault)) => End::Stopped(Stop::Fault(HERE, fault)),
    }
}
