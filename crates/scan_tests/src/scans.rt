//! Scans by one worker and by several.
ghost use Rattle.std.specs.Prelude.{◌≤◌};

use crate::planned::{Plan, Planned};
use cbl_base::RunFault;
use ls_select::{Part, Want};
use par_scan::scan;
use std::alloc::Global;
use std::test::*;
use std::thread::Threads;

// Candidates with keys that are tied across the bounds of the workers' stretches.
static KEYS: [Plan; 10] = [
    Ok(Some(4)),
    Ok(None),
    Ok(Some(2)),
    Ok(Some(9)),
    Ok(Some(2)),
    Ok(Some(9)),
    Ok(None),
    Ok(Some(4)),
    Ok(Some(2)),
    Ok(Some(9)),
];

// Of these, candidate 3 meets the fault F2 and candidate 7 the fault F1.
static FAULTS: [Plan; 10] = [
    Ok(Some(4)),
    Ok(None),
    Ok(Some(2)),
    Err(RunFault::DivideByZero),
    Ok(Some(2)),
    Ok(Some(9)),
    Ok(None),
    Err(RunFault::Overflow),
    Ok(Some(2)),
    Ok(Some(9)),
];

fn shown(alloc: Global, part: &Part) -> Result<String, Fail> {
    let mut ties = Vec::new(alloc);
    for place in 0..part.ties.len() {
        if let Some(number) = part.ties.get(place) {
            ties.push(number)?;
        }
    }
    Ok(format!(in alloc;
        "{} from {}, cost {}, best {:?}, ties {ties:?}, {:?}",
        part.count, part.first, part.cost, part.best, part.stop
    )?)
}

// What so many workers' scan of ten candidates gives.
fn scanned<R: Threads + Sync>(
    rt: &R,
    alloc: Global,
    plans: &[Plan],
    want: Want,
    workers: u32,
    fuel: u32,
) -> Result<String, Fail>
    requires { (1 ≤ workers) × (workers ≤ 64) }
{
    let mut probe = Planned {
        plans: Vec::new(alloc),
    };
    probe.plans.extend_from_slice(plans)?;
    let part = scan(rt, alloc, &probe, 10, want, workers, u64::from(fuel))?;
    shown(alloc, &part)
}

#[test]
fn the_first_fault_decides(rt: HostRuntime) -> Result<(), Fail> {
    for workers in [1, 2, 64] {
        let text = scanned(&rt, rt.alloc(), &FAULTS, Want::Least, workers, 1000)?;
        assert_eq!(rt;
            text.as_str(),
            "4 from 0, cost 4, best Some(2), ties [2], Some((3, Fault(Place { line: 1, col: 1 }, DivideByZero)))"
        );
    }
    Ok(())
}

#[test]
fn the_fuel_is_spent_where_one_worker_spends_it(rt: HostRuntime) -> Result<(), Fail> {
    for workers in [1, 2, 64] {
        let text = scanned(&rt, rt.alloc(), &FAULTS, Want::Least, workers, 3)?;
        assert_eq!(rt;
            text.as_str(),
            "4 from 0, cost 4, best Some(2), ties [2], Some((3, Spent(Place { line: 1, col: 1 })))"
        );
        let text = scanned(&rt, rt.alloc(), &KEYS, Want::Greatest, workers, 9)?;
        assert_eq!(rt;
            text.as_str(),
            "10 from 0, cost 10, best Some(9), ties [3, 5], Some((9, Spent(Place { line: 1, col: 1 })))"
        );
    }
    Ok(())
}

/// The part of all candidates for each wish.
static TIES: [(Want, &str); 3] = [
    (
        Want::Any,
        "10 from 0, cost 10, best None, ties [0, 2, 3, 4, 5, 7, 8, 9], None",
    ),
    (
        Want::Least,
        "10 from 0, cost 10, best Some(2), ties [2, 4, 8], None",
    ),
    (
        Want::Greatest,
        "10 from 0, cost 10, best Some(9), ties [3, 5, 9], None",
    ),
];

#[test]
fn ties_are_kept_across_the_parts(rt: HostRuntime) -> Result<(), Fail> {
    for workers in [1, 2, 3, 7, 64] {
        for (want, text) in &TIES {
            let part = scanned(&rt, rt.alloc(), &KEYS, *want, workers, 10)?;
            assert_eq!(rt; part.as_str(), *text);
        }
    }
    Ok(())
}
