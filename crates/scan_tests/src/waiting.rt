//! A scan whose first candidate waits for its last.
ghost use Rattle.std.specs.Prelude.{None};
ghost use Rattle.scan_tests.specs.Planned.{candidate_of};

use crate::planned::scored;
use cbl_base::NoMemory;
use ls_select::{Scored, Want};
use par_scan::{Probe, scan};
use std::sync::atomic::{AtomicBool, Ordering};
use std::test::*;
use std::thread;

const MOST_TURNS: u32 = 100_000_000;

const LAST: u64 = 9;

// Scoring candidate 0 waits until the last one is scored, for so many turns at most, and says whether that limit was
// met. All candidates are skipped.
#[derive(Drop)]
struct Waiting {
    last_was_scored: AtomicBool,
    met_limit: AtomicBool,
}

impl Probe for Waiting {
    ghost candidate = { λ waiting k. candidate_of None };

    fn key(&self, index: u64, fuel: u64) -> Result<Scored, NoMemory> {
        if index == LAST {
            self.last_was_scored.store(true, Ordering::SeqCst);
        }
        if index == 0 && !self.sees_last() {
            self.met_limit.store(true, Ordering::SeqCst);
        }
        Ok(scored(None, fuel))
    }
}

impl Waiting {
    fn sees_last(&self) -> bool {
        for _turn in 0..MOST_TURNS {
            if self.last_was_scored.load(Ordering::SeqCst) {
                return true;
            }
            thread::yield_now();
        }
        false
    }
}

#[test]
fn two_workers_scan_beside_each_other(rt: HostRuntime) -> Result<(), Fail> {
    let probe = Waiting {
        last_was_scored: AtomicBool::new(false),
        met_limit: AtomicBool::new(false),
    };
    let part = scan(&rt, rt.alloc(), &probe, LAST + 1, Want::Any, 2, 1000)?;
    assert_eq!(rt; part.count, LAST + 1);
    assert!(rt; !probe.met_limit.load(Ordering::SeqCst));
    Ok(())
}
