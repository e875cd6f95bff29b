//! The scan of all candidates: each worker scans a stretch of them, and the parts are merged in order.
ghost use Rattle.std.specs.Prelude.{◌≡◌, ◌≤◌, ◌<◌, ◌+◌, ◌^◌, ℕ, map, vec_len, IfOk};
ghost use Rattle.std.specs.List.{range_with_len};
ghost use Rattle.ls_select.specs.Parts.{part_under};
ghost use Rattle.par_scan.specs.Stretches.{first_of_worker, AreScans, IsScanOf};

use crate::probe::Probe;
use crate::stretch::{first_of_worker, scan_between, scan_on};
use cbl_base::NoMemory;
use ls_select::{Merged, Part, Want};
use std::alloc::Global;
use std::thread;
use std::thread::Threads;

/// The part of so many candidates, scanned in order under a fuel. Each worker scans adjoining ones under the whole fuel,
/// beside the others. Where a part can't be merged with those before it, its candidates are scanned again, with the
/// fuel that these left. A worker gets a thread of its own where one can be made.
pub fn scan<P: Probe + Sync, R: Threads + Sync>(
    rt: &R,
    alloc: Global,
    probe: &P,
    candidates: u64,
    want: Want,
    workers: u32,
    fuel: u64,
) -> Result<Part, NoMemory>
    requires many { candidates < 2 ^ 63 }
    requires workers { (1 ≤ workers) × (workers ≤ 64) }
    requires fuel { fuel ≤ 2 ^ 62 }
    ensures { IfOk result (λ part.
        part ≡ part_under want 0 fuel (map (P.candidate probe.now) (range_with_len 0 candidates))) }
{
    let scan_stretch = |worker: usize| -> Result<Part, NoMemory>
        requires { (candidates < 2 ^ 63) × (fuel ≤ 2 ^ 62) × (worker < workers) }
        ensures { IfOk result (λ part. IsScanOf (P.candidate probe.entry.now) want fuel
            (first_of_worker candidates workers worker)
            (first_of_worker candidates workers (worker + 1)) part) }
    {
        let from = first_of_worker(candidates, workers, worker);
        let end = first_of_worker(candidates, workers, worker + 1);
        scan_between(alloc, probe, from, end, want, fuel)
    };
    let parts = thread::map_indices(rt, alloc, workers as usize, &scan_stretch)?;
    merge_all(alloc, probe, parts, candidates, want, workers, fuel)
}

/// The part of all candidates, of the parts of all workers.
fn merge_all<P: Probe>(
    alloc: Global,
    probe: &P,
    parts: Vec<Result<Part, NoMemory>>,
    candidates: u64,
    want: Want,
    workers: u32,
    fuel: u64,
) -> Result<Part, NoMemory>
    requires parts { AreScans (P.candidate probe.now) want fuel candidates workers 0 parts.items }
    requires count { vec_len parts ≡ workers }
    requires many { candidates < 2 ^ 63 }
    requires workers { (1 ≤ workers) × (workers ≤ 64) }
    requires fuel { fuel ≤ 2 ^ 62 }
    ensures { IfOk result (λ part. IsScanOf (P.candidate probe.now) want fuel 0 candidates part) }
{
    let mut whole = Part::new(alloc, 0);
    let mut next = 0;
    for part in parts {
        next += 1;
        let end = first_of_worker(candidates, workers, next);
        whole = merge_next(probe, whole, part?, end, want, fuel)?;
    }
    Ok(whole)
}

/// The part of all candidates below a number, of the part of those before the later part, and of the later part.
fn merge_next<P: Probe>(
    probe: &P,
    whole: Part,
    later: Part,
    end: u64,
    want: Want,
    fuel: u64,
) -> Result<Part, NoMemory>
    requires whole { IsScanOf (P.candidate probe.now) want fuel 0 later.first whole }
    requires later { IsScanOf (P.candidate probe.now) want fuel later.first end later }
    requires order { later.first ≤ end }
    requires many { end < 2 ^ 63 }
    requires fuel { fuel ≤ 2 ^ 62 }
    ensures { IfOk result (λ part. IsScanOf (P.candidate probe.now) want fuel 0 end part) }
{
    let from = later.first;
    match whole.merge(later, want, fuel) {
        Merged::Whole(part) => Ok(part),
        Merged::Rescan(mut part) => {
            scan_on(probe, &mut part, from, end, want, fuel)?;
            Ok(part)
        }
    }
}
