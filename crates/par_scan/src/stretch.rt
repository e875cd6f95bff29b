//! The adjoining candidates that a worker scans.
ghost use Rattle.std.specs.Prelude.{◌≡◌, ◌≤◌, ◌<◌, ◌^◌, IfOk, OnOk};
ghost use Rattle.par_scan.specs.Stretches.{first_of_worker, IsScanOf};

use crate::probe::Probe;
use cbl_base::NoMemory;
use ls_select::{Part, Want};
use std::alloc::Global;

/// The number of a worker's first candidate. It scans up to that of the next worker.
pub(crate) fn first_of_worker(candidates: u64, workers: u32, worker: usize) -> u64
    requires some { 1 ≤ workers }
    requires most { worker ≤ workers }
    ensures first { result ≡ first_of_worker candidates workers worker }
    ensures most { result ≤ candidates }
{
    (worker as u128 * u128::from(candidates) / u128::from(workers)) as u64
}

/// The part of the candidates from a number on and below another, scanned in order.
pub(crate) fn scan_between<P: Probe>(
    alloc: Global,
    probe: &P,
    from: u64,
    end: u64,
    want: Want,
    fuel: u64,
) -> Result<Part, NoMemory>
    requires order { from ≤ end }
    requires many { end < 2 ^ 63 }
    requires fuel { fuel ≤ 2 ^ 62 }
    ensures { IfOk result (λ part. IsScanOf (P.candidate probe.now) want fuel from end part) }
{
    let mut part = Part::new(alloc, from);
    scan_on(probe, &mut part, from, end, want, fuel)?;
    Ok(part)
}

/// Scans the candidates from a number on and below another onto the part of those before, with the fuel that they left.
pub(crate) fn scan_on<P: Probe>(
    probe: &P,
    part: &mut Part,
    from: u64,
    end: u64,
    want: Want,
    fuel: u64,
) -> Result<(), NoMemory>
    requires begun { part.old.first ≤ from }
    requires order { from ≤ end }
    requires many { end < 2 ^ 63 }
    requires fuel { fuel ≤ 2 ^ 62 }
    requires before { IsScanOf (P.candidate probe.now) want fuel part.old.first from part.old }
    ensures { OnOk result (IsScanOf (P.candidate probe.now) want fuel part.old.first end part.new) }
{
    for number in from..end {
        if part.stop.is_some() {
            return Ok(());
        }
        let scored = probe.key(number, fuel - part.cost)?;
        part.add(want, scored)?;
    }
    Ok(())
}
