//! What scoring one candidate gave.
use cbl_base::{Place, RunFault};

/// Why a scan stopped at a candidate: the fuel was spent at a place, or there was a fault.
#[derive(Clone, Copy, PartialEq, Eq, Debug)]
pub enum Stop {
    Spent(Place),
    Fault(Place, RunFault),
}

/// How the scoring of a candidate ended: it doesn't meet the condition, it is kept with its key, or it stops the scan.
#[derive(Clone, Copy, PartialEq, Eq, Debug)]
pub enum End {
    Skipped,
    Kept(i64),
    Stopped(Stop),
}

/// A candidate that was scored: the fuel that it cost, and how that ended.
#[derive(Clone, Copy, PartialEq, Eq, Debug)]
pub struct Scored {
    pub cost: u64,
    pub end: End,
}
