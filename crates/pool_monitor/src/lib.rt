//! Desks: monitors, and pools of the least solutions, asked by one history.
//!
//! A `Desk` has a board of monitors and the pools, and answers requests, one at a time or under a turn. A
//! pool keeps the solutions of the least values that were added to it, at most so many, and of equal values
//! those that were added first. A `Journal` keeps the history of each loop. It knows nothing of what the
//! lists mean, who asks, or how a journal is written. The layers above use that a desk meets its step, that
//! its replies are such that the requests can have them, and the law `k_least`. Nothing here waits.
#![tactic(auto)]

mod desk;
mod journal;
pub mod laws;
mod pool;
mod request;

pub use desk::Desk;
pub use journal::{Entries, Journal, LoopHistory};
pub use pool::{Pool, Solution};
pub use request::{DeskRequest, PoolRequest};
