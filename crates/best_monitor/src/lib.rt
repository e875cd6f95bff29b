//! Monitors: the best that was reported of each, and whether it was told to stop.
//!
//! A `Board` has the monitors and answers requests, one at a time or under a turn. A `MonitorPort` is
//! where one iteration of a loop asks: a seat of a turn, or a journal that is replayed. A `Journal` is the
//! history of each loop that asked monitors alone; nothing uses it any more, since a desk has its own. This
//! crate knows nothing of what is reported, nor who asks. The layers above use that a board meets its
//! step, that a port keeps the list of requests and replies, and the law `least`. A port over a seat may
//! wait; nothing else here does.
#![tactic(auto)]

mod board;
mod journal;
pub mod laws;
mod monitor;
mod port;
mod request;
mod seat_port;

pub use board::Board;
pub use journal::{Journal, LoopHistory};
pub use monitor::{Best, Monitor};
pub use port::{MonitorPort, PortStop};
pub use request::{Reply, Request};
pub use seat_port::SeatPort;
