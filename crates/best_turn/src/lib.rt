//! A turn: threads call one shared state, one at a time, and the history of all their calls is kept.
//!
//! It knows nothing of what the state is or what it answers: that is `S: Replays`, which says which
//! requests it takes, the state after each, and its reply. The layers above use that the history is
//! legal, which is that each reply is the state's at its place; that a call's entry ends the history
//! through it; and that at the close each seat's entries are those that it made, in order, and the state
//! is what the history leaves. A call may wait for the turn. Nothing is said of who comes first.
#![tactic(auto)]

mod book;
mod calls;
mod replays;
mod turn;
mod view;

pub use replays::{Entry, Front, Replays};
pub use turn::{Seat, Turn};
pub use view::View;
