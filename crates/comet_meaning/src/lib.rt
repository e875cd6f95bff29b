//! What a checked program does: the state of a run, the values, and the meaning of every expression and
//! statement that runs by now, with every charge of fuel, every fault and its place, and the printed bytes.
//!
//! It has no code. It knows nothing of how a run is carried out: names are looked up in plain lists, a
//! variable is evaluated afresh whenever it is read, and a part of a program is given its meaning level by
//! level, one level for each statement or expression that is being executed inside another. The layers above
//! use that a run does what `run` of `specs/Program.antt` says.
#![tactic(auto)]

pub mod laws;
