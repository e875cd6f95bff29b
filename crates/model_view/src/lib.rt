//! Models as they are seen where programs are given their meaning: without where their lists lie, and with the named
//! cycle as a function.
//!
//! It has no code. It knows nothing of solvers or programs. The layers above use that a term or model that is built of
//! lists has all that its real twins have, and that the cycle that `named_cycle` finds is the named one.
#![tactic(auto)]

pub mod laws;
