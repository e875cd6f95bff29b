//! The steps of a run that evaluate nothing: open generators, plain parts and short calls, and what forms do with the
//! values of their parts.
//!
//! It knows nothing of how expressions are evaluated or statements executed. The layers above use that each function
//! does what the meaning of programs says, and the views of functions and flows.
#![tactic(auto)]

pub mod code;
pub mod inside;
pub mod leaves;
pub mod objects_of_runs;
pub mod operands;
pub mod plain;
pub mod short_calls;
pub mod solvers_of_runs;
pub mod state_of_runs;
pub mod tuples;
