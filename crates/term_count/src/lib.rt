//! How many distinct subterms terms have, one term after another, in near-linear time.
//!
//! It knows nothing of models, solvers or what terms come to. The layer above uses that the subterms of all terms
//! that were added are counted as `term_model` lists them: variables left out, equal ones once.
#![tactic(auto)]

mod code;
mod subterms;

pub use code::{node_code, number_code, set_code};
pub use subterms::Subterms;
