//! Why reading stops, and what it is to read for sure.
//!
//! It knows nothing of texts, of tables, of trees, or of what a program means. In `proofs/` stands the generic
//! theorem: what is read for sure is the beginning of every derivation of the tokens, and where reading
//! stops for sure, every derivation stops. The layer above uses that theorem, and `refuse` for a token that
//! no derivation reads.
#![tactic(auto)]

mod stop;

pub use stop::{Stop, refuse};
