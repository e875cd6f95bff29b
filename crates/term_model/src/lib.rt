//! What a solver means before any solver exists: terms and models, which models may be asked, and the distinct
//! subterms of a model with their numbers.
//!
//! It knows nothing of what terms come to, of solvers or programs. The layers above use the definitions (the
//! kind, depth and variables of a term, equal terms, the numbered list of the distinct subterms, a well formed
//! and an acyclic model), that `is_usable` tells of a model that was built that it may be asked, `term_kind` of a
//! term its kind, and `same_term` of two terms whether they are equal.
#![tactic(auto)]

mod definitions;
mod equal_operations;
mod equal_terms;
mod kinds;
mod laws;
mod model;
mod naming;
mod order;
mod posting;
mod term;
mod usable;

pub use cbl_operations::{BinaryOp, Op, UnaryOp};
pub use cbl_violations::Fields;
pub use definitions::{definitions_of, dependencies_of, push_variables};
pub use equal_operations::{fields_of, name_of, same_operation};
pub use equal_terms::same_term;
pub use kinds::{kind_at, kind_within, term_kind};
pub use laws::{acyclic_law, distinct_subterms_law, equal_terms_law};
pub use model::{Definition, Member, Model, Posted, Total, VarDecl, VarKind};
pub use naming::push_users;
pub use order::order_of;
pub use posting::{Posting, Side, posting_of, term_posted, totals_by};
pub use term::Term;
pub use usable::is_usable;
