//! What declarations are, the making of objects among them: the expressions in them, and then their own rule.
//!
//! It knows no other statement. The layers above use that a declaration is judged as the definition says, form by
//! form.
#![tactic(auto)]

pub mod declarations;
pub mod objects;
pub mod parts;

pub use declarations::{check_declaration, declaration_place};
pub use objects::{
    Handing, check_handed, kept_solvers, ls_fault, making_fault, making_roots, object_doing,
};
pub use parts::{check_start, rule, wrong_unless};
