//! The part of the parser's builder that makes statements.
//!
//! A form of the listing is undone: the values of its symbols are taken off the stacks, and what is made of them is put
//! there. It knows nothing of how a listing is read or in which order its forms are undone. The layer above uses
//! `undo_statement`, and the law that what is made is written as the form (`statement_forms_fit`).
#![tactic(auto)]

mod empty;
mod heads;
mod laws;
mod nodes;
mod statements;
mod undoing;

pub use laws::statement_forms_fit;
pub use undoing::undo_statement;
