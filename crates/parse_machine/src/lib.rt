//! The machine that reads a list of tokens by the grammar's table.
//!
//! One loop with a stack of what is still to come: the next token is read where it is wanted, a part is
//! replaced by the form that the next token picks from the table, else reading stops. The table is the
//! grammar, with one row a form: `table::rows` promises that, by computation. The machine knows nothing of
//! trees, of types, or of what a program means. The layer above uses that `list` writes down the one
//! derivation of all the tokens, or gives their exact refusal, and undoes the listing from its end, as
//! `specs/Undoing` has it, while it makes the tree.
#![tactic(auto)]

mod choice;
mod event;
mod first;
mod form;
mod frame;
mod grammar;
mod item;
mod machine;
mod notation;
mod stack;
mod table;

pub use event::Event;
pub use form::{DeclarationForm, ExpressionForm, Form, ProgramForm, StatementForm};
pub use machine::list;
