//! The part of the parser's builder that makes simple statements.
//!
//! A form of the listing is undone: the values of its symbols are taken off the stacks, and what is made of them is put
//! there. It knows nothing of the statements that simple ones stand in, nor of how a listing is read. The layer above
//! uses one function for each form or shape of forms.
#![tactic(auto)]

mod items;
mod simples;
mod targets;

pub use items::{undo_end_line, undo_item, undo_more_items, undo_no_items, undo_string};
pub use simples::{
    undo_call, undo_first_name, undo_named, undo_named_rest, undo_new, undo_no_write, undo_print,
    undo_set, undo_set_value, undo_step, undo_swap, undo_unnamed, undo_write,
};
