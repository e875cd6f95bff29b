//! What the parser's builder keeps while it makes a tree: a stack for each type of value that a part of a program has.
//!
//! It knows nothing of how a listing is read or undone. The layers above use `Stacks`, and what stands on them beside a
//! listing (`Stands`).
#![tactic(auto)]

mod boxes;
mod raising;
mod stacks;
mod tails;

pub use boxes::{beside, beside_two, box_branches, box_some, box_three, box_two};
pub use raising::{
    link, name_operand, raise, raise_name, raise_to_comparison, raise_to_conjunction,
    raise_to_range, raise_to_total, suffix,
};
pub use stacks::{Stacks, put, put_before, put_first, put_made, take, take_behind};
pub use tails::{
    Behind, Branches, Compared, DimensionRest, IntRest, NamedRest, NewValue, Pair, PairRest,
    ParameterType, UpTo, VariableRest, WriteRest,
};
