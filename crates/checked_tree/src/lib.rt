//! The checked tree of a program: each use of a name is a place of its cell, each call and method is
//! resolved, and each expression says what it is.
//!
//! It knows nothing of how a tree is checked. The layers above use that a checked tree is seen without its
//! pointers.
#![tactic(auto)]

pub mod expressions;
pub mod kind;
pub mod statements;
pub mod stop;

pub use expressions::{Builtin, Form, Generator, Link, Method, Slot, Typed};
pub use kind::Kind;
pub use statements::{
    Act, Action, Checked, Choice, Counter, Dimension, EventSlots, Function, Head, Later, Printed,
    Start, Task, Variable, Way,
};
pub use stop::{Cause, Stop};
