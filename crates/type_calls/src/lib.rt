//! Calls of functions and methods: what their arguments must be, what they give, and what they do.
//!
//! It knows checked arguments and no tree. The layers above use that a call is judged as its row or its
//! function's signature says, and that what it does is noted where it may be done.
#![tactic(auto)]

mod arguments;
mod builtins;
mod doing;
mod functions;
mod methods;
mod roots;

pub use arguments::{all_numbers, any_moving, arguments_fault, made, note_of};
pub use builtins::{builtin_called, unknown};
pub use doing::{act_on, no_root};
pub use functions::called;
pub use methods::{first_context, method_called};
pub use roots::{is_name, push_roots, roots_of};
