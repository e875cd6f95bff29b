//! Trees that are the same without their pointers are judged alike.
//!
//! It has no code: its law is what the layers above use, where a text's tree is any that spells its tokens.
#![tactic(auto)]

pub mod laws;
