//! Statements that hold no statement, and the heads of those that hold some.
//!
//! It knows no statement inside another one. The layers above use that each head is judged as the definition says.
#![tactic(auto)]

pub mod heads;

pub use heads::{
    apart, check_acted, check_choice, check_declared, check_empty, check_head, check_returned,
    check_shared, check_watched, condition_fault, declare_events, in_parall, key_fault,
    truth_fault, write_name,
};
