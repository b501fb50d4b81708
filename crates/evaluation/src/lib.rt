//! The value of an expression, and whether a guard is true.
#![tactic(auto)]

mod value;

pub use value::{evaluate, is_true};
