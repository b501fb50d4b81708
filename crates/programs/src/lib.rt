//! What `closer`, `marklist` and `resheet` do, over any streams and files.
#![tactic(auto)]

pub mod closer;
pub mod marklist;
mod refusing;
pub mod resheet;
