//! What is refused, by number, layer and place, and how it is written.
#![tactic(auto)]

pub mod failure;
pub mod fault;
pub mod report;
