//! The rules of running and closing a table: states and steps, the closed table, and how their runs match.
#![tactic(auto)]

pub mod laws;
pub mod step;
