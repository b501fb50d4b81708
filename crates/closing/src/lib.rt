//! Closing: the test, the closing layer, which is itself a table, and the promise that it stands in for the table below.
#![tactic(auto)]

pub mod close;
mod edges;
pub mod fault;
pub mod layer;
pub mod plan;
mod planning;
pub mod test;
