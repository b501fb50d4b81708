//! What closing has to know of a table, read off its edges once: of each location, and of each process.
#![tactic(auto)]

pub mod edges;
pub mod marked;
pub mod spots;
