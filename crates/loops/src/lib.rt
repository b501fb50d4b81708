//! The edges that closing adds, in their order: loops at waiting locations, that rearm a timer or time it out.
#![tactic(auto)]

pub mod adding;
mod edge;
pub mod row;
