//! Running a table: its state, its start and its steps.
#![tactic(auto)]

mod conditions;
mod edges;
pub mod fault;
mod local;
mod moving;
mod offer;
mod questions;
mod standing;
pub mod start;
pub mod state;
pub mod step;
mod tick;
mod waiting;
mod world;
