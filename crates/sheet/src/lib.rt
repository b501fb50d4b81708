//! A table packed into bytes: opened where it lies, and read there record by record.
#![tactic(auto)]

pub mod example;
pub mod names;
pub mod opening;
pub mod view;
