//! Writing any table with names as a sheet.
#![tactic(auto)]

mod checks;
pub mod fault;
mod parts;
mod records;
pub mod write;
mod writer;
