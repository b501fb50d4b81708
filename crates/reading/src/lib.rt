//! Reading a sheet: its layout as a grammar of fields, and the readers of its records and parts.
#![tactic(auto)]

pub mod fault;
pub mod load;
pub mod parts;
pub mod reader;
pub mod records;
