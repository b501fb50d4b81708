//! A table that is built up and altered call by call.
#![tactic(auto)]

pub mod book;
mod edits;
pub mod fault;
mod kept;
pub mod laws;
pub mod view;
