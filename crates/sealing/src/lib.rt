//! A sheet closed: the sheet of the closed table, and a summary for people.
#![tactic(auto)]

pub mod seal;
mod summary;
#[cfg(test)]
mod tests;
