//! What is refused, and why, in one sentence for people.
#![tactic(auto)]

mod bits;
mod expression;
mod field;
pub mod finding;
pub mod flaw;
mod general;
mod reason;
pub mod sentence;
mod spot;
#[cfg(test)]
mod tests;
mod wording;
