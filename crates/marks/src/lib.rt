//! What marks are: the rules they obey, the words that hold them, and how many instances there are to mark.
#![tactic(auto)]

mod count;
pub mod marks;

pub use count::instances;
