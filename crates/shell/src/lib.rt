//! What every program has in common: its words, the sheet that it reads, the file that it writes, what it says where that fails, and
//! how it ends.
#![tactic(auto)]

pub mod input;
pub mod output;
pub mod status;
pub mod trouble;
pub mod words;
