//! Tables kept so that they are read fast: a copy in memory, and indexes of the edges by the location they leave and the signal they take.
#![tactic(auto)]

mod copying;
pub mod index;
mod inputs;
mod keeping;
pub mod kept;
pub mod leaving;
mod links;
pub mod load;
pub mod loaded;
mod plain;
pub mod scanned;
