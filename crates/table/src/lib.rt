//! Tables of SDL processes: their plain records, the questions by which every table is read, and what makes one good.
#![tactic(auto)]

pub mod expression;
pub mod judgement;
pub mod limits;
pub mod questions;
pub mod record;
pub mod site;
