#![tactic(auto)]

pub mod owner;
pub mod refusal;
pub mod score;
pub mod sheet;
pub mod theorems;
pub mod writing;
