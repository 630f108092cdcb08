#![tactic(auto)]

mod columns;
pub mod goods;
mod guess;
pub mod kind;
pub mod number;
pub mod points;
pub mod text;
pub mod theorems;
