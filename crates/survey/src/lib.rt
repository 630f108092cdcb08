// The survey of a map: an order, a table and colours, or the spaces that make the map too dense.
#![tactic(auto)]

mod fill;
pub mod look_up;
pub mod memory;
mod peel;
pub mod refusals;
pub mod survey;
pub mod theorems;
