// Links kept in rows of at most k cells over lent memory.
#![tactic(auto)]

mod cells;
mod lay;
pub mod link_rows;
pub mod memory;
mod search;
mod turn;
