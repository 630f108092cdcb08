// Maps: spaces and links, their sources, and what every layer asks of them.
#![tactic(auto)]

pub mod centre;
pub mod chains;
pub mod checks;
pub mod drawn;
pub mod hex;
pub mod marks;
pub mod memory;
pub mod pairs;
pub mod reading;
pub mod refusals;
mod repeats;
pub mod source;
