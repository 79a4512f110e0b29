//! Memory, and how often more of it was refused. What wants memory above asks here.
#![tactic(auto)]

mod memory;
mod number;
mod numbers;

pub use memory::{MOST_ASKED, Memory, give_back};
pub use number::Number;
pub use numbers::Numbers;
