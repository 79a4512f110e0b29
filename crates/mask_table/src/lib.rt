//! Masks by their lengths: the rank of a route, which addresses agree with it, and how many routes are of a rank.
#![tactic(auto)]

mod counts;
pub mod laws;
mod prefix;
mod rank;
mod ranks;

pub use counts::Counts;
pub use prefix::Prefix;
pub use rank::{Rank, agrees, masked};
pub use ranks::Ranks;
