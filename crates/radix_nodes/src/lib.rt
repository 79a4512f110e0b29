//! Rooms over raw memory: each holds a route's value and its links in a tree, in one block of memory of its own.
#![tactic(auto)]

mod beside;
mod blocks;
mod flags;
mod id;
mod links;
mod nodes;
mod reading;
mod room;
mod row;
mod visits;
mod writing;

pub use id::Id;
pub use links::{BitNode, Leaf, Links, MaskNode, Node};
pub use nodes::Nodes;
pub use room::Room;
pub use visits::Visits;

#[cfg(test)]
mod tests;
