//! The radix tree of a list of routes as a textbook draws it, and how the best route of an address is found in it.
#![tactic(auto)]

mod drawing;
mod graph;
pub mod laws;
mod lines;
mod masks;
mod pair;
mod sizes;
mod splitting;
mod steps;
mod svg;

pub use drawing::put_tree;
pub use graph::put_graph;
pub use pair::Pair;
pub use steps::put_find;
pub use svg::put_svg;
