//! One route: what a table keeps of it beside its key and its rank, and how a message writes it.
#![tactic(auto)]

mod addresses;
mod blocks;
mod packed;
mod route;

pub use addresses::{addresses_of, destination_of};
pub use blocks::Blocks;
pub use packed::PackedRoute;
pub use route::{Route, clone_of};
