//! The routing table: a Patricia tree on rooms over raw memory, which contracts see as a sorted list.
#![tactic(auto)]

mod backtracking;
mod bits;
mod chains;
mod descent;
mod entry;
mod finding;
mod given;
mod growing;
mod index;
mod inserting;
mod joining;
pub mod laws;
mod linking;
mod listing;
mod masks;
mod moving;
mod placing;
mod reading;
mod removing;
mod roles;
mod room;
mod routes;
mod routing;
mod scanning;
mod walk;
mod writing;

pub use entry::Entry;
pub use radix_nodes::Visits;
pub use room::Room;
pub use routes::Table;
pub use walk::Walk;
