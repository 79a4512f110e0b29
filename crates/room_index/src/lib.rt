//! Where the room of each route is, by the route's key and rank: a table of places, each pair of which is at home in
//! two buckets of eight. So a look-up reads the tags of sixteen places, whatever the pairs are; and where a pair finds
//! no place, all are given up.
#![tactic(auto)]

mod entering;
mod entry;
mod homes;
mod index;
mod last;
mod places;
mod ranges;
mod rooms;
mod sizes;
mod tags;
mod told;

pub use entry::{Entry, Pair};
pub use index::{RoomIndex, Vacancy};
pub use rooms::Rooms;
pub use told::Index;

#[cfg(test)]
mod tests;
